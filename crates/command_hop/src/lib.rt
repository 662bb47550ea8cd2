//! The command `hop`: the forwarding of packets by one router with configured rows.
//!
//! Its input is a text whose lines are the BitStringLength, the router's own BFR-id, rows of a forwarding table and
//! packets. The report has a line for each outcome of each packet. The crate promises that each BFR-id of a packet is
//! in exactly one of them.
#![tactic(auto)]

mod forward;
mod hop;
mod law;
mod report;
mod ways;

pub use hop::run_hop;
pub use law::packets_are_parted;
