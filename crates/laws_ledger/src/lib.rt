//! The ledger of a domain. At every moment of every run, each BFR-id that an injection names is in one copy in flight,
//! one delivery at a router that owns it, or one drop. Each `take` of a copy lowers a bound on how far the copies of
//! its injection can still go. This crate has definitions and laws only, and no code that runs.
#![tactic(auto)]

mod events;
mod runs;
mod weights;

pub use events::{an_event_balances, copies_and_deliveries_are_of_their_injection};
pub use runs::{each_egress_delivers_once, runs_are_accounted};
pub use weights::takes_lower_weights;
