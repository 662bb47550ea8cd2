//! Bit index forwarding tables (RFC 8279, 6.4 and 6.7): for each bit position the BFR-NBR to which its bit is sent, and for
//! each BFR-NBR its F-BM, the set of all positions that are sent to it.
//!
//! This crate depends on `bier_bits`. Each position leads to the router that the packet's entropy class selects, and the F-BMs of
//! two routers share no position.
#![tactic(auto)]

mod any;
mod build;
mod neighbour;
mod table;

pub use any::AnyTable;
pub use table::{Row, Table};
