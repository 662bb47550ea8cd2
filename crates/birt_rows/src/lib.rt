//! The BIRT of a triple: for each bit position the routers to which its bit may be sent.
//!
//! This crate depends on `path_tree`. It returns for each position the BFR-NBRs toward the only owner of the position's
//! BFR-id.
#![tactic(auto)]

mod direct;
mod entries;
mod owner;
mod row_set;

pub use row_set::rows;
