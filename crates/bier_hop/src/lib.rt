//! One hop of a packet at one router, the forwarding procedure (RFC 8279, 6.5): where each of its bit positions is sent.
//!
//! This crate depends on `bift_table`. Its contracts specify the outcomes of a hop and their order; each copy takes one step of
//! the counter.
#![tactic(auto)]

mod hop;
mod out;

pub use hop::Hop;
pub use out::{Action, Out, Why};
