//! Shortest paths (SPF) in a topology: the costs to a router and from one, the steps that lead nearer to a router, and a search
//! along the steps that lead away from one.
//!
//! This crate depends only on `wire_base`. It returns the least costs of paths on which no router between the ends has its
//! overload bit set.
#![tactic(auto)]

mod distances;
mod forward;
mod queue;
mod search;
mod steps;
mod ways;

pub use distances::{distances_from, distances_to};
pub use forward::reach;
pub use steps::tight_steps;
