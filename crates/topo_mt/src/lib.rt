//! The topologies of multi-topology IS-IS (RFC 5120) that an LSDB describes, and their shortest paths.
//!
//! This crate depends on `view_graph` and `path_tree`. A topology is the view of an observer without interfaces, of the LSDB
//! with only the TLVs of that topology.
#![tactic(auto)]

mod contents;
mod examples;
mod graph;
mod listings;
mod newest;
mod observer;
mod parts;
mod paths;
mod projected;
mod without;

pub use examples::example_topologies;
pub use graph::topology;
pub use listings::member;
pub use newest::gather;
pub use parts::{MtFault, mt_part};
pub use paths::costs;
