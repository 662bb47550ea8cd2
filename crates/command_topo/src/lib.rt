//! The command `topo`: one topology of the LSPs of a capture.
//!
//! It reads the capture record by record and keeps the newest LSP of each LSP ID. After the last record it reports the nodes,
//! edges and BIER memberships of the topology, and the cost of the path from one router to each other.
#![tactic(auto)]

mod examples;
mod frames;
mod graphs;
mod lines;
mod query;
mod topo;

pub use examples::example_reports;
pub use query::Query;
pub use topo::run_topo;
