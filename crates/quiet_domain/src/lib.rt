//! Whether a domain is quiet, and how far a packet's bits go in it: the first LSP in which two LSDBs differ, and the path of a
//! BFR-id.
//!
//! This crate depends on the LSDB and on the BIRT. It compares live LSPs whatever their Remaining Lifetimes are, and returns how
//! many hops the path of a BFR-id has and how many links its longest tunnel has. `Paths` keeps the BIRTs of nodes from one path to
//! the next.
#![tactic(auto)]

mod answer;
mod birt;
mod choice;
mod examples;
mod live;
mod path;
mod tunnels;
mod ways;

pub use answer::Quiet;
pub use examples::{differences_are_found, live_lsps_are_compared, paths_are_followed};
pub use live::same_live;
pub use path::Way;
pub use ways::{Paths, way};
