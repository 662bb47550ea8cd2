//! The topology of a router: the nodes and edges that follow from its configuration, its interfaces that are up and its LSDB
//! (ISO/IEC 10589, 7.2.5 and 7.2.8; RFC 5305, 3 and 4; RFC 8401, 4 and 5).
//!
//! This crate depends on `lsp_store` and the codecs. It returns the topology of every LSDB, which is always a valid graph.
#![tactic(auto)]

mod changes;
mod claims;
mod edges;
mod heard;
mod keep;
mod kept_view;
mod known;
mod links;
mod node_index;
mod nodes;
mod others;
mod owners;
mod patch;
mod places;
mod rebuilt;
mod renewal;
mod same;
mod shared;

pub use keep::ViewKeep;
pub use nodes::{supports, view};
