//! A router's LSDB: entries in the order of their LSP IDs, and their aging
//! (ISO/IEC 10589, 7.3.15 and 7.3.16).
//!
//! This crate depends only on `wire_base`. Contracts model a store as the list of its entries, and specify how each call
//! changes it.
#![tactic(auto)]

mod ages;
mod alike;
mod contents;
mod entries;
mod entry_list;
mod keys;
mod places;
mod seconds;
mod store;
mod topologies;

pub use contents::Contents;
pub use entries::{purge, received};
pub use keys::{is_same_id, is_system_above, system_key};
pub use places::{LspIds, insert_within, is_gap, place_of, stands_at};
pub use store::Store;
pub use wire_base::{Age, Aged, Entry, PutFault};
