//! What a router holds, as tables: its LSDB, its interfaces, its topology, its BIRT and its BIFTs, and what it would do with a
//! packet.
//!
//! This crate depends on `router_core` and on the crates of routes. Each value of a table comes from one public call of theirs;
//! the docstrings say which. A table has two forms: columns for people, and a JSON object for each row.
#![tactic(auto)]

mod bift;
mod birt;
mod cells;
mod columns;
mod copies;
mod database;
mod hops;
mod interfaces;
mod json;
mod packet;
mod planes;
mod reasons;
mod sets;
mod systems;
mod topology;

pub use bift::bift_tables;
pub use birt::birt_table;
pub use cells::Table;
pub use columns::show_columns;
pub use database::{Detail, database_table};
pub use interfaces::{Flight, interface_table};
pub use json::{push_string, show_json};
pub use packet::{Query, packet_table};
pub use systems::Names;
pub use topology::topology_table;
