//! Flooding settles: neighbors have the same LSPs when no router has one left to send, and also after enough rounds, which then bring the
//! domain to rest. And what holds of a domain that is checked: each router's own LSP is what the router originates in its present
//! state, and when CSNPs have made two LSDBs the same. This crate has definitions and laws only, and no code that runs.
#![tactic(auto)]

mod csnps;
mod gentle;
mod issuers;
mod rest;
mod rounds;

pub use csnps::csnps_make_databases_same;
pub use gentle::gentle_events_keep_lsps;
pub use issuers::{events_keep_issuers, quiet_runs_agree};
pub use rest::flooding_at_rest_is_quiet;
pub use rounds::flooding_settles;
