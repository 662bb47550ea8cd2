//! A domain and a schedule for it, of any size from 3 to `MOST_ROUTERS` routers, to measure how an engine scales.
//!
//! It depends on `domain_conf` and `replay_text`, and promises the domain and the lines for each such number.
#![tactic(auto)]

mod domain;
mod links;
mod routers;
mod schedule;

pub use domain::{grown, grown_as_in_a_file};
pub use schedule::GrownLine;
