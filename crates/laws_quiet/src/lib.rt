//! A quiet domain: the topologies of its routers agree, and a packet is delivered to each BFR-id that it reaches. This crate has
//! definitions and laws only, and no code that runs.
#![tactic(auto)]

mod agreement;
mod cover;
mod examples;
mod topology;

pub use agreement::quiet_topologies_agree;
pub use cover::{covered_ids_are_reachable, quiet_domains_deliver_once, quiet_runs_deliver_once};
pub use examples::ttls_cover_paths;
pub use topology::same_live_lsps_give_one_topology;
