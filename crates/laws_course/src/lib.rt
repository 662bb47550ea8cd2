//! The course of copies while topologies agree: each copy of an injection for a reachable BFR-id stays on a shortest
//! path to the id's owner, and none is dropped. So the id is delivered exactly once. This crate has definitions and
//! laws only, and no code that runs.
#![tactic(auto)]

mod once;
mod steps;
mod tunnels;
mod ways;

pub use once::{reachable_ids_arrive_once, runs_carry_reachable_ids};
pub use steps::copies_stay_on_course;
pub use tunnels::{outer_ttls_cover_short_tunnels, tunnels_of_small_views_fit};
pub use ways::chosen_copies_are_sent;
