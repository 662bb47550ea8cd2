//! What is true of the run of a replay, for any lines of its schedule. It is a run of allowed events, its ledger
//! balances at every moment, and its report matches. While topologies agree, each reachable BFR-id arrives exactly
//! once. A line `settle` with enough rounds makes the domain quiet. This crate has definitions and laws only, and no code that runs.
#![tactic(auto)]

mod paths;
mod runs;
mod settling;

pub use paths::{hops_cover_paths_of_small_domains, paths_are_up, topologies_are_small};
pub use runs::{replays_keep_promises, runs_keep_promises};
pub use settling::settle_lines_make_quiet;
