//! Laws of routes in a topology. The functions compute nothing: what each ensures is proved about the definitions of
//! `wire_base`. The crates above use the underlying lemmas.
#![tactic(auto)]

mod choices;
mod distances;
mod examples;
mod outcomes;

pub use choices::{descent, firsts_are_listed, tunnels_arrive};
pub use distances::{distance_is_least, last_edges_exist, tight_steps_exist, walks_bound};
pub use examples::{
    edges_lead_one_way, equal_lengths_tie, examples_are_views, fork_needs_a_tunnel,
    line_is_not_passed, outcomes_in_order, ring_has_two_ways,
};
pub use outcomes::each_id_once;
