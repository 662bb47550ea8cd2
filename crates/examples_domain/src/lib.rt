//! Worked examples of a domain: its events on small domains, the ledger of small runs, which copies are on course and
//! which are not, and a run that meets all premises under which a packet arrives exactly once. Each function computes
//! nothing; its postconditions are proved by computing the definitions.
#![tactic(auto)]

mod control_events;
mod courses;
mod ends;
mod loops;
mod members;
mod once;
mod packet_events;
mod refusals;
mod runs;
mod twins;

pub use control_events::{a_lost_pdu, a_pdu_arrives, a_pdu_comes_again, pair_sends};
pub use courses::{a_copy_on_its_course, copies_off_their_course};
pub use ends::{a_copy_is_lost, a_copy_meets_a_down_end, a_tunnel_ends};
pub use loops::views_loop_until_the_ttl_ends;
pub use members::{a_label_changes, a_sub_domain_is_left_and_joined, which_changes_are_refused};
pub use once::{premises_can_be_met, three_egresses_deliver};
pub use packet_events::{
    copies_end_in_a_tunnel, fork_sends_in_a_tunnel, fork_sends_in_two_tunnels,
    ring_sends_a_packet_on, the_ttl_of_a_packet_ends, what_has_no_owner_is_dropped,
};
pub use refusals::{what_enters_nowhere, what_is_refused, what_is_refused_first};
pub use runs::{pair_settles_in_two_rounds, refused_lines_end_a_schedule};
pub use twins::{routers_with_one_id_that_agree, routers_with_one_id_that_disagree};
