//! The texts of a run on small domains, and a run that meets all premises of a packet's arrival. Each function computes
//! nothing; its postconditions are proved by computing the definition.
#![tactic(auto)]

mod arrivals;
mod packets;
mod pdus;
mod refusals;

pub use arrivals::premises_hold_of_a_whole_run;
pub use packets::{packets_in_the_fork, packets_in_the_ring};
pub use pdus::{a_lost_pdu, nothing_happens, pair_sends};
pub use refusals::{lines_of_refusals, refused_lines};
