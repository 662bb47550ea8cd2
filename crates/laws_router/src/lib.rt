//! The control state of a router as contracts see it, and what each event preserves of its flags and its LSDB; and what stays of
//! its configuration when it is given other labels, or leaves or joins a sub-domain: its BFR-ids, the meaning of each label that
//! it has advertised, and the consistency of the domain. This crate has definitions and laws only, and no code that runs. Both
//! the model of a domain and the router itself depend on it.
#![tactic(auto)]

mod changes;
mod databases;
mod domains;
mod meanings;

pub use changes::changes_keep_members;
pub use databases::{a_database_is_kept, a_database_keeps_what_it_takes};
pub use domains::a_domain_stays_consistent;
pub use meanings::labels_keep_their_meaning;
