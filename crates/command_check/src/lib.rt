//! The command `check` after its domain file was read: a domain that runs a schedule and answers its questions, whether
//! the domain is quiet and which BFR-ids an injection would reach.
//!
//! It depends on `command_replay`, `domain_replay` and `command_drive`. It promises that the status and both outputs are
//! those of the schedule, that its run keeps all that is promised of runs, and that what the answers say is true of the
//! run.
#![tactic(auto)]

mod check_command;
mod checking;
mod laws;

pub use check_command::check;
pub use checking::Checking;
pub use laws::{
    checks_keep_promises, cover_answers_hold, quiet_answers_hold, settle_lines_make_checks_quiet,
};
