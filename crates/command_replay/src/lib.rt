//! The command `replay` after its domain file was read: a domain that runs a schedule, whose capture and report are
//! written during the run.
//!
//! It depends on `domain_replay` and `command_drive`. It promises that the status and both outputs are those of the
//! schedule, that each I/O error has its cause, and what an aborted run leaves.
#![tactic(auto)]

mod laws;
mod replay_command;
mod replaying;

pub use laws::schedules_are_answered;
pub use replay_command::play;
pub use replaying::{Replaying, names_in};
