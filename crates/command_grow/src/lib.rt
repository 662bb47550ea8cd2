//! The command `grow`: a domain of a given number of routers that runs its schedule, and the counts of that run.
//!
//! It depends on `grown_domain`, `domain_replay` and `command_drive`. It promises that the status and the report are
//! those of the run, that each I/O error has its cause, and what an aborted run leaves.
#![tactic(auto)]

mod grow_command;
mod growing;

pub use grow_command::grow;
