//! The command `handshake` after its domain file was read: a domain whose interfaces come up and go down by hellos runs a schedule,
//! and its capture and report are written during the run.
//!
//! It depends on `domain_handshake` and `command_replay`. It promises that the status and both outputs are those of the schedule, that
//! each I/O error has its cause, and what an aborted run leaves.
#![tactic(auto)]

mod handshake_command;
mod laws;
mod shaking;

pub use handshake_command::shake;
pub use laws::{handshakes_keep_promises, interfaces_follow_adjacencies};
pub use shaking::Shaking;
