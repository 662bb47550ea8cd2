//! The command line: the command that its arguments name, with its paths, its router name and its number.
//!
//! It promises that the result is the command that the arguments spell, with each argument in its role.
#![tactic(auto)]

mod arguments;

pub use arguments::{Arguments, ScheduleKind, USAGE, parse};
