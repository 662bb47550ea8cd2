//! The program, over whatever sources and sinks it is handed (`run`), and over any file system and any writer of the report
//! (`run_arguments`). Its words name a command, and each command is a crate with a definition of what it owes.
//!
//! It promises that status and texts are the verdict on words and input, that each status has its cause, and what a stop leaves; and
//! that each file is the one at the path that the arguments have for it, and that an I/O error is returned only if its count rose.
#![tactic(auto)]

mod arguments;
mod files;
mod node;
mod schedule;
mod top;

pub use arguments::{run_arguments, run_words};
pub use command_hop::packets_are_parted;
pub use top::run;
