//! The command `node`: one router of a domain on the records of a capture; and the domain file, which names that
//! router.
//!
//! It depends on `domain_conf`, `command_drive` and one router. It promises that a domain is the one that the file
//! contains and an error the first rule that it breaks; that the status and the output of `node` are those of the
//! router with that name on the capture; that each I/O error has its cause; and what an aborted run leaves.
#![tactic(auto)]

mod by_name;
mod domain_file;
mod node_command;
mod refusals;

pub use by_name::{node_in, place_of};
pub use domain_file::{NoDomain, domain_in};
pub use node_command::{
    RunningNode, Tally, conclude, countable, link_of, node, push_effects, push_frames, sum,
};
pub use refusals::lines_of_refused_files;
