//! The commands that run without a domain of routers, with any source and sinks: `hop`, `headers`, `node` and `topo`.
//!
//! Each is the command of its own crate, run by the driver. Its contract states that the status and the output are
//! those of the input, that each I/O error has its cause, and what an aborted run leaves. None of them returns `Usage`
//! or `ConfRefused`.
#![tactic(auto)]

mod calls;

pub use calls::{headers, hop, node, topo};
pub use command_hop::packets_are_parted;
