//! A list of frames, each with a note, whose octets are stored in one buffer.
//!
//! This crate depends only on `wire_base`. Contracts see a list as its frames, and specify how each call changes them.
#![tactic(auto)]

mod list;
mod spans;

pub use list::FrameList;
