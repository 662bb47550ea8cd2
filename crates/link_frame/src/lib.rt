//! Ethernet frames and MPLS label stacks: the content of a frame, the labels of a stack, and the Ethernet header.
//!
//! This crate depends only on `wire_base`. For any octets it returns the class of the frame and the range of its content, or the
//! first broken rule.
#![tactic(auto)]

mod frame;
mod labels;

pub use frame::{Class, classify, source_of, write_eth};
pub use labels::{Label, read_stack};
