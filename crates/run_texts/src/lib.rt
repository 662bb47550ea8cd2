//! The pending output of a run, the octets of its frames and of its report; and how reports write system IDs, LSP IDs and IPv4
//! addresses.
//!
//! This crate depends only on `wire_base`, so that the crates that produce the output and those that write it do not depend on
//! each other.
#![tactic(auto)]

mod addresses;
mod digits;
mod texts;

pub use addresses::{push_lsp_id, push_prefix, push_system};
pub use texts::Texts;
