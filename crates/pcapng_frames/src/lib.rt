//! Capture files in the pcapng format (draft-ietf-opsawg-pcapng): parses packets from octets that arrive in chunks, and writes
//! them.
//!
//! The packets are those of all octets that were fed, however they were split, up to the first broken rule.
#![tactic(auto)]

mod block;
mod content;
pub mod examples;
mod faults;
mod interface;
mod moment;
mod order;
mod packet;
mod reader;
mod write;

pub use faults::NgFault;
pub use packet::NgRecord;
pub use reader::NgReader;
pub use write::{write_ng_head, write_ng_record};
