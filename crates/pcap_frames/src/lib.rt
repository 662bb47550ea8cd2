//! Capture files in the libpcap format: parses records from octets that arrive in chunks, and writes records.
//!
//! This crate depends only on `wire_base`. The records are those of all octets that were fed, however they were split, up to
//! the first broken rule.
#![tactic(auto)]

mod header;
mod reader;
mod record;
mod write;

pub use reader::Reader;
pub use record::CapRecord;
pub use write::{write_cap_header, write_cap_record};
