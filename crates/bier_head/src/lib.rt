//! Parser and writer of the BIER header (RFC 8296, 2).
//!
//! This crate depends on `bier_bits`. For any octets its parsers return the header or the first broken rule; each header has one
//! encoding, which is parsed again.
#![tactic(auto)]

mod header;
mod read;
mod write;

pub use header::{Header, HeaderFields};
pub use read::{read_by_field, read_fields, read_header, read_header_fields};
pub use wire_base::HeadFault;
pub use write::{write_copy, write_header};
