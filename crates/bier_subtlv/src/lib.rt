//! Parser and writer of BIER Info, the value of a sub-TLV 32 in an entry of TLV 135 (RFC 8401, 6.1 and 6.2).
//!
//! This crate depends on `isis_tlv`. Its contracts state the grammar in both directions, and which error is returned first.
#![tactic(auto)]

mod overlap;
mod reader;
mod writer;

pub use overlap::overlaps;
pub use reader::{Info, read_info};
pub use wire_base::InfoFault;
pub use writer::push_info;
