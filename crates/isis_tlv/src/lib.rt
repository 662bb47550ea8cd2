//! Parsers and writers of TLVs and of the entries of the TLVs 22, 135 and 9 (ISO/IEC 10589, 9.8 to 9.13; RFC 5305, 3 and 4).
//!
//! This crate depends only on `wire_base`. For any octets its parsers return each entry or its error; each value has one
//! encoding, which is parsed again.
#![tactic(auto)]

mod entries;
pub mod fixed;
mod prefixes;
mod reaches;
mod summaries;
mod walk;

pub use entries::{PrefixWalk, ReachWalk, SummaryWalk, TlvIter};
pub use prefixes::{PrefixEntry, push_prefix, read_prefix};
pub use reaches::{Reach, push_reach, read_reach};
pub use summaries::{lsp_id_of, push_summary, read_summary};
pub use walk::{Tlv, TlvWalk, push_tlv};
pub use wire_base::TlvFault;
