//! IS-IS PDUs as text: the line of a PDU, and the lines of its TLVs and their entries, or the first rule that is broken.
//!
//! This crate depends only on the codecs. `isis_dump` prints the frames of a capture by it, and `show_router` the LSPs of a
//! router.
#![tactic(auto)]

mod hellos;
mod octets;
mod pdus;
mod prefixes;
mod tlvs;

pub use octets::{show_name, show_refused};
pub use pdus::{Shown, show_pdu};
pub use tlvs::show_tlvs;
