//! Parser and writer of IS-IS PDUs, and the checksum of LSPs (ISO/IEC 10589, 7.3.11 and 9.8 to 9.13).
//!
//! This crate depends on `isis_tlv`. For any octets its parser returns the PDU or the first broken rule; each PDU has one
//! encoding, which is parsed again.
#![tactic(auto)]

mod checksum;
mod kinds;
mod known;
mod reader;
mod writer;

pub use checksum::{checksum_at, right_sum};
pub use kinds::{LspHead, Pdu};
pub use known::KnownLsps;
pub use reader::{read_pdu, read_pdu_with};
pub use wire_base::PduFault;
pub use writer::{
    CSNP_FRONT, LSP_FRONT, MOST_LISTED_OCTETS, PSNP_FRONT, append_csnp, append_lsp, append_psnp,
    listed_octets, lsp_front, write_csnp, write_lsp, write_psnp, write_rows,
};
