//! Laws of the IS-IS formats: an encoded value is parsed again, the encoding of a parsed value is the octets that it was parsed
//! from, each value has one encoding, and the checksum is unique. Each function does nothing; its contract is the law.
#![tactic(auto)]

mod checks;
mod entries;
mod examples;
mod infos;
mod pdus;

pub use checks::{checksum_law, lsp_sum_law};
pub use entries::{entries_law, prefix_law, reach_law, row_law, rows_law, tlv_law, tlvs_law};
pub use examples::{example_csnp, example_info, example_lsp};
pub use infos::{info_law, overlap_law};
pub use pdus::{csnp_law, lsp_law, pdu_law, psnp_law};
