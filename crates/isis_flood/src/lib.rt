//! Flooding on point-to-point links: the SRM flags (LSPs to be sent) and SSN flags (LSPs to be acknowledged or requested) of
//! each link (ISO/IEC 10589, 7.3.14 to 7.3.17).
//!
//! This crate depends on `lsp_store` and `isis_pdu`. Its contracts specify the effects of received PDUs on flags and LSDB.
#![tactic(auto)]

mod action;
mod columns;
mod entries;
mod flood;
mod lacking;
mod lsps;
mod mask_list;
mod masks;
mod octets;
mod snps;
mod table;

pub use action::LspAction;
pub use entries::{append_listed, listed};
pub use flood::Flood;
pub use wire_base::SnpOut;
