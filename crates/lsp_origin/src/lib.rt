//! The LSP that a router originates: fragment 0 with its area, its name, its links and its BIER sub-domains
//! (ISO/IEC 10589, 7.3.7; RFC 5301; RFC 5305; RFC 8401).
//!
//! This crate depends on the codecs. Its contracts specify the own LSP octet by octet, with its checksum.
#![tactic(auto)]

mod content;
mod links;
mod origin;
mod subdomains;

pub use lsp_store::purge;
pub use origin::originate;
pub use wire_base::Entry;
