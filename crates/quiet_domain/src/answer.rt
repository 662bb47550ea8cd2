//! Whether a domain is quiet.
use wire_base::LspId;

/// Whether a domain is quiet, or the first reason why not. Routers are named by their indices.
#[derive(Clone, Copy, Debug, PartialEq, Eq)]
pub enum Quiet {
    /// The domain is quiet.
    Yes,
    /// The sequence number space of this router is exhausted (ISO/IEC 10589, 7.3.16.1).
    Spent(u16),
    /// Of the link between these two routers one interface is up and the other is down.
    Half(u16, u16),
    /// The link between these two routers is up, and their LSDBs differ in live LSPs: this is the least LSP ID at which they do.
    Data(u16, u16, LspId),
}
