//! The actions that a received IS-IS PDU requests of the router, beyond the flooding itself.
use crate::triple::Summary;

/// The action that a received LSP requests.
#[derive(Clone, Copy, Debug, PartialEq, Eq)]
pub enum FloodOut {
    /// No further action.
    Kept,
    /// Originate the router's own LSP with a sequence number above this one.
    Reissue(u32),
    /// Acknowledge this summary at once.
    Ack(Summary),
    /// Drop the LSP: the LSDB is full.
    Full,
    /// Drop the LSP: its sequence number is 0.
    Zero,
}

/// The actions that a received CSNP or PSNP requests: the sequence number above which the router must originate its own LSP,
/// if any, and the number of listed LSPs for which the LSDB had no room.
#[derive(Clone, Copy, Debug, PartialEq, Eq)]
pub struct SnpOut {
    pub reissue: Option<u32>,
    pub full: u32,
}
