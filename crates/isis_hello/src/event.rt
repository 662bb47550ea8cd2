//! What an event of hellos reports.
use wire_base::{Octets, Rows};

/// A change of an adjacency at a router, toward a peer: it came up, or it was up and no longer is.
#[derive(Clone, Copy, Debug, PartialEq, Eq)]
pub struct EndChange {
    pub router: u16,
    pub peer: u16,
    pub up: bool,
}

/// What one event of hellos reports: the frame of the hello that was sent, and the changes of adjacencies, by interface
/// in order.
#[derive(Drop)]
pub struct HelloOut {
    pub sent: Option<Octets>,
    pub changes: Rows<EndChange>,
}
