//! What is asked of a capture.
use wire_base::{Level, SystemId};

/// The level of the LSPs that count, a topology (RFC 5120, 7), and the router at which the paths begin.
#[derive(Clone, Copy, Debug, PartialEq, Eq)]
pub struct Query {
    pub level: Level,
    pub mt: u16,
    pub from: SystemId,
}
