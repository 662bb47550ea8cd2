//! What a line of a schedule that is checked contains.
use crate::event::Line;
use wire_base::{Bsl, Rows};

/// A line of a schedule that is checked.
#[derive(Drop)]
pub enum CheckLine {
    /// A line of a schedule.
    Base(Line),
    /// Asks whether the domain is quiet.
    Quiet,
    /// Asks which BFR-ids of an injection are reached. The TTL is above 0, and the entropy has 20 bits.
    Cover {
        router: u16,
        sd: u8,
        bsl: Bsl,
        ids: Rows<u16>,
        ttl: u8,
        entropy: u32,
    },
}
