//! What the lines of a hop text contain.
use crate::short::ShortText;
use bier_bits::AnyBits;
use wire_base::{Bsl, Rows};

/// A row: packets for the BFR-id go to the neighbor with that name.
#[derive(Drop)]
pub struct HopRow {
    pub id: u16,
    pub name: ShortText,
}

/// The state after the lines so far: the BitStringLength, the router's own BFR-id, 0 for none, the rows in order, and
/// whether a packet line was read.
#[derive(Drop)]
pub struct HopState {
    pub bsl: Option<Bsl>,
    pub own: Option<u16>,
    pub rows: Rows<HopRow>,
    pub packets: bool,
}

/// What one line contains.
#[derive(Drop)]
pub enum HopLine {
    /// Nothing: the line is blank or a comment.
    Empty,
    /// The BitStringLength.
    Length(Bsl),
    /// The router's own BFR-id, 0 for none.
    Own(u16),
    /// One more row.
    Row(HopRow),
    /// A packet for the BFR-ids at these bit positions. Its set identifier is 0.
    Packet(AnyBits),
}
