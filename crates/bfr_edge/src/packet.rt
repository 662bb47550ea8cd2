use bier_bits::AnyBits;
use wire_base::Triple;

/// A packet as it enters: its triple, and the bit positions of its destinations (BFERs), of the triple's length.
#[derive(Drop)]
pub struct Packet {
    pub triple: Triple,
    pub bits: AnyBits,
}
