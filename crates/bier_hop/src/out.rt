use bier_bits::BitString;
use wire_base::First;

/// The outcome of some bit positions of a packet.
#[derive(Drop)]
pub enum Out<'t, const W: usize> {
    /// The packet is delivered here: the router's own position.
    Local(u16),
    /// A copy with those positions and that TTL is sent to a router.
    Copy {
        to: &'t First,
        set: BitString<W>,
        ttl: u8,
    },
    /// Those positions are dropped.
    Dropped {
        set: BitString<W>,
        why: Why,
    },
}

/// The outcome of some bit positions of a packet that are held elsewhere.
#[derive(Clone, Copy)]
pub enum Action<'t> {
    /// The packet is delivered here: the router's own position.
    Local(u16),
    /// A copy with the positions and that TTL is sent to a router.
    Copy { to: &'t First, ttl: u8 },
    /// The positions are dropped.
    Dropped(Why),
}

/// Why positions are dropped: the BIFT has no entry for them, or the TTL has expired.
#[derive(Clone, Copy, Debug, PartialEq, Eq)]
pub enum Why {
    NoRow,
    Ttl,
}
