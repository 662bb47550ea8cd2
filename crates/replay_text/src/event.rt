//! The events of a schedule, each at one router, and what a line of a schedule contains.
use wire_base::{Bsl, Octets, Rows};

/// One event at one router. Routers are named by their indices in the domain file, from 0. A link is named by the two
/// routers that it joins, and has a direction: from the first to the second.
#[derive(Drop)]
pub enum Event {
    /// A payload enters at a router, for BFR-ids of a sub-domain (RFC 8279, 3). The TTL is above 0, and the entropy has
    /// 20 bits.
    Inject {
        router: u16,
        sd: u8,
        bsl: Bsl,
        ids: Rows<u16>,
        ttl: u8,
        entropy: u32,
        payload: Octets,
    },
    /// Of the frames in flight, the one at index `i`, from 0, arrives.
    Take {
        from: u16,
        to: u16,
        i: u32,
    },
    /// The frame at that index is lost.
    Lose {
        from: u16,
        to: u16,
        i: u32,
    },
    /// The frame at that index, which carries an IS-IS PDU, is duplicated. The copy is queued after all others.
    Again {
        from: u16,
        to: u16,
        i: u32,
    },
    /// The interface of the first router toward the second goes down.
    Down {
        from: u16,
        to: u16,
    },
    /// The interface of the first router toward the second comes up.
    Up {
        from: u16,
        to: u16,
    },
    /// The first router sends what is due on its interface toward the second.
    Send {
        from: u16,
        to: u16,
    },
    /// A second passes at a router.
    Tick {
        router: u16,
    },
    /// A router loses its LSDB. Its interfaces keep their state.
    Restart {
        router: u16,
    },
    /// The MPLS labels of a router for a sub-domain and a BitStringLength begin at another one from now on, of 16 to
    /// 1,048,575 (RFC 8401, 6.2).
    Relabel {
        router: u16,
        sd: u8,
        bsl: Bsl,
        label: u32,
    },
    /// A router leaves a sub-domain. It still forwards packets under its labels, and no longer receives for its BFR-id.
    Leave {
        router: u16,
        sd: u8,
    },
    /// A router joins a sub-domain that it left, with its BFR-id and its present labels.
    Join {
        router: u16,
        sd: u8,
    },
}

/// What a line of a schedule contains.
#[derive(Drop)]
pub enum Line {
    /// Nothing: the line is blank or a comment.
    Empty,
    /// One event.
    One(Event),
    /// That many rounds, at most 1,000, in which all routers send what is due and receive what arrives.
    Settle(u32),
}
