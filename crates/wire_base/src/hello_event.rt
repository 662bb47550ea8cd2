//! The events of hellos, each at one router.
/// One event of hellos. Routers are named by their indices in the domain, from 0. A circuit is named by the two routers
/// that its link joins, and has a direction: from the first to the second.
#[derive(Clone, Copy, Debug, PartialEq, Eq)]
pub enum HelloEvent {
    /// The first router sends a hello to the second.
    Hello { from: u16, to: u16 },
    /// Of the hellos in flight, the one at index `i`, from 0, arrives.
    Greet { from: u16, to: u16, i: u32 },
    /// The hello at that index is lost.
    Forget { from: u16, to: u16, i: u32 },
    /// The first router's circuit toward the second fails. Its adjacency is down.
    Break { from: u16, to: u16 },
    /// The first router's circuit toward the second works again. Its adjacency is down.
    Mend { from: u16, to: u16 },
    /// A second passes at a router.
    Tick { router: u16 },
    /// A router restarts. All its adjacencies are down.
    Restart { router: u16 },
}
