//! The state of a three-way adjacency, and how a hello and a second move it (RFC 5303, 3.1 and 3.2; ISO/IEC 10589, 8.2.4).
ghost use Rattle.std.specs.Prelude.{◌≡◌, None, true};
ghost use Rattle.isis_hello.specs.Adjacency.{after_hello, after_tick, is_up, lists_another, moved, neighbor_of, tri_of, turned};

use crate::hello::{Hello, Tri};
use wire_base::SystemId;

/// What an adjacency keeps of its neighbor: the neighbor's circuit, and for how many more seconds the adjacency is held.
#[derive(Clone, Copy, Debug, PartialEq, Eq)]
pub struct Kept {
    pub circuit: u32,
    pub hold: u16,
}

/// The state of an adjacency. One that is not down keeps what the last hello announced.
#[derive(Clone, Copy, Debug, PartialEq, Eq)]
pub enum Adjacency {
    Down,
    Initializing(Kept),
    Up(Kept),
}

/// What moves all adjacencies of a router.
#[derive(Clone, Copy)]
pub(crate) enum Turn {
    /// A second passes.
    Second,
    /// The router restarts.
    Restart,
}

/// The circuit of an interface: whether it works, and the state of its adjacency.
#[derive(Clone, Copy, Debug, PartialEq, Eq)]
pub struct Circuit {
    pub works: bool,
    pub adjacency: Adjacency,
}

impl Adjacency {
    /// Returns the state as a hello announces it.
    pub fn state(self) -> Tri
        ensures { result ≡ tri_of self }
    {
        match self {
            Adjacency::Down => Tri::Down,
            Adjacency::Initializing(_) => Tri::Initializing,
            Adjacency::Up(_) => Tri::Up,
        }
    }

    /// Returns whether the adjacency is up.
    pub fn is_up(self) -> bool
        ensures { result ≡ is_up self }
    {
        match self {
            Adjacency::Down | Adjacency::Initializing(_) => false,
            Adjacency::Up(_) => true,
        }
    }

    /// Returns the neighbor that a hello of this adjacency lists: none while the adjacency is down.
    pub(crate) fn neighbor(self, peer: SystemId) -> Option<(SystemId, u32)>
        ensures { result ≡ neighbor_of peer self }
    {
        match self {
            Adjacency::Down => None,
            Adjacency::Initializing(kept) | Adjacency::Up(kept) => Some((peer, kept.circuit)),
        }
    }

    /// Returns the state after a hello that is for this adjacency.
    fn moved(self, received: Tri, kept: Kept) -> Adjacency
        ensures { result ≡ moved self received kept }
    {
        match received {
            Tri::Down => Adjacency::Initializing(kept),
            Tri::Initializing => Adjacency::Up(kept),
            Tri::Up => match self {
                Adjacency::Down => Adjacency::Down,
                Adjacency::Initializing(_) | Adjacency::Up(_) => Adjacency::Up(kept),
            },
        }
    }

    /// Returns the state after a hello has arrived at the working interface of a router with that system ID and circuit ID, whose
    /// link leads to that peer (RFC 5303, 3.2).
    ///
    /// A hello that comes from another source, or lists another system or circuit, changes nothing. One that lists nobody counts
    /// as Down, whatever state it announces.
    pub fn after_hello(self, own: SystemId, circuit: u32, peer: SystemId, h: &Hello) -> Adjacency
        ensures value { result ≡ after_hello own circuit peer self h.now }
        // A hello that lists nobody brings no adjacency up.
        ensures unlisted { h.now.named ≡ None → is_up result ≡ true → result ≡ self }
    {
        if h.source != peer || lists_another(own, circuit, h.named) {
            return self;
        }
        let kept = Kept {
            circuit: h.circuit,
            hold: h.hold,
        };
        match h.named {
            None => self.moved(Tri::Down, kept),
            Some(_) => self.moved(h.state, kept),
        }
    }

    /// Returns the state after a second.
    fn after_second(self) -> Adjacency
        ensures { result ≡ after_tick self }
    {
        match self {
            Adjacency::Down => Adjacency::Down,
            Adjacency::Initializing(kept) if kept.hold > 1 => Adjacency::Initializing(Kept {
                circuit: kept.circuit,
                hold: kept.hold - 1,
            }),
            Adjacency::Up(kept) if kept.hold > 1 => Adjacency::Up(Kept {
                circuit: kept.circuit,
                hold: kept.hold - 1,
            }),
            Adjacency::Initializing(_) | Adjacency::Up(_) => Adjacency::Down,
        }
    }

    /// Returns the state after a second, or after a restart.
    pub(crate) fn turned(self, turn: Turn) -> Adjacency
        ensures { result ≡ turned turn self }
    {
        match turn {
            Turn::Second => self.after_second(),
            Turn::Restart => Adjacency::Down,
        }
    }
}

/// Returns whether a hello lists a neighbor other than that system ID and circuit.
fn lists_another(own: SystemId, circuit: u32, named: Option<(SystemId, u32)>) -> bool
    ensures { result ≡ lists_another own circuit named }
{
    match named {
        None => false,
        Some((system, number)) => system != own || number != circuit,
    }
}
