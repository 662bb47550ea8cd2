//! The circuits of a router's interfaces, and how a hello and a second move them.
ghost use Rattle.std.specs.Prelude.{◌≡◌, map, slice_set, slice_get, IfOk};
ghost use Rattle.std.specs.Result.{result_ok};
ghost use Rattle.isis_hello.specs.Adjacency.{after_tick, neighbor_of};
ghost use Rattle.isis_hello.specs.Circuits as circuits;
ghost use Rattle.isis_hello.specs.Events.{hello_in};
ghost use Rattle.isis_hello.specs.Hello.{hello_at};
ghost use Rattle.live_stream.specs.HelloRun as hello;

use isis_hello::limits::HOLDING_TIME;
use isis_hello::{Adjacency, Circuit, Hello, Kept, read_hello};
use link_frame::{Class, classify};
use std::alloc::Global;
use std::marker::Model;
use wire_base::{End, Level, M, SystemId};

/// A circuit that works, with an adjacency that is down.
pub const FRESH: Circuit = Circuit {
    works: true,
    adjacency: Adjacency::Down,
};

/// A broken circuit.
pub const BROKEN: Circuit = Circuit {
    works: false,
    adjacency: Adjacency::Down,
};

/// The circuits of a router, by interface.
#[derive(Drop)]
pub struct Adjacencies {
    circuits: Vec<Circuit>,
}

impl Model for Adjacencies {
    ghost use Rattle.std.specs.Prelude.{List};
    ghost use Rattle.isis_hello.specs.declared.adjacency.Circuit.{Circuit};

    ghost Value = { List Circuit };

    ghost view = { λ a. a.circuits.items };
}

/// Returns an adjacency after a second: its holding time falls, and at its end the adjacency is down (ISO/IEC 10589, 8.2.5).
pub fn after_second(adjacency: Adjacency) -> Adjacency
    ensures { result ≡ after_tick adjacency }
{
    match adjacency {
        Adjacency::Down => Adjacency::Down,
        Adjacency::Initializing(kept) if kept.hold > 1 => Adjacency::Initializing(Kept {
            circuit: kept.circuit,
            hold: kept.hold - 1,
        }),
        Adjacency::Up(kept) if kept.hold > 1 => Adjacency::Up(Kept {
            circuit: kept.circuit,
            hold: kept.hold - 1,
        }),
        Adjacency::Initializing(_) | Adjacency::Up(_) => Adjacency::Down,
    }
}

/// Returns a circuit after a second.
fn later(circuit: Circuit) -> Circuit
    ensures { result ≡ hello.later circuit }
{
    Circuit {
        works: circuit.works,
        adjacency: after_second(circuit.adjacency),
    }
}

fn all_later(circuits: &mut [Circuit])
    ensures { circuits.new ≡ map hello.later circuits.old }
{
    for circuit in circuits.iter_mut() {
        *circuit = later(*circuit);
    }
}

impl Adjacencies {
    /// Returns circuits that all work, with adjacencies that are down.
    pub fn new(alloc: Global, ends: &[End]) -> M<Self>
        ensures { IfOk result (λ made. made ≡ map (λ e. circuits.fresh) ends.now) }
    {
        let mut circuits = Vec::new(alloc);
        for _end in ends {
            circuits.push(FRESH)?;
        }
        Ok(Adjacencies { circuits })
    }

    /// Returns the circuits, by interface.
    pub fn as_slice(&self) -> &[Circuit]
        ensures { result.now ≡ self.now }
    {
        self.circuits.as_slice()
    }

    /// Returns the circuit of an interface; a broken one if there is no such interface.
    pub fn get(&self, link: u16) -> Circuit
        ensures { result ≡ hello.circuit_on self.now link }
    {
        if usize::from(link) < self.circuits.len() {
            self.circuits[usize::from(link)]
        } else {
            BROKEN
        }
    }

    /// Replaces the circuit of an interface. If there is no such interface, nothing changes.
    pub fn set(&mut self, link: u16, circuit: Circuit)
        ensures { self.new ≡ slice_set self.old link circuit }
    {
        if usize::from(link) < self.circuits.len() {
            self.circuits[usize::from(link)] = circuit;
        }
    }

    /// A second passes on each circuit.
    pub fn pass_second(&mut self)
        ensures { self.new ≡ map hello.later self.old }
    {
        all_later(self.circuits.as_mut_slice());
    }
}

/// Returns the hello that a PDU is, if it is one. A hello's level is not tested, so both levels are read alike.
fn hello_at(pdu: &[u8]) -> Option<Hello>
    ensures { result ≡ result_ok (hello_at pdu.now) }
{
    match read_hello(Level::Two, pdu) {
        Ok(h) => Some(h),
        Err(_) => None,
    }
}

/// Returns the hello that a frame carries, if it carries one.
#[tactic(auto, unfolding(isis_hello::specs::Events::hello_in))]
pub fn hello_in(frame: &[u8]) -> Option<Hello>
    ensures { result ≡ hello_in frame.now }
{
    match classify(frame) {
        Ok(Class::Isis { from, to }) => hello_at(&frame[from..to]),
        Ok(Class::Mpls { .. }) | Ok(Class::Bier { .. }) | Ok(Class::Ip { .. }) | Ok(Class::Other) =>
            { None }
        Err(_) => None,
    }
}

/// Returns the neighbor that a hello of an adjacency lists: none while the adjacency is down.
fn neighbor(adjacency: Adjacency, peer: SystemId) -> Option<(SystemId, u32)>
    ensures { result ≡ neighbor_of peer adjacency }
{
    match adjacency {
        Adjacency::Down => None,
        Adjacency::Initializing(kept) | Adjacency::Up(kept) => Some((peer, kept.circuit)),
    }
}

/// Returns the circuit ID of an interface: its index and 1.
pub fn circuit_id(link: u16) -> u32
    ensures { result ≡ circuits.circuit_id link }
{
    u32::from(link) + 1
}

/// Returns the hello of a router on an interface.
pub fn hello_of(own: SystemId, link: u16, peer: SystemId, adjacency: Adjacency) -> Hello
    ensures { result ≡ circuits.hello_of own link peer adjacency }
{
    Hello {
        source: own,
        hold: HOLDING_TIME,
        circuit: circuit_id(link),
        state: adjacency.state(),
        named: neighbor(adjacency, peer),
    }
}
