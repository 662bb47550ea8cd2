//! The circuits of all routers, by router and interface.
ghost use Rattle.std.specs.Prelude.{◌≡◌, [], map, slice_index_or, slice_set, IfOk};
ghost use Rattle.isis_hello.specs.Circuits.{broken, circuit_at, fresh, fresh_circuits, with_circuit};
ghost use Rattle.isis_hello.specs.Events.{turned_circuit};

use crate::adjacency::{Adjacency, Circuit, Turn};
use std::alloc::Global;
use std::marker::Model;
use wire_base::{End, M, RouterConf};

impl Circuit {
    /// Returns a circuit that works, with an adjacency that is down.
    pub(crate) fn fresh() -> Circuit
        ensures { result ≡ fresh }
    {
        Circuit {
            works: true,
            adjacency: Adjacency::Down,
        }
    }

    /// Returns a broken circuit.
    pub(crate) fn broken() -> Circuit
        ensures { result ≡ broken }
    {
        Circuit {
            works: false,
            adjacency: Adjacency::Down,
        }
    }

    /// Returns the circuit after a second, or after a restart.
    fn turned(self, turn: Turn) -> Circuit
        ensures { result ≡ turned_circuit turn self }
    {
        Circuit {
            works: self.works,
            adjacency: self.adjacency.turned(turn),
        }
    }
}

/// The circuits of one router, by interface.
#[derive(Drop)]
struct RouterEnds {
    circuits: Vec<Circuit>,
}

impl Model for RouterEnds {
    ghost use Rattle.std.specs.Prelude.{List};
    ghost use Rattle.isis_hello.specs.declared.adjacency.Circuit.{Circuit};

    ghost Value = { List Circuit };

    ghost view = { λ e. e.circuits.items };
}

impl RouterEnds {
    fn new(alloc: Global, ends: &[End]) -> M<RouterEnds>
        ensures { IfOk result (λ made. made ≡ map (λ e. fresh) ends.now) }
    {
        let mut circuits = Vec::new(alloc);
        for _end in ends {
            circuits.push(Circuit::fresh())?;
        }
        Ok(RouterEnds { circuits })
    }

    fn get(&self, link: usize) -> Circuit
        ensures { result ≡ slice_index_or self.now link broken }
    {
        if link < self.circuits.len() {
            self.circuits[link]
        } else {
            Circuit::broken()
        }
    }

    fn set(&mut self, link: usize, circuit: Circuit)
        ensures { self.new ≡ slice_set self.old link circuit }
    {
        if link < self.circuits.len() {
            self.circuits[link] = circuit;
        }
    }

    fn turn(&mut self, turn: Turn)
        ensures { self.new ≡ map (turned_circuit turn) self.old }
    {
        turn_all(self.circuits.as_mut_slice(), turn);
    }
}

fn turn_all(circuits: &mut [Circuit], turn: Turn)
    ensures { circuits.new ≡ map (turned_circuit turn) circuits.old }
{
    for circuit in circuits.iter_mut() {
        *circuit = circuit.turned(turn);
    }
}

/// The circuits of all routers, by router and interface.
#[derive(Drop)]
pub(crate) struct Ends {
    routers: Vec<RouterEnds>,
}

impl Model for Ends {
    ghost use Rattle.std.specs.Prelude.{List};
    ghost use Rattle.isis_hello.specs.declared.adjacency.Circuit.{Circuit};

    ghost Value = { List (List Circuit) };

    ghost view = { λ e. e.routers.items };
}

impl Ends {
    /// Returns circuits that all work, with adjacencies that are down.
    pub(crate) fn new(alloc: Global, confs: &[RouterConf]) -> M<Ends>
        ensures { IfOk result (λ ends. ends ≡ fresh_circuits confs.now) }
    {
        let mut routers = Vec::new(alloc);
        for conf in confs {
            routers.push(RouterEnds::new(alloc, conf.ends.as_slice())?)?;
        }
        Ok(Ends { routers })
    }

    /// Returns the circuit of an interface; a broken one if there is no such interface.
    pub(crate) fn get(&self, place: u16, link: u16) -> Circuit
        ensures { result ≡ circuit_at self.now place link }
    {
        if usize::from(place) < self.routers.len() {
            self.routers[usize::from(place)].get(usize::from(link))
        } else {
            Circuit::broken()
        }
    }

    /// Replaces the circuit of an interface. If there is no such interface, nothing changes.
    pub(crate) fn set(&mut self, place: u16, link: u16, circuit: Circuit)
        ensures { self.new ≡ with_circuit self.old place link circuit }
    {
        if usize::from(place) < self.routers.len() {
            let ends = &mut self.routers[usize::from(place)];
            ends.set(usize::from(link), circuit);
        }
    }

    /// Returns the circuits of a router; none if there is no such router.
    pub(crate) fn of_router(&self, place: u16) -> &[Circuit]
        ensures { result.now ≡ slice_index_or self.now place [] }
    {
        if usize::from(place) < self.routers.len() {
            let ends = &self.routers[usize::from(place)];
            ends.circuits.as_slice()
        } else {
            &[]
        }
    }

    /// Moves all adjacencies of a router.
    pub(crate) fn turn(&mut self, place: u16, turn: Turn)
        ensures { self.new ≡ slice_set self.old place (map (turned_circuit turn) (slice_index_or self.old place [])) }
    {
        if usize::from(place) < self.routers.len() {
            let ends = &mut self.routers[usize::from(place)];
            ends.turn(turn);
        }
    }
}
