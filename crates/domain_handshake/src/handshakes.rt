//! A domain that runs a schedule, whose interfaces come up and go down by hellos.
ghost use Rattle.std.specs.Prelude.{◌≡◌, ◌++◌, None, length, IfOk, OnOk, OnErr};
ghost use Rattle.replay_text.specs.Events as lines;
ghost use Rattle.domain_model.specs.World.{ids_in_flight};
ghost use Rattle.domain_replay.specs.Counting.{NamesOnce};
ghost use Rattle.domain_replay.specs.Lines.{done_text};
ghost use Rattle.domain_handshake.specs.Doing.{Did, Does};
ghost use Rattle.domain_handshake.specs.Handshakes as spec;

use crate::hand_world::HandWorld;
use domain_model::EventFault;
use domain_replay::Recording;
use replay_report::Direction;
use replay_text::Event;
use run_texts::Texts;
use std::alloc::Global;
use std::marker::Model;
use wire_base::{Domain, HelloEvent, M, Octets, Rows};

/// A running domain and its circuits, with the counts of the run. Each call appends what its events report to the outputs that it
/// receives: a record of each frame that is sent, if the run has a capture, and the lines of adjacencies that change, of deliveries
/// and of drops.
///
/// An interface is up while its adjacency is. It keeps the directions of the domain's links, which no event changes.
#[derive(Drop)]
pub struct Handshakes {
    hand: HandWorld,
    directions: Rows<Direction>,
}

impl Model for Handshakes {
    ghost use Rattle.domain_handshake.specs.Handshakes.{HandState};
    ghost use Rattle.domain_replay.specs.Replaying.{AreDirections};

    ghost Value = { HandState };

    ghost view = { λ h. h.hand };

    ghost invariant = { λ h. AreDirections h.hand.replay.world.domain.routers h.directions };
}

impl Handshakes {
    /// Returns a domain that has just started, whose frames are recorded in that way, and whose interfaces then went down.
    ///
    /// The error is out of memory: an interface that is up may go down.
    pub fn new(
        alloc: Global,
        domain: Domain,
        recording: Recording,
        texts: &mut Texts,
    ) -> Result<Self, EventFault>
        ensures started { IfOk result (λ started. Did (spec.start_does recording domain) started None texts.old texts.new) }
        ensures domain { IfOk result (λ started. started.replay.world.domain ≡ domain) }
    {
        let mut hand = HandWorld::new(alloc, domain, recording)?;
        let directions = hand.directions(alloc)?;
        hand.ends_go_down(texts, directions.as_slice())?;
        Ok(Handshakes { hand, directions })
    }

    /// Executes an event of a schedule, and reports it with the number of the line. A second passes in the domain and at the
    /// router's circuits; when a router restarts, its adjacencies go down.
    ///
    /// The error is why the event, or one that follows from it, is not allowed; those before it were executed. `Memory` may be
    /// returned instead of any result.
    pub fn event(&mut self, texts: &mut Texts, line: u32, event: &Event) -> Result<(), EventFault>
        requires fits { lines.EventFits (length self.old.replay.world.domain.routers) event.now }
        requires once { NamesOnce event.now }
        ensures does { Does (spec.event_does line self.old event.now) self.new texts.old texts.new result }
        ensures domain { self.new.replay.world.domain ≡ self.old.replay.world.domain }
    {
        self.hand.event(texts, line, event)
    }

    /// Executes an event of hellos, and reports it with the number of the line: the adjacencies that change, and then their
    /// interfaces as events of the domain.
    ///
    /// The error is why the event is not allowed: the reason of the same number and name, or `Events` if the domain has no room
    /// for what follows. `Memory` may be returned instead of any result.
    pub fn hello(
        &mut self,
        texts: &mut Texts,
        line: u32,
        event: &HelloEvent,
    ) -> Result<(), EventFault>
        ensures does { Does (spec.hello_does line self.old event.now) self.new texts.old texts.new result }
        ensures domain { self.new.replay.world.domain ≡ self.old.replay.world.domain }
    {
        self.hand.hello(texts, line, event)
    }

    /// Executes a round, up to an event that is not allowed: all routers send hellos, then all receive them, and then all send what
    /// is due and receive it.
    pub fn round(&mut self, texts: &mut Texts, line: u32) -> Result<(), EventFault>
        ensures does { Does (spec.round_does line self.old) self.new texts.old texts.new result }
        ensures domain { self.new.replay.world.domain ≡ self.old.replay.world.domain }
    {
        self.hand.round(texts, line, self.directions.as_slice())
    }

    /// Appends the last line of the report on a schedule with that many lines, all of which were done. If an allocation fails,
    /// nothing is appended.
    pub fn done(&self, alloc: Global, report: &mut Octets, lines: u64) -> M<()>
        ensures ok { OnOk result (report.new ≡ report.old ++ done_text lines self.now.replay.counts (ids_in_flight self.now.replay.world.flights)) }
        ensures err { OnErr result (report.new ≡ report.old) }
    {
        self.hand.replay.done(alloc, report, lines)
    }
}
