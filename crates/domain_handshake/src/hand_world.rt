//! A running domain and its circuits, side by side.
ghost use Rattle.std.specs.Prelude.{◌≡◌, ◌<◌, ◌+◌, ◌++◌, not, nat_lt, length, IfOk, IfSome, OnOk};
ghost use Rattle.std.specs.List.{AllByRecursion};
ghost use Rattle.replay_text.specs.Events as lines;
ghost use Rattle.replay_text.specs.declared.event.Event.TheVariants as events;
ghost use Rattle.replay_text.specs.declared.event.Line.TheVariants as said;
ghost use Rattle.domain_model.specs.Faults.{most_events};
ghost use Rattle.domain_model.specs.Run.{directions};
ghost use Rattle.domain_replay.specs.Counting.{NamesOnce};
ghost use Rattle.domain_replay.specs.Replaying.{IsJoining};
ghost use Rattle.domain_handshake.specs.Within.{IsWithin};
ghost use Rattle.domain_handshake.specs.Doing.{Does};
ghost use Rattle.domain_handshake.specs.Handshakes as spec;
ghost use Rattle.domain_handshake.specs.Handshakes.{fresh_state, in_turn};
ghost use Rattle.domain_handshake.specs.Lines.{changes_text, sent_record};

use crate::changes::{event_of, fault_of, push_changes, push_sent};
use domain_model::EventFault;
use domain_replay::{Recording, Replay, confs_of};
use isis_hello::{Circuits, EndChange, HelloOut};
use replay_report::Direction;
use replay_text::{Event, Line};
use run_texts::Texts;
use std::alloc::Global;
use std::marker::Model;
use wire_base::limits::MOST_EVENTS;
use wire_base::{Domain, HelloEvent, M, Octets, Rows};

/// A running domain and its circuits.
#[derive(Drop)]
pub struct HandWorld {
    pub(crate) replay: Replay,
    pub(crate) circuits: Circuits,
}

impl Model for HandWorld {
    ghost use Rattle.std.specs.Prelude.{◌≡◌};
    ghost use Rattle.domain_handshake.specs.Handshakes.{HandState};

    ghost Value = { HandState };

    ghost view = { λ h. record { replay = h.replay; circuits = h.circuits } };

    ghost invariant = { λ h. h.circuits.domain ≡ h.replay.world.domain };
}

impl HandWorld {
    /// Returns a domain that has just started, with all interfaces up, and its circuits, with adjacencies that are down.
    pub(crate) fn new(alloc: Global, domain: Domain, recording: Recording) -> M<Self>
        ensures { IfOk result (λ h. h ≡ fresh_state recording domain) }
    {
        let circuits = Circuits::new(alloc, &domain)?;
        let replay = Replay::new(alloc, domain, recording)?;
        Ok(HandWorld { replay, circuits })
    }

    /// Returns the directions of the domain's links, each of which joins two routers.
    pub(crate) fn directions(&self, alloc: Global) -> M<Rows<Direction>>
        ensures value { IfOk result (λ all. all ≡ directions self.now.replay.world.domain.routers) }
        ensures joins { IfOk result (λ all. AllByRecursion (IsJoining self.now.replay.world.domain.routers) all) }
    {
        self.replay.directions(alloc)
    }

    // ---- the domain

    /// Executes an event of a line in the domain alone.
    fn do_event(&mut self, texts: &mut Texts, line: u32, event: &Event) -> Result<(), EventFault>
        requires fits { lines.EventFits (length self.old.replay.world.domain.routers) event.now }
        requires once { NamesOnce event.now }
        ensures does { Does (spec.world_does line self.old (said.One event.now)) self.new texts.old texts.new result }
        ensures domain { self.new.replay.world.domain ≡ self.old.replay.world.domain }
    {
        self.replay.event(texts, line, event)
    }

    /// Executes a round of the domain alone.
    fn do_own_round(&mut self, texts: &mut Texts, line: u32) -> Result<(), EventFault>
        ensures does { Does (spec.world_does line self.old (said.Settle 1)) self.new texts.old texts.new result }
        ensures domain { self.new.replay.world.domain ≡ self.old.replay.world.domain }
    {
        self.replay.line(texts, line, &Line::Settle(1))
    }

    // ---- a hello event

    /// Returns whether that many more events may occur in the domain.
    fn has_room(&self, more: usize) -> bool
        ensures { result ≡ not (nat_lt most_events (self.now.replay.world.events + more)) }
    {
        more <= (MOST_EVENTS - self.replay.events()) as usize
    }

    fn change(&mut self, texts: &mut Texts, line: u32, change: EndChange) -> Result<(), EventFault>
        requires { IsWithin (length self.old.replay.world.domain.routers) change }
        ensures does { Does (spec.change_does line self.old change) self.new texts.old texts.new result }
        ensures domain { self.new.replay.world.domain ≡ self.old.replay.world.domain }
    {
        self.do_event(texts, line, &event_of(change))
    }

    /// Executes the changes of adjacencies as events of the domain.
    fn do_changes(
        &mut self,
        texts: &mut Texts,
        line: u32,
        changes: &[EndChange],
    ) -> Result<(), EventFault>
        requires { AllByRecursion (IsWithin (length self.old.replay.world.domain.routers)) changes.now }
        ensures does { Does (in_turn (spec.change_does line) self.old changes.now) self.new texts.old texts.new result }
        ensures domain { self.new.replay.world.domain ≡ self.old.replay.world.domain }
    {
        for change in changes {
            self.change(texts, line, *change)?;
        }
        Ok(())
    }

    /// Writes what an event of the circuits reports and sent. If an allocation fails, some of it may be written.
    fn write(
        &self,
        texts: &mut Texts,
        line: u32,
        event: &HelloEvent,
        sent: Option<Octets>,
        changes: &[EndChange],
    ) -> M<()>
        requires { IfSome sent (λ frame. length frame < 65536) }
        ensures report { OnOk result (texts.new.report ≡ texts.old.report ++ changes_text self.now.replay.world.domain.routers line changes.now) }
        ensures frames { OnOk result (texts.new.frames ≡ texts.old.frames ++ sent_record self.now.replay.recording self.now.replay.world.domain.routers line event.now sent) }
    {
        let routers = confs_of(self.replay.domain());
        push_changes(&mut texts.report, routers, line, changes)?;
        let recording = self.replay.recording();
        push_sent(&mut texts.frames, recording, routers, line, event, sent)
    }

    /// Does what follows from an event of the circuits: it is reported and recorded, and then the interfaces come up and go
    /// down. If the domain has no room for that, the event is refused.
    fn follow(
        &mut self,
        texts: &mut Texts,
        line: u32,
        event: &HelloEvent,
        out: HelloOut,
    ) -> Result<(), EventFault>
        requires short { IfSome out.sent (λ frame. length frame < 65536) }
        requires within { AllByRecursion (IsWithin (length self.old.replay.world.domain.routers)) out.changes }
        ensures does { Does (spec.follows line self.old (sent_record self.old.replay.recording self.old.replay.world.domain.routers line event.now out.sent) out.changes) self.new texts.old texts.new result }
        ensures domain { self.new.replay.world.domain ≡ self.old.replay.world.domain }
    {
        let HelloOut { sent, changes } = out;
        if !self.has_room(changes.len()) {
            return Err(EventFault::Events);
        }
        self.write(texts, line, event, sent, changes.as_slice())?;
        self.do_changes(texts, line, changes.as_slice())
    }

    /// Executes an event of the circuits, and what follows from it in the domain.
    pub(crate) fn hello(
        &mut self,
        texts: &mut Texts,
        line: u32,
        event: &HelloEvent,
    ) -> Result<(), EventFault>
        ensures does { Does (spec.hello_does line self.old event.now) self.new texts.old texts.new result }
        ensures domain { self.new.replay.world.domain ≡ self.old.replay.world.domain }
    {
        // The domain is valid, so the routers of a change exist.
        let _domain = self.replay.domain();
        match self.circuits.step(event) {
            Ok(out) => self.follow(texts, line, event, out),
            Err(why) => Err(fault_of(why)),
        }
    }

    // ---- a round

    /// Sends a hello in a direction, if the circuit works.
    fn hello_on(
        &mut self,
        texts: &mut Texts,
        line: u32,
        direction: Direction,
    ) -> Result<(), EventFault>
        ensures does { Does (spec.hello_on line self.old direction) self.new texts.old texts.new result }
        ensures domain { self.new.replay.world.domain ≡ self.old.replay.world.domain }
    {
        let Direction { from, to, .. } = direction;
        if !self.circuits.works(from, to) {
            return Ok(());
        }
        self.hello(texts, line, &HelloEvent::Hello { from, to })
    }

    /// All routers send hellos, direction by direction.
    fn do_hellos(
        &mut self,
        texts: &mut Texts,
        line: u32,
        all: &[Direction],
    ) -> Result<(), EventFault>
        ensures does { Does (in_turn (spec.hello_on line) self.old all.now) self.new texts.old texts.new result }
        ensures domain { self.new.replay.world.domain ≡ self.old.replay.world.domain }
    {
        for direction in all {
            self.hello_on(texts, line, *direction)?;
        }
        Ok(())
    }

    /// The first hello in flight in a direction arrives.
    fn greet_on(
        &mut self,
        texts: &mut Texts,
        line: u32,
        direction: Direction,
    ) -> Result<(), EventFault>
        ensures does { Does (spec.greet_on line self.old direction) self.new texts.old texts.new result }
        ensures domain { self.new.replay.world.domain ≡ self.old.replay.world.domain }
    {
        let Direction { from, to, .. } = direction;
        self.hello(texts, line, &HelloEvent::Greet { from, to, i: 0 })
    }

    /// As many hellos arrive as are in flight in a direction now.
    fn greets_on(
        &mut self,
        texts: &mut Texts,
        line: u32,
        direction: Direction,
    ) -> Result<(), EventFault>
        ensures does { Does (spec.greets_on line self.old direction) self.new texts.old texts.new result }
        ensures domain { self.new.replay.world.domain ≡ self.old.replay.world.domain }
    {
        let count = self.circuits.hellos(direction.from, direction.to);
        for _time in 0..count {
            self.greet_on(texts, line, direction)?;
        }
        Ok(())
    }

    /// All routers receive the hellos that are in flight to them, direction by direction.
    fn do_greets(
        &mut self,
        texts: &mut Texts,
        line: u32,
        all: &[Direction],
    ) -> Result<(), EventFault>
        ensures does { Does (in_turn (spec.greets_on line) self.old all.now) self.new texts.old texts.new result }
        ensures domain { self.new.replay.world.domain ≡ self.old.replay.world.domain }
    {
        for direction in all {
            self.greets_on(texts, line, *direction)?;
        }
        Ok(())
    }

    /// Executes a round: all routers send hellos, then all receive them, and then the domain does a round of its own.
    pub(crate) fn round(
        &mut self,
        texts: &mut Texts,
        line: u32,
        all: &[Direction],
    ) -> Result<(), EventFault>
        ensures does { Does (spec.round_over line self.old all.now) self.new texts.old texts.new result }
        ensures domain { self.new.replay.world.domain ≡ self.old.replay.world.domain }
    {
        self.do_hellos(texts, line, all)?;
        self.do_greets(texts, line, all)?;
        self.do_own_round(texts, line)
    }

    // ---- an event of a schedule

    /// A second passes at a router: in the domain, and then at its circuits.
    fn tick(
        &mut self,
        texts: &mut Texts,
        line: u32,
        event: &Event,
        router: u16,
    ) -> Result<(), EventFault>
        requires is { event.now ≡ events.Tick router }
        requires within { router < length self.old.replay.world.domain.routers }
        ensures does { Does (spec.event_does line self.old (events.Tick router)) self.new texts.old texts.new result }
        ensures domain { self.new.replay.world.domain ≡ self.old.replay.world.domain }
    {
        self.do_event(texts, line, event)?;
        self.hello(texts, line, &HelloEvent::Tick { router })
    }

    /// A router restarts: its adjacencies go down, and then it loses its LSDB.
    fn restart(
        &mut self,
        texts: &mut Texts,
        line: u32,
        event: &Event,
        router: u16,
    ) -> Result<(), EventFault>
        requires is { event.now ≡ events.Restart router }
        requires within { router < length self.old.replay.world.domain.routers }
        ensures does { Does (spec.event_does line self.old (events.Restart router)) self.new texts.old texts.new result }
        ensures domain { self.new.replay.world.domain ≡ self.old.replay.world.domain }
    {
        self.hello(texts, line, &HelloEvent::Restart { router })?;
        self.do_event(texts, line, event)
    }

    /// Executes an event of a schedule.
    pub(crate) fn event(
        &mut self,
        texts: &mut Texts,
        line: u32,
        event: &Event,
    ) -> Result<(), EventFault>
        requires fits { lines.EventFits (length self.old.replay.world.domain.routers) event.now }
        requires once { NamesOnce event.now }
        ensures does { Does (spec.event_does line self.old event.now) self.new texts.old texts.new result }
        ensures domain { self.new.replay.world.domain ≡ self.old.replay.world.domain }
    {
        match event {
            Event::Tick { router } => self.tick(texts, line, event, *router),
            Event::Restart { router } => self.restart(texts, line, event, *router),
            _ => self.do_event(texts, line, event),
        }
    }

    // ---- the start

    /// The interface in a direction goes down.
    fn end_goes_down(&mut self, texts: &mut Texts, direction: Direction) -> Result<(), EventFault>
        requires { IsJoining self.old.replay.world.domain.routers direction }
        ensures does { Does (spec.end_goes_down self.old direction) self.new texts.old texts.new result }
        ensures domain { self.new.replay.world.domain ≡ self.old.replay.world.domain }
    {
        let Direction { from, to, .. } = direction;
        self.do_event(texts, 0, &Event::Down { from, to })
    }

    /// All interfaces go down, direction by direction.
    pub(crate) fn ends_go_down(
        &mut self,
        texts: &mut Texts,
        all: &[Direction],
    ) -> Result<(), EventFault>
        requires { AllByRecursion (IsJoining self.old.replay.world.domain.routers) all.now }
        ensures does { Does (in_turn spec.end_goes_down self.old all.now) self.new texts.old texts.new result }
        ensures domain { self.new.replay.world.domain ≡ self.old.replay.world.domain }
    {
        for direction in all {
            self.end_goes_down(texts, *direction)?;
        }
        Ok(())
    }
}
