//! A running domain whose events are reported as they are executed.
ghost use Rattle.std.specs.Prelude.{◌≡◌, ◌≢◌, ◌∷◌, ◌++◌, length, Some, None, IfOk, OnOk, OnErr, []};
ghost use Rattle.std.specs.List.{AllByRecursion};
ghost use Rattle.replay_text.specs.Events as lines;
ghost use Rattle.replay_text.specs.Events.{LineFits};
ghost use Rattle.replay_text.specs.declared.event.Line.TheVariants as says;
ghost use Rattle.replay_text.specs.declared.event.Event.TheVariants as events;
ghost use Rattle.domain_model.specs.World.{link_between, frames_between};
ghost use Rattle.domain_model.specs.Run as run;
ghost use Rattle.domain_model.specs.Run.{taken_now, round_events, line_events};
ghost use Rattle.replay_report.specs.Captures.{wire_records, AreShort};
ghost use Rattle.replay_report.specs.Counting.{counted, NamesOnce};
ghost use Rattle.replay_report.specs.Lines.{event_text};
ghost use Rattle.domain_replay.specs.Telling.{first_state, with_texts, told, reports_on, tells_all, tells_line, LineNamesOnce};
ghost use Rattle.domain_replay.specs.Replaying.{Tells, StopsIn, IsAsked, IsJoining, sends_of, sends_in};

use crate::asked::numbers_fit;
use domain_core::{EventFault, World, confs_of};
use domain_model::{StepOut, WireFrames};
use replay_report::{Counts, Direction, Recording, directions, push_frames, push_made};
use replay_text::{Event, Line};
use run_texts::Texts;
use std::alloc::Global;
use std::marker::Model;
use wire_base::{Domain, M, Rows};

/// A running domain, its counts, and how what is sent is recorded. The frames of the last send are stored for their memory,
/// which serves for the next one. The report of the last delivery that had one is stored so that the deliveries that have
/// none, which are most, need no space for it on the stack.
#[derive(Drop)]
pub struct ReportedWorld {
    pub world: World,
    pub counts: Counts,
    pub recording: Recording,
    sent: WireFrames,
    made: StepOut,
}

impl Model for ReportedWorld {
    ghost use Rattle.domain_replay.specs.Telling.{ReplayState};

    ghost Value = { ReplayState };

    ghost view = { λ t. record { world = t.world.world; counts = t.counts; recording = t.recording } };
}

impl ReportedWorld {
    /// Returns a domain that has just started, with counts of zero.
    pub(crate) fn new(alloc: Global, domain: Domain, recording: Recording) -> M<Self>
        ensures { IfOk result (λ told. told ≡ first_state recording domain) }
    {
        Ok(ReportedWorld {
            world: World::new(alloc, domain)?,
            counts: Counts::none(),
            recording,
            sent: WireFrames::new(alloc),
            made: StepOut::nothing(alloc),
        })
    }

    /// Reports an event of a line, which names no BFR-id twice, and its effects. If an allocation fails, nothing is reported.
    fn tell(&mut self, texts: &mut Texts, line: u32, event: &Event, made: &StepOut) -> M<()>
        requires once { NamesOnce event.now }
        requires short { AreShort made.now.sent }
        ensures state { OnOk result (self.new ≡ record self.old { counts = counted self.old.counts event.now made.now.got made.now.drops }) }
        ensures frames { OnOk result (texts.new.frames ≡ texts.old.frames ++ wire_records self.old.recording self.old.world.domain.routers line made.now.sent) }
        ensures report { OnOk result (texts.new.report ≡ texts.old.report ++ event_text self.old.world.domain.routers line made.now.got made.now.drops) }
        ensures err { OnErr result ((self.new ≡ self.old) × (texts.new ≡ texts.old)) }
    {
        let counts = self.counts.with(event, made)?;
        let routers = confs_of(self.world.domain());
        push_made(texts, self.recording, routers, line, made)?;
        self.counts = counts;
        Ok(())
    }

    /// Executes one event of a line.
    fn do_event(&mut self, texts: &mut Texts, line: u32, event: &Event) -> Result<(), EventFault>
        requires { IsAsked (length self.old.world.domain.routers) event.now }
        ensures told { Tells (reports_on line (told (with_texts self.old texts.old)) event.now) (with_texts self.new texts.new) result }
        ensures domain { OnOk result (self.new.world.domain ≡ self.old.world.domain) }
        ensures stops { OnErr result (StopsIn line (with_texts self.old texts.old) (event.now ∷ []) (with_texts self.new texts.new)) }
    {
        let made = self.world.step(event)?;
        self.tell(texts, line, event, &made)?;
        Ok(())
    }

    /// Returns the directions of the domain's links, each of which joins two routers.
    pub(crate) fn directions(&self, alloc: Global) -> M<Rows<Direction>>
        ensures value { IfOk result (λ all. all ≡ run.directions self.now.world.domain.routers) }
        ensures joins { IfOk result (λ all. AllByRecursion (IsJoining self.now.world.domain.routers) all) }
    {
        let domain = self.world.domain();
        // The domain is valid, so the routers exist.
        let _routers = domain.routers.as_slice();
        directions(alloc, confs_of(domain))
    }

    /// Returns whether the interface of a direction is up.
    pub(crate) fn may_send(&self, direction: Direction) -> bool
        requires { IsJoining self.now.world.domain.routers direction }
        ensures { result ≡ run.may_send self.now.world direction }
    {
        self.world.router(direction.from).is_up(direction.link)
    }

    /// Sends on the interface of a direction. For most sends there is nothing to report. A send changes no count and adds
    /// nothing to the report, so the capture alone gains what was sent.
    fn send_one(
        &mut self,
        texts: &mut Texts,
        line: u32,
        direction: Direction,
    ) -> Result<(), EventFault>
        requires { IsJoining self.old.world.domain.routers direction }
        ensures told { Tells (reports_on line (told (with_texts self.old texts.old)) (events.Send direction.from direction.to)) (with_texts self.new texts.new) result }
        ensures domain { OnOk result (self.new.world.domain ≡ self.old.world.domain) }
        ensures stops { OnErr result (StopsIn line (with_texts self.old texts.old) (events.Send direction.from direction.to ∷ []) (with_texts self.new texts.new)) }
    {
        let Direction { from, link, to } = direction;
        let due = match self.world.send_on_link(from, link, to, &mut self.sent) {
            Ok(due) => due,
            Err(fault) => return Err(fault),
        };
        if !due {
            return Ok(());
        }
        let routers = confs_of(self.world.domain());
        push_frames(&mut texts.frames, self.recording, routers, line, &self.sent)?;
        Ok(())
    }

    /// Sends on the interface of a direction, if it is up.
    fn send_now(
        &mut self,
        texts: &mut Texts,
        line: u32,
        direction: Direction,
    ) -> Result<(), EventFault>
        requires { IsJoining self.old.world.domain.routers direction }
        ensures told { Tells (tells_all line (told (with_texts self.old texts.old)) (sends_of self.old.world direction)) (with_texts self.new texts.new) result }
        ensures domain { OnOk result (self.new.world.domain ≡ self.old.world.domain) }
        ensures stops { OnErr result (StopsIn line (with_texts self.old texts.old) (sends_of self.old.world direction) (with_texts self.new texts.new)) }
    {
        if !self.may_send(direction) {
            return Ok(());
        }
        self.send_one(texts, line, direction)
    }

    /// Sends on each interface that is up, direction by direction. No interface changes its state by that.
    fn do_sends(
        &mut self,
        texts: &mut Texts,
        line: u32,
        all: &[Direction],
    ) -> Result<(), EventFault>
        requires { AllByRecursion (IsJoining self.old.world.domain.routers) all.now }
        ensures told { Tells (tells_all line (told (with_texts self.old texts.old)) (sends_in self.old.world all.now)) (with_texts self.new texts.new) result }
        ensures domain { OnOk result (self.new.world.domain ≡ self.old.world.domain) }
        ensures stops { OnErr result (StopsIn line (with_texts self.old texts.old) (sends_in self.old.world all.now) (with_texts self.new texts.new)) }
    {
        for direction in all {
            self.send_now(texts, line, *direction)?;
        }
        Ok(())
    }

    /// Returns how many frames are in flight in a direction.
    pub(crate) fn waiting(&self, direction: Direction) -> usize
        requires { IsJoining self.now.world.domain.routers direction }
        ensures { result ≡ length (frames_between self.now.world direction.from direction.to) }
    {
        self.world.frames_over(direction.from, direction.link)
    }

    /// Returns the interface at which a direction arrives: a link has two.
    fn facing(&self, direction: Direction) -> Option<u16>
        requires { IsJoining self.now.world.domain.routers direction }
        ensures link { result ≡ link_between self.now.world.domain.routers direction.to direction.from }
        ensures some { result ≢ None }
    {
        let Direction { from, link, to } = direction;
        self.world.back(from, link, to)
    }

    /// Delivers the first frame in a direction, at the interface `back`. For most frames there is nothing to report.
    fn take_one(
        &mut self,
        texts: &mut Texts,
        line: u32,
        direction: Direction,
        back: u16,
    ) -> Result<(), EventFault>
        requires joins { IsJoining self.old.world.domain.routers direction }
        requires facing { link_between self.old.world.domain.routers direction.to direction.from ≡ Some back }
        ensures told { Tells (reports_on line (told (with_texts self.old texts.old)) (events.Take direction.from direction.to 0)) (with_texts self.new texts.new) result }
        ensures domain { OnOk result (self.new.world.domain ≡ self.old.world.domain) }
        ensures stops { OnErr result (StopsIn line (with_texts self.old texts.old) (events.Take direction.from direction.to 0 ∷ []) (with_texts self.new texts.new)) }
    {
        let Direction { from, link, to } = direction;
        let some = match self
            .world
            .take_on_link(from, link, to, back, &mut self.made)
        {
            Ok(some) => some,
            Err(fault) => return Err(fault),
        };
        if !some {
            return Ok(());
        }
        let event = Event::Take { from, to, i: 0 };
        let counts = self.counts.with(&event, &self.made)?;
        let routers = confs_of(self.world.domain());
        push_made(texts, self.recording, routers, line, &self.made)?;
        self.counts = counts;
        Ok(())
    }

    /// Delivers as many frames as are in flight in a direction now.
    fn take_now(
        &mut self,
        texts: &mut Texts,
        line: u32,
        direction: Direction,
    ) -> Result<(), EventFault>
        requires { IsJoining self.old.world.domain.routers direction }
        ensures told { Tells (tells_all line (told (with_texts self.old texts.old)) (taken_now self.old.world direction)) (with_texts self.new texts.new) result }
        ensures domain { OnOk result (self.new.world.domain ≡ self.old.world.domain) }
        ensures stops { OnErr result (StopsIn line (with_texts self.old texts.old) (taken_now self.old.world direction) (with_texts self.new texts.new)) }
    {
        let count = self.waiting(direction);
        if count == 0 {
            return Ok(());
        }
        let Some(back) = self.facing(direction) else {
            return Ok(());
        };
        for _time in 0..count {
            self.take_one(texts, line, direction, back)?;
        }
        Ok(())
    }

    /// Delivers to all routers what is in flight to them, direction by direction.
    fn do_takes(
        &mut self,
        texts: &mut Texts,
        line: u32,
        all: &[Direction],
    ) -> Result<(), EventFault>
        requires { AllByRecursion (IsJoining self.old.world.domain.routers) all.now }
        ensures told { Tells (tells_all line (told (with_texts self.old texts.old)) (run.round_takes self.old.world all.now)) (with_texts self.new texts.new) result }
        ensures domain { OnOk result (self.new.world.domain ≡ self.old.world.domain) }
        ensures stops { OnErr result (StopsIn line (with_texts self.old texts.old) (run.round_takes self.old.world all.now) (with_texts self.new texts.new)) }
    {
        for direction in all {
            self.take_now(texts, line, *direction)?;
        }
        Ok(())
    }

    /// Executes a round: all routers send what is due, and then all receive.
    pub(crate) fn do_round(
        &mut self,
        texts: &mut Texts,
        line: u32,
        all: &[Direction],
    ) -> Result<(), EventFault>
        requires value { all.now ≡ run.directions self.old.world.domain.routers }
        requires joins { AllByRecursion (IsJoining self.old.world.domain.routers) all.now }
        ensures told { Tells (tells_all line (told (with_texts self.old texts.old)) (round_events self.old.world)) (with_texts self.new texts.new) result }
        ensures domain { OnOk result (self.new.world.domain ≡ self.old.world.domain) }
        ensures stops { OnErr result (StopsIn line (with_texts self.old texts.old) (round_events self.old.world) (with_texts self.new texts.new)) }
    {
        self.do_sends(texts, line, all)?;
        self.do_takes(texts, line, all)
    }

    /// Executes that many rounds. Once nothing is due and nothing in flight, the events of each further round are only counted.
    fn do_rounds(
        &mut self,
        texts: &mut Texts,
        line: u32,
        all: &[Direction],
        rounds: u32,
    ) -> Result<(), EventFault>
        requires value { all.now ≡ run.directions self.old.world.domain.routers }
        requires joins { AllByRecursion (IsJoining self.old.world.domain.routers) all.now }
        ensures told { Tells (tells_all line (told (with_texts self.old texts.old)) (run.settle_events self.old.world rounds)) (with_texts self.new texts.new) result }
        ensures stops { OnErr result (StopsIn line (with_texts self.old texts.old) (run.settle_events self.old.world rounds) (with_texts self.new texts.new)) }
    {
        let mut idle: Option<usize> = None;
        for _round in 0..rounds {
            self.next_round(texts, line, all, &mut idle)?;
        }
        Ok(())
    }

    /// Executes one event of a line, with the numbers that its types allow.
    #[tactic(auto, using(crate::proofs::LineTells::event_asked), unfolding(crate::specs::Telling::tells_line, crate::specs::Telling::tells_all))]
    pub(crate) fn do_one(
        &mut self,
        texts: &mut Texts,
        line: u32,
        event: &Event,
    ) -> Result<(), EventFault>
        requires fits { lines.EventFits (length self.old.world.domain.routers) event.now }
        requires once { NamesOnce event.now }
        ensures told { Tells (tells_line line (with_texts self.old texts.old) (says.One event.now)) (with_texts self.new texts.new) result }
        ensures stops { OnErr result (StopsIn line (with_texts self.old texts.old) (event.now ∷ []) (with_texts self.new texts.new)) }
    {
        numbers_fit(event);
        self.do_event(texts, line, event)
    }

    /// Executes the events of a line.
    #[tactic(auto, using(crate::proofs::LineTells::event_asked), unfolding(crate::specs::Telling::tells_line, crate::specs::Telling::tells_all))]
    pub(crate) fn do_line(
        &mut self,
        texts: &mut Texts,
        line: u32,
        all: &[Direction],
        said: &Line,
    ) -> Result<(), EventFault>
        requires value { all.now ≡ run.directions self.old.world.domain.routers }
        requires joins { AllByRecursion (IsJoining self.old.world.domain.routers) all.now }
        requires fits { LineFits (length self.old.world.domain.routers) said.now }
        requires once { LineNamesOnce said.now }
        ensures told { Tells (tells_line line (with_texts self.old texts.old) said.now) (with_texts self.new texts.new) result }
        ensures stops { OnErr result (StopsIn line (with_texts self.old texts.old) (line_events self.old.world said.now) (with_texts self.new texts.new)) }
    {
        match said {
            Line::Empty => Ok(()),
            Line::One(event) => self.do_one(texts, line, event),
            Line::Settle(rounds) => self.do_rounds(texts, line, all, *rounds),
        }
    }
}
