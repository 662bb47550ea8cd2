//! A schedule with hellos, line by line.
ghost use Rattle.std.specs.Prelude.{◌≡◌, ◌≢◌, ◌≤◌, ◌+◌, ℕ, List, Result, length, None, IfOk, OnOk};
ghost use Rattle.wire_base.specs.declared.limits.TheConstants.{MOST_ROUTERS};
ghost use Rattle.replay_text.specs.Events as lines;
ghost use Rattle.replay_text.specs.Hand.{HandFits};
ghost use Rattle.replay_report.specs.declared.recording.Recording.TheVariants.{Pcap};
ghost use Rattle.domain_replay.specs.Counting.{NamesOnce};
ghost use Rattle.domain_replay.specs.Telling.{LineNamesOnce};
ghost use Rattle.domain_replay.specs.Texts.{names_of};
ghost use Rattle.domain_handshake.specs.Doing as doing;
ghost use Rattle.domain_handshake.specs.Handshakes.{HandState, Outcome, start_does, event_does, hello_does, round_does, base_does};
ghost use Rattle.command_drive.specs.declared.command.Flow.TheVariants as flow;
ghost use Rattle.command_handshake.specs.Owed.{Does, Begins, HandNamesOnce};
ghost use Rattle.command_handshake.specs.Shaken.{said_does};

use command_drive::{Close, Command, Flow, Texts};
use command_replay::names_in;
use domain_handshake::Handshakes;
use domain_model::EventFault;
use domain_replay::{Recording, push_event_refused, push_text_refused, push_too_long};
use replay_text::{Event, HandLine, Line, read_hand_line};
use std::alloc::Global;
use wire_base::limits::MOST_ROUTERS;
use wire_base::{Domain, HelloEvent, M, Name, Octets, Rows, Status};

/// Returns how a run continues after a part of a line. An event that is not allowed ends it, and is reported.
fn flow_after(alloc: Global, done: Result<(), EventFault>, line: u32, texts: &mut Texts) -> M<Flow>
    ensures does { (o : Outcome) (now : HandState) (before : Texts) → doing.Does o now before texts.old done → IfOk result (λ how. Does (List ℕ) how line o now before texts.new) }
    ensures at_once { IfOk result (λ how. how ≢ flow.More) }
{
    match done {
        Ok(()) => Ok(Flow::On),
        Err(why) => {
            push_event_refused(alloc, &mut texts.report, u64::from(line), why)?;
            Ok(Flow::Ends(Status::InputRefused))
        }
    }
}

/// A schedule in progress in a domain: the names of the domain's routers, the number of the line that was begun last, and the rounds
/// of it that remain.
#[derive(Drop)]
pub struct Shaking {
    hands: Handshakes,
    names: Rows<Name>,
    line: u32,
    rounds: u32,
    ghost few: { length names ≤ MOST_ROUTERS },
    ghost named: { names ≡ names_of hands.replay.world.domain },
}

impl Shaking {
    /// Returns a domain that has just started and whose interfaces then went down, before the first line.
    ///
    /// The error is out of memory: an interface that is up may go down.
    pub fn new(alloc: Global, domain: Domain, texts: &mut Texts) -> Result<Self, EventFault>
        ensures started { IfOk result (λ new. doing.Did (start_does Pcap domain) new.hands None texts.old texts.new) }
        ensures line { IfOk result (λ new. new.line ≡ 0) }
        ensures rounds { IfOk result (λ new. new.rounds ≡ 0) }
    {
        let names = names_in(alloc, &domain)?;
        let hands = Handshakes::new(alloc, domain, Recording::Pcap, texts)?;
        Ok(Shaking {
            hands,
            names,
            line: 0,
            rounds: 0,
        })
    }

    /// Executes an event of the line that was begun.
    fn do_event(&mut self, alloc: Global, event: &Event, texts: &mut Texts) -> M<Flow>
        requires fits { lines.EventFits (length self.old.hands.replay.world.domain.routers) event.now }
        requires once { NamesOnce event.now }
        ensures does { IfOk result (λ how. Does (List ℕ) how self.old.line (event_does self.old.line self.old.hands event.now) self.new.hands texts.old texts.new) }
        ensures at_once { IfOk result (λ how. how ≢ flow.More) }
        ensures rest { (self.new.names ≡ self.old.names) × (self.new.line ≡ self.old.line) × (self.new.rounds ≡ self.old.rounds) }
    {
        let done = self.hands.event(texts, self.line, event);
        flow_after(alloc, done, self.line, texts)
    }

    /// Executes an event of hellos of the line that was begun.
    fn do_hello(&mut self, alloc: Global, event: &HelloEvent, texts: &mut Texts) -> M<Flow>
        ensures does { IfOk result (λ how. Does (List ℕ) how self.old.line (hello_does self.old.line self.old.hands event.now) self.new.hands texts.old texts.new) }
        ensures at_once { IfOk result (λ how. how ≢ flow.More) }
        ensures rest { (self.new.names ≡ self.old.names) × (self.new.line ≡ self.old.line) × (self.new.rounds ≡ self.old.rounds) }
    {
        let done = self.hands.hello(texts, self.line, event);
        flow_after(alloc, done, self.line, texts)
    }

    /// Executes a round of the line that was begun.
    fn do_round(&mut self, alloc: Global, texts: &mut Texts) -> M<Flow>
        ensures does { IfOk result (λ how. Does (List ℕ) how self.old.line (round_does self.old.line self.old.hands) self.new.hands texts.old texts.new) }
        ensures at_once { IfOk result (λ how. how ≢ flow.More) }
        ensures rest { (self.new.names ≡ self.old.names) × (self.new.line ≡ self.old.line) × (self.new.rounds ≡ self.old.rounds) }
    {
        let done = self.hands.round(texts, self.line);
        flow_after(alloc, done, self.line, texts)
    }

    /// Executes a line of a schedule. Rounds are left to `more`, since a round of a large domain reports much.
    fn begin_base(&mut self, alloc: Global, said: &Line, texts: &mut Texts) -> M<Flow>
        requires fits { lines.LineFits (length self.old.hands.replay.world.domain.routers) said.now }
        requires once { LineNamesOnce said.now }
        requires rests { self.old.rounds ≡ 0 }
        ensures begins { IfOk result (λ how. Begins (List ℕ) how self.old.line (base_does self.old.line self.old.hands said.now) self.new.hands self.new.rounds texts.old texts.new) }
        ensures rests { IfOk result (λ how. how ≡ flow.On → self.new.rounds ≡ 0) }
        ensures rest { (self.new.names ≡ self.old.names) × (self.new.line ≡ self.old.line) }
    {
        match said {
            Line::Empty => Ok(Flow::On),
            Line::One(event) => self.do_event(alloc, event, texts),
            Line::Settle(rounds) => {
                self.rounds = *rounds;
                Ok(Flow::More)
            }
        }
    }

    /// Executes the line that was begun.
    fn begin(&mut self, alloc: Global, said: &HandLine, texts: &mut Texts) -> M<Flow>
        requires fits { HandFits (length self.old.hands.replay.world.domain.routers) said.now }
        requires once { HandNamesOnce said.now }
        requires rests { self.old.rounds ≡ 0 }
        ensures begins { IfOk result (λ how. Begins (List ℕ) how self.old.line (said_does self.old.line self.old.hands said.now) self.new.hands self.new.rounds texts.old texts.new) }
        ensures rests { IfOk result (λ how. how ≡ flow.On → self.new.rounds ≡ 0) }
        ensures rest { (self.new.names ≡ self.old.names) × (self.new.line ≡ self.old.line) }
    {
        match said {
            HandLine::Base(said) => self.begin_base(alloc, said, texts),
            HandLine::Hello(event) => self.do_hello(alloc, event, texts),
        }
    }
}

impl Command<Octets> for Shaking {
    ghost use Rattle.std.specs.Prelude.{ℕ, [], ◌-◌, ◌^◌};
    ghost use Rattle.std.proofs.Common.{ap};
    ghost use Rattle.command_drive.specs.Reading.{Cut};
    ghost use Rattle.wire_base.specs.declared.status.Status.TheVariants.{InputRefused};
    ghost use Rattle.command_handshake.specs.Owed.{rounds_owe, lines_owe};

    ghost owes = { λ s items behind. rounds_owe s.line s.rounds s.hands (lines_owe s.line items behind) };

    ghost refusal = { InputRefused };

    ghost waits = { λ s. s.rounds };

    ghost room = { λ s. 2 ^ 32 - 1 - s.line };

    ghost cut = { λ s rests. ap (λ (n : ℕ). rounds_owe s.line n s.hands (lines_owe s.line [] Cut)) rests };

    fn item(&mut self, alloc: Global, item: &Octets, texts: &mut Texts) -> M<Flow> {
        self.line += 1;
        match read_hand_line(alloc, item.as_slice(), &self.names) {
            Ok(said) => self.begin(alloc, &said, texts),
            Err(why) => {
                push_text_refused(alloc, &mut texts.report, u64::from(self.line), why)?;
                Ok(Flow::Ends(Status::InputRefused))
            }
        }
    }

    fn more(&mut self, alloc: Global, texts: &mut Texts) -> M<Flow> {
        if self.rounds == 0 {
            return Ok(Flow::On);
        }
        self.rounds -= 1;
        match self.do_round(alloc, texts)? {
            Flow::On => Ok(Flow::More),
            ended => Ok(ended),
        }
    }

    fn close(&mut self, alloc: Global, close: Close, texts: &mut Texts) -> M<Status> {
        let lines = u64::from(self.line);
        match close {
            Close::Ended => {
                self.hands.done(alloc, &mut texts.report, lines)?;
                Ok(Status::Done)
            }
            Close::TooLong => {
                push_too_long(alloc, &mut texts.report, lines + 1)?;
                Ok(Status::InputRefused)
            }
            // A text of lines is never invalid as a whole.
            Close::Broken(_) => Ok(Status::InputRefused),
        }
    }
}
