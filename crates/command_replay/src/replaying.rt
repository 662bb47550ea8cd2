//! A schedule, line by line.
ghost use Rattle.std.specs.Prelude.{◌≡◌, ◌≢◌, ◌⊎◌, ◌<◌, ◌≤◌, ◌+◌, ◌^◌, ℕ, List, length, IfOk, OnOk};
ghost use Rattle.wire_base.specs.declared.limits.TheConstants.{MOST_ROUTERS};
ghost use Rattle.replay_text.specs.Events.{LineFits};
ghost use Rattle.domain_replay.specs.Telling.{first_state, tells_line, LineNamesOnce};
ghost use Rattle.domain_replay.specs.Texts.{names_of};
ghost use Rattle.wire_base.specs.declared.status.Status.TheVariants as status;
ghost use Rattle.command_drive.specs.declared.items.Close.TheVariants as closes;
ghost use Rattle.command_drive.specs.Doing.{Concludes};
ghost use Rattle.command_drive.specs.Reading.{Closed};
ghost use Rattle.command_drive.specs.declared.command.Flow.TheVariants as flow;
ghost use Rattle.domain_replay.specs.Parts.{unsaid};
ghost use Rattle.command_replay.specs.Owed.{ends, Does, Rounds, Begins};

use command_drive::{Close, Command, Flow, Texts};
use domain_replay::{Recording, Replay, push_event_refused, push_text_refused, push_too_long};
use replay_text::{Line, read_line};
use std::alloc::Global;
use wire_base::limits::MOST_ROUTERS;
use wire_base::{Domain, M, Name, Octets, Rows, Status};

/// Returns the names of a domain's routers, by index.
pub fn names_in(alloc: Global, domain: &Domain) -> M<Rows<Name>>
    ensures names { IfOk result (λ names. names ≡ names_of domain.now) }
    ensures few { IfOk result (λ names. length names ≤ MOST_ROUTERS) }
{
    let mut names = Rows::new(alloc);
    for router in domain.routers.as_slice() {
        names.push(router.name.copy()?)?;
    }
    Ok(names)
}

/// A schedule in progress in a domain: the names of the domain's routers, the number of the line that was begun last,
/// and the rounds of it that remain.
#[derive(Drop)]
pub struct Replaying {
    pub replay: Replay,
    pub names: Rows<Name>,
    pub line: u32,
    pub rounds: u32,
    pub ghost few: { length names ≤ MOST_ROUTERS },
    pub ghost named: { names ≡ names_of replay.world.domain },
}

impl Replaying {
    /// Returns a domain that has just started, before the first line, whose frames are recorded in that way.
    pub fn new(alloc: Global, domain: Domain, recording: Recording) -> M<Self>
        ensures replay { IfOk result (λ new. new.replay ≡ first_state recording domain) }
        ensures names { IfOk result (λ new. new.names ≡ names_of domain) }
        ensures line { IfOk result (λ new. new.line ≡ 0) }
        ensures rounds { IfOk result (λ new. new.rounds ≡ 0) }
    {
        let names = names_in(alloc, &domain)?;
        let replay = Replay::new(alloc, domain, recording)?;
        Ok(Replaying {
            replay,
            names,
            line: 0,
            rounds: 0,
        })
    }

    /// Executes the events of the line that was begun. The first one that is not allowed ends the run.
    fn do_events(&mut self, alloc: Global, said: &Line, texts: &mut Texts) -> M<Flow>
        requires fits { LineFits (length self.old.replay.world.domain.routers) said.now }
        requires once { LineNamesOnce said.now }
        ensures does { IfOk result (λ how. Does (List ℕ) how self.old.line (tells_line self.old.line (unsaid self.old.replay) said.now) self.new.replay texts.old texts.new) }
        ensures at_once { IfOk result (λ how. how ≢ flow.More) }
        ensures rest { (self.new.names ≡ self.old.names) × (self.new.line ≡ self.old.line) × (self.new.rounds ≡ self.old.rounds) }
    {
        match self.replay.line(texts, self.line, said) {
            Ok(()) => Ok(Flow::On),
            Err(why) => {
                push_event_refused(alloc, &mut texts.report, u64::from(self.line), why)?;
                Ok(Flow::Ends(Status::InputRefused))
            }
        }
    }

    /// Executes the line that was begun. Rounds are left to `more`, since a round of a large domain reports much.
    pub fn begin(&mut self, alloc: Global, said: &Line, texts: &mut Texts) -> M<Flow>
        requires fits { LineFits (length self.old.replay.world.domain.routers) said.now }
        requires once { LineNamesOnce said.now }
        requires rests { self.old.rounds ≡ 0 }
        ensures begins { IfOk result (λ how. Begins (List ℕ) how self.old.line said.now self.old.replay self.new.replay self.new.rounds texts.old texts.new) }
        ensures rests { IfOk result (λ how. how ≡ flow.On → self.new.rounds ≡ 0) }
        ensures rest { (self.new.names ≡ self.old.names) × (self.new.line ≡ self.old.line) }
    {
        if let Line::Settle(rounds) = said {
            self.rounds = *rounds;
            return Ok(Flow::More);
        }
        self.do_events(alloc, said, texts)
    }

    /// Executes a round of the line that was begun, if one remains.
    pub fn round(&mut self, alloc: Global, texts: &mut Texts) -> M<Flow>
        ensures goes { IfOk result (λ how. Rounds (List ℕ) how self.old.line self.old.rounds self.old.replay self.new.rounds self.new.replay texts.old texts.new) }
        ensures rests { IfOk result (λ how. how ≡ flow.On → self.new.rounds ≡ 0) }
        ensures fewer { IfOk result (λ how. how ≡ flow.More → self.new.rounds < self.old.rounds) }
        ensures rest { (self.new.names ≡ self.old.names) × (self.new.line ≡ self.old.line) }
    {
        if self.rounds == 0 {
            return Ok(Flow::On);
        }
        self.rounds -= 1;
        match self.do_events(alloc, &Line::Settle(1), texts)? {
            Flow::On => Ok(Flow::More),
            ended => Ok(ended),
        }
    }

    /// Ends the report after the last line of the schedule.
    pub fn end(&self, alloc: Global, close: Close, texts: &mut Texts) -> M<Status>
        ensures concluded { IfOk result (λ ended. Concludes ended (ends self.now.line (Closed close) self.now.replay) texts.old texts.new) }
        ensures done { IfOk result (λ ended. ended ≡ status.Done → close ≡ closes.Ended) }
        ensures statuses { IfOk result (λ ended. (ended ≡ status.Done) ⊎ (ended ≡ status.InputRefused)) }
    {
        let lines = u64::from(self.line);
        match close {
            Close::Ended => {
                self.replay.done(alloc, &mut texts.report, lines)?;
                Ok(Status::Done)
            }
            Close::TooLong => {
                push_too_long(alloc, &mut texts.report, lines + 1)?;
                Ok(Status::InputRefused)
            }
            // A text of lines is never invalid as a whole.
            Close::Broken(_) => Ok(Status::InputRefused),
        }
    }
}

impl Command<Octets> for Replaying {
    ghost use Rattle.std.specs.Prelude.{ℕ, [], ◌-◌, ◌^◌};
    ghost use Rattle.std.proofs.Common.{ap};
    ghost use Rattle.wire_base.specs.declared.status.Status.TheVariants.{InputRefused};
    ghost use Rattle.command_drive.specs.Reading.{Cut};
    ghost use Rattle.command_replay.specs.Owed.{rounds_owe, lines_owe};

    ghost owes = { λ s items behind. rounds_owe s.line s.rounds s.replay (lines_owe s.names s.line items behind) };

    ghost refusal = { InputRefused };

    ghost waits = { λ s. s.rounds };

    ghost room = { λ s. 2 ^ 32 - 1 - s.line };

    ghost cut = { λ s rests. ap (λ (n : ℕ). rounds_owe s.line n s.replay (lines_owe s.names s.line [] Cut)) rests };

    fn item(&mut self, alloc: Global, item: &Octets, texts: &mut Texts) -> M<Flow> {
        self.line += 1;
        match read_line(alloc, item.as_slice(), &self.names) {
            Ok(said) => self.begin(alloc, &said, texts),
            Err(why) => {
                push_text_refused(alloc, &mut texts.report, u64::from(self.line), why)?;
                Ok(Flow::Ends(Status::InputRefused))
            }
        }
    }

    fn more(&mut self, alloc: Global, texts: &mut Texts) -> M<Flow> {
        self.round(alloc, texts)
    }

    fn close(&mut self, alloc: Global, close: Close, texts: &mut Texts) -> M<Status> {
        self.end(alloc, close, texts)
    }
}
