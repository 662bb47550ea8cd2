//! The schedule of a generated domain, line by line.
ghost use Rattle.std.specs.Prelude.{◌≡◌, ◌≤◌, ◌++◌, length, IfOk, OnOk};
ghost use Rattle.wire_base.specs.declared.limits.TheConstants.{MOST_ROUTERS};
ghost use Rattle.domain_model.specs.World.{ids_in_flight};
ghost use Rattle.replay_report.specs.declared.recording.Recording.TheVariants as recordings;
ghost use Rattle.domain_replay.specs.Telling.{first_state};
ghost use Rattle.grown_domain.specs.Domain.{grown_domain};
ghost use Rattle.command_grow.specs.Grow as spec;

use command_drive::{Close, Command, Flow, Found, Items, NoSource, Texts};
use domain_replay::{Recording, Replay, push_event_refused};
use grown_domain::{GrownLine, grown};
use std::alloc::Global;
use wire_base::{M, Octets, Status};

/// The length in octets of what precedes the counts in the last line of a report on that schedule, `done lines 18`.
const FRONT: usize = 13;

/// The lines of the schedule for a generated domain, one after the other: how many were returned, and the last of them.
#[derive(Drop)]
pub struct GrownLines {
    given: u16,
    line: GrownLine,
}

impl GrownLines {
    pub fn new() -> Self
        ensures { result.given ≡ 0 }
    {
        GrownLines {
            given: 0,
            line: GrownLine::Settle,
        }
    }
}

impl Items<GrownLine, NoSource> for GrownLines {
    ghost use Rattle.std.specs.Prelude.{◌-◌, false};
    ghost use Rattle.command_drive.specs.declared.items.Close.TheVariants as closes;
    ghost use Rattle.command_drive.specs.Reading.{Closed};
    ghost use Rattle.command_grow.specs.Counted.{lines_from};

    ghost reads = { λ s end octets. record { items = lines_from s.given (18 - s.given); behind = Closed closes.Ended } };

    ghost last = { λ s. s.line };

    ghost most = { λ s. 18 - s.given };

    ghost waits = { λ _. false };

    fn next(&mut self, _alloc: Global, _input: &mut NoSource) -> M<Found> {
        if self.given >= GrownLine::COUNT {
            return Ok(Found::Closed(Close::Ended));
        }
        self.line = GrownLine::at(self.given);
        self.given += 1;
        Ok(Found::Item)
    }

    fn item(&self) -> &GrownLine {
        &self.line
    }
}

/// A generated domain of `n` routers that runs its schedule, and the number of the line that was begun last. What the
/// events report is counted and not written.
#[derive(Drop)]
pub struct Growing {
    replay: Replay,
    n: u16,
    line: u32,
    ghost few: { n ≤ MOST_ROUTERS },
    ghost some: { 3 ≤ n },
    ghost routers: { length replay.world.domain.routers ≡ n },
}

impl Growing {
    /// Returns the domain just started, before the first line.
    pub fn new(alloc: Global, n: u16) -> M<Self>
        requires some { 3 ≤ n }
        requires few { n ≤ MOST_ROUTERS }
        ensures replay { IfOk result (λ new. new.replay ≡ first_state recordings.Discarded (grown_domain n)) }
        ensures n { IfOk result (λ new. new.n ≡ n) }
        ensures line { IfOk result (λ new. new.line ≡ 0) }
    {
        let replay = Replay::new(alloc, grown(alloc, n)?, Recording::Discarded)?;
        Ok(Growing { replay, n, line: 0 })
    }

    /// Appends the counts of the run.
    fn push_summary(&self, alloc: Global, report: &mut Octets) -> M<()>
        ensures { OnOk result (report.new ≡ report.old ++ spec.summary self.now.n self.now.replay.counts (ids_in_flight self.now.replay.world.flights)) }
    {
        let mut done = Octets::new(alloc);
        self.replay
            .done(alloc, &mut done, u64::from(GrownLine::COUNT))?;
        report.append(b"grow ")?;
        report.append_number(u64::from(self.n))?;
        report.append(&done.as_slice()[FRONT..])
    }
}

impl Command<GrownLine> for Growing {
    ghost use Rattle.std.specs.Prelude.{◌-◌, ◌^◌, refl};
    ghost use Rattle.wire_base.specs.declared.status.Status.TheVariants.{InputRefused};
    ghost use Rattle.command_grow.specs.Counted.{lines_owe};

    ghost owes = { λ s items behind. lines_owe s.n s.line items behind s.replay };

    ghost refusal = { InputRefused };

    ghost waits = { λ s. 0 };

    ghost room = { λ s. 2 ^ 32 - 1 - s.line };

    ghost cut = { λ s rests. refl };

    fn item(&mut self, alloc: Global, item: &GrownLine, texts: &mut Texts) -> M<Flow> {
        self.line += 1;
        let said = item.line(alloc, self.n)?;
        let mut unwritten = Texts::new(alloc);
        match self.replay.line(&mut unwritten, self.line, &said) {
            Ok(()) => Ok(Flow::On),
            Err(why) => {
                push_event_refused(alloc, &mut texts.report, u64::from(self.line), why)?;
                Ok(Flow::Ends(Status::InputRefused))
            }
        }
    }

    fn more(&mut self, _alloc: Global, _texts: &mut Texts) -> M<Flow> {
        Ok(Flow::On)
    }

    fn close(&mut self, alloc: Global, close: Close, texts: &mut Texts) -> M<Status> {
        match close {
            Close::Ended => {
                self.push_summary(alloc, &mut texts.report)?;
                Ok(Status::Done)
            }
            // A generated schedule is neither too long nor invalid.
            Close::TooLong | Close::Broken(_) => Ok(Status::InputRefused),
        }
    }
}
