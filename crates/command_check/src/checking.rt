//! A schedule that is checked, line by line.
ghost use Rattle.std.specs.Prelude.{◌≡◌, ◌≢◌, ◌+◌, ℕ, List, Result, length, IfOk, OnOk};
ghost use Rattle.wire_base.specs.declared.faults.EdgeFault.{EdgeFault};
ghost use Rattle.wire_base.specs.declared.faults.EdgeFault.TheVariants as edges;
ghost use Rattle.replay_text.specs.Check.{CheckFits};
ghost use Rattle.replay_report.specs.declared.recording.Recording.TheVariants.{Pcap};
ghost use Rattle.domain_replay.specs.Telling.{first_state};
ghost use Rattle.domain_core.specs.Cover.{Rejects};
ghost use Rattle.command_drive.specs.declared.command.Flow.TheVariants as flow;
ghost use Rattle.command_check.specs.Checked as turns;
ghost use Rattle.command_check.specs.Turning.{BeginsTurn, CheckNamesOnce, Covers};

use command_drive::{Close, Command, Flow, Texts};
use command_replay::Replaying;
use domain_model::EventFault;
use domain_replay::{Recording, push_cover, push_event_refused, push_quiet, push_text_refused};
use replay_text::{CheckLine, read_check_line};
use std::alloc::Global;
use wire_base::{Domain, EdgeFault, M, Memory, Octets, Rows, Status};

/// Returns out of memory, if that is the reason.
fn known(why: EdgeFault) -> M<()>
    ensures { OnOk result (why ≢ edges.Memory) }
{
    if why == EdgeFault::Memory {
        return Err(Memory);
    }
    Ok(())
}

/// A schedule in progress in a domain, whose lines may also be questions.
#[derive(Drop)]
pub struct Checking {
    pub replaying: Replaying,
}

impl Checking {
    /// Returns a domain that has just started, before the first line.
    pub fn new(alloc: Global, domain: Domain) -> M<Self>
        ensures replay { IfOk result (λ new. new.replaying.replay ≡ first_state Pcap domain) }
        ensures line { IfOk result (λ new. new.replaying.line ≡ 0) }
        ensures rounds { IfOk result (λ new. new.replaying.rounds ≡ 0) }
    {
        let replaying = Replaying::new(alloc, domain, Recording::Pcap)?;
        Ok(Checking { replaying })
    }

    /// Answers a `quiet` line.
    fn tell_quiet(&self, alloc: Global, texts: &mut Texts) -> M<Flow>
        ensures { IfOk result (λ how. BeginsTurn how self.now.replaying.line (turns.quiet_turn self.now.replaying.line self.now.replaying.replay) self.now.replaying.replay 0 texts.old texts.new) }
    {
        let line = self.replaying.line;
        let replay = &self.replaying.replay;
        let quiet = replay.quiet();
        push_quiet(alloc, &mut texts.report, replay.routers(), line, quiet)?;
        Ok(Flow::On)
    }

    /// Rejects a `cover` line as the injection would be rejected. Out of memory is returned.
    fn refuse_cover(&self, alloc: Global, why: EdgeFault, texts: &mut Texts) -> M<Flow>
        ensures { (cover : Result (List ℕ) EdgeFault) → Rejects cover why → IfOk result (λ how. BeginsTurn how self.now.replaying.line (turns.cover_turn self.now.replaying.line self.now.replaying.replay cover) self.now.replaying.replay 0 texts.old texts.new) }
    {
        known(why)?;
        let line = u64::from(self.replaying.line);
        push_event_refused(alloc, &mut texts.report, line, EventFault::Edge(why))?;
        Ok(Flow::Ends(Status::InputRefused))
    }

    /// Answers a `cover` line with the BFR-ids that are reached, or rejects it.
    fn tell_cover(
        &self,
        alloc: Global,
        covered: Result<Rows<u16>, EdgeFault>,
        texts: &mut Texts,
    ) -> M<Flow>
        ensures { (cover : Result (List ℕ) EdgeFault) → Covers cover covered → IfOk result (λ how. BeginsTurn how self.now.replaying.line (turns.cover_turn self.now.replaying.line self.now.replaying.replay cover) self.now.replaying.replay 0 texts.old texts.new) }
    {
        match covered {
            Ok(ids) => {
                push_cover(
                    alloc,
                    &mut texts.report,
                    self.replaying.line,
                    ids.as_slice(),
                )?;
                Ok(Flow::On)
            }
            Err(why) => self.refuse_cover(alloc, why, texts),
        }
    }

    /// Executes or answers the line that was begun. Rounds are left to `more`, since a round of a large domain reports
    /// much.
    fn begin(&mut self, alloc: Global, said: &CheckLine, texts: &mut Texts) -> M<Flow>
        requires fits { CheckFits (length self.old.replaying.replay.world.domain.routers) said.now }
        requires once { CheckNamesOnce said.now }
        requires rests { self.old.replaying.rounds ≡ 0 }
        ensures begins { IfOk result (λ how. BeginsTurn how self.old.replaying.line (turns.said_turn self.old.replaying.line said.now self.old.replaying.replay) self.new.replaying.replay self.new.replaying.rounds texts.old texts.new) }
        ensures rests { IfOk result (λ how. how ≡ flow.On → self.new.replaying.rounds ≡ 0) }
        ensures rest { self.new.replaying.line ≡ self.old.replaying.line }
    {
        match said {
            CheckLine::Base(said) => self.replaying.begin(alloc, said, texts),
            CheckLine::Quiet => self.tell_quiet(alloc, texts),
            CheckLine::Cover {
                router,
                sd,
                bsl,
                ids,
                ttl,
                entropy,
            } => {
                let replay = &self.replaying.replay;
                let covered = replay.cover(
                    alloc,
                    *router,
                    *sd,
                    *bsl,
                    ids.as_slice(),
                    *ttl,
                    *entropy,
                );
                self.tell_cover(alloc, covered, texts)
            }
        }
    }
}

impl Command<Octets> for Checking {
    ghost use Rattle.std.specs.Prelude.{ℕ, [], ◌-◌, ◌^◌};
    ghost use Rattle.std.proofs.Common.{ap};
    ghost use Rattle.wire_base.specs.declared.status.Status.TheVariants.{InputRefused};
    ghost use Rattle.command_drive.specs.Reading.{Cut};
    ghost use Rattle.command_replay.specs.Owed.{rounds_owe};
    ghost use Rattle.command_check.specs.Turning.{lines_owe};

    ghost owes = { λ s items behind. rounds_owe s.replaying.line s.replaying.rounds s.replaying.replay (lines_owe s.replaying.line items behind) };

    ghost refusal = { InputRefused };

    ghost waits = { λ s. s.replaying.rounds };

    ghost room = { λ s. 2 ^ 32 - 1 - s.replaying.line };

    ghost cut = { λ s rests. ap (λ (n : ℕ). rounds_owe s.replaying.line n s.replaying.replay (lines_owe s.replaying.line [] Cut)) rests };

    fn item(&mut self, alloc: Global, item: &Octets, texts: &mut Texts) -> M<Flow> {
        self.replaying.line += 1;
        match read_check_line(alloc, item.as_slice(), &self.replaying.names) {
            Ok(said) => self.begin(alloc, &said, texts),
            Err(why) => {
                let line = u64::from(self.replaying.line);
                push_text_refused(alloc, &mut texts.report, line, why)?;
                Ok(Flow::Ends(Status::InputRefused))
            }
        }
    }

    fn more(&mut self, alloc: Global, texts: &mut Texts) -> M<Flow> {
        self.replaying.round(alloc, texts)
    }

    fn close(&mut self, alloc: Global, close: Close, texts: &mut Texts) -> M<Status> {
        self.replaying.end(alloc, close, texts)
    }
}
