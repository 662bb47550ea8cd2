//! Rounds in which nothing is due and nothing is in flight. The sends of such a round change nothing, so they are only counted.
ghost use Rattle.std.specs.Prelude.{◌≡◌, ◌≤◌, ◌+◌, ◌∷◌, [], true, Some, IfSome, OnOk, OnErr};
ghost use Rattle.std.specs.List.{AllByRecursion};
ghost use Rattle.wire_base.specs.declared.limits.TheConstants.{MOST_EVENTS};
ghost use Rattle.domain_core.specs.Idle.{IsIdleSend};
ghost use Rattle.domain_model.specs.Run as run;
ghost use Rattle.domain_model.specs.Run.{round_events};
ghost use Rattle.domain_replay.specs.Replaying.{AreIdle, IsJoining, StopsIn, Tells, counting};
ghost use Rattle.domain_replay.specs.Telling.{told, tells_all, with_texts};

use crate::reported_world::ReportedWorld;
use domain_core::EventFault;
use replay_report::Direction;
use run_texts::Texts;
use wire_base::limits::MOST_EVENTS;

impl ReportedWorld {
    /// Returns true only if the interface of a direction may send and nothing is due there.
    fn is_idle(&self, direction: Direction) -> bool
        requires { IsJoining self.now.world.domain.routers direction }
        ensures { result ≡ true → IsIdleSend self.now.world direction.from direction.to }
    {
        self.world.is_idle(direction.from, direction.link)
    }

    /// Returns how many sends a round has in a direction, if nothing is due and nothing is in flight there.
    fn idle_sends_of(&self, direction: Direction) -> Option<usize>
        requires { IsJoining self.now.world.domain.routers direction }
        ensures idle { IfSome result (λ n. AreIdle self.now.world (direction ∷ []) n) }
        ensures few { IfSome result (λ n. n ≤ 1) }
    {
        if self.waiting(direction) > 0 {
            return None;
        }
        if !self.may_send(direction) {
            return Some(0);
        }
        if self.is_idle(direction) {
            Some(1)
        } else {
            None
        }
    }

    /// Returns how many sends a round has in those directions, if nothing is due and nothing is in flight in any of them.
    fn idle_sends(&self, all: &[Direction]) -> Option<usize>
        requires { AllByRecursion (IsJoining self.now.world.domain.routers) all.now }
        ensures { IfSome result (λ n. AreIdle self.now.world all.now n) }
    {
        let mut sends: usize = 0;
        for direction in all {
            let Some(more) = self.idle_sends_of(*direction) else {
                return None;
            };
            sends += more;
        }
        Some(sends)
    }

    /// Does the same if the last round delivered nothing, as far as the number of events before it tells.
    fn idle_after(&self, before: u32, all: &[Direction]) -> Option<usize>
        requires { AllByRecursion (IsJoining self.now.world.domain.routers) all.now }
        ensures { IfSome result (λ n. AreIdle self.now.world all.now n) }
    {
        let events = self.world.events().saturating_sub(before);
        if events as usize > all.len() {
            return None;
        }
        self.idle_sends(all)
    }

    /// Returns that many sends, if there are still that many events to be allowed.
    fn room_for(&self, sends: Option<usize>) -> Option<u32>
        ensures is { IfSome result (λ n. sends ≡ Some n) }
        ensures room { IfSome result (λ n. self.now.world.events + n ≤ MOST_EVENTS) }
    {
        let Some(sends) = sends else {
            return None;
        };
        let room = MOST_EVENTS - self.world.events();
        if sends > room as usize {
            return None;
        }
        Some(sends as u32)
    }

    /// Counts the sends of a round in which nothing is due.
    fn count_sends(&mut self, sends: u32)
        requires { self.old.world.events + sends ≤ MOST_EVENTS }
        ensures { self.new ≡ record self.old { world = counting self.old.world sends } }
    {
        self.world.count_events(sends);
    }

    /// Executes a round. `idle` has the number of its sends if nothing is due and nothing is in flight, as was found after the round
    /// before it.
    pub(crate) fn next_round(
        &mut self,
        texts: &mut Texts,
        line: u32,
        all: &[Direction],
        idle: &mut Option<usize>,
    ) -> Result<(), EventFault>
        requires value { all.now ≡ run.directions self.old.world.domain.routers }
        requires joins { AllByRecursion (IsJoining self.old.world.domain.routers) all.now }
        requires idle { IfSome idle.old (λ n. AreIdle self.old.world all.now n) }
        ensures told { Tells (tells_all line (told (with_texts self.old texts.old)) (round_events self.old.world)) (with_texts self.new texts.new) result }
        ensures domain { OnOk result (self.new.world.domain ≡ self.old.world.domain) }
        ensures stops { OnErr result (StopsIn line (with_texts self.old texts.old) (round_events self.old.world) (with_texts self.new texts.new)) }
        ensures idle { OnOk result (IfSome idle.new (λ n. AreIdle self.new.world all.now n)) }
    {
        if let Some(sends) = self.room_for(*idle) {
            self.count_sends(sends);
            return Ok(());
        }
        let before = self.world.events();
        self.do_round(texts, line, all)?;
        *idle = self.idle_after(before, all);
        Ok(())
    }
}
