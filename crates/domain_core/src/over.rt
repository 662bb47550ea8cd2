//! Sends and receives on links whose interfaces are known.
ghost use Rattle.std.specs.Prelude.{◌≡◌, ◌<◌, ◌≤◌, ◌+◌, ◌⊎◌, [], ℕ, true, false, length, Some, None, IfOk, OnOk, OnErr, IfErr, MatchResult};
ghost use Rattle.wire_base.specs.declared.limits.TheConstants.{MOST_EVENTS};
ghost use Rattle.replay_text.specs.declared.event.Event.TheVariants as events;
ghost use Rattle.domain_core.specs.Answers.{outcome, sent_outcome, taken_outcome, Refuses, Stays};
ghost use Rattle.domain_core.specs.Held.{state_of, world_in, heard_in};
ghost use Rattle.domain_core.specs.Idle.{IsIdleSend};
ghost use Rattle.domain_core.specs.Network.{IsAsBefore, IsTrueNetwork, heard_after, seen_of};
ghost use Rattle.frames_in_flight.specs.Told.{told};
ghost use Rattle.domain_model.specs.Faults.{event_fault};
ghost use Rattle.domain_model.specs.Step.{happens};
ghost use Rattle.domain_model.specs.World.{link_between};

use crate::network::Network;
use domain_model::{EventFault, StepOut, WireFrames};
use std::alloc::Global;
use wire_base::limits::MOST_EVENTS;

/// Returns what an event reports, or the empty report if there is nothing to report.
pub(crate) fn or_nothing(alloc: Global, made: Option<StepOut>) -> StepOut
    ensures { result ≡ outcome made }
{
    match made {
        Some(out) => out,
        None => StepOut::nothing(alloc),
    }
}

impl Network {
    /// Returns the first reason why nothing may be sent on an interface.
    #[tactic(auto, unfolding(domain_model::specs::Faults::event_fault))]
    fn send_fault_at(&self, from: u16, link: u16, to: u16) -> Option<EventFault>
        requires place { from < length self.now.routers.items }
        requires joined { link_between self.now.domain.routers from to ≡ Some link }
        ensures { result ≡ event_fault (world_in self.now) (events.Send from to) }
    {
        if self.events >= MOST_EVENTS {
            return Some(EventFault::Events);
        }
        self.send_fault_over(from, link)
    }

    /// Returns the first reason why the frame at an index that was sent on an interface cannot be delivered.
    #[tactic(auto, unfolding(domain_model::specs::Faults::event_fault))]
    fn take_fault_at(&self, from: u16, link: u16, to: u16, i: u32) -> Option<EventFault>
        requires joined { link_between self.now.domain.routers from to ≡ Some link }
        ensures { result ≡ event_fault (world_in self.now) (events.Take from to i) }
    {
        if self.events >= MOST_EVENTS {
            return Some(EventFault::Events);
        }
        self.take_fault_over(from, link, i)
    }

    /// Returns true only if a router may send on the interface `link` and nothing is due there. Such a send changes
    /// nothing but the number of events.
    pub(crate) fn is_idle(&self, from: u16, link: u16) -> bool
        requires truth { IsTrueNetwork (state_of self.now) }
        requires place { from < length self.now.routers.items }
        ensures { (to : ℕ) → result ≡ true → link_between self.now.domain.routers from to ≡ Some link → IsIdleSend (world_in self.now) from to }
    {
        if let Some(_fault) = self.send_fault_over(from, link) {
            return false;
        }
        self.owes_nothing(from, link)
    }

    /// Counts that many events that changed nothing else.
    pub(crate) fn count_events(&mut self, events: u32)
        requires truth { IsTrueNetwork (state_of self.old) }
        requires few { self.old.events + events ≤ MOST_EVENTS }
        ensures state { state_of self.new ≡ record (state_of self.old) { events = self.old.events + events } }
        ensures kept { IsTrueNetwork (state_of self.new) }
    {
        self.events += events;
    }

    /// Executes and counts the event in which a router sends on the interface `link` toward another, if it is allowed. Returns
    /// whether anything was due; if so, these frames replace the ones in `sent`.
    #[tactic(auto, using(crate::proofs::EventLaws::as_many))]
    pub(crate) fn step_send(
        &mut self,
        from: u16,
        link: u16,
        to: u16,
        sent: &mut WireFrames,
    ) -> Result<bool, EventFault>
        requires truth { IsTrueNetwork (state_of self.old) }
        requires places { (from < length self.old.domain.routers) × (to < length self.old.domain.routers) }
        requires joined { link_between self.old.domain.routers from to ≡ Some link }
        ensures refused { MatchResult result (λ _. event_fault (world_in self.old) (events.Send from to) ≡ None) (λ e. Refuses (event_fault (world_in self.old) (events.Send from to)) e) }
        ensures world { OnOk result (world_in self.new ≡ (happens (world_in self.old) (events.Send from to)).world) }
        ensures told { IfOk result (λ due. sent_outcome due sent.new ≡ told self.old.domain.routers (happens (world_in self.old) (events.Send from to)).made) }
        ensures idle { IfOk result (λ due. due ≡ false → sent.new ≡ sent.old) }
        ensures none { OnErr result ((sent.new ≡ sent.old) ⊎ (sent.new ≡ [])) }
        ensures heard { OnOk result (heard_in self.new ≡ heard_in self.old) }
        ensures kept { IsTrueNetwork (state_of self.new) }
        ensures stays { OnErr result (state_of self.new ≡ state_of self.old) }
        ensures domain { self.new.domain ≡ self.old.domain }
    {
        if let Some(fault) = self.send_fault_at(from, link, to) {
            return Err(fault);
        }
        if self.owes_nothing(from, link) {
            self.events += 1;
            return Ok(false);
        }
        self.send_on_link(from, link, to, sent)?;
        self.events += 1;
        Ok(true)
    }

    /// Executes and counts the event that delivers the frame at an index, which was sent on the interface `link` and
    /// arrives at the interface `back`, if it is allowed. Returns whether there is anything to report, which is then
    /// written to `made`.
    #[tactic(auto, using(crate::proofs::EventLaws::as_many))]
    pub(crate) fn step_take(
        &mut self,
        from: u16,
        link: u16,
        to: u16,
        back: u16,
        i: u32,
        made: &mut StepOut,
    ) -> Result<bool, EventFault>
        requires truth { IsTrueNetwork (state_of self.old) }
        requires places { (from < length self.old.domain.routers) × (to < length self.old.domain.routers) }
        requires joined { link_between self.old.domain.routers from to ≡ Some link }
        requires facing { link_between self.old.domain.routers to from ≡ Some back }
        ensures refused { MatchResult result (λ _. event_fault (world_in self.old) (events.Take from to i) ≡ None) (λ e. Refuses (event_fault (world_in self.old) (events.Take from to i)) e) }
        ensures world { OnOk result (world_in self.new ≡ (happens (world_in self.old) (events.Take from to i)).world) }
        ensures told { IfOk result (λ some. taken_outcome some made.new ≡ told self.old.domain.routers (happens (world_in self.old) (events.Take from to i)).made) }
        ensures idle { IfOk result (λ some. some ≡ false → made.new ≡ made.old) }
        ensures none { OnErr result (made.new ≡ made.old) }
        ensures heard { OnOk result (heard_in self.new ≡ heard_after (world_in self.old) (heard_in self.old) (events.Take from to i)) }
        ensures kept { IsTrueNetwork (state_of self.new) }
        ensures stays { IfErr result (λ e. Stays (state_of self.new ≡ state_of self.old) e) }
        ensures whole { OnErr result (IsAsBefore (seen_of (state_of self.old)) (seen_of (state_of self.new)) (events.Take from to i)) }
        ensures domain { self.new.domain ≡ self.old.domain }
    {
        if let Some(fault) = self.take_fault_at(from, link, to, i) {
            return Err(fault);
        }
        let some = self.take_on_link(from, link, to, back, i, made)?;
        self.events += 1;
        Ok(some)
    }
}
