//! The dispatch of one event of any kind.
ghost use Rattle.std.specs.Prelude.{◌≡◌, length, None, IfOk, OnOk, OnErr, IfErr, MatchResult};
ghost use Rattle.domain_core.specs.Answers.{early_fault, Refuses, Stays};
ghost use Rattle.frames_in_flight.specs.Told.{told};
ghost use Rattle.domain_model.specs.Faults.{event_fault};
ghost use Rattle.domain_core.specs.Held.{state_of, world_in, heard_in, IsDone};
ghost use Rattle.domain_core.specs.Network.{IsAsBefore, IsTrueNetwork, heard_after, seen_of};
ghost use Rattle.domain_model.specs.Step.{doing, happens};
ghost use Rattle.domain_model.specs.Truth.{EventFits, AreWorldDrops};

use crate::network::Network;
use domain_model::{EventFault, StepOut};
use replay_text::Event;

impl Network {
    /// Executes an event that its own rules allow, and counts it. It fails if a router rejects the event, or if an
    /// allocation fails.
    pub(crate) fn execute(&mut self, event: &Event) -> Result<StepOut, EventFault>
        requires truth { IsTrueNetwork (state_of self.old) }
        requires fits { EventFits (length self.old.domain.routers) event.now }
        requires allowed { early_fault (world_in self.old) event.now ≡ None }
        ensures refused { MatchResult result (λ _. event_fault (world_in self.old) event.now ≡ None) (λ e. Refuses (event_fault (world_in self.old) event.now) e) }
        ensures world { OnOk result (world_in self.new ≡ (happens (world_in self.old) event.now).world) }
        ensures told { IfOk result (λ out. out ≡ told self.old.domain.routers (happens (world_in self.old) event.now).made) }
        ensures drops { IfOk result (λ out. AreWorldDrops out.drops) }
        ensures heard { OnOk result (heard_in self.new ≡ heard_after (world_in self.old) (heard_in self.old) event.now) }
        ensures kept { IsTrueNetwork (state_of self.new) }
        ensures stays { IfErr result (λ e. Stays (state_of self.new ≡ state_of self.old) e) }
        ensures whole { OnErr result (IsAsBefore (seen_of (state_of self.old)) (seen_of (state_of self.new)) event.now) }
        ensures domain { self.new.domain ≡ self.old.domain }
    {
        let out = self.dispatch(event)?;
        self.events += 1;
        Ok(out)
    }

    /// Executes an event without counting it.
    fn dispatch(&mut self, event: &Event) -> Result<StepOut, EventFault>
        requires truth { IsTrueNetwork (state_of self.old) }
        requires routers { length self.old.routers.items ≡ length self.old.domain.routers }
        requires fits { EventFits (length self.old.domain.routers) event.now }
        requires allowed { early_fault (world_in self.old) event.now ≡ None }
        ensures refused { MatchResult result (λ _. event_fault (world_in self.old) event.now ≡ None) (λ e. Refuses (event_fault (world_in self.old) event.now) e) }
        ensures done { IfOk result (λ out. IsDone self.old self.new (doing (world_in self.old) event.now) out) }
        ensures heard { OnOk result (heard_in self.new ≡ heard_after (world_in self.old) (heard_in self.old) event.now) }
        ensures kept { OnErr result (IsTrueNetwork (state_of self.new)) }
        ensures stays { IfErr result (λ e. Stays (state_of self.new ≡ state_of self.old) e) }
        ensures whole { OnErr result (IsAsBefore (seen_of (state_of self.old)) (seen_of (state_of self.new)) event.now) }
        ensures domain { self.new.domain ≡ self.old.domain }
    {
        match event {
            Event::Inject {
                router,
                sd,
                bsl,
                ids,
                ttl,
                entropy,
                payload,
            } => self.inject(
                *router,
                *sd,
                *bsl,
                ids.as_slice(),
                *ttl,
                *entropy,
                payload.as_slice(),
            ),
            Event::Take { from, to, i } => Ok(self.take(*from, *to, *i)?),
            Event::Lose { from, to, i } => Ok(self.lose(*from, *to, *i)?),
            Event::Again { from, to, i } => Ok(self.again(*from, *to, *i)?),
            Event::Down { from, to } => Ok(self.down(*from, *to)?),
            Event::Up { from, to } => Ok(self.up(*from, *to)?),
            Event::Send { from, to } => Ok(self.send(*from, *to)?),
            Event::Tick { router } => Ok(self.tick(*router)?),
            Event::Restart { router } => Ok(self.restart(*router)?),
            Event::Relabel {
                router,
                sd,
                bsl,
                label,
            } => Ok(self.relabel(*router, *sd, *bsl, *label)?),
            Event::Leave { router, sd } => Ok(self.leave(*router, *sd)?),
            Event::Join { router, sd } => Ok(self.join(*router, *sd)?),
        }
    }
}
