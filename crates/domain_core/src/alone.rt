//! The events in which a router acts by itself: its interfaces or its configuration change, it sends, a second passes, it restarts,
//! or a payload is injected there.
ghost use Rattle.std.specs.Prelude.{◌≡◌, ◌<◌, ◌≤◌, ◌^◌, ◌-◌, [], ℕ, true, length, Some, None, IfOk, OnOk, OnErr, MatchResult};
ghost use Rattle.replay_text.specs.declared.event.Event.TheVariants as events;
ghost use Rattle.domain_core.specs.Answers.{entry_refused, outcome, sent_outcome, Refuses};
ghost use Rattle.domain_core.specs.Held.{state_of, world_in, heard_in, inject_fault, IsDone};
ghost use Rattle.domain_core.specs.Network.{IsTrueNetwork};
ghost use Rattle.domain_model.specs.Faults.{event_fault};
ghost use Rattle.domain_model.specs.Step.{doing};
ghost use Rattle.domain_model.specs.Truth.{EventFits, InjectFits};
ghost use Rattle.domain_model.specs.World.{link_between};

use crate::network::Network;
use bier_forward::SentFrames;
use domain_model::{EventFault, StepOut, WireFrames};
use frames_in_flight::{confs_of, queue_on_link, queue_sent};
use wire_base::{Bsl, EdgeFault, M, Rows};

impl Network {
    /// Takes down the interface of a router toward another, which is up.
    pub(crate) fn down(&mut self, from: u16, to: u16) -> M<StepOut>
        requires truth { IsTrueNetwork (state_of self.old) }
        requires place { from < length self.old.routers.items }
        requires allowed { event_fault (world_in self.old) (events.Down from to) ≡ None }
        ensures done { IfOk result (λ out. IsDone self.old self.new (doing (world_in self.old) (events.Down from to)) out) }
        ensures heard { OnOk result (heard_in self.new ≡ heard_in self.old) }
        ensures err { OnErr result (state_of self.new ≡ state_of self.old) }
        ensures domain { self.new.domain ≡ self.old.domain }
    {
        let alloc = self.allocator();
        let Some(link) = self.link(from, to) else {
            return Ok(StepOut::nothing(alloc));
        };
        let router = &mut self.routers[usize::from(from)];
        router.end_down(link)?;
        Ok(StepOut::nothing(alloc))
    }

    /// Brings up the interface of a router toward another, which is down.
    pub(crate) fn up(&mut self, from: u16, to: u16) -> M<StepOut>
        requires truth { IsTrueNetwork (state_of self.old) }
        requires place { from < length self.old.routers.items }
        requires allowed { event_fault (world_in self.old) (events.Up from to) ≡ None }
        ensures done { IfOk result (λ out. IsDone self.old self.new (doing (world_in self.old) (events.Up from to)) out) }
        ensures heard { OnOk result (heard_in self.new ≡ heard_in self.old) }
        ensures err { OnErr result (state_of self.new ≡ state_of self.old) }
        ensures domain { self.new.domain ≡ self.old.domain }
    {
        let alloc = self.allocator();
        let Some(link) = self.link(from, to) else {
            return Ok(StepOut::nothing(alloc));
        };
        let router = &mut self.routers[usize::from(from)];
        router.end_up(link)?;
        Ok(StepOut::nothing(alloc))
    }

    /// Lets a second pass at a router.
    pub(crate) fn tick(&mut self, at: u16) -> M<StepOut>
        requires truth { IsTrueNetwork (state_of self.old) }
        requires place { at < length self.old.routers.items }
        ensures done { IfOk result (λ out. IsDone self.old self.new (doing (world_in self.old) (events.Tick at)) out) }
        ensures heard { OnOk result (heard_in self.new ≡ heard_in self.old) }
        ensures err { OnErr result (state_of self.new ≡ state_of self.old) }
        ensures domain { self.new.domain ≡ self.old.domain }
    {
        let alloc = self.allocator();
        let router = &mut self.routers[usize::from(at)];
        router.tick()?;
        Ok(StepOut::nothing(alloc))
    }

    /// Restarts a router, which loses its LSDB.
    pub(crate) fn restart(&mut self, at: u16) -> M<StepOut>
        requires truth { IsTrueNetwork (state_of self.old) }
        requires place { at < length self.old.routers.items }
        ensures done { IfOk result (λ out. IsDone self.old self.new (doing (world_in self.old) (events.Restart at)) out) }
        ensures heard { OnOk result (heard_in self.new ≡ heard_in self.old) }
        ensures err { OnErr result (state_of self.new ≡ state_of self.old) }
        ensures domain { self.new.domain ≡ self.old.domain }
    {
        let alloc = self.allocator();
        let router = &mut self.routers[usize::from(at)];
        router.restart()?;
        Ok(StepOut::nothing(alloc))
    }

    /// Lets a router's label range for a BSL in a sub-domain begin at another label.
    pub(crate) fn relabel(&mut self, at: u16, sd: u8, bsl: Bsl, label: u32) -> M<StepOut>
        requires truth { IsTrueNetwork (state_of self.old) }
        requires fits { EventFits (length self.old.domain.routers) (events.Relabel at sd bsl label) }
        requires place { at < length self.old.routers.items }
        requires allowed { event_fault (world_in self.old) (events.Relabel at sd bsl label) ≡ None }
        ensures done { IfOk result (λ out. IsDone self.old self.new (doing (world_in self.old) (events.Relabel at sd bsl label)) out) }
        ensures heard { OnOk result (heard_in self.new ≡ heard_in self.old) }
        ensures err { OnErr result (state_of self.new ≡ state_of self.old) }
        ensures domain { self.new.domain ≡ self.old.domain }
    {
        let alloc = self.allocator();
        let router = &mut self.routers[usize::from(at)];
        router.relabel(sd, bsl, label)?;
        Ok(StepOut::nothing(alloc))
    }

    /// Lets a router leave a sub-domain.
    pub(crate) fn leave(&mut self, at: u16, sd: u8) -> M<StepOut>
        requires truth { IsTrueNetwork (state_of self.old) }
        requires fits { EventFits (length self.old.domain.routers) (events.Leave at sd) }
        requires place { at < length self.old.routers.items }
        requires allowed { event_fault (world_in self.old) (events.Leave at sd) ≡ None }
        ensures done { IfOk result (λ out. IsDone self.old self.new (doing (world_in self.old) (events.Leave at sd)) out) }
        ensures heard { OnOk result (heard_in self.new ≡ heard_in self.old) }
        ensures err { OnErr result (state_of self.new ≡ state_of self.old) }
        ensures domain { self.new.domain ≡ self.old.domain }
    {
        let alloc = self.allocator();
        let router = &mut self.routers[usize::from(at)];
        router.leave(sd)?;
        Ok(StepOut::nothing(alloc))
    }

    /// Lets a router join a sub-domain that it left.
    pub(crate) fn join(&mut self, at: u16, sd: u8) -> M<StepOut>
        requires truth { IsTrueNetwork (state_of self.old) }
        requires fits { EventFits (length self.old.domain.routers) (events.Join at sd) }
        requires place { at < length self.old.routers.items }
        requires allowed { event_fault (world_in self.old) (events.Join at sd) ≡ None }
        ensures done { IfOk result (λ out. IsDone self.old self.new (doing (world_in self.old) (events.Join at sd)) out) }
        ensures heard { OnOk result (heard_in self.new ≡ heard_in self.old) }
        ensures err { OnErr result (state_of self.new ≡ state_of self.old) }
        ensures domain { self.new.domain ≡ self.old.domain }
    {
        let alloc = self.allocator();
        let router = &mut self.routers[usize::from(at)];
        router.join(sd)?;
        Ok(StepOut::nothing(alloc))
    }

    /// Sends what is due from a router toward another, on an interface that is up.
    pub(crate) fn send(&mut self, from: u16, to: u16) -> M<StepOut>
        requires truth { IsTrueNetwork (state_of self.old) }
        requires place { from < length self.old.routers.items }
        requires allowed { event_fault (world_in self.old) (events.Send from to) ≡ None }
        ensures done { IfOk result (λ out. IsDone self.old self.new (doing (world_in self.old) (events.Send from to)) out) }
        ensures heard { OnOk result (heard_in self.new ≡ heard_in self.old) }
        ensures err { OnErr result (state_of self.new ≡ state_of self.old) }
        ensures domain { self.new.domain ≡ self.old.domain }
    {
        let alloc = self.allocator();
        let Some(link) = self.link(from, to) else {
            return Ok(StepOut::nothing(alloc));
        };
        if self.owes_nothing(from, link) {
            return Ok(StepOut::nothing(alloc));
        }
        let mut sent = WireFrames::new(alloc);
        self.send_on_link(from, link, to, &mut sent)?;
        Ok(StepOut {
            sent,
            got: Rows::new(alloc),
            drops: Rows::new(alloc),
        })
    }

    /// Returns true only if nothing is due at a router on an interface, the usual case. A send there then has no
    /// effect.
    pub(crate) fn owes_nothing(&self, from: u16, link: u16) -> bool
        requires truth { IsTrueNetwork (state_of self.now) }
        requires place { from < length self.now.routers.items }
        ensures { (to : ℕ) → result ≡ true → link_between self.now.domain.routers from to ≡ Some link → IsDone self.now self.now (doing (world_in self.now) (events.Send from to)) (outcome None) }
    {
        !self.routers[usize::from(from)].may_owe(link)
    }

    /// Sends what is due from a router on the interface `link`, which is up and leads to `to`. These frames replace the ones
    /// in `sent`, whose memory serves for them. The router records them as sent only once they are in flight.
    pub(crate) fn send_on_link(
        &mut self,
        from: u16,
        link: u16,
        to: u16,
        sent: &mut WireFrames,
    ) -> M<()>
        requires truth { IsTrueNetwork (state_of self.old) }
        requires place { from < length self.old.routers.items }
        requires joined { link_between self.old.domain.routers from to ≡ Some link }
        requires allowed { event_fault (world_in self.old) (events.Send from to) ≡ None }
        ensures done { OnOk result (IsDone self.old self.new (doing (world_in self.old) (events.Send from to)) (sent_outcome true sent.new)) }
        ensures none { OnErr result (sent.new ≡ []) }
        ensures heard { OnOk result (heard_in self.new ≡ heard_in self.old) }
        ensures err { OnErr result (state_of self.new ≡ state_of self.old) }
        ensures domain { self.new.domain ≡ self.old.domain }
    {
        let list = SentFrames::from_frames(sent.take_memory());
        let router = &mut self.routers[usize::from(from)];
        let frames = router.due_in(link, &mut self.memory, list)?;
        queue_on_link(&mut self.flights, from, link, &frames)?;
        router.sent(link);
        *sent = WireFrames::sent_to(from, to, frames.into_frames());
        Ok(())
    }

    /// Injects a payload at a router.
    pub(crate) fn inject(
        &mut self,
        at: u16,
        sd: u8,
        bsl: Bsl,
        ids: &[u16],
        ttl: u8,
        entropy: u32,
        payload: &[u8],
    ) -> Result<StepOut, EventFault>
        requires truth { IsTrueNetwork (state_of self.old) }
        requires place { at < length self.old.routers.items }
        requires fits { InjectFits (length self.old.domain.routers) at sd ids.now ttl entropy payload.now }
        requires room { self.old.injections < 2 ^ 32 - 1 }
        ensures refused { MatchResult result (λ _. inject_fault self.old at sd bsl ids.now ≡ None) (λ e. Refuses (inject_fault self.old at sd bsl ids.now) e) }
        ensures done { IfOk result (λ out. IsDone self.old self.new (doing (world_in self.old) (events.Inject at sd bsl ids.now ttl entropy payload.now)) out) }
        ensures heard { OnOk result (heard_in self.new ≡ heard_in self.old) }
        ensures err { OnErr result (state_of self.new ≡ state_of self.old) }
        ensures domain { self.new.domain ≡ self.old.domain }
    {
        let number = self.injections + 1;
        let router = &mut self.routers[usize::from(at)];
        let entered = router.inject(sd, bsl, ids, ttl, entropy, payload);
        let effects = match entered {
            Ok(effects) => effects,
            Err(fault) => return Err(entry_refused(fault)),
        };
        let confs = confs_of(self.domain.conf());
        let out = queue_sent(&mut self.flights, confs, at, Some(number), effects)?;
        self.injections = number;
        Ok(out)
    }
}

/// Returns the error of an injection that a router rejects.
fn entry_refused(fault: EdgeFault) -> EventFault
    ensures { result ≡ entry_refused fault }
{
    match fault {
        EdgeFault::Memory => EventFault::Memory,
        other => EventFault::Edge(other),
    }
}
