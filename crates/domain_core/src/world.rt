//! A running domain.
ghost use Rattle.std.specs.Prelude.{◌≡◌, ◌<◌, ◌≤◌, ◌^◌, ◌+◌, ◌∷◌, ◌↔◌, ◌⊎◌, [], ℕ, true, false, List, length, map, slice_get, Option, Some, None, Ok, IfOk, OnOk, OnErr, IfErr, MatchResult};
ghost use Rattle.std.specs.List.{AllByRecursion};
ghost use Rattle.wire_base.specs.declared.limits.TheConstants.{MOST_EVENTS};
ghost use Rattle.replay_text.specs.declared.event.Event.{Event};
ghost use Rattle.replay_text.specs.declared.event.Event.TheVariants as events;
ghost use Rattle.domain_core.specs.Answers.{sent_outcome, taken_outcome, Refuses, Stays};
ghost use Rattle.frames_in_flight.specs.Told.{IsShortFrame, told};
ghost use Rattle.domain_model.specs.Faults.{event_fault};
ghost use Rattle.domain_core.specs.Course.{KeepsCourse};
ghost use Rattle.domain_core.specs.Idle.{IsIdleSend};
ghost use Rattle.domain_core.specs.Ledger.{KeepsLedger};
ghost use Rattle.domain_core.specs.Cover.{IsReceived, Rejects, cover_of};
ghost use Rattle.domain_core.specs.Quiet.{quiet_of};
ghost use Rattle.laws_course.specs.Course.{Agreed, own_node};
ghost use Rattle.laws_ledger.specs.Weights.{copies_in};
ghost use Rattle.laws_quiet.specs.Cover.{deliveries_by, drops_by};
ghost use Rattle.laws_quiet.specs.Quiet.{IsQuiet};
ghost use Rattle.quiet_domain.specs.declared.answer.Quiet.TheVariants.{Yes};
ghost use Rattle.wire_base.specs.model.Control.{Control};
ghost use Rattle.wire_base.specs.model.Hop.{has};
ghost use Rattle.wire_base.specs.model.View.{control_view};
ghost use Rattle.domain_model.specs.Run.{world_after};
ghost use Rattle.domain_core.specs.Network.{IsAsBefore, heard_after};
ghost use Rattle.domain_model.specs.Step.{happens};
ghost use Rattle.domain_model.specs.Truth.{IsTruthful, EventFits, AreWorldDrops};
ghost use Rattle.domain_model.specs.World.{first_world, link_between, queue_at, frames_between, ids_in_flight};

use crate::network::Network;
use domain_model::{EventFault, StepOut, WireFrames};
use quiet_domain::Quiet;
use replay_text::Event;
use router_core::Router;
use std::alloc::Global;
use std::marker::Model;
use wire_base::{Bsl, Domain, EdgeFault, M, Rows};

/// A running domain: its routers, and the frames in flight between them. Contracts see the world that it represents,
/// with an item for each frame, and how many frames each router has received.
///
/// The invariant of the type is that the world is truthful, and that each frame in flight is that of its item.
pub struct World {
    network: Network,
}

// Written out, so that a proof about a value that holds a world does not see its parts.
impl Drop for World {
    fn drop(self) {
        let World { network } = self;
        drop(network);
    }
}

impl Model for World {
    ghost use Rattle.domain_core.specs.Held.{state_of};
    ghost use Rattle.domain_core.specs.Network.{Seen, seen_of, IsTrueNetwork};

    ghost Value = { Seen };

    ghost view = { λ w. seen_of (state_of w.network) };

    ghost invariant = { λ w. IsTrueNetwork (state_of w.network) };
}

impl World {
    /// Returns a domain in which each router has just started, with all its interfaces up, and nothing is in flight
    /// (ISO/IEC 10589, 7.3.17).
    pub fn new(alloc: Global, domain: Domain) -> M<World>
        ensures world { IfOk result (λ w. w.world ≡ first_world domain) }
        ensures heard { IfOk result (λ w. w.heard ≡ map (λ r. 0) domain.routers) }
        ensures truth { IfOk result (λ w. IsTruthful w.world) }
    {
        Ok(World {
            network: Network::new(alloc, domain)?,
        })
    }

    /// Executes one event.
    ///
    /// The result has what was sent, as frames with the indices of both routers, what was delivered and what was
    /// dropped, each in order. An event that is not allowed returns the first reason that applies, and changes nothing.
    /// Out of memory may be returned instead of any result, and leaves the world unchanged too; only the count of
    /// frames that a router has received may have risen then. A router receives only a frame that arrives at an
    /// interface that is up.
    ///
    /// Each BFR-id of a packet that is in flight before the event, or is injected by it, is afterwards in one copy, one
    /// delivery or one drop (RFC 8279, 6.5). While topologies agree, a copy for a BFR-id that is reachable over a path
    /// that its TTL covers is on a shortest path to the id's owner, and no event drops it except one that loses it
    /// (RFC 8279, 6.9).
    #[tactic(auto, using(crate::proofs::EventLaws::as_many))]
    pub fn step(&mut self, event: &Event) -> Result<StepOut, EventFault>
        requires { EventFits (length self.old.world.domain.routers) event.now }
        ensures refused { MatchResult result (λ _. event_fault self.old.world event.now ≡ None) (λ e. Refuses (event_fault self.old.world event.now) e) }
        ensures world { OnOk result (self.new.world ≡ (happens self.old.world event.now).world) }
        ensures told { IfOk result (λ out. out ≡ told self.old.world.domain.routers (happens self.old.world event.now).made) }
        ensures drops { IfOk result (λ out. AreWorldDrops out.drops) }
        ensures short { IfOk result (λ out. AllByRecursion IsShortFrame out.sent) }
        ensures ledger { IfOk result (λ out. KeepsLedger self.old.world self.new.world event.now out) }
        ensures course { IfOk result (λ out. KeepsCourse self.old.world self.new.world event.now out) }
        ensures heard { OnOk result (self.new.heard ≡ heard_after self.old.world self.old.heard event.now) }
        ensures stays { IfErr result (λ e. Stays (self.new ≡ self.old) e) }
        ensures whole { OnErr result (IsAsBefore self.old self.new event.now) }

        // Whatever the result, the world is truthful, and is one of the same domain.
        ensures truth { IsTruthful self.new.world }
        ensures domain { self.new.world.domain ≡ self.old.world.domain }
    {
        if let Some(fault) = self.network.fault(event) {
            return Err(fault);
        }
        self.network.execute(event)
    }

    /// Sends what is due from a router on the interface `link`, which leads to the other: the same event as a send in
    /// `step`. Returns whether anything was due. If so, these frames replace the ones in `sent`, whose memory serves for them;
    /// nothing else is reported of a send. For most sends nothing is due, and `sent` is unchanged. After an error it is unchanged
    /// or empty.
    pub fn send_on_link(
        &mut self,
        from: u16,
        link: u16,
        to: u16,
        sent: &mut WireFrames,
    ) -> Result<bool, EventFault>
        requires places { EventFits (length self.old.world.domain.routers) (events.Send from to) }
        requires joined { link_between self.old.world.domain.routers from to ≡ Some link }
        ensures refused { MatchResult result (λ _. event_fault self.old.world (events.Send from to) ≡ None) (λ e. Refuses (event_fault self.old.world (events.Send from to)) e) }
        ensures world { OnOk result (self.new.world ≡ (happens self.old.world (events.Send from to)).world) }
        ensures told { IfOk result (λ due. sent_outcome due sent.new ≡ told self.old.world.domain.routers (happens self.old.world (events.Send from to)).made) }
        ensures idle { IfOk result (λ due. due ≡ false → sent.new ≡ sent.old) }
        ensures none { OnErr result ((sent.new ≡ sent.old) ⊎ (sent.new ≡ [])) }
        ensures drops { IfOk result (λ due. AreWorldDrops (sent_outcome due sent.new).drops) }
        ensures short { IfOk result (λ due. AllByRecursion IsShortFrame (sent_outcome due sent.new).sent) }
        ensures ledger { IfOk result (λ due. KeepsLedger self.old.world self.new.world (events.Send from to) (sent_outcome due sent.new)) }
        ensures course { IfOk result (λ due. KeepsCourse self.old.world self.new.world (events.Send from to) (sent_outcome due sent.new)) }
        ensures heard { OnOk result (self.new.heard ≡ self.old.heard) }
        ensures stays { OnErr result (self.new ≡ self.old) }
        ensures truth { IsTruthful self.new.world }
        ensures domain { self.new.world.domain ≡ self.old.world.domain }
    {
        self.network.step_send(from, link, to, sent)
    }

    /// Returns true only if a router may send on the interface `link`, which leads to another, and nothing is due there.
    /// Such a send changes nothing but the number of events, and there is nothing to report of it.
    #[tactic(auto, using(crate::proofs::EventLaws::as_many))]
    pub fn is_idle(&self, from: u16, link: u16) -> bool
        requires { from < length self.now.world.domain.routers }
        ensures { (to : ℕ) → result ≡ true → link_between self.now.world.domain.routers from to ≡ Some link → IsIdleSend self.now.world from to }
    {
        self.network.is_idle(from, link)
    }

    /// Counts that many events all at once: sends for which nothing is due, which change nothing else.
    pub fn count_events(&mut self, events: u32)
        requires { self.old.world.events + events ≤ MOST_EVENTS }
        ensures world { self.new.world ≡ record self.old.world { events = self.old.world.events + events } }
        ensures heard { self.new.heard ≡ self.old.heard }
    {
        self.network.count_events(events);
    }

    /// Delivers the first frame that was sent on the interface `link` and arrives at the interface `back`: the same
    /// event as a delivery in `step`. Returns whether there is anything to report, which is then written to `made`. For
    /// most frames there is nothing, and `made` is unchanged, as it is after an error.
    pub fn take_on_link(
        &mut self,
        from: u16,
        link: u16,
        to: u16,
        back: u16,
        made: &mut StepOut,
    ) -> Result<bool, EventFault>
        requires places { EventFits (length self.old.world.domain.routers) (events.Take from to 0) }
        requires joined { link_between self.old.world.domain.routers from to ≡ Some link }
        requires facing { link_between self.old.world.domain.routers to from ≡ Some back }
        ensures refused { MatchResult result (λ _. event_fault self.old.world (events.Take from to 0) ≡ None) (λ e. Refuses (event_fault self.old.world (events.Take from to 0)) e) }
        ensures world { OnOk result (self.new.world ≡ (happens self.old.world (events.Take from to 0)).world) }
        ensures told { IfOk result (λ some. taken_outcome some made.new ≡ told self.old.world.domain.routers (happens self.old.world (events.Take from to 0)).made) }
        ensures idle { IfOk result (λ some. some ≡ false → made.new ≡ made.old) }
        ensures none { OnErr result (made.new ≡ made.old) }
        ensures drops { IfOk result (λ some. AreWorldDrops (taken_outcome some made.new).drops) }
        ensures short { IfOk result (λ some. AllByRecursion IsShortFrame (taken_outcome some made.new).sent) }
        ensures ledger { IfOk result (λ some. KeepsLedger self.old.world self.new.world (events.Take from to 0) (taken_outcome some made.new)) }
        ensures course { IfOk result (λ some. KeepsCourse self.old.world self.new.world (events.Take from to 0) (taken_outcome some made.new)) }
        ensures heard { OnOk result (self.new.heard ≡ heard_after self.old.world self.old.heard (events.Take from to 0)) }
        ensures stays { IfErr result (λ e. Stays (self.new ≡ self.old) e) }
        ensures whole { OnErr result (IsAsBefore self.old self.new (events.Take from to 0)) }
        ensures truth { IsTruthful self.new.world }
        ensures domain { self.new.world.domain ≡ self.old.world.domain }
    {
        self.network.step_take(from, link, to, back, 0, made)
    }

    /// Returns the interface at the far end of a link, which leads back: `link` is the interface of the router `from` that leads to the
    /// router `to`. All three are indexes.
    pub fn back(&self, from: u16, link: u16, to: u16) -> Option<u16>
        requires joined { link_between self.now.world.domain.routers from to ≡ Some link }
        ensures back { result ≡ link_between self.now.world.domain.routers to from }
        ensures truth { IsTruthful self.now.world }
    {
        self.network.domain.back(from, link, to)
    }

    /// Returns how many frames are in flight from the interface of a router.
    pub fn frames_over(&self, from: u16, link: u16) -> usize
        ensures { result ≡ length (queue_at self.now.world.flights from link) }
    {
        self.network.frames_over(from, link)
    }

    /// Returns how many frames are in flight from one router to another, each named by its index; 0 if no link joins
    /// them.
    pub fn frames(&self, from: u16, to: u16) -> usize
        ensures { result ≡ length (frames_between self.now.world from to) }
    {
        self.network.frames(from, to)
    }

    /// Returns how many BFR-ids are in flight: those of all copies of packets in flight.
    pub fn ids_in_flight(&self) -> M<u64>
        ensures { IfOk result (λ count. count ≡ ids_in_flight self.now.world.flights) }
    {
        self.network.ids_in_flight()
    }

    /// Returns how many events were executed.
    pub fn events(&self) -> u32
        ensures count { result ≡ self.now.world.events }
        ensures few { result ≤ MOST_EVENTS }
    {
        self.network.events
    }

    /// Returns the router at an index.
    #[tactic(auto, using(crate::proofs::EventLaws::as_many))]
    pub fn router(&self, place: u16) -> &Router
        requires { place < length self.now.world.domain.routers }
        ensures control { slice_get self.now.world.routers place ≡ Some result.now.control }
        ensures heard { slice_get self.now.heard place ≡ Some result.now.heard }
    {
        &self.network.routers[usize::from(place)]
    }

    /// Returns whether the domain is quiet, or the first reason why not: first a router whose sequence number space is
    /// exhausted, then for each link, in their order, an interface that is down while the other is up, or LSDBs that
    /// differ in live LSPs. Remaining Lifetimes do not count. Does not allocate.
    ///
    /// In a quiet domain each router to which a path of a router's topology leads has the same topology (ISO/IEC 10589,
    /// 7.2.5 and 7.3.15 to 7.3.17).
    pub fn quiet(&self) -> Quiet
        ensures value { result ≡ quiet_of self.now.world }
        ensures quiet { (result ≡ Yes) ↔ IsQuiet self.now.world }
        ensures agreed { (a : ℕ) (c : Control) → result ≡ Yes → slice_get self.now.world.routers a ≡ Some c → Agreed self.now.world (control_view c) (own_node c) }
    {
        self.network.quiet()
    }

    /// Returns which of the BFR-ids an injection at a router would reach, ascending and each once: the router's own
    /// BFR-id in the sub-domain, and those to whose owner a path in the router's topology leads that has no more hops
    /// than `ttl`, and no tunnel of more than 255 links (RFC 8279, 6.5 and 6.9; RFC 2784). `ttl` is the TTL that copies
    /// have when they are first sent, and the entropy selects among paths of equal cost.
    ///
    /// The errors are those of an injection there; Memory may be returned instead of any result.
    ///
    /// Let the domain be quiet, let that injection occur, with any payload, and let then routers receive copies of it
    /// alone, in whatever order. None of these events drops a BFR-id that was returned; and if no copy is in flight any
    /// more, it was delivered exactly once.
    pub fn cover(
        &self,
        alloc: Global,
        router: u16,
        sd: u8,
        bsl: Bsl,
        ids: &[u16],
        ttl: u8,
        entropy: u32,
    ) -> Result<Rows<u16>, EdgeFault>
        requires place { router < length self.now.world.domain.routers }
        requires ttl { 0 < ttl }
        requires entropy { entropy < 2 ^ 20 }
        ensures value { MatchResult result (λ ks. cover_of self.now.world router sd bsl ids.now ttl entropy ≡ Ok ks) (λ e. Rejects (cover_of self.now.world router sd bsl ids.now ttl entropy) e) }
        ensures dropped { IfOk result (λ ks. (k : ℕ) (payload : List ℕ) (es : List Event) → has ks k ≡ true → IsReceived self.now.world (events.Inject router sd bsl ids.now ttl entropy payload) es → drops_by (self.now.world.injections + 1) k self.now.world (events.Inject router sd bsl ids.now ttl entropy payload ∷ es) ≡ 0) }
        ensures delivered { IfOk result (λ ks. (k : ℕ) (payload : List ℕ) (es : List Event) → has ks k ≡ true → IsReceived self.now.world (events.Inject router sd bsl ids.now ttl entropy payload) es → copies_in (self.now.world.injections + 1) (world_after self.now.world (events.Inject router sd bsl ids.now ttl entropy payload ∷ es)).flights ≡ 0 → deliveries_by (self.now.world.injections + 1) k self.now.world (events.Inject router sd bsl ids.now ttl entropy payload ∷ es) ≡ 1) }
    {
        let _issued = self.network.spent_answer();
        self.network
            .cover(alloc, router, sd, bsl, ids, ttl, entropy)
    }

    /// Returns the domain with the configurations of its routers and links.
    pub fn domain(&self) -> &Domain
        ensures domain { result.now ≡ self.now.world.domain }
        ensures truth { IsTruthful self.now.world }
    {
        self.network.domain.conf()
    }
}
