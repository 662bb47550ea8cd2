//! A domain that runs a schedule.
ghost use Rattle.std.specs.Prelude.{◌≡◌, ◌≢◌, ◌<◌, ◌≤◌, ◌^◌, ◌+◌, ◌∷◌, ◌++◌, ◌↔◌, ℕ, true, List, [], length, Some, Ok, IfOk, IfErr, OnOk, OnErr, MatchResult};
ghost use Rattle.domain_core.specs.Cover.{IsReceived, Rejects, cover_of};
ghost use Rattle.domain_core.specs.Quiet.{quiet_of};
ghost use Rattle.domain_model.specs.Run as run;
ghost use Rattle.domain_model.specs.Run.{line_events, world_after};
ghost use Rattle.domain_model.specs.World.{ids_in_flight};
ghost use Rattle.domain_model.specs.declared.fault.EventFault.TheVariants as fault;
ghost use Rattle.laws_ledger.specs.Weights.{copies_in};
ghost use Rattle.laws_quiet.specs.Cover.{deliveries_by, drops_by};
ghost use Rattle.laws_quiet.specs.Quiet.{IsQuiet};
ghost use Rattle.quiet_domain.specs.declared.answer.Quiet.TheVariants.{Yes};
ghost use Rattle.replay_report.specs.Counting.{NamesOnce};
ghost use Rattle.replay_text.specs.Events.{EventFits, LineFits};
ghost use Rattle.replay_text.specs.declared.event.Event.TheVariants as events;
ghost use Rattle.replay_text.specs.declared.event.Event.{Event};
ghost use Rattle.replay_text.specs.declared.event.Line.TheVariants as lines;
ghost use Rattle.std.specs.List.{AllByRecursion};
ghost use Rattle.wire_base.specs.declared.limits.TheConstants.{MOST_EVENTS};
ghost use Rattle.wire_base.specs.model.Configuration.{IsValid};
ghost use Rattle.wire_base.specs.model.Hop.{has};
ghost use Rattle.replay_report.specs.Lines.{done_text};
ghost use Rattle.domain_replay.specs.Telling.{first_state, with_texts, told, tells_line, LineNamesOnce};
ghost use Rattle.domain_replay.specs.Replaying.{IsJoining, StopsIn};

use crate::reported_world::ReportedWorld;
use domain_core::confs_of;
use domain_model::EventFault;
use quiet_domain::Quiet;
use replay_report::{Direction, Recording, push_done};
use replay_text::{Event, Line};
use run_texts::Texts;
use std::alloc::Global;
use std::marker::Model;
use wire_base::{Bsl, Domain, EdgeFault, M, Octets, RouterConf, Rows};

/// A running domain, with its counts. Each call appends what its events report to the outputs that it receives: a
/// record of each frame that is sent, if the run has a capture, and the lines of deliveries and drops.
///
/// It keeps the directions of the domain's links, which no event changes.
#[derive(Drop)]
pub struct Replay {
    told: ReportedWorld,
    directions: Rows<Direction>,
}

impl Model for Replay {
    ghost use Rattle.domain_replay.specs.Telling.{ReplayState};
    ghost use Rattle.domain_replay.specs.Replaying.{AreDirections};

    ghost Value = { ReplayState };

    ghost view = { λ r. r.told };

    ghost invariant = { λ r. AreDirections r.told.world.domain.routers r.directions };
}

impl Replay {
    /// Returns a domain that has just started, whose frames are recorded in that way.
    pub fn new(alloc: Global, domain: Domain, recording: Recording) -> M<Self>
        ensures { IfOk result (λ replay. replay ≡ first_state recording domain) }
    {
        let told = ReportedWorld::new(alloc, domain, recording)?;
        let directions = told.directions(alloc)?;
        Ok(Replay { told, directions })
    }

    /// Executes a line of the schedule, up to an event that is not allowed, and reports it with the number of the line.
    ///
    /// The error is that of the first event of the line that is not allowed; those before it were executed. `Memory`
    /// may be returned instead of any result. Then some first events of the line were executed and reported, and the
    /// rest were not. Only the event at which an allocation failed may be executed without a report.
    #[tactic(auto, using(crate::proofs::LineTells::tells_ok, crate::proofs::LineTells::tells_refused))]
    pub fn line(&mut self, texts: &mut Texts, line: u32, said: &Line) -> Result<(), EventFault>
        requires fits { LineFits (length self.old.world.domain.routers) said.now }
        requires once { LineNamesOnce said.now }
        ensures ok { OnOk result (tells_line line (with_texts self.old texts.old) said.now ≡ told (with_texts self.new texts.new)) }
        ensures refused { IfErr result (λ e. e ≢ fault.Memory → tells_line line (with_texts self.old texts.old) said.now ≡ record { telling = with_texts self.new texts.new; refused = Some e }) }
        ensures stops { OnErr result (StopsIn line (with_texts self.old texts.old) (line_events self.old.world said.now) (with_texts self.new texts.new)) }
        ensures domain { self.new.world.domain ≡ self.old.world.domain }
    {
        self.told
            .do_line(texts, line, self.directions.as_slice(), said)
    }

    /// Returns the configurations of the domain's routers, by index.
    pub fn routers(&self) -> &[RouterConf]
        ensures { result.now ≡ self.now.world.domain.routers }
    {
        confs_of(self.told.world.domain())
    }

    /// Returns whether the domain is quiet, or the first reason why not: first a router whose sequence number space is
    /// exhausted, then for each link, in their order, an interface that is down while the other is up, or LSDBs that
    /// differ in live LSPs. Does not allocate.
    pub fn quiet(&self) -> Quiet
        ensures value { result ≡ quiet_of self.now.world }
        ensures quiet { (result ≡ Yes) ↔ IsQuiet self.now.world }
    {
        self.told.world.quiet()
    }

    /// Returns which of the BFR-ids an injection at a router would reach, ascending and each once. The errors are those
    /// of the injection; `Memory` may be returned instead of any result.
    ///
    /// If the domain is quiet, that injection occurs, and then routers receive copies of it alone, none of these events
    /// drops a BFR-id that was returned; and once no copy is in flight, it was delivered exactly once.
    pub fn cover(
        &self,
        alloc: Global,
        router: u16,
        sd: u8,
        bsl: Bsl,
        ids: &[u16],
        ttl: u8,
        entropy: u32,
    ) -> Result<Rows<u16>, EdgeFault>
        requires place { router < length self.now.world.domain.routers }
        requires ttl { 0 < ttl }
        requires entropy { entropy < 2 ^ 20 }
        ensures value { MatchResult result (λ ks. cover_of self.now.world router sd bsl ids.now ttl entropy ≡ Ok ks) (λ e. Rejects (cover_of self.now.world router sd bsl ids.now ttl entropy) e) }
        ensures dropped { IfOk result (λ ks. (k : ℕ) (payload : List ℕ) (es : List Event) → has ks k ≡ true → IsReceived self.now.world (events.Inject router sd bsl ids.now ttl entropy payload) es → drops_by (self.now.world.injections + 1) k self.now.world (events.Inject router sd bsl ids.now ttl entropy payload ∷ es) ≡ 0) }
        ensures delivered { IfOk result (λ ks. (k : ℕ) (payload : List ℕ) (es : List Event) → has ks k ≡ true → IsReceived self.now.world (events.Inject router sd bsl ids.now ttl entropy payload) es → copies_in (self.now.world.injections + 1) (world_after self.now.world (events.Inject router sd bsl ids.now ttl entropy payload ∷ es)).flights ≡ 0 → deliveries_by (self.now.world.injections + 1) k self.now.world (events.Inject router sd bsl ids.now ttl entropy payload ∷ es) ≡ 1) }
    {
        self.told
            .world
            .cover(alloc, router, sd, bsl, ids, ttl, entropy)
    }

    /// Executes one event of a line, and reports it with the number of the line, as [`line`](Self::line) does.
    #[tactic(auto, using(crate::proofs::LineTells::tells_ok, crate::proofs::LineTells::tells_refused))]
    pub fn event(&mut self, texts: &mut Texts, line: u32, event: &Event) -> Result<(), EventFault>
        requires fits { EventFits (length self.old.world.domain.routers) event.now }
        requires once { NamesOnce event.now }
        ensures ok { OnOk result (tells_line line (with_texts self.old texts.old) (lines.One event.now) ≡ told (with_texts self.new texts.new)) }
        ensures refused { IfErr result (λ e. e ≢ fault.Memory → tells_line line (with_texts self.old texts.old) (lines.One event.now) ≡ record { telling = with_texts self.new texts.new; refused = Some e }) }
        ensures stops { OnErr result (StopsIn line (with_texts self.old texts.old) (event.now ∷ []) (with_texts self.new texts.new)) }
        ensures domain { self.new.world.domain ≡ self.old.world.domain }
    {
        self.told.do_one(texts, line, event)
    }

    /// Returns the domain with the configurations of its routers and links, as they were at the start.
    pub fn domain(&self) -> &Domain
        ensures domain { result.now ≡ self.now.world.domain }
        ensures valid { IsValid result.now }
    {
        self.told.world.domain()
    }

    /// Returns how many events the domain executed.
    pub fn events(&self) -> u32
        ensures count { result ≡ self.now.world.events }
        ensures few { result ≤ MOST_EVENTS }
    {
        self.told.world.events()
    }

    /// Returns how the frames are recorded.
    pub fn recording(&self) -> Recording
        ensures { result ≡ self.now.recording }
    {
        self.told.recording
    }

    /// Returns the directions of the domain's links, each of which joins two routers.
    pub fn directions(&self, alloc: Global) -> M<Rows<Direction>>
        ensures value { IfOk result (λ all. all ≡ run.directions self.now.world.domain.routers) }
        ensures joins { IfOk result (λ all. AllByRecursion (IsJoining self.now.world.domain.routers) all) }
    {
        self.told.directions(alloc)
    }

    /// Appends the last line of the report on a schedule with that many lines, all of which were done. If an allocation
    /// fails, nothing is appended.
    pub fn done(&self, alloc: Global, report: &mut Octets, lines: u64) -> M<()>
        ensures ok { OnOk result (report.new ≡ report.old ++ done_text lines self.now.counts (ids_in_flight self.now.world.flights)) }
        ensures err { OnErr result (report.new ≡ report.old) }
    {
        let flight = self.told.world.ids_in_flight()?;
        push_done(alloc, report, lines, &self.told.counts, flight)
    }
}
