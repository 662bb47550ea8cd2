//! What is true of the run that the lines of a schedule lead to. The bodies are empty: the contracts are the laws.
ghost use Rattle.std.specs.Prelude.{ℕ, List, length};
ghost use Rattle.std.specs.List.{AllByRecursion};
ghost use Rattle.wire_base.specs.model.Configuration.{DomainConf, IsValid};
ghost use Rattle.replay_text.specs.declared.event.Event.{Event};
ghost use Rattle.replay_text.specs.declared.event.Line.{Line};
ghost use Rattle.domain_model.specs.World.{first_world};
ghost use Rattle.domain_model.specs.Run.{run_of, schedule_done};
ghost use Rattle.laws_ledger.specs.Runs.{AreAllowed, unlined};
ghost use Rattle.domain_replay.specs.Texts.{schedule_reaches};
ghost use Rattle.laws_replay.specs.Promises.{KeepsPromises, LineFits};

/// In a valid domain, for any lines of the schedule and wherever one is rejected: at every moment of the run each
/// BFR-id that an injection names is in one copy, one delivery or one drop. The report has the run's deliveries and
/// drops, and its numbers add up. Nothing is delivered twice. An injection's copies are gone after a bounded number of
/// `take` events. A BFR-id that is reachable, while topologies agree, no copy is lost and the TTL covers its path, is
/// never dropped, and once no copy of the injection is in flight it was delivered exactly once. A TTL covers a path if
/// it is at least the number of hops, and each tunnel of the path has at most 255 links. In a domain of at most 255
/// routers no tunnel has more.
pub fn replays_keep_promises()
    ensures read { (d : DomainConf) (lines : List (List ℕ)) → IsValid d → KeepsPromises d (schedule_reaches d lines).run }
    ensures made { (d : DomainConf) (lines : List Line) → IsValid d → AllByRecursion (LineFits (length d.routers)) lines → KeepsPromises d (schedule_done d lines).run }
{}

/// The same is true of any events from the start of a valid domain, with any line numbers, each of them allowed where it
/// occurs.
pub fn runs_keep_promises()
    ensures { (d : DomainConf) (es : List (ℕ × Event)) → IsValid d → AreAllowed (first_world d) (unlined es) → KeepsPromises d (run_of d es) }
{}
