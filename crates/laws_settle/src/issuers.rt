//! Routers' own LSPs. The bodies are empty: the contracts are the laws.
ghost use Rattle.std.specs.Prelude.{◌≡◌, ℕ, List, Some, slice_get};
ghost use Rattle.wire_base.specs.model.Configuration.{DomainConf, IsValid};
ghost use Rattle.wire_base.specs.model.Control.{Control};
ghost use Rattle.wire_base.specs.model.View.{control_view};
ghost use Rattle.replay_text.specs.declared.event.Event.{Event};
ghost use Rattle.domain_model.specs.Run.{run_of};
ghost use Rattle.domain_model.specs.Step.{happens};
ghost use Rattle.domain_model.specs.Truth.{IsTruthful};
ghost use Rattle.domain_model.specs.World.{WorldState, first_world};
ghost use Rattle.laws_ledger.specs.Runs.{AreAllowed, unlined};
ghost use Rattle.laws_course.specs.Course.{Agreed, own_node};
ghost use Rattle.laws_quiet.specs.Quiet.{AreIssuers, IsQuiet};

/// In each router's LSDB each live LSP in the router's own name is what the router originates in its present state
/// (ISO/IEC 10589, 7.3.6 and 7.3.16.1). This holds in a domain that has just started, every event preserves it, and so it holds after
/// every run of a valid domain.
pub fn events_keep_issuers()
    ensures start { (d : DomainConf) → AreIssuers (first_world d).routers }
    ensures event { (w : WorldState) (e : Event) → IsTruthful w → AreIssuers w.routers → AreIssuers (happens w e).world.routers }
    ensures run { (d : DomainConf) (es : List (ℕ × Event)) → IsValid d → AreAllowed (first_world d) (unlined es) → AreIssuers (run_of d es).world.routers }
{}

/// In a run of a valid domain, each router to which a path of a router's topology leads has the same topology, where the domain is
/// quiet (ISO/IEC 10589, 7.2.5).
pub fn quiet_runs_agree()
    ensures { (d : DomainConf) (es : List (ℕ × Event)) (a : ℕ) (c : Control) → IsValid d → AreAllowed (first_world d) (unlined es) → IsQuiet (run_of d es).world → slice_get (run_of d es).world.routers a ≡ Some c → Agreed (run_of d es).world (control_view c) (own_node c) }
{}
