//! What is true of every run. The bodies are empty: the contracts are the laws.
ghost use Rattle.std.specs.Prelude.{◌≡◌, ℕ, ◌≤◌, List, None, length};
ghost use Rattle.wire_base.specs.model.Configuration.{DomainConf, IsValid};
ghost use Rattle.replay_text.specs.declared.event.Event.{Event};
ghost use Rattle.domain_model.specs.World.{first_world};
ghost use Rattle.domain_model.specs.Faults.{event_fault};
ghost use Rattle.domain_model.specs.Run.{Run, first_run, goes_on, run_of};
ghost use Rattle.domain_model.specs.Truth.{IsTruthful, EventFits};
ghost use Rattle.laws_ledger.specs.Ledger.{deliveries};
ghost use Rattle.laws_ledger.specs.Runs.{AreAllowed, unlined, IsAccounted, delivered_at, DeliversNamed};

/// The accounts of a valid domain balance when the domain starts, and each event that is allowed preserves this. So
/// they balance in every run: while LSDBs disagree, with tunnels, restarts, duplicated PDUs, and BFR-ids that several
/// routers have.
pub fn runs_are_accounted()
    ensures start { (d : DomainConf) → IsValid d → IsAccounted (first_run d) }
    ensures event { (r : Run) (e : ℕ × Event) → IsTruthful r.world → EventFits (length r.world.domain.routers) e.1 → event_fault r.world e.1 ≡ None → IsAccounted r → IsAccounted (goes_on r e) }
    ensures whole { (d : DomainConf) (es : List (ℕ × Event)) → IsValid d → AreAllowed (first_world d) (unlined es) → IsAccounted (run_of d es) }
{}

/// If the accounts balance, no egress delivers an injection twice, no BFR-id of it is delivered twice, even if several
/// routers have it, and no router delivers a BFR-id that the injection does not name.
pub fn each_egress_delivers_once()
    ensures egress { (r : Run) (a n : ℕ) → IsAccounted r → delivered_at a n r ≤ 1 }
    ensures id { (r : Run) (n k : ℕ) → IsAccounted r → deliveries n k r ≤ 1 }
    ensures named { (r : Run) → IsAccounted r → DeliversNamed r }
{}
