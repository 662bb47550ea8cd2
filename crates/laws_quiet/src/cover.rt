//! Exactly-once delivery in a quiet domain. The bodies are empty: the contracts are the laws.
ghost use Rattle.std.specs.Prelude.{◌≡◌, ℕ, true, List, ◌∷◌, Some, slice_get};
ghost use Rattle.wire_base.specs.model.Control.{Control};
ghost use Rattle.wire_base.specs.model.View.{control_view};
ghost use Rattle.replay_text.specs.declared.event.Event.{Event};
ghost use Rattle.domain_model.specs.Run.{Run, world_after};
ghost use Rattle.domain_model.specs.Truth.{IsTruthful};
ghost use Rattle.domain_model.specs.World.{WorldState};
ghost use Rattle.laws_course.specs.Course.{IsCovered, carried_on, own_node};
ghost use Rattle.laws_ledger.specs.Ledger.{Injection, deliveries, drops};
ghost use Rattle.laws_ledger.specs.Weights.{copies_in};
ghost use Rattle.laws_quiet.specs.Cover.{IsCoveredAt, IsCoveredRun, covers_id, deliveries_by, drops_by};

/// A BFR-id that packets reach is reachable, over a path that the TTL covers, and each tunnel of the path has at most 255 links.
pub fn covered_ids_are_reachable()
    ensures { (w : WorldState) (c : Control) (k : ℕ) (i : Injection) → IsTruthful w → slice_get w.routers i.router ≡ Some c → covers_id c i.sd i.bsl i.ttl i.entropy k ≡ true → IsCovered c.conf (control_view c) (own_node c) i k }
{}

/// Let packets of an injection in a quiet domain reach a BFR-id that the injection names. Whichever of their copies the routers
/// receive, and in whatever order, none of these events drops the BFR-id. If no copy is in flight any more, they delivered it exactly
/// once (RFC 8279, 6.5 and 6.9).
pub fn quiet_domains_deliver_once()
    ensures dropped { (w : WorldState) (e : Event) (es : List Event) (c : Control) (n k : ℕ) (i : Injection) → IsCoveredAt w e es c n k i → drops_by n k w (e ∷ es) ≡ 0 }
    ensures delivered { (w : WorldState) (e : Event) (es : List Event) (c : Control) (n k : ℕ) (i : Injection) → IsCoveredAt w e es c n k i → copies_in n (world_after w (e ∷ es)).flights ≡ 0 → deliveries_by n k w (e ∷ es) ≡ 1 }
{}

/// The same of all that a run delivered and dropped, up to these events.
pub fn quiet_runs_deliver_once()
    ensures dropped { (r : Run) (e : ℕ × Event) (fs : List (ℕ × Event)) (c : Control) (n k : ℕ) (i : Injection) → IsCoveredRun r e fs c n k i → drops n k (carried_on r e fs) ≡ 0 }
    ensures delivered { (r : Run) (e : ℕ × Event) (fs : List (ℕ × Event)) (c : Control) (n k : ℕ) (i : Injection) → IsCoveredRun r e fs c n k i → copies_in n (carried_on r e fs).world.flights ≡ 0 → deliveries n k (carried_on r e fs) ≡ 1 }
{}
