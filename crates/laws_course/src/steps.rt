//! The effect of one event on copies on their course. The bodies are empty: the contracts are the laws.
ghost use Rattle.std.specs.Prelude.{◌≡◌, ℕ};
ghost use Rattle.wire_base.specs.model.Control.{Control};
ghost use Rattle.replay_text.specs.declared.event.Event.{Event};
ghost use Rattle.domain_model.specs.World.{WorldState};
ghost use Rattle.domain_model.specs.Step.{happens};
ghost use Rattle.laws_ledger.specs.Ledger.{Injection, drops_of};
ghost use Rattle.laws_course.specs.Course.{KeptFor, Begins, GoesOn};

/// If a payload is injected at a router with a TTL that covers the path of a reachable BFR-id, the copies for it start
/// on their course, and none is dropped. While the topologies of the routers that the ingress reaches agree with its
/// own, each event keeps these copies on their course and drops none, except an event that loses such a copy (RFC 8279,
/// 6.5 and 6.9).
pub fn copies_stay_on_course()
    ensures first { (w : WorldState) (e : Event) (c : Control) (n k : ℕ) (i : Injection) → Begins w e c n k i → KeptFor (happens w e).world c n k }
    ensures first_drops { (w : WorldState) (e : Event) (c : Control) (n k : ℕ) (i : Injection) → Begins w e c n k i → drops_of n k (happens w e).made.drops ≡ 0 }
    ensures later { (w : WorldState) (e : Event) (s : ℕ) (c : Control) (n k : ℕ) → GoesOn w e s c n k → KeptFor (happens w e).world c n k }
    ensures later_drops { (w : WorldState) (e : Event) (s : ℕ) (c : Control) (n k : ℕ) → GoesOn w e s c n k → drops_of n k (happens w e).made.drops ≡ 0 }
{}
