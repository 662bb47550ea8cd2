//! Exactly-once delivery. The bodies are empty: the contracts are the laws.
ghost use Rattle.std.specs.Prelude.{◌≡◌, ℕ, ◌+◌, List, ◌∷◌, ◌++◌};
ghost use Rattle.wire_base.specs.model.Configuration.{DomainConf};
ghost use Rattle.wire_base.specs.model.Control.{Control};
ghost use Rattle.replay_text.specs.declared.event.Event.{Event};
ghost use Rattle.domain_model.specs.Run.{Run, run_of};
ghost use Rattle.laws_ledger.specs.Ledger.{Injection, deliveries, drops, copies_of};
ghost use Rattle.laws_ledger.specs.Weights.{copies_in};
ghost use Rattle.laws_course.specs.Course.{KeptFor, IsCarried, IsCarriedIn, carried_on};

/// Let an injection name a BFR-id that is reachable, over a path that its TTL covers. Suppose that the topologies of
/// all routers that the ingress reaches agree with the one that it had, and that no copy of the injection is lost. Then
/// no drop has the id: it was delivered once, or is in one copy that is on its course. If none of its copies is in
/// flight, it was delivered exactly once.
pub fn reachable_ids_arrive_once()
    ensures dropped { (r : Run) (e : ℕ × Event) (fs : List (ℕ × Event)) (c : Control) (n k : ℕ) (i : Injection) → IsCarried r e fs c n k i → drops n k (carried_on r e fs) ≡ 0 }
    ensures once { (r : Run) (e : ℕ × Event) (fs : List (ℕ × Event)) (c : Control) (n k : ℕ) (i : Injection) → IsCarried r e fs c n k i → deliveries n k (carried_on r e fs) + copies_of n k (carried_on r e fs).world.flights ≡ 1 }
    ensures course { (r : Run) (e : ℕ × Event) (fs : List (ℕ × Event)) (c : Control) (n k : ℕ) (i : Injection) → IsCarried r e fs c n k i → KeptFor (carried_on r e fs).world c n k }
    ensures delivered { (r : Run) (e : ℕ × Event) (fs : List (ℕ × Event)) (c : Control) (n k : ℕ) (i : Injection) → IsCarried r e fs c n k i → copies_in n (carried_on r e fs).world.flights ≡ 0 → deliveries n k (carried_on r e fs) ≡ 1 }
{}

/// The same for a whole run of a valid domain, from its start: for an injection among its events, and the events after
/// it.
pub fn runs_carry_reachable_ids()
    ensures dropped { (d : DomainConf) (es : List (ℕ × Event)) (e : ℕ × Event) (fs : List (ℕ × Event)) (c : Control) (n k : ℕ) (i : Injection) → IsCarriedIn d es e fs c n k i → drops n k (run_of d (es ++ e ∷ fs)) ≡ 0 }
    ensures once { (d : DomainConf) (es : List (ℕ × Event)) (e : ℕ × Event) (fs : List (ℕ × Event)) (c : Control) (n k : ℕ) (i : Injection) → IsCarriedIn d es e fs c n k i → deliveries n k (run_of d (es ++ e ∷ fs)) + copies_of n k (run_of d (es ++ e ∷ fs)).world.flights ≡ 1 }
    ensures delivered { (d : DomainConf) (es : List (ℕ × Event)) (e : ℕ × Event) (fs : List (ℕ × Event)) (c : Control) (n k : ℕ) (i : Injection) → IsCarriedIn d es e fs c n k i → copies_in n (run_of d (es ++ e ∷ fs)).world.flights ≡ 0 → deliveries n k (run_of d (es ++ e ∷ fs)) ≡ 1 }
{}
