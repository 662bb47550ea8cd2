//! How long copies of an injection can be in flight. The bodies are empty: the contracts are the laws.
ghost use Rattle.std.specs.Prelude.{◌≡◌, ℕ, ◌+◌, ◌<◌, ◌≤◌, Bool, true, List, None, Some, length};
ghost use Rattle.replay_text.specs.declared.event.Event.{Event};
ghost use Rattle.domain_model.specs.World.{WorldState};
ghost use Rattle.domain_model.specs.Faults.{event_fault};
ghost use Rattle.domain_model.specs.Step.{happens};
ghost use Rattle.domain_model.specs.Run.{world_after};
ghost use Rattle.domain_model.specs.Truth.{IsTruthful, EventFits};
ghost use Rattle.laws_ledger.specs.Ledger.{Injection, entered};
ghost use Rattle.laws_ledger.specs.Runs.{AreAllowed};
ghost use Rattle.laws_ledger.specs.Weights.{weights, first_weight, copies_in, takes_copy, takes_in};

/// Each `take` of a copy lowers the weights of its injection's copies, and no event but the injection itself raises
/// them. Directly after the injection they are at most the number of its BFR-ids times (256 times its TTL plus 255). So
/// after that many `take` events of its copies none of them is in flight.
pub fn takes_lower_weights()
    ensures first { (w : WorldState) (e : Event) (n : ℕ) (i : Injection) → IsTruthful w → EventFits (length w.domain.routers) e → event_fault w e ≡ None → entered w.injections e n ≡ Some i → weights n (happens w e).world.flights ≤ first_weight i }
    ensures take { (w : WorldState) (e : Event) (n : ℕ) → IsTruthful w → takes_copy w n e ≡ true → weights n (happens w e).world.flights < weights n w.flights }
    ensures other { (w : WorldState) (e : Event) (n : ℕ) → IsTruthful w → entered w.injections e n ≡ None → weights n (happens w e).world.flights ≤ weights n w.flights }
    ensures takes { (w : WorldState) (es : List Event) (n : ℕ) → IsTruthful w → n ≤ w.injections → AreAllowed w es → takes_in n w es + weights n (world_after w es).flights ≤ weights n w.flights }
    ensures end { (w : WorldState) (e : Event) (n : ℕ) (i : Injection) (es : List Event) → IsTruthful w → EventFits (length w.domain.routers) e → event_fault w e ≡ None → entered w.injections e n ≡ Some i → AreAllowed (happens w e).world es → first_weight i ≤ takes_in n (happens w e).world es → copies_in n (world_after (happens w e).world es).flights ≡ 0 }
{}
