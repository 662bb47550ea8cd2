//! The effect of one event on the ledger. The bodies are empty: the contracts are the laws.
ghost use Rattle.std.specs.Prelude.{◌≡◌, ℕ, ◌+◌, ◌≤◌, None, Some, length, sum_by};
ghost use Rattle.replay_text.specs.declared.event.Event.{Event};
ghost use Rattle.domain_model.specs.World.{WorldState, ids_in_flight};
ghost use Rattle.domain_model.specs.Faults.{event_fault};
ghost use Rattle.domain_model.specs.Step.{happens};
ghost use Rattle.domain_model.specs.Truth.{IsTruthful, EventFits};
ghost use Rattle.laws_ledger.specs.Ledger.{Injection, injection_of, entered, Balances, AreCopiesOf, AreDeliveriesOf};
ghost use Rattle.laws_ledger.specs.Runs.{named_in};

/// An event that is allowed neither loses nor duplicates a BFR-id of a packet. Count the copies for it in flight before
/// the event, and one more if the event is the injection and names it. This is the number of the copies in flight, the
/// deliveries and the drops for it after the event (RFC 8279, 6.5). The same is true of the total number of BFR-ids.
pub fn an_event_balances()
    ensures each { (w : WorldState) (e : Event) (n k : ℕ) → IsTruthful w → EventFits (length w.domain.routers) e → event_fault w e ≡ None → Balances w e n k }
    ensures total { (w : WorldState) (e : Event) → IsTruthful w → EventFits (length w.domain.routers) e → event_fault w e ≡ None → ids_in_flight w.flights + named_in (injection_of e) ≡ ids_in_flight (happens w e).world.flights + (length (happens w e).made.got + sum_by (λ d. length d.ids) (happens w e).made.drops) }
{}

/// From its event on, all copies of an injection have its sub-domain, its payload and its entropy. So each delivery has
/// its payload, and is at a router whose own BFR-id in its sub-domain is the one delivered.
pub fn copies_and_deliveries_are_of_their_injection()
    ensures first_copies { (w : WorldState) (e : Event) (n : ℕ) (i : Injection) → IsTruthful w → entered w.injections e n ≡ Some i → AreCopiesOf i n (happens w e).world.flights }
    ensures first_deliveries { (w : WorldState) (e : Event) (n : ℕ) (i : Injection) → IsTruthful w → entered w.injections e n ≡ Some i → AreDeliveriesOf w.domain.routers i n (happens w e).made.got }
    ensures copies { (w : WorldState) (e : Event) (n : ℕ) (i : Injection) → IsTruthful w → n ≤ w.injections → AreCopiesOf i n w.flights → AreCopiesOf i n (happens w e).world.flights }
    ensures deliveries { (w : WorldState) (e : Event) (n : ℕ) (i : Injection) → IsTruthful w → n ≤ w.injections → AreCopiesOf i n w.flights → AreDeliveriesOf w.domain.routers i n (happens w e).made.got }
{}
