//! What every event preserves in a domain. The bodies are empty: the contracts are the laws.
ghost use Rattle.std.specs.Prelude.{◌≡◌, ℕ, Bool, None, length};
ghost use Rattle.wire_base.specs.model.Configuration.{DomainConf, IsValid};
ghost use Rattle.replay_text.specs.declared.event.Event.{Event};
ghost use Rattle.domain_model.specs.World.{WorldState, first_world};
ghost use Rattle.domain_model.specs.Faults.{event_fault};
ghost use Rattle.domain_model.specs.Step.{happens};
ghost use Rattle.domain_model.specs.Truth.{IsTruthful, EventFits, AreWorldDrops};

/// A valid domain that has just started is truthful, whether or not its routers have learned of each other.
pub fn a_start_is_truthful()
    ensures { (d : DomainConf) → IsValid d → IsTruthful (first_world d) }
{}

/// Every event that is allowed preserves the invariant: LSDBs and PDUs in flight match what their routers advertise,
/// and each copy of a packet carries the BIFT-id that its target assigns to the packet's triple. So nothing is dropped
/// because it cannot be parsed, because it has no meaning, or because an LSDB is full (RFC 8279, 6.4; RFC 8401, 6;
/// ISO/IEC 10589, 7.3.16).
pub fn events_keep_the_truth()
    ensures truth { (w : WorldState) (e : Event) → IsTruthful w → EventFits (length w.domain.routers) e → event_fault w e ≡ None → IsTruthful (happens w e).world }
    ensures domain { (w : WorldState) (e : Event) → IsTruthful w → EventFits (length w.domain.routers) e → event_fault w e ≡ None → (happens w e).world.domain ≡ w.domain }
    ensures drops { (w : WorldState) (e : Event) → IsTruthful w → EventFits (length w.domain.routers) e → event_fault w e ≡ None → AreWorldDrops (happens w e).made.drops }
{}
