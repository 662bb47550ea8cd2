//! Rounds in which all that is due is sent and received. The body is empty: the contract is the law.
ghost use Rattle.std.specs.Prelude.{◌≡◌, ℕ, ◌<◌, List, ◌∷◌, Some, slice_get};
ghost use Rattle.wire_base.specs.model.Configuration.{DomainConf};
ghost use Rattle.wire_base.specs.model.Control.{Control};
ghost use Rattle.wire_base.specs.model.View.{control_view};
ghost use Rattle.replay_text.specs.declared.event.Event.{Event};
ghost use Rattle.domain_model.specs.Run.{settle_events, world_after};
ghost use Rattle.domain_model.specs.World.{WorldState};
ghost use Rattle.laws_ledger.specs.Ledger.{Injection};
ghost use Rattle.laws_ledger.specs.Runs.{AreAllowed};
ghost use Rattle.laws_ledger.specs.Weights.{copies_in};
ghost use Rattle.laws_course.specs.Course.{Agreed, own_node};
ghost use Rattle.laws_quiet.specs.Cover.{deliveries_by};
ghost use Rattle.laws_quiet.specs.Quiet.{IsQuiet};
ghost use Rattle.laws_settle.specs.Idle.{IsIdle};
ghost use Rattle.laws_settle.specs.Settled.{IsInjectedAt, IsSettled, IsTrafficRun};

/// In a valid domain no router has restarted and no LSP's Remaining Lifetime has ended since it started; whatever was lost, repeated or
/// overtaken, and however interfaces, labels and sub-domains changed. Once the two interfaces of each link are both up or both down,
/// one round less than the domain has routers makes it quiet, and so do as many rounds as it is wide, in links that are up: LSDBs across
/// each link that is up have the same live LSPs (ISO/IEC 10589, 7.3.15 to 7.3.17). It stays quiet, whatever is then injected, sent, received, lost
/// or repeated. So each router to which a path of a router's topology leads has the same topology (ISO/IEC 10589, 7.2.5), and a packet
/// that is injected then is delivered exactly once to each BFR-id that it reaches, when all its copies have been received
/// (RFC 8279, 6.5). Three rounds more, after at least one, bring the domain to rest: no router has an LSP to send, to acknowledge or to request from a
/// neighbor, no CSNP is due, and no PDU is in flight.
pub fn flooding_settles()
    ensures same { (d : DomainConf) (es : List Event) (w : WorldState) (rounds : ℕ) (v : WorldState) (fs : List Event) (u : WorldState) → IsSettled d es w rounds v → IsTrafficRun v fs u → IsQuiet u }
    ensures agree { (d : DomainConf) (es : List Event) (w : WorldState) (rounds : ℕ) (v : WorldState) (fs : List Event) (u : WorldState) (a : ℕ) (c : Control) → IsSettled d es w rounds v → IsTrafficRun v fs u → slice_get u.routers a ≡ Some c → Agreed u (control_view c) (own_node c) }
    ensures deliver { (d : DomainConf) (es : List Event) (w : WorldState) (rounds : ℕ) (v : WorldState) (fs : List Event) (u : WorldState) (e : Event) (gs : List Event) (c : Control) (n k : ℕ) (i : Injection) → IsSettled d es w rounds v → IsTrafficRun v fs u → IsInjectedAt u e gs c n k i → copies_in n (world_after u (e ∷ gs)).flights ≡ 0 → deliveries_by n k u (e ∷ gs) ≡ 1 }
    ensures idle { (d : DomainConf) (es : List Event) (w : WorldState) (rounds : ℕ) (v u : WorldState) → IsSettled d es w rounds v → 0 < rounds → AreAllowed v (settle_events v 3) → u ≡ world_after v (settle_events v 3) → IsIdle u }
{}
