//! A domain at rest. The body is empty: the contract is the law.
ghost use Rattle.std.specs.Prelude.{◌≡◌, ℕ, List, Some, slice_get};
ghost use Rattle.wire_base.specs.model.Configuration.{DomainConf};
ghost use Rattle.wire_base.specs.model.Control.{Control};
ghost use Rattle.wire_base.specs.model.View.{control_view};
ghost use Rattle.replay_text.specs.declared.event.Event.{Event};
ghost use Rattle.domain_model.specs.World.{WorldState};
ghost use Rattle.laws_course.specs.Course.{Agreed, own_node};
ghost use Rattle.laws_quiet.specs.Quiet.{IsQuiet};
ghost use Rattle.laws_settle.specs.Settled.{IsAtRest};

/// In a valid domain no router has restarted and no LSP's Remaining Lifetime has ended since it started; whatever was lost, repeated or
/// overtaken, and however interfaces, labels and sub-domains changed. If the two interfaces of each link are both up or both down, and
/// no router has an LSP to send on an interface that is up, then the domain is quiet: LSDBs across each link that is up have the same
/// live LSPs (ISO/IEC 10589, 7.3.15 to 7.3.17). So each router to which a path of a router's topology leads has the same topology
/// (ISO/IEC 10589, 7.2.5).
pub fn flooding_at_rest_is_quiet()
    ensures same { (d : DomainConf) (es : List Event) (w : WorldState) → IsAtRest d es w → IsQuiet w }
    ensures agree { (d : DomainConf) (es : List Event) (w : WorldState) (a : ℕ) (c : Control) → IsAtRest d es w → slice_get w.routers a ≡ Some c → Agreed w (control_view c) (own_node c) }
{}
