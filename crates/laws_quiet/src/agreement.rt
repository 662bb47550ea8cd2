//! When topologies agree. The bodies are empty: the contracts are the laws.
ghost use Rattle.std.specs.Prelude.{◌≡◌, ℕ, Some, slice_get};
ghost use Rattle.wire_base.specs.model.Control.{Control};
ghost use Rattle.wire_base.specs.model.View.{control_view};
ghost use Rattle.domain_model.specs.Truth.{IsTruthful};
ghost use Rattle.domain_model.specs.World.{WorldState};
ghost use Rattle.laws_course.specs.Course.{Agreed, own_node};
ghost use Rattle.laws_quiet.specs.Quiet.{AreIssuers, IsQuiet};

/// In a quiet domain, in which each router's own LSP is what it originates in its present state, each router to which a path of a
/// router's topology leads has the same topology (ISO/IEC 10589, 7.2.5).
pub fn quiet_topologies_agree()
    ensures { (w : WorldState) (a : ℕ) (c : Control) → IsTruthful w → AreIssuers w.routers → IsQuiet w → slice_get w.routers a ≡ Some c → Agreed w (control_view c) (own_node c) }
{}
