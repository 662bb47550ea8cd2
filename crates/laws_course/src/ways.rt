//! A chosen router can be reached. The bodies are empty: the contracts are the laws.
ghost use Rattle.std.specs.Prelude.{◌≡◌, ℕ, List, [], Some, slice_get};
ghost use Rattle.wire_base.specs.model.Control.{Control};
ghost use Rattle.wire_base.specs.model.Item.{DataItem};
ghost use Rattle.wire_base.specs.model.OnFrame.{choice_of};
ghost use Rattle.wire_base.specs.model.View.{control_view};
ghost use Rattle.domain_model.specs.World.{WorldState};
ghost use Rattle.domain_model.specs.Moves.{packet_of, item_copied};
ghost use Rattle.domain_model.specs.Truth.{IsTruthful};
ghost use Rattle.laws_course.specs.Course.{own_node};

/// A copy to a router that was chosen for a BFR-id is always sent, whether topologies agree or not. The definitions
/// drop a copy to which no path leads, but this never occurs in a domain whose LSDBs are truthful.
pub fn chosen_copies_are_sent()
    ensures { (w : WorldState) (a : ℕ) (c : Control) (x : DataItem) (y k : ℕ) (ks : List ℕ) (ttl : ℕ) → IsTruthful w → slice_get w.routers a ≡ Some c → choice_of c.conf (control_view c) (own_node c) (packet_of x) k ≡ Some y → (item_copied w.domain.routers a c.conf (control_view c) (own_node c) x y ks ttl).drops ≡ [] }
{}
