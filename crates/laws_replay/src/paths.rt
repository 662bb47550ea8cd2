//! What holds of the links of a topology. The bodies are empty: the contracts are the laws.
ghost use Rattle.std.specs.Prelude.{◌≡◌, ◌<◌, ◌≤◌, ℕ, List, Contains, Some, length, slice_get};
ghost use Rattle.wire_base.specs.declared.triple.Triple.{Triple};
ghost use Rattle.wire_base.specs.declared.view.ViewEdge.{ViewEdge};
ghost use Rattle.wire_base.specs.declared.view.ViewNode.{ViewNode};
ghost use Rattle.wire_base.specs.model.Configuration.{DomainConf, IsValid};
ghost use Rattle.wire_base.specs.model.Control.{Control};
ghost use Rattle.wire_base.specs.model.HopCount.{hops, tunnel_links, CoversPath};
ghost use Rattle.wire_base.specs.model.OnFrame.{node_place, outer_ttl};
ghost use Rattle.wire_base.specs.model.View.{control_view};
ghost use Rattle.wire_base.specs.model.Walk.{dist};
ghost use Rattle.replay_text.specs.declared.event.Event.{Event};
ghost use Rattle.domain_model.specs.Run.{run_of};
ghost use Rattle.domain_model.specs.Truth.{IsTruthful};
ghost use Rattle.domain_model.specs.World.{WorldState, first_world};
ghost use Rattle.laws_ledger.specs.Runs.{AreAllowed, unlined};
ghost use Rattle.laws_course.specs.Course.{own_node};
ghost use Rattle.laws_replay.specs.Paths.{IsUpToward};

/// Where two routers have the same topology, and it has an edge from the one to the other, both interfaces of that link are up: so
/// each interface on a path is, while topologies agree.
pub fn paths_are_up()
    ensures { (w : WorldState) (g : List ViewNode) (a b : ℕ) (ca cb : Control) (n : ViewNode) (e : ViewEdge) → IsTruthful w → slice_get w.routers a ≡ Some ca → slice_get w.routers b ≡ Some cb
        → control_view ca ≡ g → control_view cb ≡ g → slice_get g (node_place g ca.conf.system) ≡ Some n → Contains n.edges e → e.to ≡ node_place g cb.conf.system
        → IsUpToward ca cb.conf.system × IsUpToward cb ca.conf.system }
{}

/// In a truthful world a router's topology has no more nodes than the domain has routers. So a tunnel over it to a node that a path
/// leads to arrives over fewer links than that.
pub fn topologies_are_small()
    ensures nodes { (w : WorldState) (a : ℕ) (c : Control) → IsTruthful w → slice_get w.routers a ≡ Some c → length (control_view c) ≤ length w.domain.routers }
    ensures tunnels { (w : WorldState) (a : ℕ) (c : Control) (u x n : ℕ) → IsTruthful w → slice_get w.routers a ≡ Some c → u < length (control_view c) → dist (control_view c) u x ≡ Some n
        → (h : ℕ) × (tunnel_links (control_view c) x u ≡ Some h) × (h < length w.domain.routers) }
{}

/// In a run of a valid domain of at most 255 routers, a TTL covers the path of a BFR-id from a router if it is at least the number of
/// hops: no tunnel is too long for its outer TTL.
pub fn hops_cover_paths_of_small_domains()
    ensures { (d : DomainConf) (es : List (ℕ × Event)) (a : ℕ) (c : Control) (t : Triple) (class k ttl n : ℕ) → IsValid d → AreAllowed (first_world d) (unlined es) → length d.routers ≤ outer_ttl → slice_get (run_of d es).world.routers a ≡ Some c
        → hops (control_view c) c.conf.kinds c.conf.table t class k (own_node c) ≡ Some n → n ≤ ttl → CoversPath (control_view c) c.conf.kinds c.conf.table t (own_node c) class k ttl }
{}
