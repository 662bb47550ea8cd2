//! When tunnels are short enough. The bodies are empty: the contracts are the laws.
ghost use Rattle.std.specs.Prelude.{◌≡◌, ℕ, ◌+◌, ◌-◌, ◌<◌, ◌≤◌, List, Option, length, slice_get, Some};
ghost use Rattle.wire_base.specs.declared.conf.SubKind.{SubKind};
ghost use Rattle.wire_base.specs.declared.conf.TableRow.{TableRow};
ghost use Rattle.wire_base.specs.declared.triple.Triple.{Triple};
ghost use Rattle.wire_base.specs.declared.view.ViewNode.{ViewNode};
ghost use Rattle.wire_base.specs.model.Control.{Control};
ghost use Rattle.wire_base.specs.model.Graph.{IsGraph};
ghost use Rattle.wire_base.specs.model.HopCount.{hops, tunnel_links, CoversPath, FitTunnels, Follows};
ghost use Rattle.wire_base.specs.model.OnFrame.{outer_ttl};
ghost use Rattle.wire_base.specs.model.Tight.{next_step};
ghost use Rattle.wire_base.specs.model.View.{control_view};
ghost use Rattle.domain_model.specs.World.{WorldState};
ghost use Rattle.domain_model.specs.Truth.{IsTruthful};
ghost use Rattle.laws_course.specs.Course.{LinksLeft};

/// A tunnel is forwarded over the next router of a shortest path, the one with the least system ID if there are several, and each
/// such link leaves one less. So an outer TTL of 255 is enough for a tunnel with at most 255 links: over its first link the TTL is
/// 255, and at each router that it reaches the TTL is larger than the number of links that are left (RFC 2784; RFC 1812, 5.3.1).
pub fn outer_ttls_cover_short_tunnels()
    ensures left { (g : List ViewNode) (u x y h j : ℕ) → IsGraph g → u < length g → tunnel_links g x u ≡ Some h → Follows (next_step g x) j u y → LinksLeft g x y h j }
    ensures enough { (g : List ViewNode) (u x y h j : ℕ) → IsGraph g → u < length g → tunnel_links g x u ≡ Some h → h ≤ outer_ttl → Follows (next_step g x) j u y
        → (left : ℕ) × (tunnel_links g x y ≡ Some left) × (left < outer_ttl - j) }
{}

/// In a topology of at most 255 nodes each tunnel has at most 255 links. So a TTL covers a path if it is at least the number of
/// hops. A topology has no more nodes than the number of routers of the domain plus one.
pub fn tunnels_of_small_views_fit()
    ensures way { (g : List ViewNode) (next : ℕ → Option ℕ) (u : ℕ) → length g ≤ outer_ttl → FitTunnels g next u }
    ensures covers { (g : List ViewNode) (kinds : List SubKind) (table : List TableRow) (t : Triple) (u class k ttl n : ℕ) → length g ≤ outer_ttl → hops g kinds table t class k u ≡ Some n → n ≤ ttl → CoversPath g kinds table t u class k ttl }
    ensures nodes { (w : WorldState) (a : ℕ) (c : Control) → IsTruthful w → slice_get w.routers a ≡ Some c → length (control_view c) ≤ length w.domain.routers + 1 }
{}
