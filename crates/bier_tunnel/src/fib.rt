//! The routes of the tunnels of a router.
ghost use Rattle.std.specs.Prelude.{◌≡◌, ◌+◌, ◌≤◌, ◌<◌, ◌↔◌, ℕ, List, None, false, IfOk, IfSome, length, option_and_then, option_map};
ghost use Rattle.std.specs.Str.{bytes_eq};
ghost use Rattle.wire_base.specs.declared.conf.RouterConf.{RouterConf};
ghost use Rattle.wire_base.specs.declared.view.ViewNode.{ViewNode};
ghost use Rattle.wire_base.specs.model.Control.{Control};
ghost use Rattle.wire_base.specs.model.OnFrame.{in_transit, next_link, node_place, node_with, outer_ttl, prefix_of};
ghost use Rattle.wire_base.specs.model.Tunnel.{TunnelPacket};
ghost use Rattle.wire_base.specs.model.View.{control_view};
ghost use Rattle.bier_tunnel.specs.declared.next.Next.TheVariants.{Leave, Outer, Route};
ghost use Rattle.bier_tunnel.specs.Onward.{GoesOver, IsNoWay, IsNoWayTo, Lasts, LeadsOver, LeadsToEnds, passed_on};
ghost use Rattle.bier_tunnel.specs.Ways.{AreWays, link_to, link_with, next_of, prefix_to, way_of};

use crate::first_steps::first_steps;
use crate::next::{Next, next_of};
use crate::ways::{Way, has_prefix, prefix_in, ways_from};
use gre_ip::Tunnel;
use path_tree::distances_from;
use std::alloc::Global;
use std::marker::Model;
use wire_base::{Ipv4, M, RouterConf, Rows, SystemId, View};

/// The routes from a router to the others of its topology: for each router the interface over which tunnels to it are sent, and
/// its BFR-prefixes.
#[derive(Drop)]
pub struct Fib {
    ways: Rows<Way>,
}

impl Model for Fib {
    ghost use Rattle.std.specs.Prelude.{List};
    ghost use Rattle.bier_tunnel.specs.declared.ways.Way.{Way};

    ghost Value = { List Way };

    ghost view = { λ f. f.ways };
}

impl Fib {
    /// Builds the routes from the node `u`, which must be the node of the configuration `conf`. Each route uses the first step
    /// of a shortest path. If there are several, it uses the step to the router with the least system ID.
    pub fn build(alloc: Global, v: &View, conf: &RouterConf, u: u16) -> M<Fib>
        requires ends { length conf.now.ends ≤ 65536 }
        requires node { u < length v.now.nodes }
        ensures { IfOk result (AreWays conf.now v.now.nodes u) }
    {
        let nodes = v.as_slice();
        let dist = distances_from(alloc, v, u)?;
        let steps = first_steps(alloc, nodes, dist.as_slice(), u)?;
        let ways = ways_from(alloc, conf.ends.as_slice(), nodes, steps.as_slice())?;
        Ok(Fib { ways })
    }

    /// Returns the index of the interface over which tunnels to a router are sent. None exactly where there is no path
    /// to it, or it is the router itself.
    pub fn next_link(&self, target: SystemId) -> Option<u16>
        ensures kept { result ≡ link_to self.now target }
        ensures link { (r : RouterConf) (g : List ViewNode) (u : ℕ) → AreWays r g u self.now
            → result ≡ next_link r g u (node_place g target) }
        ensures onward { (r : RouterConf) (g : List ViewNode) (u : ℕ) → AreWays r g u self.now
            → IfSome result (LeadsOver r g u (node_place g target)) }
        ensures lasts { (r : RouterConf) (g : List ViewNode) (u : ℕ) → AreWays r g u self.now → length g ≤ outer_ttl + 1
            → IfSome result (λ link. Lasts g u (node_place g target)) }
        ensures within { (r : RouterConf) (g : List ViewNode) (u : ℕ) → AreWays r g u self.now
            → IfSome result (λ link. link < length r.ends) }
        ensures none { (r : RouterConf) (g : List ViewNode) (u : ℕ) → AreWays r g u self.now → LeadsToEnds r g u
            → ((result ≡ None) ↔ IsNoWay g u (node_place g target)) }
    {
        self.link_to(target)
    }

    /// Returns the BFR-prefix of a router in a sub-domain. None exactly where the topology has none.
    pub fn prefix_of(&self, target: SystemId, sd: u8) -> Option<Ipv4>
        ensures kept { result ≡ prefix_to self.now target sd }
        ensures prefix { (r : RouterConf) (g : List ViewNode) (u : ℕ) → AreWays r g u self.now
            → result ≡ prefix_of g sd (node_place g target) }
    {
        self.prefix_to(target, sd)
    }

    /// Returns what the router with the BFR-prefix `own` does with a tunnel packet. The first of these that applies: the tunnel
    /// ends here; the TTL expires, if it is at most 1; there is no route, if no path leads to another router with the
    /// destination's prefix; or the packet is forwarded with a TTL one lower.
    pub fn transit(&self, own: Ipv4, t: &Tunnel) -> Next
        ensures kept { result ≡ next_of own t.now (link_with self.now t.now.dst) }
        ensures next { (r : RouterConf) (g : List ViewNode) (u : ℕ) → AreWays r g u self.now
            → result ≡ next_of own t.now (option_and_then (next_link r g u) (node_with g t.now.dst)) }
        ensures within { (r : RouterConf) (g : List ViewNode) (u : ℕ) → AreWays r g u self.now
            → GoesOver (λ link. link < length r.ends) result }
        ensures route { (r : RouterConf) (g : List ViewNode) (u : ℕ) → AreWays r g u self.now → LeadsToEnds r g u
            → (result ≡ Leave → ⊥) → (result ≡ Outer → ⊥) → ((result ≡ Route) ↔ IsNoWayTo g u (node_with g t.now.dst)) }
        ensures passed { (c : Control) (octets : List ℕ) (p : TunnelPacket)
            → AreWays c.conf (control_view c) (node_place (control_view c) c.conf.system) self.now
            → p.dst ≡ t.now.dst → p.ttl ≡ t.now.ttl → bytes_eq t.now.dst.0 own.0 ≡ false
            → in_transit c octets p ≡ passed_on c.conf octets result }
    {
        next_of(own, t, self.link_with(t.dst))
    }

    /// Returns the interface index of the route to a router.
    fn link_to(&self, target: SystemId) -> Option<u16>
        ensures { result ≡ link_to self.now target }
    {
        self.way_of(target)?.link
    }

    /// Returns the prefix of a router in a sub-domain.
    fn prefix_to(&self, target: SystemId, sd: u8) -> Option<Ipv4>
        ensures { result ≡ prefix_to self.now target sd }
    {
        prefix_in(self.way_of(target)?.prefixes.as_slice(), sd)
    }

    /// Returns the route to a router.
    fn way_of(&self, target: SystemId) -> Option<&Way>
        ensures { option_map (λ w. w.now) result ≡ way_of self.now target }
    {
        for way in self.ways.as_slice() {
            if way.system == target {
                return Some(way);
            }
        }
        None
    }

    /// Returns the interface index over which tunnels to the router with a BFR-prefix are sent.
    fn link_with(&self, prefix: Ipv4) -> Option<u16>
        ensures { result ≡ link_with self.now prefix }
    {
        for way in self.ways.as_slice() {
            if has_prefix(way.prefixes.as_slice(), prefix) {
                return way.link;
            }
        }
        None
    }
}
