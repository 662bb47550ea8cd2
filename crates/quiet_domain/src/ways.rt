//! The path of a BFR-id.
ghost use Rattle.std.specs.Prelude.{◌≡◌, ◌<◌, ◌≤◌, ◌↔◌, ◌==◌, ◌&&◌, true, false, None, Some, IfOk, OnOk, length, is_some, option_map, slice_get};
ghost use Rattle.std.specs.List.{list_any};
ghost use Rattle.wire_base.specs.model.Choice.{choose};
ghost use Rattle.wire_base.specs.model.Graph.{has_id_at};
ghost use Rattle.wire_base.specs.model.HopCount.{hops};
ghost use Rattle.wire_base.specs.declared.conf.RouterConf.{RouterConf};
ghost use Rattle.wire_base.specs.model.Place.{bits_of, position_in};
ghost use Rattle.path_tree.specs.Ways.{AreDistsFrom};
ghost use Rattle.quiet_domain.specs.Paths.{AreBirts, IsBirt, IsHop, next_in, way_in};
ghost use Rattle.quiet_domain.specs.Way.{way_to};
ghost use Rattle.quiet_domain.specs.declared.birt.Birt.{Birt};

use crate::birt::{Birt, birt_of, no_birts};
use crate::choice::choice;
use crate::path::{Hop, Way};
use crate::tunnels::links_over;
use std::alloc::Global;
use std::marker::Model;
use wire_base::{M, RouterConf, Triple, View, ViewNode, ViewSub};

/// Returns the path of a BFR-id `k` from the node `u`, for packets of a triple and an entropy class below 16 (RFC 8279, 6.5, 6.7
/// and 6.9). None exactly where the node `u` does not have the BFR-id and sends its bit to no router. `u` must be the node of the
/// configuration `conf`, and `k` a BFR-id of the triple's set.
pub fn way(
    alloc: Global,
    v: &View,
    conf: &RouterConf,
    u: u16,
    t: Triple,
    class: u8,
    k: u16,
) -> M<Option<Way>>
    requires ends { length conf.now.ends ≤ 65536 }
    requires node { u < length v.now.nodes }
    requires class { class < 16 }
    requires place { is_some (position_in t k) ≡ true }
    ensures way { IfOk result (λ w. w ≡ way_to v.now.nodes conf.now.kinds conf.now.table t class k u) }
    // Its hops are those to the owner of the BFR-id.
    ensures hops { IfOk result (λ w. option_map (λ x. x.hops) w ≡ hops v.now.nodes conf.now.kinds conf.now.table t class k u) }
    ensures none { IfOk result (λ w. (w ≡ None) ↔ ((has_id_at v.now.nodes t.sd k u ≡ false) × (choose v.now.nodes conf.now.kinds conf.now.table t class u k ≡ None))) }
{
    let mut paths = Paths::new(alloc, v, conf, t, class)?;
    paths.way(alloc, u, k)
}

/// The paths of the BFR-ids of one set in the topology of a router, for packets of one entropy class. The BIRT of each node that
/// a path comes to is computed once, and is kept for the next paths.
#[derive(Drop)]
pub struct Paths<'a> {
    view: &'a View,
    conf: &'a RouterConf,
    triple: Triple,
    class: u8,
    birts: Vec<Option<Birt>>,
}

impl<'a> Model for Paths<'a> {
    ghost use Rattle.quiet_domain.specs.Paths.{ArePaths, PathsIn};

    ghost Value = { PathsIn };

    ghost view = { λ p. record { conf = p.conf.now; nodes = p.view.now.nodes; triple = p.triple; class = p.class } };

    ghost invariant = { λ p. ArePaths (record { conf = p.conf.now; nodes = p.view.now.nodes; triple = p.triple; class = p.class }) p.birts.items };
}

impl<'a> Paths<'a> {
    /// Prepares the paths of the BFR-ids of a triple's set, for packets of an entropy class below 16. `conf` must be the
    /// configuration of the router whose topology it is.
    pub fn new(
        alloc: Global,
        view: &'a View,
        conf: &'a RouterConf,
        triple: Triple,
        class: u8,
    ) -> M<Self>
        requires ends { length conf.now.ends ≤ 65536 }
        requires class { class < 16 }
        ensures { IfOk result (λ p. p ≡ record { conf = conf.now; nodes = view.now.nodes; triple = triple; class = class }) }
    {
        let birts = no_birts(alloc, view.as_slice().len())?;
        Ok(Paths {
            view,
            conf,
            triple,
            class,
            birts,
        })
    }

    /// Returns the path of a BFR-id `k` of the set from the node `u`, as `way` does.
    pub fn way(&mut self, alloc: Global, u: u16, k: u16) -> M<Option<Way>>
        requires node { u < length self.old.nodes }
        requires place { is_some (position_in self.old.triple k) ≡ true }
        ensures way { IfOk result (λ w. w ≡ way_in self.old u k) }
        ensures hops { IfOk result (λ w. option_map (λ x. x.hops) w ≡ hops self.old.nodes self.old.conf.kinds self.old.conf.table self.old.triple self.old.class k u) }
        ensures none { IfOk result (λ w. (w ≡ None) ↔ ((has_id_at self.old.nodes self.old.triple.sd k u ≡ false) × (next_in self.old u k ≡ None))) }
        ensures same { self.new ≡ self.old }
    {
        let nodes = self.view.as_slice();
        let mut node = u;
        let mut longest = 0;
        'path: for hops in 0..nodes.len() {
            if has_id_at(nodes, self.triple.sd, k, node) {
                return Ok(Some(Way {
                    hops: hops as u16,
                    longest,
                }));
            }
            let Some(hop) = self.hop(alloc, node, k)? else {
                return Ok(None);
            };
            longest = longest.max(hop.links);
            node = hop.next;
        }
        // The path ends after fewer hops than there are nodes.
        Ok(None)
    }

    /// Returns the hop of the BFR-id's path that leads from the node `u`, if there is one.
    fn hop(&mut self, alloc: Global, u: u16, k: u16) -> M<Option<Hop>>
        requires node { u < length self.old.nodes }
        requires place { is_some (position_in self.old.triple k) ≡ true }
        ensures hop { IfOk result (IsHop self.old.nodes u (next_in self.old u k)) }
        ensures same { self.new ≡ self.old }
    {
        keep(alloc, self.view, self.conf, self.triple, &mut self.birts, u)?;
        match &self.birts[usize::from(u)] {
            Some(birt) => hop_of(alloc, self.view, birt, self.triple, self.class, u, k),
            None => unreachable!(),
        }
    }
}

/// Computes the BIRT of the node `u`, unless it is kept already.
fn keep(
    alloc: Global,
    v: &View,
    conf: &RouterConf,
    t: Triple,
    birts: &mut Vec<Option<Birt>>,
    u: u16,
) -> M<()>
    requires ends { length conf.now.ends ≤ 65536 }
    requires node { u < length v.now.nodes }
    requires birts { AreBirts conf.now v.now.nodes t birts.old.items }
    ensures birts { AreBirts conf.now v.now.nodes t birts.new.items }
    ensures there { OnOk result ((x : Birt) × (slice_get birts.new.items u ≡ Some (Some x))) }
{
    let at = usize::from(u);
    if birts[at].is_none() {
        birts[at] = Some(birt_of(alloc, v, conf, t, u)?);
    }
    Ok(())
}

/// Returns the hop of a BFR-id's path that leads from the node `u`, given the node's BIRT.
fn hop_of(
    alloc: Global,
    v: &View,
    birt: &Birt,
    t: Triple,
    class: u8,
    u: u16,
    k: u16,
) -> M<Option<Hop>>
    requires node { u < length v.now.nodes }
    requires place { is_some (position_in t k) ≡ true }
    requires bits { length birt.now.set.bits ≡ bits_of t.bsl }
    requires costs { AreDistsFrom v.now.nodes u birt.now.costs }
    ensures { IfOk result (λ hop. (r : RouterConf) → IsBirt r v.now.nodes t u birt.now → IsHop v.now.nodes u (choose v.now.nodes r.kinds r.table t class u k) hop) }
{
    let Some(next) = choice(v, birt, t, class, k) else {
        return Ok(None);
    };
    let links = links_over(alloc, v, &birt.costs, u, next)?;
    Ok(Some(Hop { next, links }))
}

/// Returns whether the node at an index has a BFR-id in a sub-domain.
fn has_id_at(nodes: &[ViewNode], sd: u8, k: u16, place: u16) -> bool
    ensures { result ≡ has_id_at nodes.now sd k place }
{
    match nodes.get(usize::from(place)) {
        Some(node) => has_id(node.subs.as_slice(), sd, k),
        None => false,
    }
}

fn has_id(subs: &[ViewSub], sd: u8, k: u16) -> bool
    ensures { result ≡ list_any (λ s. (s.sd == sd) && (s.id == k)) subs.now }
{
    subs.iter().any(|sub| is_sub(sub, sd, k))
}

fn is_sub(sub: &ViewSub, sd: u8, k: u16) -> bool
    ensures { result ≡ ((sub.now.sd == sd) && (sub.now.id == k)) }
{
    sub.sd == sd && sub.id == k
}
