//! The indices of the nodes that may change when systems advertise something new.
ghost use Rattle.std.specs.Prelude.{◌≡◌, ◌≤◌, ◌∷◌, ℕ, true, false, length, Option, Some, IfOk, IfSome, OnOk};
ghost use Rattle.wire_base.specs.model.View.{Claim as ClaimItem};
ghost use Rattle.view_graph.specs.Edges.{AreInOrder, leads_to};
ghost use Rattle.view_graph.specs.Renewal.{AreNoted, IsAdded, IsAsListed, IsNoted, Stays, halves_now, has, said_now, node_claims};

use crate::claims::Claim;
use crate::edges::leads_to;
use crate::node_index::{half_edges, index_of, is_at};
use crate::renewal::said_now;
use crate::same::{are_same_edges, are_same_subs};
use lsp_store::Store;
use wire_base::{M, RouterConf, SystemId, ViewEdge, ViewNode};

fn has(places: &[usize], place: usize) -> bool
    ensures { result ≡ has places.now place }
{
    places.iter().any(|p| *p == place)
}

/// Adds an index that is not in the list yet.
fn add_place(places: &mut Vec<usize>, place: usize) -> M<()>
    ensures { OnOk result (IsAdded place places.old.items places.new.items) }
{
    if has(places.as_slice(), place) {
        return Ok(());
    }
    places.push(place)?;
    Ok(())
}

/// Adds the indices that exactly one of two edge lists leads to: those of `edges` that are not in `others`.
fn add_ends(places: &mut Vec<usize>, edges: &[ViewEdge], others: &[ViewEdge]) -> M<()>
    ensures stays { OnOk result (Stays places.old.items places.new.items) }
    ensures ends { OnOk result ((i : ℕ) → leads_to i edges.now ≡ true → has places.new.items i ≡ false → leads_to i others.now ≡ true) }
{
    'edges: for edge in edges {
        if !leads_to(edge.to, others) {
            add_place(places, edge.to as usize)?;
        }
    }
    Ok(())
}

/// Returns whether a node has exactly the edges that its system lists, and the overload bit that its system advertises.
fn is_as_listed(node: &ViewNode, claim: &Claim, halves: &[ViewEdge]) -> bool
    ensures { result ≡ true → (node.now.overload ≡ claim.now.overload) × (node.now.edges ≡ halves.now) }
{
    let are_same = are_same_edges(node.edges.as_slice(), halves);
    node.overload == claim.overload && are_same
}

/// Adds the index of a node, unless it matches what its system lists, and the indices of the systems to which either one of its
/// edges leads or its links now lead, but not both.
fn add_all(
    places: &mut Vec<usize>,
    nodes: &[ViewNode],
    place: usize,
    node: &ViewNode,
    claim: &Claim,
) -> M<()>
    requires order { AreInOrder (node_claims nodes.now) }
    requires few { length nodes.now ≤ 65536 }
    ensures stays { OnOk result (Stays places.old.items places.new.items) }
    ensures ends { OnOk result ((i : ℕ) → has places.new.items i ≡ false → leads_to i node.now.edges ≡ leads_to i (halves_now nodes.now claim.now.links)) }
    ensures own { OnOk result (has places.new.items place ≡ false → IsAsListed nodes.now node.now claim.now) }
{
    let halves = half_edges(*places.allocator(), nodes, claim.links.as_slice())?;
    add_unlike(places, place, node, claim, halves.as_slice())
}

/// The same, by the edges that the system lists.
fn add_unlike(
    places: &mut Vec<usize>,
    place: usize,
    node: &ViewNode,
    claim: &Claim,
    halves: &[ViewEdge],
) -> M<()>
    ensures stays { OnOk result (Stays places.old.items places.new.items) }
    ensures ends { OnOk result ((i : ℕ) → has places.new.items i ≡ false → leads_to i node.now.edges ≡ leads_to i halves.now) }
    ensures own { OnOk result (has places.new.items place ≡ false → (node.now.overload ≡ claim.now.overload) × (node.now.edges ≡ halves.now)) }
{
    if is_as_listed(node, claim, halves) {
        return Ok(());
    }
    add_ends(places, node.edges.as_slice(), halves)?;
    add_ends(places, halves, node.edges.as_slice())?;
    add_place(places, place)
}

/// Adds the indices of the nodes that may change because of what a system advertises now. Returns false if that cannot be
/// determined: if the system has no node or advertises nothing, or advertises other sub-domains than its node has.
fn add_changed(
    places: &mut Vec<usize>,
    nodes: &[ViewNode],
    conf: &RouterConf,
    up: &[bool],
    store: &Store,
    system: &SystemId,
) -> M<bool>
    requires order { AreInOrder (node_claims nodes.now) }
    requires few { length nodes.now ≤ 65536 }
    requires one_each { length up.now ≡ length conf.now.ends }
    ensures stays { OnOk result (Stays places.old.items places.new.items) }
    ensures noted { IfOk result (λ told. told ≡ true → IsNoted (said_now conf.now up.now store.now.entries) nodes.now places.new.items system.now) }
{
    let Some(claim) = said_now(conf, up, store, system)? else {
        return Ok(false);
    };
    add_said(places, nodes, system, &claim)
}

/// The same, by what the system advertises.
fn add_said(
    places: &mut Vec<usize>,
    nodes: &[ViewNode],
    system: &SystemId,
    claim: &Claim,
) -> M<bool>
    requires order { AreInOrder (node_claims nodes.now) }
    requires few { length nodes.now ≤ 65536 }
    ensures stays { OnOk result (Stays places.old.items places.new.items) }
    ensures noted { IfOk result (λ told. told ≡ true → (said : SystemId → Option ClaimItem) → said system.now ≡ Some claim.now → IsNoted said nodes.now places.new.items system.now) }
{
    let place = index_of(nodes, system);
    if !is_at(nodes, place, system) {
        return Ok(false);
    }
    let node = &nodes[place];
    if !are_same_subs(node.subs.as_slice(), claim.subs.as_slice()) {
        return Ok(false);
    }
    add_all(places, nodes, place, node, claim)?;
    Ok(true)
}

/// Returns the indices of the nodes that may change because of what the router and those systems advertise now. None if that
/// cannot be determined.
pub(crate) fn changed_places(
    nodes: &[ViewNode],
    conf: &RouterConf,
    up: &[bool],
    store: &Store,
    changed: &[SystemId],
) -> M<Option<Vec<usize>>>
    requires order { AreInOrder (node_claims nodes.now) }
    requires few { length nodes.now ≤ 65536 }
    requires one_each { length up.now ≡ length conf.now.ends }
    ensures { IfOk result (λ found. IfSome found (λ places. AreNoted (said_now conf.now up.now store.now.entries) nodes.now (conf.now.system ∷ changed.now) places.items)) }
{
    let mut places = Vec::new(conf.kinds.allocator());
    if !add_changed(&mut places, nodes, conf, up, store, &conf.system)? {
        return Ok(None);
    }
    'systems: for at in 0..changed.len() {
        if !add_changed(&mut places, nodes, conf, up, store, &changed[at])? {
            return Ok(None);
        }
    }
    Ok(Some(places))
}
