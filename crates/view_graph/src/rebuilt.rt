//! Nodes rebuilt from what systems advertise now.
ghost use Rattle.std.specs.Prelude.{◌≡◌, ◌≤◌, length, map, filter, IfOk, IfSome};
ghost use Rattle.std.specs.List.{AllByRecursion, list_any};
ghost use Rattle.wire_base.specs.model.Control.{same_system};
ghost use Rattle.wire_base.specs.model.View.{lists};
ghost use Rattle.view_graph.specs.Edges.{AreInOrder};
ghost use Rattle.view_graph.specs.Renewal.{IsMade, edges_now, is_listed_by, lists_at, said_now, node_claims};

use crate::claims::Claim;
use crate::known::copy_subs;
use crate::links::Link;
use crate::node_index::half_edges;
use crate::patch::NewNode;
use crate::renewal::said_now;
use lsp_store::Store;
use wire_base::{EdgeList, M, RouterConf, SystemId, ViewEdge, ViewNode};

fn leads(links: &[Link], system: &SystemId) -> bool
    ensures { result ≡ list_any (λ l. same_system l.neighbour system.now) links.now }
{
    links.iter().any(|link| link.neighbour == *system)
}

/// Returns whether a system lists a link to that one.
fn lists(claim: &Claim, system: &SystemId) -> bool
    ensures { result ≡ lists claim.now system.now }
{
    leads(claim.links.as_slice(), system)
}

/// The same for what a system advertises, if anything.
fn is_listed_by(said: &Option<Claim>, system: &SystemId) -> bool
    ensures { result ≡ is_listed_by said.now system.now }
{
    match said {
        Some(claim) => lists(claim, system),
        None => false,
    }
}

/// The same for the system of the node at an index.
fn lists_at(
    nodes: &[ViewNode],
    conf: &RouterConf,
    up: &[bool],
    store: &Store,
    place: usize,
    system: &SystemId,
) -> M<bool>
    requires one_each { length up.now ≡ length conf.now.ends }
    ensures { IfOk result (λ b. b ≡ lists_at (said_now conf.now up.now store.now.entries) nodes.now place system.now) }
{
    let Some(node) = nodes.get(place) else {
        return Ok(false);
    };
    let said = said_now(conf, up, store, &node.system)?;
    Ok(is_listed_by(&said, system))
}

/// Returns the edges of a system with those links.
fn edges_now(
    nodes: &[ViewNode],
    conf: &RouterConf,
    up: &[bool],
    store: &Store,
    system: &SystemId,
    links: &[Link],
) -> M<EdgeList>
    requires order { AreInOrder (node_claims nodes.now) }
    requires few { length nodes.now ≤ 65536 }
    requires one_each { length up.now ≡ length conf.now.ends }
    ensures { IfOk result (λ edges. edges ≡ edges_now (said_now conf.now up.now store.now.entries) nodes.now system.now links.now) }
{
    let halves = half_edges(conf.kinds.allocator(), nodes, links)?;
    both_ways(nodes, conf, up, store, system, halves.as_slice())
}

/// Returns those of its edges that the other side lists too.
fn both_ways(
    nodes: &[ViewNode],
    conf: &RouterConf,
    up: &[bool],
    store: &Store,
    system: &SystemId,
    halves: &[ViewEdge],
) -> M<EdgeList>
    requires one_each { length up.now ≡ length conf.now.ends }
    ensures { IfOk result (λ edges. edges ≡ filter (λ e. lists_at (said_now conf.now up.now store.now.entries) nodes.now e.to system.now) halves.now) }
{
    let mut edges = EdgeList::new(conf.kinds.allocator());
    'edges: for edge in halves {
        if lists_at(nodes, conf, up, store, edge.to as usize, system)? {
            edges.push(*edge)?;
        }
    }
    Ok(edges)
}

/// Returns a node rebuilt from what its system advertises, with the memberships of sub-domains as before.
fn made_of(
    nodes: &[ViewNode],
    conf: &RouterConf,
    up: &[bool],
    store: &Store,
    before: &ViewNode,
    claim: &Claim,
) -> M<ViewNode>
    requires order { AreInOrder (node_claims nodes.now) }
    requires few { length nodes.now ≤ 65536 }
    requires one_each { length up.now ≡ length conf.now.ends }
    ensures { IfOk result (λ node. node ≡ record { system = before.now.system; overload = claim.now.overload; edges = edges_now (said_now conf.now up.now store.now.entries) nodes.now before.now.system claim.now.links; subs = before.now.subs }) }
{
    let subs = copy_subs(conf.kinds.allocator(), before.subs.as_slice())?;
    let links = claim.links.as_slice();
    Ok(ViewNode {
        system: before.system,
        overload: claim.overload,
        edges: edges_now(nodes, conf, up, store, &before.system, links)?,
        subs,
    })
}

/// Returns the node at an index, rebuilt. None if there is none, or its system advertises nothing.
fn node_now(
    nodes: &[ViewNode],
    conf: &RouterConf,
    up: &[bool],
    store: &Store,
    place: usize,
) -> M<Option<NewNode>>
    requires order { AreInOrder (node_claims nodes.now) }
    requires few { length nodes.now ≤ 65536 }
    requires one_each { length up.now ≡ length conf.now.ends }
    ensures place { IfOk result (λ found. IfSome found (λ n. n.place ≡ place)) }
    ensures made { IfOk result (λ found. IfSome found (IsMade (said_now conf.now up.now store.now.entries) nodes.now)) }
{
    let Some(before) = nodes.get(place) else {
        return Ok(None);
    };
    let Some(claim) = said_now(conf, up, store, &before.system)? else {
        return Ok(None);
    };
    let node = made_of(nodes, conf, up, store, before, &claim)?;
    Ok(Some(NewNode { place, node }))
}

/// The same for all those indices.
pub(crate) fn nodes_now(
    nodes: &[ViewNode],
    conf: &RouterConf,
    up: &[bool],
    store: &Store,
    places: &[usize],
) -> M<Option<Vec<NewNode>>>
    requires order { AreInOrder (node_claims nodes.now) }
    requires few { length nodes.now ≤ 65536 }
    requires one_each { length up.now ≡ length conf.now.ends }
    ensures made { IfOk result (λ found. IfSome found (λ anew. AllByRecursion (IsMade (said_now conf.now up.now store.now.entries) nodes.now) anew.items)) }
    ensures places { IfOk result (λ found. IfSome found (λ anew. map (λ n. n.place) anew.items ≡ places.now)) }
{
    let mut anew = Vec::with_capacity(conf.kinds.allocator(), places.len())?;
    'places: for at in 0..places.len() {
        match node_now(nodes, conf, up, store, places[at])? {
            Some(new) => anew.push(new)?,
            None => return Ok(None),
        }
    }
    Ok(Some(anew))
}
