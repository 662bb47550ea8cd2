//! The edges of a search: those of the nodes, or those that lead into them, reversed.
ghost use Rattle.std.specs.Prelude.{◌≡◌, ◌<◌, ◌≤◌, ℕ, [], List, All, IfOk, OnOk, length, map, replicate, fold};
ghost use Rattle.wire_base.specs.model.Graph.{IsEdge, IsGraph, edges_of};
ghost use Rattle.path_tree.specs.Ways.{AreIncoming, IsTurned, put, turned};

use std::alloc::Global;
use wire_base::{EdgeList, M, SubList, ViewEdge, ViewNode};

/// Returns the nodes with each edge reversed, and with no sub-domains.
pub(crate) fn turned_round(alloc: Global, nodes: &[ViewNode]) -> M<Vec<ViewNode>>
    requires graph { IsGraph nodes.now }
    ensures turned { IfOk result (λ turned. IsTurned nodes.now turned.items) }
    ensures edges { IfOk result (λ turned. (x : ℕ) → All (λ e. IsEdge (length nodes.now) e) (edges_of turned.items x)) }
{
    let ways = incoming(alloc, nodes)?;
    with_edges(alloc, nodes, ways)
}

/// Returns the nodes with those edges instead of their own, and with no sub-domains.
fn with_edges(alloc: Global, nodes: &[ViewNode], ways: Vec<EdgeList>) -> M<Vec<ViewNode>>
    requires rows { length ways.items ≡ length nodes.now }
    ensures edges { IfOk result (λ made. map (λ n. n.edges) made.items ≡ ways.items) }
    ensures overload { IfOk result (λ made. map (λ n. n.overload) made.items ≡ map (λ n. n.overload) nodes.now) }
{
    let mut made = Vec::with_capacity(alloc, nodes.len())?;
    'ways: for edges in ways {
        let node = &nodes[made.len()];
        made.push(ViewNode {
            system: node.system,
            overload: node.overload,
            edges,
            subs: SubList::new(alloc),
        })?;
    }
    Ok(made)
}

/// Returns for each node the edges that lead into it, reversed.
fn incoming(alloc: Global, nodes: &[ViewNode]) -> M<Vec<EdgeList>>
    requires graph { IsGraph nodes.now }
    ensures ways { IfOk result (λ ways. AreIncoming nodes.now ways.items) }
    ensures edges { IfOk result (λ ways. All (λ es. All (λ e. IsEdge (length nodes.now) e) es) ways.items) }
{
    let mut ways = no_ways(alloc, nodes.len())?;
    for node in 0..nodes.len() {
        turn_round(&mut ways, node as u16, edges_of(nodes, node as u16))?;
    }
    Ok(ways)
}

/// Returns an empty edge list for each node.
fn no_ways(alloc: Global, count: usize) -> M<Vec<EdgeList>>
    ensures { IfOk result (λ ways. ways.items ≡ replicate count []) }
{
    let mut ways: Vec<EdgeList> = Vec::with_capacity(alloc, count)?;
    for _node in 0..count {
        ways.push(EdgeList::new(alloc))?;
    }
    Ok(ways)
}

/// Adds the edges from a node, reversed, to the lists of the nodes that they lead to.
fn turn_round(ways: &mut Vec<EdgeList>, from: u16, edges: &[ViewEdge]) -> M<()>
    requires edges { All (λ e. IsEdge (length ways.old.items) e) edges.now }
    ensures { OnOk result (ways.new.items ≡ fold (put from) ways.old.items edges.now) }
{
    for edge in edges {
        put_back(ways, from, *edge)?;
    }
    Ok(())
}

fn put_back(ways: &mut Vec<EdgeList>, from: u16, edge: ViewEdge) -> M<()>
    requires within { edge.to < length ways.old.items }
    ensures { OnOk result (ways.new.items ≡ put from ways.old.items edge) }
{
    ways[edge.to as usize].push(ViewEdge {
        to: from,
        metric: edge.metric,
    })?;
    Ok(())
}

/// Returns the edges of a node, none if there is no such node.
pub(crate) fn edges_of(nodes: &[ViewNode], u: u16) -> &[ViewEdge]
    ensures { result.now ≡ edges_of nodes.now u }
{
    match nodes.get(u as usize) {
        Some(node) => node.edges.as_slice(),
        None => &[],
    }
}
