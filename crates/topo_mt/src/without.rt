//! A graph without one of its nodes.
ghost use Rattle.std.specs.Prelude.{◌≡◌, ◌<◌, length, map, IfOk, IfSome};
ghost use Rattle.topo_mt.specs.Topology.{edges_without, moved, node_without, nodes_without, place_of};

use std::alloc::Global;
use wire_base::{EdgeList, M, SystemId, ViewEdge, ViewNode};

/// Returns the index of a system's node. None if it has no node.
#[tactic(auto, unfolding(crate::specs::Topology::place_of))]
pub(crate) fn place_of(nodes: &[ViewNode], system: SystemId) -> Option<usize>
    ensures place { result ≡ place_of system nodes.now }
    ensures within { IfSome result (λ place. place < length nodes.now) }
{
    nodes.iter().position(|node| node.system == system)
}

/// Returns an edge by the indices without the node at `place`.
fn moved(place: usize, edge: ViewEdge) -> ViewEdge
    ensures { result ≡ moved place edge }
{
    if usize::from(edge.to) > place {
        ViewEdge {
            to: edge.to - 1,
            metric: edge.metric,
        }
    } else {
        edge
    }
}

/// Returns the edges that do not lead to the node at `place`, by the indices without it.
fn edges_without(alloc: Global, place: usize, edges: &[ViewEdge]) -> M<EdgeList>
    ensures { IfOk result (λ kept. kept ≡ edges_without place edges.now) }
{
    let mut kept = EdgeList::new(alloc);
    for edge in edges {
        if usize::from(edge.to) != place {
            kept.push(moved(place, *edge))?;
        }
    }
    Ok(kept)
}

/// Returns a node with those edges.
fn node_without(alloc: Global, place: usize, node: ViewNode) -> M<ViewNode>
    ensures { IfOk result (λ n. n ≡ node_without place node) }
{
    let edges = edges_without(alloc, place, node.edges.as_slice())?;
    Ok(ViewNode {
        system: node.system,
        overload: node.overload,
        edges,
        subs: node.subs,
    })
}

/// Returns the nodes with those edges each.
fn rebuilt(alloc: Global, place: usize, nodes: Vec<ViewNode>) -> M<Vec<ViewNode>>
    ensures { IfOk result (λ kept. kept.items ≡ map (node_without place) nodes.items) }
{
    let mut kept = Vec::with_capacity(alloc, nodes.len())?;
    'nodes: for node in nodes {
        kept.push(node_without(alloc, place, node)?)?;
    }
    Ok(kept)
}

/// Returns the nodes without the one at `place`.
#[tactic(auto, unfolding(crate::specs::Topology::nodes_without))]
pub(crate) fn nodes_without(
    alloc: Global,
    place: usize,
    mut nodes: Vec<ViewNode>,
) -> M<Vec<ViewNode>>
    requires { place < length nodes.items }
    ensures { IfOk result (λ kept. kept.items ≡ nodes_without place nodes.items) }
{
    let _removed = nodes.remove(place);
    rebuilt(alloc, place, nodes)
}
