//! The index of a system among the nodes of a topology, and the edges that it lists to them.
ghost use Rattle.std.specs.Prelude.{◌≡◌, ◌≤◌, List, [], ◌∷◌, ◌++◌, length, IfOk, OnOk};
ghost use Rattle.wire_base.specs.model.View.{Link as LinkItem};
ghost use Rattle.view_graph.specs.Edges.{AreInOrder, half_edges, metrics_to, place_in, stands_at};
ghost use Rattle.view_graph.specs.Renewal.{halves_now, node_claims};

use crate::edges::{is_above, put_edge};
use crate::links::Link;
use std::alloc::Global;
use wire_base::{EdgeList, M, SystemId, ViewNode};

/// Returns the number of nodes with a smaller system ID, by binary search.
pub(crate) fn index_of(nodes: &[ViewNode], system: &SystemId) -> usize
    requires { AreInOrder (node_claims nodes.now) }
    ensures { result ≡ place_in system.now (node_claims nodes.now) }
{
    let mut low = 0;
    let mut high = nodes.len();
    'halves: while low < high {
        let middle = low + (high - low) / 2;
        let node = &nodes[middle];
        if is_above(system, &node.system) {
            low = middle + 1;
        } else {
            high = middle;
        }
    }
    low
}

/// Returns whether the node at an index is that of the system.
pub(crate) fn is_at(nodes: &[ViewNode], place: usize, system: &SystemId) -> bool
    ensures { result ≡ stands_at (node_claims nodes.now) place system.now }
{
    if place < nodes.len() {
        let node = &nodes[place];
        *system == node.system
    } else {
        false
    }
}

/// Adds the edge of one more link, if the system that it leads to has a node.
fn count(nodes: &[ViewNode], edges: &mut EdgeList, link: &Link) -> M<()>
    requires order { AreInOrder (node_claims nodes.now) }
    requires few { length nodes.now ≤ 65536 }
    ensures { OnOk result ((links : List LinkItem) → edges.old ≡ half_edges 0 (metrics_to links (node_claims nodes.now)) → edges.new ≡ half_edges 0 (metrics_to (links ++ link.now ∷ []) (node_claims nodes.now))) }
{
    let place = index_of(nodes, &link.neighbour);
    if !is_at(nodes, place, &link.neighbour) {
        return Ok(());
    }
    put_edge(edges, place as u16, link.metric)?;
    Ok(())
}

/// Returns the edges that a system lists itself, in the order of the systems that they lead to.
pub(crate) fn half_edges(alloc: Global, nodes: &[ViewNode], links: &[Link]) -> M<EdgeList>
    requires order { AreInOrder (node_claims nodes.now) }
    requires few { length nodes.now ≤ 65536 }
    ensures { IfOk result (λ edges. edges ≡ halves_now nodes.now links.now) }
{
    let mut edges = EdgeList::new(alloc);
    'links: for link in links {
        count(nodes, &mut edges, link)?;
    }
    Ok(edges)
}
