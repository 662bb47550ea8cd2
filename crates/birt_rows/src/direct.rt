//! How a router identifies another to which it sends.
ghost use Rattle.std.specs.Prelude.{◌≡◌, ◌<◌, ◌≤◌, ◌==◌, ◌&&◌, None, Some, length, slice_index_or, if◌then◌else◌};
ghost use Rattle.std.specs.List.{list_any};
ghost use Rattle.wire_base.specs.model.Graph.{edges_of};
ghost use Rattle.wire_base.specs.model.Choice.{end_toward, first_at, is_direct, is_length};
ghost use Rattle.path_tree.specs.Ways.{AreDistsFrom};

use wire_base::{End, First, SystemId, ViewEdge, ViewNode, end_toward};

/// Returns the node's system ID, and the index of the interface if it is reached directly from `u`.
pub(crate) fn first_of(
    ends: &[End],
    nodes: &[ViewNode],
    dist: &[Option<u64>],
    u: u16,
    node: u16,
) -> First
    requires ends { length ends.now ≤ 65536 }
    requires from { u < length nodes.now }
    requires within { node < length nodes.now }
    requires dists { AreDistsFrom nodes.now u dist.now }
    ensures { first_at ends.now nodes.now u node ≡ Some result }
{
    let system = nodes[node as usize].system;
    First {
        system,
        direct: direct_end(ends, is_direct(nodes, dist, u, node), system),
    }
}

/// Returns whether an edge leads from `u` to the node whose metric is the cost.
#[tactic(auto, unfolding(wire_base::specs::model::Choice::is_direct))]
fn is_direct(nodes: &[ViewNode], dist: &[Option<u64>], u: u16, node: u16) -> bool
    requires from { u < length nodes.now }
    requires within { node < length nodes.now }
    requires dists { AreDistsFrom nodes.now u dist.now }
    ensures { result ≡ is_direct nodes.now u node }
{
    has_edge(edges_of(nodes, u), node, length_at(dist, node))
}

fn edges_of(nodes: &[ViewNode], node: u16) -> &[ViewEdge]
    requires from { node < length nodes.now }
    ensures { result.now ≡ edges_of nodes.now node }
{
    nodes[node as usize].edges.as_slice()
}

fn length_at(dist: &[Option<u64>], node: u16) -> Option<u64>
    requires { node < length dist.now }
    ensures { result ≡ slice_index_or dist.now node None }
{
    dist[node as usize]
}

fn direct_end(ends: &[End], is_direct: bool, system: SystemId) -> Option<u16>
    requires { length ends.now ≤ 65536 }
    ensures { result ≡ (if is_direct then end_toward ends.now system else None) }
{
    if is_direct {
        end_toward(ends, system)
    } else {
        None
    }
}

/// Returns whether an edge to the node has that cost as its metric.
fn has_edge(edges: &[ViewEdge], node: u16, length: Option<u64>) -> bool
    ensures { result ≡ list_any (λ e. (e.to == node) && is_length length e.metric) edges.now }
{
    edges.iter().any(|edge| is_length(*edge, node, length))
}

fn is_length(edge: ViewEdge, node: u16, length: Option<u64>) -> bool
    ensures { result ≡ ((edge.to == node) && is_length length edge.metric) }
{
    match length {
        Some(length) => edge.to == node && length == edge.metric as u64,
        None => false,
    }
}
