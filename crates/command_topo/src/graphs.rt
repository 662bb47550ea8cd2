//! The report on a topology.
ghost use Rattle.std.specs.Prelude.{◌≡◌, ◌<◌, ◌++◌, ℕ, None, OnOk, IfOk, length, slice_index_or, flat_map};
ghost use Rattle.topo_mt.specs.Topology.{cost_from, topology_of};
ghost use Rattle.command_topo.specs.Lines as line;

use crate::lines::{push_done, push_edge, push_node, push_path, push_sub};
use lsp_store::Store;
use std::alloc::Global;
use topo_mt::{costs, topology};
use wire_base::{M, Octets, SystemId, ViewNode};

/// Appends the lines of the nodes.
fn push_nodes(out: &mut Octets, nodes: &[ViewNode]) -> M<()>
    ensures { OnOk result (out.new ≡ out.old ++ flat_map line.node_text nodes.now) }
{
    for node in nodes {
        push_node(out, node)?;
    }
    Ok(())
}

/// Appends the lines of the edges of a node.
fn push_node_edges(out: &mut Octets, nodes: &[ViewNode], node: &ViewNode) -> M<()>
    ensures { OnOk result (out.new ≡ out.old ++ line.node_edges nodes.now node.now) }
{
    let edges = node.edges.as_slice();
    for edge in edges {
        push_edge(out, nodes, node.system, *edge)?;
    }
    Ok(())
}

/// Appends the lines of all edges.
fn push_edges(out: &mut Octets, nodes: &[ViewNode]) -> M<()>
    ensures { OnOk result (out.new ≡ out.old ++ flat_map (line.node_edges nodes.now) nodes.now) }
{
    for node in nodes {
        push_node_edges(out, nodes, node)?;
    }
    Ok(())
}

/// Appends the lines of the memberships of a node.
fn push_node_subs(out: &mut Octets, node: &ViewNode) -> M<()>
    ensures { OnOk result (out.new ≡ out.old ++ line.node_subs node.now) }
{
    let subs = node.subs.as_slice();
    for sub in subs {
        push_sub(out, node.system, sub)?;
    }
    Ok(())
}

/// Appends the lines of all memberships.
fn push_subs(out: &mut Octets, nodes: &[ViewNode]) -> M<()>
    ensures { OnOk result (out.new ≡ out.old ++ flat_map line.node_subs nodes.now) }
{
    for node in nodes {
        push_node_subs(out, node)?;
    }
    Ok(())
}

/// Appends the line of the path to the node at an index, unless it begins there.
fn push_path_at(
    out: &mut Octets,
    nodes: &[ViewNode],
    from: SystemId,
    place: usize,
    cost: Option<u64>,
) -> M<()>
    requires { cost ≡ cost_from nodes.now from place }
    ensures { OnOk result (out.new ≡ out.old ++ line.path_at nodes.now from place) }
{
    match nodes.get(place) {
        None => Ok(()),
        Some(node) => {
            if node.system == from {
                Ok(())
            } else {
                push_path(out, node.system, cost)
            }
        }
    }
}

/// Appends the lines of the paths from a router to each other one.
#[tactic(auto, using(crate::proofs::PathLaws::paths_more), unfolding(crate::specs::Lines::paths_text))]
fn push_paths(out: &mut Octets, nodes: &[ViewNode], from: SystemId, costs: &[Option<u64>]) -> M<()>
    requires rows { length costs.now ≡ length nodes.now }
    requires exact { (d : ℕ) → d < length nodes.now → slice_index_or costs.now d None ≡ cost_from nodes.now from d }
    ensures { OnOk result (out.new ≡ out.old ++ line.paths_text nodes.now from) }
{
    'paths: for place in 0..costs.len() {
        push_path_at(out, nodes, from, place, costs[place])?;
    }
    Ok(())
}

/// Appends the lines of a graph.
#[tactic(auto, unfolding(crate::specs::Lines::graph_text))]
fn push_graph(out: &mut Octets, nodes: &[ViewNode], from: SystemId, costs: &[Option<u64>]) -> M<()>
    requires rows { length costs.now ≡ length nodes.now }
    requires exact { (d : ℕ) → d < length nodes.now → slice_index_or costs.now d None ≡ cost_from nodes.now from d }
    ensures { OnOk result (out.new ≡ out.old ++ line.graph_text nodes.now from) }
{
    push_nodes(out, nodes)?;
    push_edges(out, nodes)?;
    push_subs(out, nodes)?;
    push_paths(out, nodes, from, costs)
}

/// Appends the report on one topology of an LSDB, after that many records.
#[tactic(auto, unfolding(crate::specs::Lines::topology_text))]
pub(crate) fn push_topology(
    alloc: Global,
    out: &mut Octets,
    store: &Store,
    mt: u16,
    from: SystemId,
    records: u64,
) -> M<()>
    ensures { OnOk result (out.new ≡ out.old ++ line.topology_text mt from records store.now.entries) }
{
    let view = topology(alloc, store, mt)?;
    let found = costs(alloc, &view, from)?;
    let nodes = view.as_slice();
    push_graph(out, nodes, from, found.as_slice())?;
    push_done(out, records, store.len(), nodes.len())
}
