//! A search along the shortest paths away from a router.
ghost use Rattle.std.specs.Prelude.{◌≡◌, ◌<◌, ◌≤◌, ◌↔◌, ℕ, Bool, true, false, Some, None, IfOk, OnOk, length, slice_index_or};
ghost use Rattle.wire_base.specs.model.Graph.{IsGraph, edges_of};
ghost use Rattle.wire_base.specs.model.Tight.{makes_up};
ghost use Rattle.path_tree.specs.Ways.{AreDistsFrom};
ghost use Rattle.path_tree.specs.Forward.{ForwardWay, cost_before, is_forward, look_along, visit};

use crate::ways::edges_of;
use std::alloc::Global;
use wire_base::{M, ViewEdge, ViewNode};

/// Returns for each node whether steps away from `u`, on shortest paths from `u`, lead there from `start`. The search does not
/// continue from nodes at which it stops. `dist` has the costs from `u`.
pub fn reach(
    alloc: Global,
    nodes: &[ViewNode],
    dist: &[Option<u64>],
    stops: &[bool],
    u: u16,
    start: u16,
) -> M<Vec<bool>>
    requires graph { IsGraph nodes.now }
    requires from { start < length nodes.now }
    requires stops { length stops.now ≡ length nodes.now }
    requires dists { AreDistsFrom nodes.now u dist.now }
    ensures rows { IfOk result (λ seen. length seen.items ≡ length nodes.now) }
    ensures each { IfOk result (λ seen. (x : ℕ) → x < length nodes.now → ((slice_index_or seen.items x true ≡ true) ↔ ((k : ℕ) × ForwardWay nodes.now u (λ x. slice_index_or stops.now x false) k start x))) }
{
    let mut seen: Vec<bool> = vec![in alloc; false; nodes.len()]?;
    let mut work: Vec<u16> = Vec::new(alloc);
    work.push(start)?;
    while let Some(node) = work.pop() {
        look_around(nodes, dist, stops, &mut seen, &mut work, u, node)?;
    }
    Ok(seen)
}

/// Marks the nodes that the steps from a node lead to, and queues those from which the search continues.
fn look_around(
    nodes: &[ViewNode],
    dist: &[Option<u64>],
    stops: &[bool],
    seen: &mut Vec<bool>,
    work: &mut Vec<u16>,
    u: u16,
    node: u16,
) -> M<()>
    requires graph { IsGraph nodes.now }
    requires from { node < length nodes.now }
    requires rows { length dist.now ≡ length nodes.now }
    requires stops { length stops.now ≡ length nodes.now }
    requires marks { length seen.old.items ≡ length nodes.now }
    ensures marks { length seen.new.items ≡ length seen.old.items }
    ensures done { OnOk result (record { seen = seen.new.items; work = work.new.items } ≡ look_along (λ x. slice_index_or stops.now x false) (is_forward nodes.now u (λ x. slice_index_or dist.now x None) node) (record { seen = seen.old.items; work = work.old.items }) (edges_of nodes.now node)) }
{
    // What is the same for all edges is read once.
    let Some(before) = cost_before(nodes, dist, u, node) else {
        return Ok(());
    };
    for edge in edges_of(nodes, node) {
        if makes_up(before, dist[edge.to as usize], *edge) {
            visit(stops, seen, work, edge.to)?;
        }
    }
    Ok(())
}

fn visit(stops: &[bool], seen: &mut Vec<bool>, work: &mut Vec<u16>, node: u16) -> M<()>
    requires marks { node < length seen.old.items }
    requires stops { node < length stops.now }
    ensures marks { length seen.new.items ≡ length seen.old.items }
    ensures done { OnOk result (record { seen = seen.new.items; work = work.new.items } ≡ visit (λ x. slice_index_or stops.now x false) (record { seen = seen.old.items; work = work.old.items }) node) }
{
    if !seen[node as usize] {
        seen[node as usize] = true;
        if !stops[node as usize] {
            work.push(node)?;
        }
    }
    Ok(())
}

/// Returns the cost of a node, from which its steps continue. None if no step leads on from there.
fn cost_before(nodes: &[ViewNode], dist: &[Option<u64>], u: u16, node: u16) -> Option<u64>
    requires rows { length dist.now ≡ length nodes.now }
    requires from { node < length nodes.now }
    ensures { result ≡ cost_before nodes.now u (λ x. slice_index_or dist.now x None) node }
{
    if node == u || !nodes[node as usize].overload {
        dist[node as usize]
    } else {
        None
    }
}

/// Returns whether an edge leads from a cost to another.
fn makes_up(before: u64, whole: Option<u64>, edge: ViewEdge) -> bool
    ensures { result ≡ makes_up edge.metric (Some before) whole }
{
    match whole {
        Some(whole) => before <= whole && whole - before == edge.metric as u64,
        None => false,
    }
}
