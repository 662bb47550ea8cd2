//! The steps on shortest paths.
ghost use Rattle.std.specs.Prelude.{◌≡◌, ◌↔◌, ◌<◌, ℕ, None, AllPairs, Contains, IfOk, length, slice_index_or};
ghost use Rattle.wire_base.specs.model.Walk.{AreDists};
ghost use Rattle.wire_base.specs.model.Tight.{IsTight, is_tight, tight_from};

use crate::ways::edges_of;
use std::alloc::Global;
use wire_base::{M, Rows, View, ViewEdge, ViewNode};

/// Returns the nodes that the tight steps from `u` toward `d` lead to, in the order of the nodes. A step is tight if the metric of
/// its edge plus the cost from its end equals the cost from `u`, and it leads to `d` itself or to a node that does not have its
/// overload bit set. `dist` has the costs to `d`.
pub fn tight_steps(
    alloc: Global,
    v: &View,
    dist: &Rows<Option<u64>>,
    u: u16,
    d: u16,
) -> M<Rows<u16>>
    requires dists { AreDists v.now.nodes d dist.now }
    ensures value { IfOk result (λ steps. steps ≡ tight_from v.now.nodes d u) }
    ensures ordered { IfOk result (λ steps. AllPairs (λ a b. a < b) steps) }
    ensures each { IfOk result (λ steps. (x : ℕ) → u < length v.now.nodes → (Contains steps x ↔ IsTight v.now.nodes d u x)) }
{
    let nodes = v.as_slice();
    let mut steps: Rows<u16> = Rows::new(alloc);
    for edge in edges_of(nodes, u) {
        if is_tight(nodes, dist.as_slice(), u, d, *edge) {
            steps.push(edge.to)?;
        }
    }
    Ok(steps)
}

fn is_tight(nodes: &[ViewNode], dist: &[Option<u64>], u: u16, d: u16, edge: ViewEdge) -> bool
    requires rows { length dist.now ≡ length nodes.now }
    requires from { u < length nodes.now }
    requires to { edge.to < length nodes.now }
    ensures { result ≡ is_tight nodes.now d (λ x. slice_index_or dist.now x None) u edge }
{
    if edge.to == d || !nodes[edge.to as usize].overload {
        match (dist[edge.to as usize], dist[u as usize]) {
            (Some(rest), Some(whole)) => rest <= whole && whole - rest == edge.metric as u64,
            _ => false,
        }
    } else {
        false
    }
}
