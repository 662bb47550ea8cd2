//! The first steps of the shortest paths from a router. One SPF run and one search along the shortest paths find them for all
//! other routers.
ghost use Rattle.std.specs.Prelude.{◌≡◌, ◌<◌, ◌==◌, ℕ, Option, Some, None, true, false, IfOk, IsTrue, length, is_some, slice_index_or};
ghost use Rattle.wire_base.specs.model.Choice.{is_length};
ghost use Rattle.wire_base.specs.model.Graph.{IsEdge, IsGraph, edges_of};
ghost use Rattle.wire_base.specs.model.Tight.{next_step};
ghost use Rattle.path_tree.specs.Ways.{AreDistsFrom};
ghost use Rattle.bier_tunnel.specs.Steps.{IsLedOn, filled};

use path_tree::reach;
use std::alloc::Global;
use wire_base::{M, ViewEdge, ViewNode};

/// Returns for each node the first step of a shortest path from `u` to it: of several, the node with the least system ID. None
/// if there is no path, or the node is `u`. `dist` has the costs from `u`.
///
/// The edges of `u` are in the order of system IDs. From each edge that is itself a shortest path the search continues to all
/// nodes that have no first step yet, so it continues from each node at most once.
pub(crate) fn first_steps(
    alloc: Global,
    nodes: &[ViewNode],
    dist: &[Option<u64>],
    u: u16,
) -> M<Vec<Option<u16>>>
    requires graph { IsGraph nodes.now }
    requires from { u < length nodes.now }
    requires dists { AreDistsFrom nodes.now u dist.now }
    ensures rows { IfOk result (λ steps. length steps.items ≡ length nodes.now) }
    ensures each { IfOk result (λ steps. (x : ℕ) → x < length nodes.now → slice_index_or steps.items x None ≡ next_step nodes.now x u) }
{
    let mut steps = no_steps(alloc, nodes.len())?;
    for edge in edges_of(nodes, u) {
        if is_shortest(dist, *edge) {
            steps = led_on(alloc, nodes, dist, steps.as_slice(), u, edge.to)?;
        }
    }
    Ok(steps)
}

/// Returns a list without first steps.
fn no_steps(alloc: Global, count: usize) -> M<Vec<Option<u16>>>
    ensures rows { IfOk result (λ steps. length steps.items ≡ count) }
    ensures each { IfOk result (λ steps. (x : ℕ) → x < count → slice_index_or steps.items x None ≡ None) }
{
    let mut steps = Vec::new(alloc);
    for _node in 0..count {
        steps.push(None)?;
    }
    Ok(steps)
}

fn edges_of(nodes: &[ViewNode], node: u16) -> &[ViewEdge]
    requires from { node < length nodes.now }
    ensures { result.now ≡ edges_of nodes.now node }
{
    nodes[usize::from(node)].edges.as_slice()
}

/// Returns whether an edge from the router is a shortest path.
fn is_shortest(dist: &[Option<u64>], edge: ViewEdge) -> bool
    requires to { edge.to < length dist.now }
    ensures { result ≡ is_length (slice_index_or dist.now edge.to None) edge.metric }
{
    match dist[usize::from(edge.to)] {
        Some(length) => length == u64::from(edge.metric),
        None => false,
    }
}

/// Returns the steps, with `first` as the step of `first` itself and of the nodes that shortest paths continue to from there,
/// if they have no step yet.
fn led_on(
    alloc: Global,
    nodes: &[ViewNode],
    dist: &[Option<u64>],
    steps: &[Option<u16>],
    u: u16,
    first: u16,
) -> M<Vec<Option<u16>>>
    requires graph { IsGraph nodes.now }
    requires first { first < length nodes.now }
    requires rows { length steps.now ≡ length nodes.now }
    requires dists { AreDistsFrom nodes.now u dist.now }
    ensures { IfOk result (λ more. IsLedOn nodes.now u first steps.now more.items) }
{
    let known = known(alloc, steps)?;
    let mut beyond = reach(alloc, nodes, dist, known.as_slice(), u, first)?;
    beyond[usize::from(first)] = true;
    filled(alloc, steps, beyond.as_slice(), first)
}

/// Returns which nodes have a step.
fn known(alloc: Global, steps: &[Option<u16>]) -> M<Vec<bool>>
    ensures rows { IfOk result (λ known. length known.items ≡ length steps.now) }
    ensures each { IfOk result (λ known. (x : ℕ) → x < length steps.now → slice_index_or known.items x false ≡ is_some (slice_index_or steps.now x None)) }
{
    let mut known = Vec::new(alloc);
    for place in 0..steps.len() {
        known.push(steps[place].is_some())?;
    }
    Ok(known)
}

/// Returns the steps, with `first` where there is none and the node is beyond it.
fn filled(alloc: Global, steps: &[Option<u16>], beyond: &[bool], first: u16) -> M<Vec<Option<u16>>>
    requires long { length beyond.now ≡ length steps.now }
    ensures rows { IfOk result (λ more. length more.items ≡ length steps.now) }
    ensures each { IfOk result (λ more. (x : ℕ) → x < length steps.now → slice_index_or more.items x None ≡ filled first (slice_index_or beyond.now x false) (slice_index_or steps.now x None)) }
{
    let mut more = Vec::new(alloc);
    for place in 0..steps.len() {
        more.push(step_at(steps[place], beyond[place], first))?;
    }
    Ok(more)
}

fn step_at(step: Option<u16>, is_beyond: bool, first: u16) -> Option<u16>
    ensures { result ≡ filled first is_beyond step }
{
    match step {
        Some(step) => Some(step),
        None if is_beyond => Some(first),
        None => None,
    }
}
