//! Dijkstra's algorithm: the nearest waiting node is settled, and then each edge from it is relaxed.
ghost use Rattle.std.specs.Prelude.{◌≡◌, ◌≤◌, ◌<◌, ◌∷◌, ◌*◌, ◌^◌, ◌==◌, ℕ, [], true, List, Option, Some, None, All, Contains, IfOk, IfSome, IfNone, OnOk, MatchBool, length, slice_index_or, slice_set, if◌then◌else◌};
ghost use Rattle.std.specs.List.Sorted.{IsPermutation};
ghost use Rattle.wire_base.specs.model.Graph.{IsEdge, edges_of, is_overloaded};
ghost use Rattle.wire_base.specs.model.Walk.{may_enter};
ghost use Rattle.path_tree.specs.Search.{IsReach, Relaxed, TakesNext, is_shorter, lengths, marks};

use crate::queue::Queue;
use crate::ways::edges_of;
use std::alloc::Global;
use wire_base::{M, ViewEdge, ViewNode};

/// Returns the cost of a shortest path from `start` to each node. A path continues only from `start` and from nodes that do not
/// have their overload bit set.
pub(crate) fn search(alloc: Global, nodes: &[ViewNode], start: u16) -> M<Vec<Option<u64>>>
    requires few { length nodes.now ≤ 65536 }
    requires within { start < length nodes.now }
    requires edges { (x : ℕ) → All (λ e. IsEdge (length nodes.now) e) (edges_of nodes.now x) }
    requires reach { (f : ℕ → Option ℕ) × IsReach (length nodes.now) (edges_of nodes.now) (may_enter nodes.now start) start f }
    ensures rows { IfOk result (λ found. length found.items ≡ length nodes.now) }
    ensures found { IfOk result (λ found. (f : ℕ → Option ℕ) → IsReach (length nodes.now) (edges_of nodes.now) (may_enter nodes.now start) start f → (x : ℕ) → x < length nodes.now → lengths found.items x ≡ f x) }
{
    let mut found = first_lengths(alloc, nodes.len(), start)?;
    let mut settled: Vec<bool> = vec![in alloc; false; nodes.len()]?;
    let mut queue = Queue::new(alloc);
    queue.push(0, start)?;
    while let Some((length, node)) = next_waiting(&mut queue, settled.as_slice()) {
        settled[node as usize] = true;
        relax(ways_on(nodes, start, node), length, &mut found, &mut queue)?;
    }
    Ok(found)
}

/// Returns the initial costs: 0 at the start, and None elsewhere.
fn first_lengths(alloc: Global, count: usize, start: u16) -> M<Vec<Option<u64>>>
    requires within { start < count }
    ensures rows { IfOk result (λ r. length r.items ≡ count) }
    ensures each { IfOk result (λ r. (k : ℕ) → k < count → lengths r.items k ≡ (if k == start then Some 0 else None)) }
{
    let mut first: Vec<Option<u64>> = vec![in alloc; None; count]?;
    first[start as usize] = Some(0);
    Ok(first)
}

/// Removes the nearest waiting node from the queue, and returns it with its cost; entries of settled nodes are skipped.
fn next_waiting(queue: &mut Queue, settled: &[bool]) -> Option<(u64, u16)>
    requires within { (entry : ℕ × ℕ) → Contains queue.old entry → entry.1 < length settled.now }
    ensures some { IfSome result (λ next. TakesNext settled.now queue.old next queue.new) }
    ensures none { IfNone result ((entry : ℕ × ℕ) → Contains queue.old entry → marks settled.now entry.1 ≡ true) }
{
    while let Some((length, node)) = queue.pop() {
        if !settled[node as usize] {
            return Some((length, node));
        }
    }
    None
}

/// Returns the edges from a node: none if its overload bit is set, unless the search starts there.
fn ways_on(nodes: &[ViewNode], start: u16, node: u16) -> &[ViewEdge]
    requires within { node < length nodes.now }
    ensures { result.now ≡ (if may_enter nodes.now start node then edges_of nodes.now node else []) }
{
    if node == start || !nodes[node as usize].overload {
        edges_of(nodes, node)
    } else {
        &[]
    }
}

/// Relaxes each edge from a node of that cost.
fn relax(edges: &[ViewEdge], reached: u64, found: &mut Vec<Option<u64>>, queue: &mut Queue) -> M<()>
    requires edges { All (λ e. IsEdge (length found.old.items) e) edges.now }
    requires small { reached ≤ 65535 * 2 ^ 32 }
    ensures { OnOk result (Relaxed edges.now reached found.old.items queue.old found.new.items queue.new) }
{
    for edge in edges {
        improve(found, queue, edge.to, reached + edge.metric as u64)?;
    }
    Ok(())
}

/// Records a cost if the node had none or a greater one.
fn improve(found: &mut Vec<Option<u64>>, queue: &mut Queue, node: u16, reach: u64) -> M<()>
    requires within { node < length found.old.items }
    requires small { reach < 2 ^ 48 }
    ensures found { OnOk result (found.new.items ≡ (if is_shorter reach (lengths found.old.items node) then slice_set found.old.items node (Some reach) else found.old.items)) }
    ensures queue { OnOk result (MatchBool (is_shorter reach (lengths found.old.items node)) (IsPermutation ((reach, node) ∷ queue.old) queue.new) (queue.new ≡ queue.old)) }
{
    if is_shorter(reach, found[node as usize]) {
        found[node as usize] = Some(reach);
        queue.push(reach, node)?;
    }
    Ok(())
}

fn is_shorter(reach: u64, had: Option<u64>) -> bool
    ensures { result ≡ is_shorter reach had }
{
    match had {
        Some(length) => reach < length,
        None => true,
    }
}
