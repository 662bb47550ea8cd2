//! How many links a tunnel has.
ghost use Rattle.std.specs.Prelude.{◌≡◌, ◌<◌, ◌==◌, ◌&&◌, IfOk, length, unwrap_or};
ghost use Rattle.std.specs.List.{list_any};
ghost use Rattle.wire_base.specs.model.Choice.{is_direct, is_length};
ghost use Rattle.wire_base.specs.model.HopCount.{tunnel_links};
ghost use Rattle.wire_base.specs.model.Tight.{head, next_step};
ghost use Rattle.wire_base.specs.model.Walk.{AreDists, dist};
ghost use Rattle.path_tree.specs.Ways.{AreDistsFrom};
ghost use Rattle.quiet_domain.specs.Way.{links_over};

use path_tree::{distances_to, tight_steps};
use std::alloc::Global;
use wire_base::{M, Rows, View, ViewEdge, ViewNode};

/// Returns how many links the tunnel has in which the node `u` sends copies to the node `x`, given the costs of the paths from `u`;
/// 0 if `x` is reached directly, or if no path leads there (RFC 8279, 6.9).
pub(crate) fn links_over(
    alloc: Global,
    v: &View,
    costs: &Rows<Option<u64>>,
    u: u16,
    x: u16,
) -> M<u16>
    requires from { u < length v.now.nodes }
    requires to { x < length v.now.nodes }
    requires costs { AreDistsFrom v.now.nodes u costs.now }
    ensures { IfOk result (λ n. n ≡ links_over v.now.nodes u x) }
{
    if is_direct(v.as_slice(), costs.as_slice()[usize::from(x)], u, x) {
        return Ok(0);
    }
    let dist = distances_to(alloc, v, x)?;
    tunnel_links(alloc, v, &dist, x, u)
}

/// Returns whether an edge leads from `u` to `x` whose metric is the cost.
#[tactic(auto, unfolding(wire_base::specs::model::Choice::is_direct))]
fn is_direct(nodes: &[ViewNode], cost: Option<u64>, u: u16, x: u16) -> bool
    requires from { u < length nodes.now }
    requires cost { cost ≡ dist nodes.now u x }
    ensures { result ≡ is_direct nodes.now u x }
{
    has_edge(nodes[usize::from(u)].edges.as_slice(), x, cost)
}

/// Returns whether an edge to the node has that cost as its metric.
fn has_edge(edges: &[ViewEdge], x: u16, cost: Option<u64>) -> bool
    ensures { result ≡ list_any (λ e. (e.to == x) && is_length cost e.metric) edges.now }
{
    edges.iter().any(|edge| is_edge(*edge, x, cost))
}

fn is_edge(edge: ViewEdge, x: u16, cost: Option<u64>) -> bool
    ensures { result ≡ ((edge.to == x) && is_length cost edge.metric) }
{
    match cost {
        Some(cost) => edge.to == x && cost == u64::from(edge.metric),
        None => false,
    }
}

/// Returns how many tight steps with the least system ID lead from `u` to `x`, given the costs to `x`; 0 if they do not lead there.
fn tunnel_links(alloc: Global, v: &View, dist: &Rows<Option<u64>>, x: u16, u: u16) -> M<u16>
    requires from { u < length v.now.nodes }
    requires dists { AreDists v.now.nodes x dist.now }
    ensures { IfOk result (λ n. n ≡ unwrap_or (tunnel_links v.now.nodes x u) 0) }
{
    let count = v.as_slice().len();
    let mut node = u;
    'steps: for links in 0..count {
        if node == x {
            return Ok(links as u16);
        }
        let Some(next) = next_step(alloc, v, dist, x, node)? else {
            return Ok(0);
        };
        node = next;
    }
    // A tunnel has fewer links than there are nodes.
    Ok(0)
}

/// Returns the tight step from `u` toward `x` with the least system ID.
#[tactic(auto, unfolding(wire_base::specs::model::Tight::next_step))]
fn next_step(alloc: Global, v: &View, dist: &Rows<Option<u64>>, x: u16, u: u16) -> M<Option<u16>>
    requires dists { AreDists v.now.nodes x dist.now }
    ensures { IfOk result (λ step. step ≡ next_step v.now.nodes x u) }
{
    let steps = tight_steps(alloc, v, dist, u, x)?;
    Ok(first_of(steps.as_slice()))
}

fn first_of(steps: &[u16]) -> Option<u16>
    ensures { result ≡ head steps.now }
{
    match steps {
        [first, ..] => Some(*first),
        [] => None,
    }
}
