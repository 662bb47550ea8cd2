//! The costs of shortest paths from one router.
ghost use Rattle.std.specs.Prelude.{◌≡◌, ◌<◌, ℕ, None, IfOk, length, replicate, slice_index_or};
ghost use Rattle.topo_mt.specs.Topology.{IsCost, cost_from, place_of};

use crate::without::place_of;
use path_tree::distances_from;
use std::alloc::Global;
use wire_base::{M, Rows, SystemId, View};

/// Returns no cost for each node.
fn no_costs(alloc: Global, nodes: usize) -> M<Rows<Option<u64>>>
    ensures { IfOk result (λ found. found ≡ replicate nodes None) }
{
    let mut found = Vec::with_capacity(alloc, nodes)?;
    for _node in 0..nodes {
        found.push(None)?;
    }
    Ok(Rows::from_vec(found))
}

/// Returns for each node of a topology the cost of a shortest path to it from the router `from`. No node between the ends of a
/// path has its overload bit set. None exactly where `from` has no node or there is no path (ISO/IEC 10589, 7.2.6 and 7.2.8.1).
#[tactic(auto, unfolding(crate::specs::Topology::cost_from))]
pub fn costs(alloc: Global, v: &View, from: SystemId) -> M<Rows<Option<u64>>>
    ensures rows { IfOk result (λ found. length found ≡ length v.now.nodes) }
    ensures walks { IfOk result (λ found. (d : ℕ) → d < length v.now.nodes → IsCost v.now.nodes (place_of from v.now.nodes) d (slice_index_or found d None)) }
    ensures exact { IfOk result (λ found. (d : ℕ) → d < length v.now.nodes → slice_index_or found d None ≡ cost_from v.now.nodes from d) }
{
    match place_of(v.as_slice(), from) {
        None => no_costs(alloc, v.as_slice().len()),
        Some(place) => distances_from(alloc, v, place as u16),
    }
}
