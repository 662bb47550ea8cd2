//! The costs of shortest paths to a router, and from one.
ghost use Rattle.std.specs.Prelude.{◌≡◌, ◌<◌, ℕ, None, IfOk, length, slice_index_or};
ghost use Rattle.wire_base.specs.model.Walk.{AreDists, IsDist};
ghost use Rattle.path_tree.specs.Ways.{AreDistsFrom};

use crate::search::search;
use crate::ways::turned_round;
use std::alloc::Global;
use wire_base::{M, Rows, View};

/// Returns for each node the cost of a shortest path from it to `d`. No node between the ends of a path has its overload bit set
/// (ISO/IEC 10589, 7.2.6 and 7.2.8.1). None exactly where there is no path.
pub fn distances_to(alloc: Global, v: &View, d: u16) -> M<Rows<Option<u64>>>
    requires node { d < length v.now.nodes }
    ensures walks { IfOk result (λ dist. (u : ℕ) → u < length v.now.nodes → IsDist v.now.nodes u d (slice_index_or dist u None)) }
    ensures dists { IfOk result (λ dist. AreDists v.now.nodes d dist) }
{
    let nodes = v.as_slice();
    let turned = turned_round(alloc, nodes)?;
    let found = search(alloc, turned.as_slice(), d)?;
    Ok(Rows::from_vec(found))
}

/// Returns for each node the cost of a shortest path from `u` to it. No node between the ends of a path has its overload bit
/// set. None exactly where there is no path.
pub fn distances_from(alloc: Global, v: &View, u: u16) -> M<Rows<Option<u64>>>
    requires node { u < length v.now.nodes }
    ensures walks { IfOk result (λ dist. (d : ℕ) → d < length v.now.nodes → IsDist v.now.nodes u d (slice_index_or dist d None)) }
    ensures dists { IfOk result (λ dist. AreDistsFrom v.now.nodes u dist) }
{
    let found = search(alloc, v.as_slice(), u)?;
    Ok(Rows::from_vec(found))
}
