//! The BFR-NBRs of a router: the first BFRs on its shortest paths.
ghost use Rattle.std.specs.Prelude.{◌≡◌, ◌<◌, ◌≤◌, ◌&&◌, ℕ, Bool, true, false, List, IfOk, length, slice_index_or, filter, map, replicate};
ghost use Rattle.std.specs.List.{range_with_len};
ghost use Rattle.wire_base.specs.model.Graph.{IsGraph};
ghost use Rattle.path_tree.specs.Ways.{AreDistsFrom};
ghost use Rattle.birt_rows.specs.Entries.{AreEntries, IsEntry};

use crate::direct::first_of;
use path_tree::reach;
use std::alloc::Global;
use wire_base::{End, First, M, Rows, ViewNode};

/// A BFR that is the first one on some shortest paths, and the nodes that shortest paths over it lead to.
#[derive(Drop)]
pub(crate) struct Entry {
    pub(crate) first: First,
    pub(crate) beyond: Vec<bool>,
}

/// Returns the entries of the supporting nodes that were seen from `u`, in the order of the nodes.
pub(crate) fn all_entries(
    alloc: Global,
    ends: &[End],
    nodes: &[ViewNode],
    dist: &[Option<u64>],
    seen: &[bool],
    covers: &[bool],
    u: u16,
) -> M<Vec<Entry>>
    requires ends { length ends.now ≤ 65536 }
    requires graph { IsGraph nodes.now }
    requires from { u < length nodes.now }
    requires seen { length seen.now ≡ length nodes.now }
    requires covers { length covers.now ≡ length nodes.now }
    requires dists { AreDistsFrom nodes.now u dist.now }
    ensures { IfOk result (λ es. AreEntries ends.now nodes.now u (filter (λ x. slice_index_or seen.now x true && slice_index_or covers.now x false) (range_with_len 0 (length nodes.now))) es.items) }
{
    let none = no_stops(alloc, nodes.len())?;
    let mut entries: Vec<Entry> = Vec::new(alloc);
    for node in 0..nodes.len() {
        if is_entry(seen, covers, node) {
            entries.push(entry_of(alloc, ends, nodes, dist, none.as_slice(), u, node as u16)?)?;
        }
    }
    Ok(entries)
}

fn is_entry(seen: &[bool], covers: &[bool], node: usize) -> bool
    requires seen { node < length seen.now }
    requires covers { node < length covers.now }
    ensures { result ≡ (slice_index_or seen.now node true && slice_index_or covers.now node false) }
{
    seen[node] && covers[node]
}

/// Returns the stop list of a search that stops nowhere.
fn no_stops(alloc: Global, count: usize) -> M<Vec<bool>>
    ensures { IfOk result (λ none. none.items ≡ replicate count false) }
{
    Ok(vec![in alloc; false; count]?)
}

fn entry_of(
    alloc: Global,
    ends: &[End],
    nodes: &[ViewNode],
    dist: &[Option<u64>],
    none: &[bool],
    u: u16,
    node: u16,
) -> M<Entry>
    requires ends { length ends.now ≤ 65536 }
    requires graph { IsGraph nodes.now }
    requires from { u < length nodes.now }
    requires within { node < length nodes.now }
    requires stops { none.now ≡ replicate (length nodes.now) false }
    requires dists { AreDistsFrom nodes.now u dist.now }
    ensures { IfOk result (λ entry. IsEntry ends.now nodes.now u node entry) }
{
    let first = first_of(ends, nodes, dist, u, node);
    let mut beyond = reach(alloc, nodes, dist, none, u, node)?;
    beyond[node as usize] = true;
    Ok(Entry { first, beyond })
}
