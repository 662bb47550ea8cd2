ghost use Rattle.std.specs.Prelude.{◌≡◌, ◌<◌, ◌≤◌, ◌+◌, ◌-◌, ◌*◌, ◌^◌, ◌++◌, ◌∷◌, ℕ, Bool, true, false, [], List, IfOk, OnOk, length, slice_index_or, filter, map};
ghost use Rattle.std.specs.List.{AllByRecursion};
ghost use Rattle.wire_base.specs.model.Place.{bits_of, id_at};
ghost use Rattle.wire_base.specs.model.Graph.{covers_at};
ghost use Rattle.wire_base.specs.model.Choice.{row};
ghost use Rattle.birt_rows.specs.declared.owner.Found.TheVariants.{Nobody};
ghost use Rattle.birt_rows.specs.Descent.{ComesNearer};
ghost use Rattle.birt_rows.specs.Owner.{owner_among};
ghost use Rattle.birt_rows.specs.Rows.{beyond, row_of_owner};

use crate::entries::{Entry, all_entries};
use crate::owner::{Found, owner_among, owners};
use path_tree::{distances_from, reach};
use std::alloc::Global;
use wire_base::{FirstLists, M, PositionRows, RouterConf, RowSet, Triple, View, ViewNode};

/// Returns for each bit position of the triple the BFR-NBRs to which the node `u` may send its bit, in the order of their
/// system IDs: the first supporting routers on shortest paths toward the only owner of the position's BFR-id (RFC 8279, 6.9). A
/// row is empty if the BFR-id has no owner or several, if the owner does not support the triple or is `u`, or if no path leads
/// there. `u` must be the node of the configuration `conf`.
///
/// Each router of a row is nearer to the owner, and has itself a nonempty row for the bit unless it is the owner
/// (RFC 8279, 6.5).
pub fn rows(alloc: Global, v: &View, conf: &RouterConf, u: u16, t: Triple) -> M<RowSet>
    requires ends { length conf.now.ends ≤ 65536 }
    requires node { u < length v.now.nodes }
    ensures bits { IfOk result (λ set. length set.bits ≡ bits_of t.bsl) }
    ensures rows { IfOk result (λ set. (p : ℕ) → 0 < p → p ≤ bits_of t.bsl → slice_index_or set.bits (p - 1) [] ≡ row conf.now.kinds conf.now.table conf.now.ends v.now.nodes t u p) }
    ensures descent { IfOk result (λ set. (p : ℕ) → 0 < p → p ≤ bits_of t.bsl → AllByRecursion (ComesNearer conf.now v.now.nodes t u p) (slice_index_or set.bits (p - 1) [])) }
{
    let nodes = v.as_slice();
    let dist = distances_from(alloc, v, u)?;
    let covers = supporting(alloc, nodes, conf, t)?;
    let seen = reach(alloc, nodes, dist.as_slice(), covers.as_slice(), u, u)?;
    let ends = conf.ends.as_slice();
    let found = all_entries(
        alloc,
        ends,
        nodes,
        dist.as_slice(),
        seen.as_slice(),
        covers.as_slice(),
        u,
    )?;
    let owners = owners(alloc, nodes, t)?;
    let bits = all_rows(
        alloc,
        owners.as_slice(),
        found.as_slice(),
        covers.as_slice(),
        u,
        t,
    )?;
    Ok(RowSet { bits })
}

/// Returns which nodes support the triple.
fn supporting(alloc: Global, nodes: &[ViewNode], conf: &RouterConf, t: Triple) -> M<Vec<bool>>
    ensures rows { IfOk result (λ covers. length covers.items ≡ length nodes.now) }
    ensures each { IfOk result (λ covers. (x : ℕ) → slice_index_or covers.items x false ≡ covers_at conf.now.kinds conf.now.table t nodes.now x) }
{
    let mut covers: Vec<bool> = Vec::with_capacity(alloc, nodes.len())?;
    for node in nodes {
        covers.push(node.covers(&conf.kinds, &conf.table, t))?;
    }
    Ok(covers)
}

/// Returns the rows of all bit positions. Those after the last position that a router owns are empty, and are not stored.
fn all_rows(
    alloc: Global,
    owners: &[Found],
    entries: &[Entry],
    covers: &[bool],
    u: u16,
    t: Triple,
) -> M<PositionRows>
    requires owners { length owners.now ≡ bits_of t.bsl }
    ensures bits { IfOk result (λ bits. length bits ≡ bits_of t.bsl) }
    ensures rows { IfOk result (λ bits. (k : ℕ) → k < bits_of t.bsl → slice_index_or bits k [] ≡ row_of_owner entries.now covers.now u (owner_among (slice_index_or owners.now k Nobody) (id_at t (k + 1)))) }
{
    let count = owned(owners);
    let mut stored = FirstLists::with_room(alloc, count)?;
    let first = first_id(t);
    for place in 0..count {
        let owner = owner_among(owners[place], first + place as u32);
        push_row(&mut stored, entries, covers, u, owner)?;
    }
    Ok(PositionRows::new(stored, t.bsl.bits()))
}

/// Returns the number of positions up to the last one that a router owns.
fn owned(owners: &[Found]) -> usize
    ensures within { result ≤ length owners.now }
    ensures beyond { (k : ℕ) → result ≤ k → slice_index_or owners.now k Nobody ≡ Nobody }
{
    let mut count = 0;
    for place in 0..owners.len() {
        if !matches!(owners[place], Found::Nobody) {
            count = place + 1;
        }
    }
    count
}

/// Returns the BFR-id of the first bit position.
fn first_id(t: Triple) -> u32
    ensures value { result ≡ id_at t 1 }
    ensures small { result < 2 ^ 25 }
    ensures few { bits_of t.bsl < 2 ^ 16 }
{
    t.si as u32 * t.bsl.bits() as u32 + 1
}

/// Appends the row of the bit position that a node owns.
fn push_row(
    stored: &mut FirstLists,
    entries: &[Entry],
    covers: &[bool],
    u: u16,
    owner: Option<u16>,
) -> M<()>
    ensures { OnOk result (stored.new ≡ stored.old ++ row_of_owner entries.now covers.now u owner ∷ []) }
{
    stored.begin()?;
    let Some(d) = owner else {
        return Ok(());
    };
    if u == d || !covers_at(covers, d) {
        return Ok(());
    }
    for entry in entries {
        if is_beyond(entry, d) {
            stored.push(entry.first)?;
        }
    }
    Ok(())
}

fn covers_at(covers: &[bool], node: u16) -> bool
    ensures { result ≡ slice_index_or covers.now node false }
{
    match covers.get(node as usize) {
        Some(covers) => *covers,
        None => false,
    }
}

fn is_beyond(entry: &Entry, d: u16) -> bool
    ensures { result ≡ beyond d entry.now }
{
    covers_at(entry.beyond.as_slice(), d)
}
