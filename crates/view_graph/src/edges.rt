//! The links that count: those that both systems list (two-way connectivity check).
ghost use Rattle.std.specs.Prelude.{◌≡◌, ◌≤◌, ◌<◌, List, [], ◌∷◌, true, length, drop, map, IfOk, OnOk, slice_index_or, ◌++◌};
ghost use Rattle.std.specs.List.{list_all};
ghost use Rattle.std.specs.Ordering.{is_gt};
ghost use Rattle.wire_base.specs.declared.addresses.SystemId.{SystemId};
ghost use Rattle.wire_base.specs.model.Control.{system_order};
ghost use Rattle.wire_base.specs.model.View.{Link as LinkItem};
ghost use Rattle.view_graph.specs.Edges.{AreInOrder, AreKeys, AreWhole, IsKey, is_number_at, place_in, metrics_to, edge_place, leads_at, put_edge, half_edges, half_edges_of, leads_to, whole_edges};

use crate::claims::Claim;
use crate::links::Link;
use lsp_store::{is_system_above, system_key};
use std::alloc::Global;
use wire_base::{EdgeList, M, SystemId, ViewEdge};

pub(crate) fn is_above(a: &SystemId, b: &SystemId) -> bool
    ensures { result ≡ is_gt (system_order a.now b.now) }
{
    is_system_above(*a, *b)
}

/// Returns the system ID of each claim as a number, so that two of them are compared at once.
fn keys_of(alloc: Global, claims: &[Claim]) -> M<Vec<u64>>
    ensures { IfOk result (λ keys. AreKeys keys.items claims.now) }
{
    let mut keys = Vec::with_capacity(alloc, claims.len())?;
    'claims: for claim in claims {
        keys.push(system_key(claim.system))?;
    }
    Ok(keys)
}

/// Returns the number of claims with a smaller system ID, by binary search.
fn place_in(claims: &[Claim], keys: &[u64], key: u64) -> usize
    requires order { AreInOrder claims.now }
    requires keys { AreKeys keys.now claims.now }
    ensures { (s : SystemId) → IsKey key s → result ≡ place_in s claims.now }
{
    let mut low = 0;
    let mut high = claims.len();
    'halves: while low < high {
        let middle = low + (high - low) / 2;
        let found = keys[middle];
        if key > found {
            low = middle + 1;
        } else {
            high = middle;
        }
    }
    low
}

/// Returns whether that number is at an index.
fn is_number_at(keys: &[u64], place: usize, key: u64) -> bool
    ensures { result ≡ is_number_at keys.now place key }
{
    place < keys.len() && keys[place] == key
}

/// Guesses the index of a number: it is right if the numbers up to it are consecutive, as system IDs often are.
fn guess_of(keys: &[u64], key: u64) -> usize {
    match keys.first() {
        Some(first) => key.saturating_sub(*first) as usize,
        None => 0,
    }
}

/// Returns the same as the binary search, which a right guess avoids.
fn find(claims: &[Claim], keys: &[u64], key: u64) -> usize
    requires order { AreInOrder claims.now }
    requires keys { AreKeys keys.now claims.now }
    ensures { (s : SystemId) → IsKey key s → result ≡ place_in s claims.now }
{
    let guess = guess_of(keys, key);
    if is_number_at(keys, guess, key) {
        return guess;
    }
    place_in(claims, keys, key)
}

/// Returns the number of edges that lead to an index below that one.
fn edge_place(edges: &[ViewEdge], to: u16) -> usize
    ensures within { result ≤ length edges.now }
    ensures place { result ≡ edge_place to edges.now }
{
    'edges: for place in 0..edges.len() {
        if edges[place].to >= to {
            return place;
        }
    }
    edges.len()
}

fn leads_at(edges: &[ViewEdge], place: usize, to: u16) -> bool
    ensures { result ≡ leads_at to (drop place edges.now) }
{
    place < edges.len() && edges[place].to == to
}

/// Inserts an edge in order. Of two edges to one system, the lesser metric is kept.
pub(crate) fn put_edge(edges: &mut EdgeList, to: u16, metric: u32) -> M<()>
    ensures { OnOk result (edges.new ≡ put_edge to metric edges.old) }
{
    let present = edges.as_slice();
    let place = edge_place(present, to);
    if place == present.len() {
        edges.push(ViewEdge { to, metric })?;
        return Ok(());
    }
    if leads_at(present, place, to) {
        let edge = &present[place];
        let least = metric.min(edge.metric);
        edges.put(place, ViewEdge { to, metric: least });
        return Ok(());
    }
    edges.insert(place, ViewEdge { to, metric })?;
    Ok(())
}

/// Adds the edge of one more link, if the system that it leads to is known.
fn count(claims: &[Claim], keys: &[u64], edges: &mut EdgeList, link: &Link) -> M<()>
    requires order { AreInOrder claims.now }
    requires keys { AreKeys keys.now claims.now }
    requires few { length claims.now ≤ 65536 }
    ensures { OnOk result ((links : List LinkItem) → edges.old ≡ half_edges 0 (metrics_to links claims.now) → edges.new ≡ half_edges 0 (metrics_to (links ++ link.now ∷ []) claims.now)) }
{
    let key = system_key(link.neighbour);
    let place = find(claims, keys, key);
    if !is_number_at(keys, place, key) {
        return Ok(());
    }
    put_edge(edges, place as u16, link.metric)?;
    Ok(())
}

/// Fills an empty list with the edges that a system itself lists, in the order of the systems that they lead to.
fn fill_half_edges(edges: &mut EdgeList, claims: &[Claim], keys: &[u64], links: &[Link]) -> M<()>
    requires order { AreInOrder claims.now }
    requires keys { AreKeys keys.now claims.now }
    requires few { length claims.now ≤ 65536 }
    requires none { edges.old ≡ [] }
    ensures { OnOk result (edges.new ≡ half_edges 0 (metrics_to links.now claims.now)) }
{
    'links: for link in links {
        count(claims, keys, edges, link)?;
    }
    Ok(())
}

/// Appends the list of those edges, which is filled in place.
fn push_half_edges(
    halves: &mut Vec<EdgeList>,
    claims: &[Claim],
    keys: &[u64],
    links: &[Link],
) -> M<()>
    requires order { AreInOrder claims.now }
    requires keys { AreKeys keys.now claims.now }
    requires few { length claims.now ≤ 65536 }
    ensures { OnOk result (halves.new.items ≡ halves.old.items ++ half_edges 0 (metrics_to links.now claims.now) ∷ []) }
{
    let last = halves.len();
    halves.push(EdgeList::new(*halves.allocator()))?;
    fill_half_edges(&mut halves[last], claims, keys, links)?;
    Ok(())
}

/// Returns for each system the edges that it lists itself, in the order of the systems that they lead to.
pub(crate) fn all_half_edges(alloc: Global, claims: &[Claim]) -> M<Vec<EdgeList>>
    requires order { AreInOrder claims.now }
    requires few { length claims.now ≤ 65536 }
    ensures { IfOk result (λ halves. halves.items ≡ map (half_edges_of claims.now) claims.now) }
{
    let keys = keys_of(alloc, claims)?;
    half_edges_by(alloc, claims, keys.as_slice())
}

/// The same, by the system IDs as numbers.
fn half_edges_by(alloc: Global, claims: &[Claim], keys: &[u64]) -> M<Vec<EdgeList>>
    requires order { AreInOrder claims.now }
    requires keys { AreKeys keys.now claims.now }
    requires few { length claims.now ≤ 65536 }
    ensures { IfOk result (λ halves. halves.items ≡ map (half_edges_of claims.now) claims.now) }
{
    let mut halves = Vec::with_capacity(alloc, claims.len())?;
    'systems: for claim in claims {
        push_half_edges(&mut halves, claims, keys, claim.links.as_slice())?;
    }
    Ok(halves)
}

pub(crate) fn leads_to(place: u16, edges: &[ViewEdge]) -> bool
    ensures { result ≡ leads_to place edges.now }
{
    edges.iter().any(|edge| edge.to == place)
}

/// Returns whether all systems that a system lists also list it.
fn lead_back(halves: &[EdgeList], place: u16) -> bool
    ensures { result ≡ list_all (λ e. leads_to place (slice_index_or halves.now e.to [])) (slice_index_or halves.now place []) }
{
    halves_at(halves, place)
        .iter()
        .all(|edge| leads_to(place, halves_at(halves, edge.to)))
}

/// Returns whether that holds for all systems.
fn all_lead_back(halves: &[EdgeList]) -> bool
    requires few { length halves.now ≤ 65536 }
    ensures { result ≡ true → AreWhole halves.now halves.now }
{
    'systems: for place in 0..halves.len() {
        if !lead_back(halves, place as u16) {
            return false;
        }
    }
    true
}

/// Returns for each system those of its edges that the other side lists too. In a settled LSDB these are all of its edges, and
/// its list is used as it is.
pub(crate) fn all_whole_edges(alloc: Global, halves: Vec<EdgeList>) -> M<Vec<EdgeList>>
    requires few { length halves.items ≤ 65536 }
    ensures { IfOk result (λ edges. AreWhole halves.items edges.items) }
{
    if all_lead_back(halves.as_slice()) {
        return Ok(halves);
    }
    whole_copies(alloc, halves.as_slice())
}

/// The same in new lists.
fn whole_copies(alloc: Global, halves: &[EdgeList]) -> M<Vec<EdgeList>>
    requires few { length halves.now ≤ 65536 }
    ensures { IfOk result (λ edges. AreWhole halves.now edges.items) }
{
    let mut edges = Vec::with_capacity(alloc, halves.len())?;
    'systems: for place in 0..halves.len() {
        edges.push(whole_edges(alloc, halves, place as u16)?)?;
    }
    Ok(edges)
}

/// Returns the edges of a system that the other side lists too.
fn whole_edges(alloc: Global, halves: &[EdgeList], place: u16) -> M<EdgeList>
    ensures { IfOk result (λ edges. edges ≡ whole_edges halves.now place) }
{
    let own = halves_at(halves, place);
    let mut edges = EdgeList::new(alloc);
    'edges: for edge in own {
        if leads_to(place, halves_at(halves, edge.to)) {
            edges.push(*edge)?;
        }
    }
    Ok(edges)
}

fn halves_at(halves: &[EdgeList], place: u16) -> &[ViewEdge]
    ensures { result.now ≡ slice_index_or halves.now place [] }
{
    match halves.get(place as usize) {
        Some(edges) => edges.as_slice(),
        None => &[],
    }
}
