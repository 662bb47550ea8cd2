//! The owners of BFR-ids.
ghost use Rattle.std.specs.Prelude.{◌≡◌, ◌<◌, ◌≤◌, ◌==◌, ◌-◌, ◌||◌, nat_lt, ℕ, IfOk, IfSome, length, filter, option_map, slice_index_or, if◌then◌else◌};
ghost use Rattle.std.specs.List.{range_with_len};
ghost use Rattle.wire_base.specs.model.Graph.{IsGraph, has_id_at};
ghost use Rattle.wire_base.specs.model.Place.{bits_of, id_at};
ghost use Rattle.birt_rows.specs.declared.owner.Found.TheVariants.{Nobody};
ghost use Rattle.birt_rows.specs.Owner.{counted, found_in, node_position, one_more, owner_among};

use std::alloc::Global;
use wire_base::{M, Triple, ViewNode};

/// The routers with a BFR-id: none, exactly one, or several.
#[derive(Clone, Copy)]
pub(crate) enum Found {
    Nobody,
    One(u16),
    Several,
}

/// Returns for each bit position of the triple which routers have its BFR-id.
pub(crate) fn owners(alloc: Global, nodes: &[ViewNode], t: Triple) -> M<Vec<Found>>
    requires graph { IsGraph nodes.now }
    ensures rows { IfOk result (λ found. length found.items ≡ bits_of t.bsl) }
    ensures each { IfOk result (λ found. (p : ℕ) → 0 < p → p ≤ bits_of t.bsl → slice_index_or found.items (p - 1) Nobody ≡ found_in (filter (has_id_at nodes.now t.sd (id_at t p)) (range_with_len 0 (length nodes.now)))) }
{
    let mut found = nobody(alloc, t.bsl.bits())?;
    for node in 0..nodes.len() {
        count(&mut found, node_position(&nodes[node], t), node as u16);
    }
    Ok(found)
}

fn nobody(alloc: Global, count: u16) -> M<Vec<Found>>
    ensures rows { IfOk result (λ found. length found.items ≡ count) }
    ensures each { IfOk result (λ found. (k : ℕ) → slice_index_or found.items k Nobody ≡ Nobody) }
{
    Ok(vec![in alloc; Found::Nobody; count as usize]?)
}

/// Returns the bit position of a node's BFR-id, if the BFR-id is in the triple's set.
fn node_position(node: &ViewNode, t: Triple) -> Option<u16>
    ensures { result ≡ node_position t node.now }
{
    match node.place_in(t.sd) {
        Some(sub) => t.place(sub.id),
        None => None,
    }
}

/// Counts one more router with the BFR-id of a position.
fn count(found: &mut Vec<Found>, position: Option<u16>, node: u16)
    requires within { IfSome position (λ p. (0 < p) × (p ≤ length found.old.items)) }
    ensures { found.new.items ≡ counted found.old.items position node }
{
    if let Some(position) = position {
        found[position as usize - 1] = one_more(found[position as usize - 1], node);
    }
}

fn one_more(found: Found, node: u16) -> Found
    ensures { result ≡ one_more found node }
{
    match found {
        Found::Nobody => Found::One(node),
        Found::One(_) | Found::Several => Found::Several,
    }
}

/// Returns the only router that has a BFR-id. Neither 0 nor a number above 65,535 is a BFR-id (RFC 8279, 5).
pub(crate) fn owner_among(found: Found, id: u32) -> Option<u16>
    ensures { result ≡ owner_among found id }
{
    match found {
        Found::One(node) => {
            if id == 0 || 65535 < id {
                None
            } else {
                Some(node)
            }
        }
        Found::Nobody | Found::Several => None,
    }
}
