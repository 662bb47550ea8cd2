//! The sets of BFR-ids at a BitStringLength (RFC 8279, 3).
ghost use Rattle.std.specs.Prelude.{◌≡◌, ◌≤◌, IfSome};
ghost use Rattle.wire_base.specs.model.Place.{bits_of, position_in};
ghost use Rattle.bier_bits.specs.Any.{bsl_of};
ghost use Rattle.bier_forward.specs.Sets.{HasLength};

use bfr_edge::Packet;
use bier_bits::AnyBits;
use std::alloc::Global;
use wire_base::{Bsl, M, Triple};

/// A set of BFR-ids: its triple, and those that are in it.
#[derive(Drop)]
pub(crate) struct IdSet {
    pub triple: Triple,
    pub ids: Vec<u16>,
}

/// Appends the sets of ascending BFR-ids, in order. An id whose set identifier is above 255 is in no set.
pub(crate) fn push_sets(
    alloc: Global,
    sets: &mut Vec<IdSet>,
    sd: u8,
    bsl: Bsl,
    ids: &[u16],
) -> M<()> {
    for si in sets_of(alloc, ids, bsl)?.as_slice() {
        let triple = Triple { sd, bsl, si: *si };
        sets.push(IdSet {
            triple,
            ids: ids_of_set(alloc, ids, triple)?,
        })?;
    }
    Ok(())
}

/// Returns the set identifiers of ascending BFR-ids, each once.
fn sets_of(alloc: Global, ids: &[u16], bsl: Bsl) -> M<Vec<u8>> {
    let mut sets: Vec<u8> = Vec::new(alloc);
    for id in ids {
        if let Some(si) = set_of(*id, bsl) {
            if sets.as_slice().last() != Some(&si) {
                sets.push(si)?;
            }
        }
    }
    Ok(sets)
}

fn set_of(id: u16, bsl: Bsl) -> Option<u8> {
    let (si, _) = bsl.place(id)?;
    u8::try_from(si).ok()
}

/// Returns those of the BFR-ids that are in a triple's set.
fn ids_of_set(alloc: Global, ids: &[u16], triple: Triple) -> M<Vec<u16>> {
    let mut own = Vec::new(alloc);
    for id in ids {
        if triple.place(*id).is_some() {
            own.push(*id)?;
        }
    }
    Ok(own)
}

/// Returns the BFR-ids of the bit positions of a triple's set, ascending.
pub(crate) fn ids_of_bits(alloc: Global, triple: Triple, bits: &AnyBits) -> M<Vec<u16>> {
    let mut ids = Vec::new(alloc);
    for before in 0..triple.bsl.bits() {
        if bits.has(before + 1) {
            push_id(&mut ids, triple, before)?;
        }
    }
    Ok(ids)
}

/// Appends the BFR-id of the bit position at an index from 0, if it is one.
fn push_id(ids: &mut Vec<u16>, triple: Triple, before: u16) -> M<()> {
    let (si, bits) = (u32::from(triple.si), u32::from(triple.bsl.bits()));
    if let Ok(id) = u16::try_from(si * bits + u32::from(before) + 1) {
        ids.push(id)?;
    }
    Ok(())
}

/// Returns a packet for those of the BFR-ids that are in a triple's set.
pub(crate) fn packet_for(triple: Triple, ids: &[u16]) -> Packet
    ensures { HasLength result }
{
    Packet {
        triple,
        bits: bits_for(triple, ids),
    }
}

fn bits_for(triple: Triple, ids: &[u16]) -> AnyBits
    ensures { bsl_of result ≡ triple.bsl }
{
    let mut bits = AnyBits::zero(triple.bsl);
    for id in ids {
        if let Some(bp) = place_in(triple, *id) {
            bits.set(bp);
        }
    }
    bits
}

/// Returns the bit position of a BFR-id in the triple's set.
fn place_in(triple: Triple, id: u16) -> Option<u16>
    ensures value { result ≡ position_in triple id }
    ensures low { IfSome result (λ p. 1 ≤ p) }
    ensures high { IfSome result (λ p. p ≤ bits_of triple.bsl) }
{
    triple.place(id)
}
