ghost use Rattle.std.specs.Prelude.{◌≡◌, ℕ, ◌≤◌, ◌<◌, ◌==◌, Some, None, true, false, is_some, map, find, length, nat_lt, IfOk, IfSome, MatchResult};
ghost use Rattle.std.specs.List.{AllByRecursion, list_any};
ghost use Rattle.wire_base.specs.declared.faults.EdgeFault.TheVariants.{BslUnknown};
ghost use Rattle.wire_base.specs.model.Place.{bits_of, bit_position, position_in, own_bift, set_identifier};
ghost use Rattle.wire_base.specs.model.Ingress.{edge_fault, is_large, ids_of_set, packets_for};
ghost use Rattle.wire_base.specs.model.BitSet.{has_member};
ghost use Rattle.wire_base.specs.model.Hop.{one_if, tally};
ghost use Rattle.bier_bits.specs.Any.{bsl_of, positions_of};
ghost use Rattle.bfr_edge.specs.Entry.{positions_in, placed, Refuses};

use crate::fault::fault_of;
use crate::packet::Packet;
use bier_bits::AnyBits;
use std::alloc::Global;
use wire_base::{Bsl, EdgeFault, M, RouterConf, Rows, Triple};

/// Returns the packets for a list of BFR-ids at a router: one for each set identifier, in ascending order, with the bit
/// positions of the BFR-ids of that set (RFC 8279, 3). The BFR-ids may repeat and be in any order.
///
/// Errors, in this order: NoEgress if the list is empty; IdZero if it contains the BFR-id 0; SiLarge, with the first such BFR-id,
/// if a set identifier exceeds 255; NotBfr if the router has no BFR-id in the sub-domain; and BslUnknown if it supports no triple
/// of the sub-domain and the BSL. Memory may be returned instead of any result.
#[tactic(auto, using(crate::proofs::SupportLaws::unsupported_is, crate::proofs::SupportLaws::supported_is))]
pub fn ingress(
    alloc: Global,
    conf: &RouterConf,
    sd: u8,
    bsl: Bsl,
    ids: &[u16],
) -> Result<Rows<Packet>, EdgeFault>
    ensures refused { MatchResult result (λ _. edge_fault conf.now sd bsl ids.now ≡ None) (λ e. Refuses (edge_fault conf.now sd bsl ids.now) e) }
    // A BSL is unknown exactly where no set of it has a BIFT-id.
    ensures unsupported { edge_fault conf.now sd bsl ids.now ≡ Some BslUnknown → (si : ℕ) → own_bift conf.now (record { sd = sd; bsl = bsl; si = si }) ≡ None }
    ensures supported { IfOk result (λ _. (si : ℕ) × (is_some (own_bift conf.now (record { sd = sd; bsl = bsl; si = si })) ≡ true)) }
    ensures packets { IfOk result (λ ps. map positions_in ps ≡ map placed (packets_for sd bsl ids.now)) }
    ensures once { IfOk result (λ _. (k : ℕ) → tally (λ p. has_member k p.ids) (packets_for sd bsl ids.now) ≡ one_if (has_member k ids.now)) }
    ensures lengths { IfOk result (λ ps. AllByRecursion (λ p. bsl_of p.bits ≡ p.triple.bsl) ps) }
{
    if let Some(fault) = fault_of(conf, sd, bsl, ids) {
        return Err(fault);
    }
    Ok(packets_of(alloc, sd, bsl, ids)?)
}

// Returns the packets of BFR-ids that are neither 0 nor in a set above 255.
fn packets_of(alloc: Global, sd: u8, bsl: Bsl, ids: &[u16]) -> M<Rows<Packet>>
    requires zero { list_any (λ k. k == 0) ids.now ≡ false }
    requires large { find (is_large bsl) ids.now ≡ None }
    ensures packets { IfOk result (λ ps. map positions_in ps ≡ map placed (packets_for sd bsl ids.now)) }
    ensures once { IfOk result (λ _. (k : ℕ) → tally (λ p. has_member k p.ids) (packets_for sd bsl ids.now) ≡ one_if (has_member k ids.now)) }
    ensures lengths { IfOk result (λ ps. AllByRecursion (λ p. bsl_of p.bits ≡ p.triple.bsl) ps) }
{
    let mut packets = Rows::new(alloc);
    let last = last_set(bsl, ids);
    for si in 0..u16::from(last) + 1 {
        let triple = Triple {
            sd,
            bsl,
            si: si as u8,
        };
        let bits = bits_of_set(triple, ids);
        if !bits.is_empty() {
            packets.push(Packet { triple, bits })?;
        }
    }
    Ok(packets)
}

// Returns a set identifier that no BFR-id exceeds: 0, 15 or 255, so that few sets are tried if the BFR-ids are low.
fn last_set(bsl: Bsl, ids: &[u16]) -> u8
    requires { find (is_large bsl) ids.now ≡ None }
    ensures { list_any (λ k. nat_lt result (set_identifier (bits_of bsl) k)) ids.now ≡ false }
{
    if !any_above(bsl, ids, 0) {
        0
    } else if !any_above(bsl, ids, 15) {
        15
    } else {
        255
    }
}

// Returns whether the set identifier of a BFR-id exceeds that one.
fn any_above(bsl: Bsl, ids: &[u16], last: u8) -> bool
    ensures { result ≡ list_any (λ k. nat_lt last (set_identifier (bits_of bsl) k)) ids.now }
{
    for id in ids {
        if is_above(bsl, *id, last) {
            return true;
        }
    }
    false
}

fn is_above(bsl: Bsl, id: u16, last: u8) -> bool
    ensures { result ≡ nat_lt last (set_identifier (bits_of bsl) id) }
{
    match bsl.place(id) {
        Some((si, _)) => si > u16::from(last),
        None => false,
    }
}

// Returns the bit positions of the BFR-ids in a triple's set.
fn bits_of_set(triple: Triple, ids: &[u16]) -> AnyBits
    requires zero { list_any (λ k. k == 0) ids.now ≡ false }
    ensures positions { positions_of result ≡ map (bit_position (bits_of triple.bsl)) (ids_of_set triple.bsl ids.now triple.si) }
    ensures bsl { bsl_of result ≡ triple.bsl }
{
    let mut bits = AnyBits::zero(triple.bsl);
    for id in ids {
        if let Some(bp) = place_in(triple, *id) {
            bits.set(bp);
        }
    }
    let _bsl = bits.bsl();
    bits
}

// Returns the bit position of a BFR-id in the triple's set.
fn place_in(triple: Triple, id: u16) -> Option<u16>
    ensures value { result ≡ position_in triple id }
    ensures low { IfSome result (λ p. 1 ≤ p) }
    ensures high { IfSome result (λ p. p ≤ bits_of triple.bsl) }
{
    triple.place(id)
}
