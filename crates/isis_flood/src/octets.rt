//! Masks over links 0 to 7, an octet each.
ghost use Rattle.std.specs.Prelude.{◌≡◌, ◌<◌, ◌≤◌, ◌+◌, ◌%◌, ℕ, false, length, map, drop, slice_set};
ghost use Rattle.std.specs.List.{list_any, position_or_len};
ghost use Rattle.std.specs.Simd.Lanes.{chunk};
ghost use Rattle.isis_flood.specs.Masks.{links_in, at_bit};

use crate::masks::{has_bit, without_bit};
use std::simd::prelude::*;

/// Returns the links below 8 of a mask.
pub(crate) fn octet_of(mask: u64) -> u8
    ensures { result ≡ mask % 256 }
{
    (mask % 256) as u8
}

/// Returns the octet with a link cleared.
fn octet_without(octet: u8, link: u16) -> u8
    requires { link < 64 }
    ensures { (n : ℕ) → link < n → n ≤ 64 → links_in n result ≡ slice_set (links_in n octet) link false }
{
    without_bit(octet as u64, link) as u8
}

/// Clears a link in all masks.
pub(crate) fn clear_octets(octets: &mut [u8], link: u16)
    requires { link < 64 }
    ensures { (n : ℕ) → link < n → n ≤ 64 → map (links_in n) octets.new ≡ map (λ flags. slice_set flags link false) (map (links_in n) octets.old) }
{
    'masks: for i in 0..octets.len() {
        octets[i] = octet_without(octets[i], link);
    }
}

/// Returns how many of the N masks from an index on precede the first that has a link, or N. An octet has no bit for a link from
/// 8 on, so none of them has such a link.
fn ahead_in_chunk<const N: usize>(octets: &[u8], at: usize, link: u16) -> usize
    requires few { N ≤ 64 }
    requires within { at + N ≤ length octets.now }
    requires link { link < 64 }
    ensures { result ≡ position_or_len (λ mask. at_bit mask link) (chunk at N octets.now) }
{
    let flags = Simd::<u8, N>::from_slice(&octets[at..]) & Simd::splat(octet_of(1 << link));
    let found = flags.simd_ne(Simd::splat(0)).to_bitmask();
    if found == 0 {
        N
    } else {
        found.trailing_zeros() as usize
    }
}

/// Returns the index of the first mask, from an index on, that has a link, or the number of masks: 32 masks at once while that
/// many are left, then eight at once, and the last ones one by one.
fn first_octet_with(octets: &[u8], from: usize, link: u16) -> usize
    requires within { from ≤ length octets.now }
    requires link { link < 64 }
    ensures { result ≡ from + position_or_len (λ mask. at_bit mask link) (drop from octets.now) }
{
    let mut place = from;
    'chunks: while octets.len() - place >= 32 {
        let ahead = ahead_in_chunk::<32>(octets, place, link);
        if ahead < 32 {
            return place + ahead;
        }
        place += 32;
    }
    'eights: while octets.len() - place >= 8 {
        let ahead = ahead_in_chunk::<8>(octets, place, link);
        if ahead < 8 {
            return place + ahead;
        }
        place += 8;
    }
    'masks: while place < octets.len() && !has_bit(octets[place] as u64, link) {
        place += 1;
    }
    place
}

/// Returns whether some mask has a link.
pub(crate) fn any_octet_with(octets: &[u8], link: u16) -> bool
    requires { link < 64 }
    ensures { result ≡ list_any (λ mask. at_bit mask link) octets.now }
{
    first_octet_with(octets, 0, link) < octets.len()
}

/// Returns the index of the first mask, from an index on, that has a link, or the number of masks.
pub(crate) fn next_octet_with(octets: &[u8], from: usize, link: u16) -> usize
    requires { link < 64 }
    ensures { result ≡ from + position_or_len (λ mask. at_bit mask link) (drop from octets.now) }
{
    // Flags are often set in rows that follow each other, which need no search.
    if from >= octets.len() || has_bit(octets[from] as u64, link) {
        return from;
    }
    first_octet_with(octets, from, link)
}
