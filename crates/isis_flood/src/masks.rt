//! Masks over at most 64 links: bit i of a mask is the link with index i.
ghost use Rattle.std.specs.Prelude.{◌≡◌, ◌≢◌, ◌<◌, ◌≤◌, ◌+◌, ℕ, true, false, length, map, drop, slice_set, slice_index_or};
ghost use Rattle.std.specs.List.{list_any, position_or_len};
ghost use Rattle.std.specs.Simd.Lanes.{chunk};
ghost use Rattle.isis_flood.specs.Masks.{links_in, at_bit, turned_flag};

use std::simd::prelude::*;

/// Returns the mask with a link set.
pub(crate) fn with_bit(mask: u64, link: u16) -> u64
    requires { link < 64 }
    ensures here { at_bit result link ≡ true }
    ensures others { (i : ℕ) → i < 64 → i ≢ link → at_bit result i ≡ at_bit mask i }
{
    mask | (1 << link)
}

/// Returns the mask with a link cleared.
pub(crate) fn without_bit(mask: u64, link: u16) -> u64
    requires { link < 64 }
    ensures here { at_bit result link ≡ false }
    ensures others { (i : ℕ) → i < 64 → i ≢ link → at_bit result i ≡ at_bit mask i }
    ensures within { result ≤ mask }
{
    mask & !(1 << link)
}

/// Returns the union of two masks.
pub(crate) fn joined(mask: u64, more: u64) -> u64
    ensures { (i : ℕ) → at_bit result i ≡ false → (at_bit mask i ≡ false) × (at_bit more i ≡ false) }
{
    mask | more
}

/// Returns whether the mask has a link.
pub(crate) fn has_bit(mask: u64, link: u16) -> bool
    requires { link < 64 }
    ensures { result ≡ at_bit mask link }
{
    (mask >> link) & 1 == 1
}

/// Returns the mask with a link set.
pub(crate) fn with(mask: u64, link: u16) -> u64
    requires { link < 64 }
    ensures { (n : ℕ) → link < n → n ≤ 64 → links_in n result ≡ slice_set (links_in n mask) link true }
{
    with_bit(mask, link)
}

/// Returns the mask with a link cleared.
pub(crate) fn without(mask: u64, link: u16) -> u64
    requires { link < 64 }
    ensures { (n : ℕ) → link < n → n ≤ 64 → links_in n result ≡ slice_set (links_in n mask) link false }
{
    without_bit(mask, link)
}

/// A change of a flag.
#[derive(Clone, Copy)]
pub(crate) enum Turn {
    On,
    Off,
}

/// Returns the mask with that link set or cleared.
pub(crate) fn turned(mask: u64, link: u16, turn: Turn) -> u64
    requires { link < 64 }
    ensures { (n : ℕ) → link < n → n ≤ 64 → links_in n result ≡ turned_flag link turn (links_in n mask) }
{
    match turn {
        Turn::On => with(mask, link),
        Turn::Off => without(mask, link),
    }
}

/// Returns whether the mask has a link.
pub(crate) fn has(mask: u64, link: u16) -> bool
    requires { link < 64 }
    ensures { (n : ℕ) → link < n → result ≡ slice_index_or (links_in n mask) link false }
{
    has_bit(mask, link)
}

/// Returns whether the mask has a link, out of that many links.
pub(crate) fn has_of(mask: u64, links: u16, link: u16) -> bool
    requires { links ≤ 64 }
    ensures { result ≡ slice_index_or (links_in links mask) link false }
{
    if link >= links {
        return false;
    }
    has(mask, link)
}

/// Returns the mask of the indices with true.
pub(crate) fn mask_of(values: &[bool]) -> u64
    requires { length values.now ≤ 64 }
    ensures { links_in (length values.now) result ≡ values.now }
{
    let mut mask = 0;
    'links: for i in 0..values.len() {
        if values[i] {
            mask = with_bit(mask, i as u16);
        }
    }
    mask
}

/// Clears a link in all masks.
pub(crate) fn clear_all(masks: &mut [u64], link: u16)
    requires { link < 64 }
    ensures { (n : ℕ) → link < n → n ≤ 64 → map (links_in n) masks.new ≡ map (λ flags. slice_set flags link false) (map (links_in n) masks.old) }
{
    'masks: for i in 0..masks.len() {
        masks[i] = without(masks[i], link);
    }
}

/// Returns whether one of the eight masks from an index on has a link.
fn has_eight(masks: &[u64], at: usize, link: u16) -> bool
    requires within { at + 8 ≤ length masks.now }
    requires link { link < 64 }
    ensures { result ≡ list_any (λ mask. at_bit mask link) (chunk at 8 masks.now) }
{
    has_bit(u64x8::from_slice(&masks[at..]).reduce_or(), link)
}

/// Returns the index of the first mask, from an index on, that has a link, or the number of masks: eight masks at once while
/// none of them has it, and then one by one.
fn first_with(masks: &[u64], from: usize, link: u16) -> usize
    requires within { from ≤ length masks.now }
    requires link { link < 64 }
    ensures { result ≡ from + position_or_len (λ mask. at_bit mask link) (drop from masks.now) }
{
    let mut place = from;
    'eights: while place + 8 <= masks.len() && !has_eight(masks, place, link) {
        place += 8;
    }
    'masks: while place < masks.len() && !has_bit(masks[place], link) {
        place += 1;
    }
    place
}

/// Returns whether some mask has a link.
pub(crate) fn any_with(masks: &[u64], link: u16) -> bool
    requires { link < 64 }
    ensures { result ≡ list_any (λ mask. at_bit mask link) masks.now }
{
    first_with(masks, 0, link) < masks.len()
}

/// Returns the index of the first mask, from an index on, that has a link, or the number of masks.
pub(crate) fn next_with(masks: &[u64], from: usize, link: u16) -> usize
    requires { link < 64 }
    ensures { result ≡ from + position_or_len (λ mask. at_bit mask link) (drop from masks.now) }
{
    if from > masks.len() {
        return from;
    }
    first_with(masks, from, link)
}
