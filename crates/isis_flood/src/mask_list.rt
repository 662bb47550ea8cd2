ghost use Rattle.std.specs.Prelude.{◌≡◌, ◌<◌, ◌≤◌, ◌+◌, [], map, drop, ℕ, false, nat_le, length, slice_set, slice_index_or, vec_len, vec_capacity, IsOk, OnOk};
ghost use Rattle.std.specs.List.{insert, list_any, position_or_len, remove};
ghost use Rattle.isis_flood.specs.Masks.{at_bit, held_mask, links_in};
ghost use Rattle.isis_flood.specs.MaskLists.{masks_in, room_in, is_narrow};

use crate::masks::{any_with, clear_all, next_with};
use crate::octets::{any_octet_with, clear_octets, next_octet_with, octet_of};
use lsp_store::insert_within;
use std::alloc::Global;
use wire_base::M;

/// The maximum number of links whose masks fit an octet.
const FEW_LINKS: u16 = 8;

/// A list of masks over the links of a router: one octet each if the router has few links, as most have, since a search is
/// limited by the memory that it reads; otherwise 64 bits each.
#[derive(Drop)]
pub(crate) enum MaskList {
    Octets(Vec<u8>),
    Words(Vec<u64>),
}

impl MaskList {
    /// Creates an empty list, for a router with that many links.
    pub(crate) fn new(alloc: Global, links: u16) -> MaskList
        ensures masks { masks_in result ≡ [] }
        ensures narrow { is_narrow result ≡ nat_le links 8 }
    {
        if links <= FEW_LINKS {
            MaskList::Octets(Vec::new(alloc))
        } else {
            MaskList::Words(Vec::new(alloc))
        }
    }

    /// Returns the mask at an index.
    pub(crate) fn at(&self, place: usize) -> u64
        requires { place < length (masks_in self.now) }
        ensures { result ≡ slice_index_or (masks_in self.now) place result }
    {
        match self {
            MaskList::Octets(list) => list[place] as u64,
            MaskList::Words(list) => list[place],
        }
    }

    /// Replaces the mask at an index. An octet keeps only links below 8, which are all that the router has.
    pub(crate) fn set(&mut self, place: usize, mask: u64)
        requires { place < length (masks_in self.old) }
        ensures masks { masks_in self.new ≡ slice_set (masks_in self.old) place (held_mask (is_narrow self.old) mask) }
        ensures room { room_in self.new ≡ room_in self.old }
        ensures narrow { is_narrow self.new ≡ is_narrow self.old }
    {
        match self {
            MaskList::Octets(list) => list[place] = octet_of(mask),
            MaskList::Words(list) => list[place] = mask,
        }
    }

    /// Inserts a mask at an index. Precondition: there is room, so that it cannot fail. An octet keeps only links below 8. It is
    /// inlined, since each new row inserts two masks.
    #[inline(always)]
    pub(crate) fn insert(&mut self, place: usize, mask: u64)
        requires place { place ≤ length (masks_in self.old) }
        requires room { 0 < room_in self.old }
        ensures masks { masks_in self.new ≡ insert (masks_in self.old) place (held_mask (is_narrow self.old) mask) }
        ensures room { room_in self.old ≤ room_in self.new + 1 }
        ensures narrow { is_narrow self.new ≡ is_narrow self.old }
    {
        match self {
            MaskList::Octets(list) => insert_within(list, place, octet_of(mask)),
            MaskList::Words(list) => insert_within(list, place, mask),
        }
    }

    /// Removes the mask at an index.
    pub(crate) fn remove(&mut self, place: usize)
        requires { place < length (masks_in self.old) }
        ensures masks { masks_in self.new ≡ remove (masks_in self.old) place }
        ensures room { room_in self.old ≤ room_in self.new }
        ensures narrow { is_narrow self.new ≡ is_narrow self.old }
    {
        match self {
            MaskList::Octets(list) => {
                list.remove(place);
            }
            MaskList::Words(list) => {
                list.remove(place);
            }
        }
    }

    /// Returns for how many more masks there is room.
    pub(crate) fn room(&self) -> usize
        ensures { result ≡ room_in self.now }
    {
        match self {
            MaskList::Octets(list) => list.capacity() - list.len(),
            MaskList::Words(list) => list.capacity() - list.len(),
        }
    }

    /// Reserves room for that many more masks.
    pub(crate) fn reserve(&mut self, n: usize) -> M<()>
        ensures masks { masks_in self.new ≡ masks_in self.old }
        ensures ok { OnOk result (n ≤ room_in self.new) }
        ensures can { n ≤ room_in self.old → IsOk result }
        ensures room { room_in self.old ≤ room_in self.new }
        ensures narrow { is_narrow self.new ≡ is_narrow self.old }
    {
        match self {
            MaskList::Octets(list) => list.reserve(n)?,
            MaskList::Words(list) => list.reserve(n)?,
        }
        Ok(())
    }

    /// Clears a link in all masks.
    pub(crate) fn clear(&mut self, link: u16)
        requires { link < 64 }
        ensures flags { (n : ℕ) → link < n → n ≤ 64 → map (links_in n) (masks_in self.new) ≡ map (λ flags. slice_set flags link false) (map (links_in n) (masks_in self.old)) }
        ensures len { length (masks_in self.new) ≡ length (masks_in self.old) }
        ensures room { room_in self.new ≡ room_in self.old }
        ensures narrow { is_narrow self.new ≡ is_narrow self.old }
    {
        match self {
            MaskList::Octets(list) => clear_octets(list.as_mut_slice(), link),
            MaskList::Words(list) => clear_all(list.as_mut_slice(), link),
        }
    }

    /// Returns whether some mask has a link.
    pub(crate) fn any_with(&self, link: u16) -> bool
        requires { link < 64 }
        ensures { result ≡ list_any (λ mask. at_bit mask link) (masks_in self.now) }
    {
        match self {
            MaskList::Octets(list) => any_octet_with(list.as_slice(), link),
            MaskList::Words(list) => any_with(list.as_slice(), link),
        }
    }

    /// Returns the index of the first mask, from an index on, that has a link, or the number of masks.
    pub(crate) fn next_with(&self, from: usize, link: u16) -> usize
        requires { link < 64 }
        ensures { result ≡ from + position_or_len (λ mask. at_bit mask link) (drop from (masks_in self.now)) }
    {
        match self {
            MaskList::Octets(list) => next_octet_with(list.as_slice(), from, link),
            MaskList::Words(list) => next_with(list.as_slice(), from, link),
        }
    }
}
