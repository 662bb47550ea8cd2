//! The entries of an LSDB in the order of their LSP IDs.
ghost use Rattle.std.specs.Prelude.{◌≡◌, ◌≤◌, ◌<◌, ◌+◌, [], length, map, slice_get, slice_index_or, slice_set, vec_capacity, OnOk, OnErr, IfSome};
ghost use Rattle.std.specs.List.{insert, remove};
ghost use Rattle.wire_base.specs.model.Control.{aged, ids_of};
ghost use Rattle.lsp_store.specs.EntryLists.{moved_down};
ghost use Rattle.lsp_store.specs.Places.{passed};

use crate::places::{LspIds, insert_within};
use crate::seconds::pass_second;
use std::alloc::Global;
use std::marker::Model;
use wire_base::{Aged, Entry, LspId, M};

/// The number of entries for which memory is allocated at least where it is allocated ahead.
const LEAST_ROOM: usize = 32;

/// A list of entries in which a new entry moves no other: they are stored in the order in which they came, beside their indexes
/// in the list's order. An insertion moves the indexes behind it, of two octets each. Contracts model it as these entries, and the number of new entries for which memory is
/// already allocated.
#[derive(Drop)]
pub(crate) struct EntryList {
    items: Vec<Entry>,
    /// The indexes of the entries.
    order: Vec<u16>,
}

impl Model for EntryList {
    ghost use Rattle.std.specs.Prelude.{◌-◌, min, vec_len, vec_capacity};
    ghost use Rattle.lsp_store.specs.EntryLists.{at_indexes, IsOrder};
    ghost use Rattle.lsp_store.specs.Views.{Stored};

    ghost Value = { Stored };

    ghost view = { λ l. record { entries = at_indexes l.items.items l.order.items; spare = min (vec_capacity l.items - vec_len l.items) (vec_capacity l.order - vec_len l.order) } };

    ghost invariant = { λ l. IsOrder l.items.items l.order.items };
}

impl LspIds for EntryList {
    ghost ids = { λ l. ids_of l.entries };

    fn count(&self) -> usize {
        self.order.len()
    }

    fn id_at(&self, i: usize) -> LspId {
        self.at(i).id
    }
}

impl EntryList {
    /// Creates an empty list.
    pub(crate) fn new(alloc: Global) -> EntryList
        ensures { result.entries ≡ [] }
    {
        EntryList {
            items: Vec::new(alloc),
            order: Vec::new(alloc),
        }
    }

    /// Returns the number of entries.
    pub(crate) fn len(&self) -> usize
        ensures { result ≡ length self.now.entries }
    {
        self.order.len()
    }

    /// Returns the allocator of the list.
    pub(crate) fn allocator(&self) -> Global {
        *self.items.allocator()
    }

    /// Returns the entry at a place.
    pub(crate) fn at(&self, place: usize) -> &Entry
        requires { place < length self.now.entries }
        ensures { result.now ≡ slice_index_or self.now.entries place result.now }
    {
        &self.items[usize::from(self.order[place])]
    }

    /// Replaces the entry at a place.
    pub(crate) fn put(&mut self, place: usize, e: Entry)
        requires { place < length self.old.entries }
        ensures entries { self.new.entries ≡ slice_set self.old.entries place e }
        ensures spare { self.old.spare ≤ self.new.spare }
    {
        let index = usize::from(self.order[place]);
        self.items[index] = e;
    }

    /// Ages the entry at a place by one second; one that is to be removed is unchanged.
    pub(crate) fn pass_second(&mut self, place: usize) -> Aged
        requires { place < length self.old.entries }
        ensures second { IfSome (slice_get self.old.entries place) (λ e. (result ≡ aged e) × (self.new.entries ≡ slice_set self.old.entries place (passed result e))) }
        ensures spare { self.old.spare ≤ self.new.spare }
    {
        let index = usize::from(self.order[place]);
        pass_second(&mut self.items[index])
    }

    /// Inserts an entry at a place. Errors if an allocation fails.
    pub(crate) fn insert(&mut self, place: usize, e: Entry) -> M<()>
        requires place { place ≤ length self.old.entries }
        requires few { length self.old.entries < 65536 }
        ensures ok { OnOk result (self.new.entries ≡ insert self.old.entries place e) }
        ensures err { OnErr result (self.new.entries ≡ self.old.entries) }
        ensures full { OnErr result (self.old.spare ≡ 0) }
        ensures spare { self.old.spare ≤ self.new.spare + 1 }
    {
        // Reserves room for the index first, so that its insertion cannot fail once the entry is stored.
        self.order.reserve(1)?;
        let index = self.items.len() as u16;
        self.items.push(e)?;
        insert_within(&mut self.order, place, index);
        Ok(())
    }

    /// Removes the entry at a place.
    pub(crate) fn remove(&mut self, place: usize)
        requires { place < length self.old.entries }
        ensures entries { self.new.entries ≡ remove self.old.entries place }
        ensures spare { self.old.spare ≤ self.new.spare }
    {
        let index = self.order.remove(place);
        drop(self.items.remove(usize::from(index)));
        move_down(&mut self.order, index);
    }

    /// Allocates memory for that many new entries, and for at least `LEAST_ROOM` in all.
    pub(crate) fn reserve(&mut self, n: usize) -> M<()>
        ensures entries { self.new.entries ≡ self.old.entries }
        ensures ok { OnOk result (n ≤ self.new.spare) }
        ensures spare { self.old.spare ≤ self.new.spare }
    {
        let room = n.max(LEAST_ROOM.saturating_sub(self.len()));
        self.items.reserve(room)?;
        self.order.reserve(room)?;
        Ok(())
    }
}

/// Returns an entry's index after the removal of another entry.
fn moved_down(removed: u16, index: u16) -> u16
    ensures { result ≡ moved_down removed index }
{
    if index > removed { index - 1 } else { index }
}

/// Lowers the indexes above one, whose entry has been removed.
fn move_down(order: &mut Vec<u16>, removed: u16)
    ensures items { order.new.items ≡ map (moved_down removed) order.old.items }
    ensures capacity { vec_capacity order.new ≡ vec_capacity order.old }
{
    'indexes: for place in 0..order.len() {
        order[place] = moved_down(removed, order[place]);
    }
}
