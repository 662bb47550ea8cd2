//! Binary search for an LSP ID in a sorted list, and insertion, shared by LSDB entries and rows of flags.
ghost use Rattle.std.specs.Prelude.{◌≡◌, ◌<◌, ◌≤◌, ◌+◌, true, List, length, slice_index_or, vec_len, vec_capacity};
ghost use Rattle.std.specs.List.{insert};
ghost use Rattle.std.specs.Ordering.{is_gt};
ghost use Rattle.wire_base.specs.declared.addresses.LspId.{LspId as Id};
ghost use Rattle.wire_base.specs.model.Control.{AreAscending, id_order};
ghost use Rattle.lsp_store.specs.Places.{place_in, stands_at};

use crate::keys::{is_id_above, is_same_id};
use wire_base::LspId;

/// A list of elements with LSP IDs.
pub trait LspIds {
    ghost ids: { Self → List Id };

    /// Returns the number of elements.
    fn count(&self) -> usize
        ensures { result ≡ length (ids self.now) };

    /// Returns the LSP ID of the element at an index.
    fn id_at(&self, i: usize) -> LspId
        requires { i < length (ids self.now) }
        ensures { result ≡ slice_index_or (ids self.now) i result };
}

/// Returns the number of elements with a smaller LSP ID, by binary search.
pub fn place_of<T: LspIds>(items: &T, id: &LspId) -> usize
    requires { AreAscending (T.ids items.now) }
    ensures { result ≡ place_in (T.ids items.now) id.now }
{
    let mut low = 0;
    let mut high = items.count();
    'halves: while low < high {
        let middle = low + (high - low) / 2;
        if is_id_above(*id, items.id_at(middle)) {
            low = middle + 1;
        } else {
            high = middle;
        }
    }
    low
}

/// Returns whether the elements before an index have smaller LSP IDs.
fn is_behind<T: LspIds>(items: &T, id: &LspId, place: usize) -> bool
    requires order { AreAscending (T.ids items.now) }
    requires within { place ≤ length (T.ids items.now) }
    ensures { result ≡ true → place ≤ place_in (T.ids items.now) id.now }
{
    if place == 0 {
        return true;
    }
    is_id_above(*id, items.id_at(place - 1))
}

/// Returns whether the element at an index, if there is one, does not have a smaller LSP ID.
fn is_before<T: LspIds>(items: &T, id: &LspId, place: usize) -> bool
    ensures { result ≡ true → place_in (T.ids items.now) id.now ≤ place }
{
    if place >= items.count() {
        return true;
    }
    !is_id_above(*id, items.id_at(place))
}

/// Checks an index that may be the one of an LSP ID, or the one to insert it at. `true` means that it is what `place_of` returns;
/// `false` means that it must be searched for.
pub fn is_gap<T: LspIds>(items: &T, id: &LspId, place: usize) -> bool
    requires { AreAscending (T.ids items.now) }
    ensures { result ≡ true → place ≡ place_in (T.ids items.now) id.now }
{
    place <= items.count() && is_behind(items, id, place) && is_before(items, id, place)
}

/// Returns whether the element at an index has that LSP ID.
pub fn stands_at<T: LspIds>(items: &T, place: usize, id: &LspId) -> bool
    ensures { result ≡ stands_at (T.ids items.now) place id.now }
{
    if place < items.count() {
        return is_same_id(items.id_at(place), *id);
    }
    false
}

/// Inserts an element at an index of a list that has room for it, so that it cannot fail. The elements behind it move by one
/// `memmove`, since a part of the list is moved within itself by a constant distance; `Vec::insert` moves them one at a time.
pub fn insert_within<T: Copy>(list: &mut Vec<T>, place: usize, item: T)
    requires place { place ≤ vec_len list.old }
    requires room { vec_len list.old < vec_capacity list.old }
    ensures items { list.new.items ≡ insert list.old.items place item }
    ensures len { vec_len list.new ≡ vec_len list.old + 1 }
    ensures capacity { vec_capacity list.old ≤ vec_capacity list.new }
{
    let moved = list.len() - place;
    let _pushed = list.push(item);
    let tail = &mut list[place..];
    tail.copy_within(0..moved, 1);
    tail[0] = item;
}
