//! Rows of flags stored as three lists of one length: a search reads only the LSP IDs, and a scan of one kind of flags does not
//! read the other kind.
ghost use Rattle.std.specs.Prelude.{◌≡◌, ◌<◌, ◌≤◌, ◌+◌, [], map, drop, ℕ, true, nat_le, length, slice_set, slice_index_or, IsOk, OnOk, OnErr};
ghost use Rattle.std.specs.List.{insert, list_any, position_or_len, remove};
ghost use Rattle.isis_flood.specs.declared.table.Bits.{Bits as Row};
ghost use Rattle.isis_flood.specs.Masks.{at_bit, held_mask, held_row, rows_of, row_ids, clears};

use crate::mask_list::MaskList;
use crate::table::Bits;
use lsp_store::{LspIds, insert_within};
use std::alloc::Global;
use std::marker::Model;
use wire_base::{LspId, M};

/// The number of rows for which memory is allocated at least, so that a list that grows row by row is copied less often.
const LEAST_ROOM: usize = 32;

/// Rows of flags. Contracts model them as the rows, and the number of further rows for which all three lists have memory.
#[derive(Drop)]
pub(crate) struct Columns {
    ids: Vec<LspId>,
    srm: MaskList,
    ssn: MaskList,
}

impl Model for Columns {
    ghost use Rattle.std.specs.Prelude.{◌-◌, min, vec_len, vec_capacity};
    ghost use Rattle.isis_flood.specs.Masks.{Held, joined_rows};
    ghost use Rattle.isis_flood.specs.MaskLists.{masks_in, room_in, is_narrow, AreColumns};

    ghost Value = { Held };

    ghost view = { λ c. record { rows = joined_rows c.ids.items (masks_in c.srm) (masks_in c.ssn); spare = min (vec_capacity c.ids - vec_len c.ids) (min (room_in c.srm) (room_in c.ssn)); narrow = is_narrow c.srm } };

    ghost invariant = { λ c. AreColumns c.ids.items c.srm c.ssn };
}

impl LspIds for Columns {
    ghost ids = { λ c. row_ids c.rows };

    fn count(&self) -> usize {
        self.len()
    }

    fn id_at(&self, i: usize) -> LspId {
        self.ids[i]
    }
}

impl Columns {
    /// Creates an empty list, for a router with that many links.
    pub(crate) fn new(alloc: Global, links: u16) -> Columns
        ensures rows { result.rows ≡ [] }
        ensures narrow { result.narrow ≡ nat_le links 8 }
    {
        Columns {
            ids: Vec::new(alloc),
            srm: MaskList::new(alloc, links),
            ssn: MaskList::new(alloc, links),
        }
    }

    /// Returns the number of rows.
    pub(crate) fn len(&self) -> usize
        ensures { result ≡ length self.now.rows }
    {
        self.ids.len()
    }

    /// Returns the row at an index.
    pub(crate) fn at(&self, place: usize) -> Bits
        requires { place < length self.now.rows }
        ensures { result ≡ slice_index_or self.now.rows place result }
    {
        Bits {
            id: self.ids[place],
            srm: self.srm.at(place),
            ssn: self.ssn.at(place),
        }
    }

    /// Replaces the row at an index.
    pub(crate) fn set(&mut self, place: usize, row: Bits)
        requires { place < length self.old.rows }
        ensures rows { self.new.rows ≡ slice_set self.old.rows place (held_row self.old.narrow row) }
        ensures spare { self.new.spare ≡ self.old.spare }
        ensures narrow { self.new.narrow ≡ self.old.narrow }
    {
        self.ids[place] = row.id;
        self.srm.set(place, row.srm);
        self.ssn.set(place, row.ssn);
    }

    /// Replaces the SRM mask of the row at an index.
    pub(crate) fn set_srm(&mut self, place: usize, mask: u64)
        requires { place < length self.old.rows }
        ensures rows { (row : Row) → self.new.rows ≡ slice_set self.old.rows place (record (slice_index_or self.old.rows place row) { srm = held_mask self.old.narrow mask }) }
        ensures spare { self.new.spare ≡ self.old.spare }
        ensures narrow { self.new.narrow ≡ self.old.narrow }
    {
        self.srm.set(place, mask);
    }

    /// Inserts a row at an index.
    pub(crate) fn insert(&mut self, place: usize, row: Bits) -> M<()>
        requires { place ≤ length self.old.rows }
        ensures ok { OnOk result (self.new.rows ≡ insert self.old.rows place (held_row self.old.narrow row)) }
        ensures err { OnErr result (self.new.rows ≡ self.old.rows) }
        ensures room { 0 < self.old.spare → IsOk result }
        ensures spare { self.old.spare ≤ self.new.spare + 1 }
        ensures narrow { self.new.narrow ≡ self.old.narrow }
    {
        // Reserves room in all three lists first, so that the insertion cannot fail halfway.
        self.reserve(1)?;
        insert_within(&mut self.ids, place, row.id);
        self.srm.insert(place, row.srm);
        self.ssn.insert(place, row.ssn);
        Ok(())
    }

    /// Removes the row at an index.
    pub(crate) fn remove(&mut self, place: usize)
        requires { place < length self.old.rows }
        ensures rows { self.new.rows ≡ remove self.old.rows place }
        ensures spare { self.old.spare ≤ self.new.spare }
        ensures narrow { self.new.narrow ≡ self.old.narrow }
    {
        self.ids.remove(place);
        self.srm.remove(place);
        self.ssn.remove(place);
    }

    /// Returns whether all three lists have room for that many more rows.
    fn has_room(&self, n: usize) -> bool
        ensures room { result ≡ true → n ≤ self.now.spare }
        ensures full { n ≤ self.now.spare → result ≡ true }
    {
        n <= self.ids.capacity() - self.ids.len() && n <= self.srm.room() && n <= self.ssn.room()
    }

    /// Reserves room for that many more rows. Mostly there is room already, which is tested first.
    #[inline(always)]
    pub(crate) fn reserve(&mut self, n: usize) -> M<()>
        ensures rows { self.new.rows ≡ self.old.rows }
        ensures ok { OnOk result (n ≤ self.new.spare) }
        ensures room { n ≤ self.old.spare → IsOk result }
        ensures spare { self.old.spare ≤ self.new.spare }
        ensures narrow { self.new.narrow ≡ self.old.narrow }
    {
        if self.has_room(n) {
            return Ok(());
        }
        self.grow(n)
    }

    /// Grows all three lists as needed for that many more rows, and to at least `LEAST_ROOM` rows.
    #[inline(never)]
    fn grow(&mut self, n: usize) -> M<()>
        ensures rows { self.new.rows ≡ self.old.rows }
        ensures ok { OnOk result (n ≤ self.new.spare) }
        ensures spare { self.old.spare ≤ self.new.spare }
        ensures narrow { self.new.narrow ≡ self.old.narrow }
    {
        let room = n.max(LEAST_ROOM.saturating_sub(self.ids.len()));
        self.ids.reserve(room)?;
        self.srm.reserve(room)?;
        self.ssn.reserve(room)?;
        Ok(())
    }

    /// Clears all SSN flags of a link and, if `both`, its SRM flags too.
    pub(crate) fn clear(&mut self, link: u16, both: bool)
        requires { link < 64 }
        ensures ids { row_ids self.new.rows ≡ row_ids self.old.rows }
        ensures rows { (n : ℕ) → link < n → n ≤ 64 → rows_of n self.new.rows ≡ map (clears both link) (rows_of n self.old.rows) }
        ensures spare { self.new.spare ≡ self.old.spare }
        ensures narrow { self.new.narrow ≡ self.old.narrow }
    {
        self.ssn.clear(link);
        if both {
            self.srm.clear(link);
        }
    }

    /// Returns whether some row has its SRM flag set for a link.
    pub(crate) fn any_sent(&self, link: u16) -> bool
        requires { link < 64 }
        ensures { result ≡ list_any (λ b. at_bit b.srm link) self.now.rows }
    {
        self.srm.any_with(link)
    }

    /// Returns the index of the first row, from an index on, with its SRM flag set for a link, or the number of rows.
    pub(crate) fn next_sent(&self, from: usize, link: u16) -> usize
        requires { link < 64 }
        ensures { result ≡ from + position_or_len (λ b. at_bit b.srm link) (drop from self.now.rows) }
    {
        self.srm.next_with(from, link)
    }

    /// Returns the index of the first row, from an index on, with its SSN flag set for a link, or the number of rows.
    pub(crate) fn next_asked(&self, from: usize, link: u16) -> usize
        requires { link < 64 }
        ensures { result ≡ from + position_or_len (λ b. at_bit b.ssn link) (drop from self.now.rows) }
    {
        self.ssn.next_with(from, link)
    }
}
