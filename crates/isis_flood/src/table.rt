ghost use Rattle.std.specs.Prelude.{◌≡◌, ◌≢◌, ◌<◌, ◌≤◌, ◌+◌, ◌||◌, ◌&&◌, [], map, drop, ℕ, true, false, nat_le, length, slice_index_or, IsOk, OnOk, OnErr};
ghost use Rattle.std.specs.List.{position_or_len};
ghost use Rattle.wire_base.specs.model.Control.{AreAscending};
ghost use Rattle.lsp_store.specs.Places.{stands_at};
ghost use Rattle.isis_flood.specs.Flags.{has_srm, has_ssn};
ghost use Rattle.isis_flood.specs.Masks.{at_bit, held_mask, held_row, rows_of, row_ids, bits_in, put_bits, without_bits, clears, IsPlace};

use crate::columns::Columns;
use crate::masks::{has_bit, joined, without_bit};
use lsp_store::{LspIds, is_gap, place_of, stands_at};
use std::alloc::Global;
use std::marker::Model;
use wire_base::{LspId, M};

/// The flags of an LSP ID: the links on which the LSP is to be sent (SRM), and those on which it is to be acknowledged or
/// requested (SSN). Bit i of a mask is the link with index i.
#[derive(Clone, Copy)]
pub(crate) struct Bits {
    pub(crate) id: LspId,
    pub(crate) srm: u64,
    pub(crate) ssn: u64,
}

/// The index of an LSP ID's row in a table, or the index to insert it at.
#[derive(Clone, Copy)]
pub(crate) struct Found {
    pub(crate) place: usize,
    is_there: bool,
}

/// Rows of flags in the order of their LSP IDs, none twice. No row has its SRM flag set for a link outside of `sending`, and none
/// its SSN flag for a link outside of `asking`, so no row is read for such a link.
#[derive(Drop)]
pub(crate) struct Table {
    items: Columns,
    sending: u64,
    asking: u64,
}

impl Model for Table {
    ghost use Rattle.isis_flood.specs.Masks.{Held, IsTable};

    ghost Value = { Held };

    ghost view = { λ t. record { rows = t.items.rows; spare = t.items.spare; narrow = t.items.narrow } };

    ghost invariant = { λ t. IsTable t.sending t.asking t.items.rows };
}

/// Returns whether, by the masks, a link may have flags to clear.
fn may_clear(sending: u64, asking: u64, link: u16, both: bool) -> bool
    requires { link < 64 }
    ensures { result ≡ (at_bit asking link || (both && at_bit sending link)) }
{
    has_bit(asking, link) || both && has_bit(sending, link)
}

/// Returns the mask, with a link cleared if `cleared`.
fn without_if(mask: u64, link: u16, cleared: bool) -> u64
    requires { link < 64 }
    ensures same { cleared ≡ false → result ≡ mask }
    ensures others { (i : ℕ) → i < 64 → i ≢ link → at_bit result i ≡ at_bit mask i }
{
    if cleared {
        without_bit(mask, link)
    } else {
        mask
    }
}

impl Table {
    /// Creates an empty table, for a router with that many links.
    pub(crate) fn new(alloc: Global, links: u16) -> Table
        ensures rows { result.rows ≡ [] }
        ensures narrow { result.narrow ≡ nat_le links 8 }
    {
        Table {
            items: Columns::new(alloc, links),
            sending: 0,
            asking: 0,
        }
    }

    /// Returns the number of rows.
    pub(crate) fn len(&self) -> usize
        ensures { result ≡ length self.now.rows }
    {
        self.items.len()
    }

    /// Returns the LSP ID of the row at an index.
    pub(crate) fn id_at(&self, place: usize) -> LspId
        requires { place < length self.now.rows }
        ensures { result ≡ slice_index_or (row_ids self.now.rows) place result }
    {
        self.items.id_at(place)
    }

    /// Returns the index of the first row, from an index on, with its SRM flag set for a link, or the number of rows.
    pub(crate) fn next_sent(&self, from: usize, link: u16) -> usize
        requires { link < 64 }
        ensures { result ≡ from + position_or_len (λ b. at_bit b.srm link) (drop from self.now.rows) }
    {
        self.items.next_sent(from, link)
    }

    /// Returns the index of the first row, from an index on, with its SSN flag set for a link, or the number of rows.
    pub(crate) fn next_asked(&self, from: usize, link: u16) -> usize
        requires { link < 64 }
        ensures { result ≡ from + position_or_len (λ b. at_bit b.ssn link) (drop from self.now.rows) }
    {
        self.items.next_asked(from, link)
    }

    /// Finds the index of an LSP ID's row, or the index to insert it at.
    pub(crate) fn find(&self, id: &LspId) -> Found
        ensures place { IsPlace self.now.rows id.now result.is_there result.place }
        ensures ascends { AreAscending (row_ids self.now.rows) }
    {
        let place = place_of(&self.items, id);
        Found {
            place,
            is_there: stands_at(&self.items, place, id),
        }
    }

    /// Like `find`, with a guess of the index. If the guess is right, there is no search.
    #[inline(always)]
    pub(crate) fn find_near(&self, id: &LspId, guess: usize) -> Found
        ensures place { IsPlace self.now.rows id.now result.is_there result.place }
        ensures ascends { AreAscending (row_ids self.now.rows) }
    {
        if stands_at(&self.items, guess, id) {
            return Found {
                place: guess,
                is_there: true,
            };
        }
        self.find_beside(id, guess)
    }

    /// Finds the index to insert an LSP ID at, or the index of its row, which is not the guessed one.
    fn find_beside(&self, id: &LspId, guess: usize) -> Found
        requires { stands_at (row_ids self.now.rows) guess id.now ≡ false }
        ensures place { IsPlace self.now.rows id.now result.is_there result.place }
        ensures ascends { AreAscending (row_ids self.now.rows) }
    {
        if is_gap(&self.items, id, guess) {
            return Found {
                place: guess,
                is_there: false,
            };
        }
        self.find(id)
    }

    /// Returns the row of an LSP ID that was searched, or one without flags if it is not there.
    pub(crate) fn row_at(&self, found: Found, id: LspId) -> Bits
        requires { IsPlace self.now.rows id found.is_there found.place }
        ensures { result ≡ bits_in self.now.rows id }
    {
        if found.is_there {
            return self.items.at(found.place);
        }
        Bits { id, srm: 0, ssn: 0 }
    }

    /// Returns the row of an LSP ID, or one without flags if it is not there.
    pub(crate) fn get(&self, id: &LspId) -> Bits
        ensures row { result ≡ bits_in self.now.rows id.now }
        ensures ascends { AreAscending (row_ids self.now.rows) }
    {
        self.row_at(self.find(id), *id)
    }

    /// Replaces the row that is there.
    fn replace(&mut self, place: usize, row: Bits)
        requires { IsPlace self.old.rows row.id true place }
        ensures rows { self.new.rows ≡ put_bits (held_row self.old.narrow row) self.old.rows }
        ensures spare { self.new.spare ≡ self.old.spare }
        ensures narrow { self.new.narrow ≡ self.old.narrow }
    {
        self.sending = joined(self.sending, row.srm);
        self.asking = joined(self.asking, row.ssn);
        self.items.set(place, row);
    }

    /// Replaces the SRM mask of the row that is there. `row` is that row with the new mask.
    fn replace_srm(&mut self, place: usize, row: Bits)
        requires place { IsPlace self.old.rows row.id true place }
        requires ssn { row.ssn ≡ (bits_in self.old.rows row.id).ssn }
        ensures rows { self.new.rows ≡ put_bits (record row { srm = held_mask self.old.narrow row.srm }) self.old.rows }
        ensures spare { self.new.spare ≡ self.old.spare }
        ensures narrow { self.new.narrow ≡ self.old.narrow }
    {
        self.sending = joined(self.sending, row.srm);
        self.items.set_srm(place, row.srm);
    }

    /// Inserts a row at an index. It is not inlined: most rows are in the table already and are replaced in place, without this call.
    /// Its parts are passed one by one, in registers.
    #[inline(never)]
    fn insert(&mut self, place: usize, id: LspId, srm: u64, ssn: u64) -> M<()>
        requires { IsPlace self.old.rows id false place }
        ensures ok { OnOk result (self.new.rows ≡ put_bits (held_row self.old.narrow (record { id = id; srm = srm; ssn = ssn })) self.old.rows) }
        ensures err { OnErr result (self.new.rows ≡ self.old.rows) }
        ensures room { 0 < self.old.spare → IsOk result }
        ensures spare { self.old.spare ≤ self.new.spare + 1 }
        ensures narrow { self.new.narrow ≡ self.old.narrow }
    {
        self.items.insert(place, Bits { id, srm, ssn })?;
        self.sending = joined(self.sending, srm);
        self.asking = joined(self.asking, ssn);
        Ok(())
    }

    /// Inserts a row at the index that was found, or replaces the row that is there.
    #[inline(always)]
    pub(crate) fn put_at(&mut self, found: Found, row: Bits) -> M<()>
        requires { IsPlace self.old.rows row.id found.is_there found.place }
        ensures ok { OnOk result (self.new.rows ≡ put_bits (held_row self.old.narrow row) self.old.rows) }
        ensures err { OnErr result (self.new.rows ≡ self.old.rows) }
        ensures room { 0 < self.old.spare → IsOk result }
        ensures spare { self.old.spare ≤ self.new.spare + 1 }
        ensures narrow { self.new.narrow ≡ self.old.narrow }
    {
        if found.is_there {
            self.replace(found.place, row);
            return Ok(());
        }
        self.insert(found.place, row.id, row.srm, row.ssn)
    }

    /// Like `put_at`, for a row whose SSN mask is unchanged, so that only the SRM mask is stored.
    #[inline(always)]
    pub(crate) fn put_srm_at(&mut self, found: Found, row: Bits) -> M<()>
        requires place { IsPlace self.old.rows row.id found.is_there found.place }
        requires ssn { row.ssn ≡ (bits_in self.old.rows row.id).ssn }
        ensures ok { OnOk result (self.new.rows ≡ put_bits (record row { srm = held_mask self.old.narrow row.srm }) self.old.rows) }
        ensures err { OnErr result (self.new.rows ≡ self.old.rows) }
        ensures room { 0 < self.old.spare → IsOk result }
        ensures spare { self.old.spare ≤ self.new.spare + 1 }
        ensures narrow { self.new.narrow ≡ self.old.narrow }
    {
        if found.is_there {
            self.replace_srm(found.place, row);
            return Ok(());
        }
        self.insert(found.place, row.id, row.srm, row.ssn)
    }

    /// Inserts a row in order, or replaces the one with its LSP ID. `guess` is a guess of the index. It is inlined, so that a row
    /// that is there is not passed on in memory.
    #[inline(always)]
    pub(crate) fn put(&mut self, row: Bits, guess: usize) -> M<()>
        ensures ok { OnOk result (self.new.rows ≡ put_bits (held_row self.old.narrow row) self.old.rows) }
        ensures err { OnErr result (self.new.rows ≡ self.old.rows) }
        ensures room { 0 < self.old.spare → IsOk result }
        ensures spare { self.old.spare ≤ self.new.spare + 1 }
        ensures narrow { self.new.narrow ≡ self.old.narrow }
    {
        let found = self.find_near(&row.id, guess);
        self.put_at(found, row)
    }

    /// Removes the row of an LSP ID.
    pub(crate) fn remove(&mut self, id: &LspId)
        ensures rows { self.new.rows ≡ without_bits id.now self.old.rows }
        ensures spare { self.old.spare ≤ self.new.spare }
        ensures narrow { self.new.narrow ≡ self.old.narrow }
    {
        let found = self.find(id);
        if found.is_there {
            self.items.remove(found.place);
        }
    }

    /// Reserves room for that many more rows.
    pub(crate) fn reserve(&mut self, n: usize) -> M<()>
        ensures rows { self.new.rows ≡ self.old.rows }
        ensures ok { OnOk result (n ≤ self.new.spare) }
        ensures room { n ≤ self.old.spare → IsOk result }
        ensures spare { self.old.spare ≤ self.new.spare }
        ensures narrow { self.new.narrow ≡ self.old.narrow }
    {
        self.items.reserve(n)?;
        Ok(())
    }

    /// Returns whether a row may have its SRM flag set for a link.
    pub(crate) fn may_send(&self, link: u16) -> bool
        requires { link < 64 }
        ensures { (n : ℕ) → link < n → n ≤ 64 → result ≡ false → has_srm (rows_of n self.now.rows) link ≡ false }
    {
        has_bit(self.sending, link)
    }

    /// Returns whether a row may have its SSN flag set for a link.
    pub(crate) fn may_ask(&self, link: u16) -> bool
        requires { link < 64 }
        ensures { (n : ℕ) → link < n → n ≤ 64 → result ≡ false → has_ssn (rows_of n self.now.rows) link ≡ false }
    {
        has_bit(self.asking, link)
    }

    /// Clears all SSN flags of a link and, if `both`, its SRM flags too. Reads no row if, by the masks, none has such
    /// a flag.
    pub(crate) fn clear(&mut self, link: u16, both: bool)
        requires { link < 64 }
        ensures rows { (n : ℕ) → link < n → n ≤ 64 → rows_of n self.new.rows ≡ map (clears both link) (rows_of n self.old.rows) }
        ensures spare { self.new.spare ≡ self.old.spare }
        ensures narrow { self.new.narrow ≡ self.old.narrow }
    {
        if !may_clear(self.sending, self.asking, link, both) {
            return;
        }
        self.items.clear(link, both);
        self.sending = without_if(self.sending, link, both);
        self.asking = without_bit(self.asking, link);
    }

    /// Removes a link from `sending` if no row has its SRM flag set for it. The rows are unchanged.
    pub(crate) fn settle(&mut self, link: u16)
        requires { link < 64 }
        ensures rows { self.new.rows ≡ self.old.rows }
        ensures spare { self.new.spare ≡ self.old.spare }
        ensures narrow { self.new.narrow ≡ self.old.narrow }
    {
        if has_bit(self.sending, link) && !self.items.any_sent(link) {
            self.sending = without_bit(self.sending, link);
        }
    }
}
