ghost use Rattle.std.specs.Prelude.{◌≡◌, ◌<◌, ◌≤◌, ◌+◌, drop, length, slice_get, slice_index_or, slice_set, IfSome, true, false, IsOk, IfOk, OnOk, OnErr};
ghost use Rattle.std.specs.List.{position_or_len};
ghost use Rattle.wire_base.specs.model.Control.{FlagRow, srm_in, ssn_in, without_row};
ghost use Rattle.wire_base.specs.model.Flooding.{with_row, send_on, ask_on, set_srm, pass_on, mark_all, forget, link_down, sent_on, new_flood};
ghost use Rattle.isis_flood.specs.Flags.{has_srm, has_ssn};
ghost use Rattle.isis_flood.specs.Masks.{links_in, row_of, row_in, turned, turned_srm};

use crate::masks::{Turn, has_of, mask_of, turned, with, without};
use crate::table::{Bits, Table};
use std::alloc::Global;
use std::marker::Model;
use wire_base::{LspId, M, SystemId};

/// The state of flooding beside the LSDB: which links are up, on which of them a CSNP is due, and for each LSP ID the links with
/// its SRM flag (the LSP is to be sent) and its SSN flag (it is to be acknowledged or requested). Contracts model it as this state
/// and the number of further LSP IDs for which memory is already allocated (ISO/IEC 10589, 7.3.15).
#[derive(Drop)]
pub struct Flood {
    own: SystemId,
    links: u16,
    up: u64,
    due: u64,
    table: Table,
    /// Where the next LSP ID's row is expected: behind that of the LSP ID before it, since neighbors send in the order of LSP IDs.
    next: usize,
}

impl Model for Flood {
    ghost use Rattle.isis_flood.specs.Masks.{AreFew, Flooding, flood_of};

    ghost Value = { Flooding };

    ghost view = { λ f. record { flood = flood_of f.own f.links f.up f.due f.table.rows; spare = f.table.spare } };

    ghost invariant = { λ f. AreFew f.links f.table.narrow };
}

impl Flood {
    /// Creates a state without flags, with a CSNP due on every link that is up.
    pub fn new(alloc: Global, own: SystemId, links: u16, up: &[bool]) -> M<Flood>
        requires links { length up.now ≡ links }
        requires few { links ≤ 64 }
        ensures flood { IfOk result (λ f. f.flood ≡ new_flood own up.now) }
        ensures links { IfOk result (λ f. length f.flood.up ≡ links) }
    {
        let up = mask_of(up);
        Ok(Flood {
            own,
            links,
            up,
            due: up,
            table: Table::new(alloc, links),
            next: 0,
        })
    }

    /// Returns whether a link is up. A link that the router does not have is not up, and has no flags.
    pub fn is_up(&self, link: u16) -> bool
        ensures { result ≡ slice_index_or self.now.flood.up link false }
    {
        has_of(self.up, self.links, link)
    }

    /// Returns whether a CSNP is due on a link.
    pub fn due(&self, link: u16) -> bool
        ensures { result ≡ slice_index_or self.now.flood.due link false }
    {
        has_of(self.due, self.links, link)
    }

    /// Returns whether the SRM flag of an LSP ID is set for a link: the LSP is to be sent there.
    pub fn srm(&self, id: LspId, link: u16) -> bool
        ensures { result ≡ srm_in self.now.flood.rows id link }
    {
        has_of(self.table.get(&id).srm, self.links, link)
    }

    /// Returns whether the SSN flag of an LSP ID is set for a link: the LSP is to be acknowledged or requested there.
    pub fn ssn(&self, id: LspId, link: u16) -> bool
        ensures { result ≡ ssn_in self.now.flood.rows id link }
    {
        has_of(self.table.get(&id).ssn, self.links, link)
    }

    /// Returns whether some SRM flag of a link may be set; false only if none is. It reads no row. It is false if none was set
    /// when `sent` or `link_down` was last called, and none has been set since.
    pub fn may_send(&self, link: u16) -> bool
        ensures { result ≡ false → has_srm self.now.flood.rows link ≡ false }
    {
        if link >= self.links {
            return false;
        }
        self.table.may_send(link)
    }

    /// Returns whether some SSN flag of a link may be set; false only if none is. It reads no row. It is false after `sent` and
    /// `link_down` until one is set.
    pub fn may_ask(&self, link: u16) -> bool
        ensures { result ≡ false → has_ssn self.now.flood.rows link ≡ false }
    {
        if link >= self.links {
            return false;
        }
        self.table.may_ask(link)
    }

    /// Returns the number of LSP IDs with a row of flags, in order; a row may be without flags.
    pub fn rows(&self) -> usize
        ensures { result ≡ length self.now.flood.rows }
    {
        self.table.len()
    }

    /// Returns the LSP ID of the row at an index.
    pub fn id_at(&self, place: usize) -> LspId
        requires { place < length self.now.flood.rows }
        ensures { IfSome (slice_get self.now.flood.rows place) (λ row. result ≡ row.id) }
    {
        self.table.id_at(place)
    }

    /// Returns the index of the first row, from an index on, whose LSP is to be sent on a link, or the number of rows.
    pub fn next_sent(&self, from: usize, link: u16) -> usize
        requires { link < length self.now.flood.up }
        ensures { result ≡ from + position_or_len (λ row. slice_index_or row.srm link false) (drop from self.now.flood.rows) }
    {
        self.table.next_sent(from, link)
    }

    /// Returns the index of the first row, from an index on, whose LSP is to be acknowledged or requested on a link, or the
    /// number of rows.
    pub fn next_asked(&self, from: usize, link: u16) -> usize
        requires { link < length self.now.flood.up }
        ensures { result ≡ from + position_or_len (λ row. slice_index_or row.ssn link false) (drop from self.now.flood.rows) }
    {
        self.table.next_asked(from, link)
    }

    /// Reserves room for that many more rows.
    pub fn reserve(&mut self, n: usize) -> M<()>
        ensures flood { self.new.flood ≡ self.old.flood }
        ensures ok { OnOk result (n ≤ self.new.spare) }
        ensures room { n ≤ self.old.spare → IsOk result }
        ensures spare { self.old.spare ≤ self.new.spare }
    {
        self.table.reserve(n)
    }

    /// Sets the SRM flag of an LSP ID for every link that is up, and clears its SSN flags.
    pub fn mark_all(&mut self, id: LspId) -> M<()>
        ensures ok { OnOk result (self.new.flood ≡ mark_all self.old.flood id) }
        ensures err { OnErr result (self.new.flood ≡ self.old.flood) }
        ensures room { 0 < self.old.spare → IsOk result }
        ensures spare { self.old.spare ≤ self.new.spare + 1 }
        ensures links { length self.new.flood.up ≡ length self.old.flood.up }
    {
        let srm = self.up;
        let end = self.table.len();
        self.table.put(Bits { id, srm, ssn: 0 }, end)
    }

    /// Clears all flags of an LSP ID.
    pub fn forget(&mut self, id: LspId)
        ensures flood { self.new.flood ≡ forget self.old.flood id }
        ensures spare { self.old.spare ≤ self.new.spare }
        ensures links { length self.new.flood.up ≡ length self.old.flood.up }
    {
        self.table.remove(&id);
    }

    /// Returns the index of an LSP ID's row, or the index to insert it at. Its entry mostly has the same index in the LSDB. The
    /// index behind it is tested first at the next call.
    pub(crate) fn place_of(&mut self, id: &LspId) -> usize
        ensures { self.new ≡ self.old }
    {
        let place = self.table.find_near(id, self.next).place;
        self.next = place.wrapping_add(1);
        place
    }

    /// Replaces the row with that LSP ID. `guess` is a guess of its index.
    fn set_row(&mut self, row: Bits, guess: usize) -> M<()>
        ensures ok { (change : FlagRow → FlagRow) → row_of (length self.old.flood.up) row ≡ change (row_in (length self.old.flood.up) self.old.flood.rows row.id)
            → OnOk result (self.new.flood ≡ with_row self.old.flood row.id change) }
        ensures err { OnErr result (self.new.flood ≡ self.old.flood) }
        ensures room { 0 < self.old.spare → IsOk result }
        ensures spare { self.old.spare ≤ self.new.spare + 1 }
    {
        self.table.put(row, guess)
    }

    /// Changes the flags of an LSP ID for a link: SRM (to be sent) and SSN (to be acknowledged or requested). `guess` is a guess
    /// of the row's index. Each caller passes turns of its own, so that it is shorter in place.
    #[inline(always)]
    fn turn(&mut self, id: LspId, link: u16, guess: usize, srm: Turn, ssn: Turn) -> M<()>
        requires { link < length self.old.flood.up }
        ensures ok { OnOk result (self.new.flood ≡ with_row self.old.flood id (turned link srm ssn)) }
        ensures err { OnErr result (self.new.flood ≡ self.old.flood) }
        ensures room { 0 < self.old.spare → IsOk result }
        ensures spare { self.old.spare ≤ self.new.spare + 1 }
    {
        let found = self.table.find_near(&id, guess);
        let row = self.table.row_at(found, id);
        let changed = Bits {
            id,
            srm: turned(row.srm, link, srm),
            ssn: turned(row.ssn, link, ssn),
        };
        self.table.put_at(found, changed)
    }

    /// Changes the SRM flag of an LSP ID for a link (the LSP is to be sent), and not its SSN flag. `guess` is a guess of the
    /// row's index.
    #[inline(always)]
    fn turn_srm(&mut self, id: LspId, link: u16, guess: usize, srm: Turn) -> M<()>
        requires { link < length self.old.flood.up }
        ensures ok { OnOk result (self.new.flood ≡ with_row self.old.flood id (turned_srm link srm)) }
        ensures err { OnErr result (self.new.flood ≡ self.old.flood) }
        ensures room { 0 < self.old.spare → IsOk result }
        ensures spare { self.old.spare ≤ self.new.spare + 1 }
    {
        let found = self.table.find_near(&id, guess);
        let row = self.table.row_at(found, id);
        let changed = Bits {
            id,
            srm: turned(row.srm, link, srm),
            ssn: row.ssn,
        };
        self.table.put_srm_at(found, changed)
    }

    /// Sets the SSN flag for a link, and clears the SRM flag. It is inlined, since most LSPs that are received are known.
    #[inline(always)]
    pub(crate) fn ask(&mut self, id: LspId, link: u16, guess: usize) -> M<()>
        requires { link < length self.old.flood.up }
        ensures ok { OnOk result (self.new.flood ≡ with_row self.old.flood id (ask_on link)) }
        ensures err { OnErr result (self.new.flood ≡ self.old.flood) }
        ensures room { 0 < self.old.spare → IsOk result }
        ensures spare { self.old.spare ≤ self.new.spare + 1 }
    {
        self.turn(id, link, guess, Turn::Off, Turn::On)
    }

    /// Sets the SRM flag for a link, and clears the SSN flag.
    pub(crate) fn resend(&mut self, id: LspId, link: u16, guess: usize) -> M<()>
        requires { link < length self.old.flood.up }
        ensures ok { OnOk result (self.new.flood ≡ with_row self.old.flood id (send_on link)) }
        ensures err { OnErr result (self.new.flood ≡ self.old.flood) }
        ensures room { 0 < self.old.spare → IsOk result }
        ensures spare { self.old.spare ≤ self.new.spare + 1 }
    {
        self.turn(id, link, guess, Turn::On, Turn::Off)
    }

    /// Clears the SRM flag for a link.
    pub(crate) fn acknowledge(&mut self, id: LspId, link: u16, guess: usize) -> M<()>
        requires { link < length self.old.flood.up }
        ensures ok { OnOk result (self.new.flood ≡ with_row self.old.flood id (set_srm link false)) }
        ensures err { OnErr result (self.new.flood ≡ self.old.flood) }
        ensures room { 0 < self.old.spare → IsOk result }
        ensures spare { self.old.spare ≤ self.new.spare + 1 }
    {
        self.turn_srm(id, link, guess, Turn::Off)
    }

    /// Sets the SRM flag for a link.
    pub(crate) fn want(&mut self, id: LspId, link: u16, guess: usize) -> M<()>
        requires { link < length self.old.flood.up }
        ensures ok { OnOk result (self.new.flood ≡ with_row self.old.flood id (set_srm link true)) }
        ensures err { OnErr result (self.new.flood ≡ self.old.flood) }
        ensures room { 0 < self.old.spare → IsOk result }
        ensures spare { self.old.spare ≤ self.new.spare + 1 }
    {
        self.turn_srm(id, link, guess, Turn::On)
    }

    /// Returns the links that are up, as a mask.
    fn up_mask(&self) -> u64
        ensures up { links_in (length self.now.flood.up) result ≡ self.now.flood.up }
        ensures few { length self.now.flood.up ≤ 64 }
    {
        self.up
    }

    /// For an LSP received on a link: sets SSN for that link, and SRM for all other links that are up.
    pub(crate) fn pass(&mut self, id: LspId, link: u16, guess: usize) -> M<()>
        requires { link < length self.old.flood.up }
        ensures ok { OnOk result (self.new.flood ≡ pass_on self.old.flood id link) }
        ensures err { OnErr result (self.new.flood ≡ self.old.flood) }
        ensures room { 0 < self.old.spare → IsOk result }
        ensures spare { self.old.spare ≤ self.new.spare + 1 }
    {
        let up = self.up_mask();
        let row = Bits {
            id,
            srm: without(up, link),
            ssn: with(0, link),
        };
        self.set_row(row, guess)
    }

    /// Returns the router's own system ID.
    pub(crate) fn own(&self) -> SystemId
        ensures { result ≡ self.now.flood.own }
    {
        self.own
    }

    /// Marks a link as up, with a CSNP due.
    pub(crate) fn open(&mut self, link: u16)
        requires { link < length self.old.flood.up }
        ensures flood { self.new.flood ≡ record self.old.flood { up = slice_set self.old.flood.up link true; due = slice_set self.old.flood.due link true } }
        ensures spare { self.new.spare ≡ self.old.spare }
        ensures links { length self.new.flood.up ≡ length self.old.flood.up }
    {
        self.up = with(self.up, link);
        self.due = with(self.due, link);
    }

    /// Marks a link as down, and clears its flags. No effect if the router does not have the link.
    pub fn link_down(&mut self, link: u16)
        ensures flood { self.new.flood ≡ link_down self.old.flood link }
        ensures spare { self.new.spare ≡ self.old.spare }
        ensures links { length self.new.flood.up ≡ length self.old.flood.up }
    {
        if link >= self.links {
            return;
        }
        self.up = without(self.up, link);
        self.due = without(self.due, link);
        self.table.clear(link, true);
    }

    /// Records that everything due on a link was sent: no CSNP is due there, and no SSN flag is set. SRM flags are unchanged:
    /// only an acknowledgement ends the sending of an LSP (ISO/IEC 10589, 7.3.15.4).
    pub fn sent(&mut self, link: u16)
        ensures flood { self.new.flood ≡ sent_on self.old.flood link }
        ensures spare { self.new.spare ≡ self.old.spare }
        ensures links { length self.new.flood.up ≡ length self.old.flood.up }
    {
        if link >= self.links {
            return;
        }
        self.due = without(self.due, link);
        self.table.clear(link, false);
        self.table.settle(link);
    }
}
