//! The LSPs that a CSNP lacks, and those to send on a link that comes up (ISO/IEC 10589, 7.3.15.2 and 7.3.17).
ghost use Rattle.std.specs.Prelude.{◌≡◌, ◌<◌, ◌≤◌, ◌+◌, length, filter, fold, IsOk, OnOk, OnErr};
ghost use Rattle.wire_base.specs.model.Control.{same_id, is_below};
ghost use Rattle.wire_base.specs.model.Flooding.{lists, lacks, send_lacking, send_known, on_csnp, link_up, csnp_listed};
ghost use Rattle.wire_base.specs.model.Tlv.{rows_of};
ghost use Rattle.isis_flood.specs.Answers.{SnpDone};
ghost use Rattle.isis_flood.specs.Kept.{NotLowered};

use crate::entries::listed;
use crate::flood::Flood;
use lsp_store::{Store, is_same_id};
use wire_base::{Entry, LspId, M, SnpOut, Summary};

fn is_of(s: &Summary, id: &LspId) -> bool
    ensures { result ≡ same_id s.now.id id.now }
{
    is_same_id(s.id, *id)
}

fn lists(rows: &[Summary], id: &LspId) -> bool
    ensures { result ≡ lists rows.now id.now }
{
    rows.iter().any(|s| is_of(s, id))
}

fn is_below(a: &LspId, b: &LspId) -> bool
    ensures { result ≡ is_below a.now b.now }
{
    a.cmp(b).is_lt()
}

/// Returns whether a CSNP from `start` to `last` lacks a live entry that it should list.
fn lacks(start: &LspId, last: &LspId, rows: &[Summary], e: &Entry) -> bool
    ensures { result ≡ lacks start.now last.now rows.now e.now }
{
    e.life > 0
        && e.seq > 0
        && !is_below(&e.id, start)
        && !is_below(last, &e.id)
        && !lists(rows, &e.id)
}

impl Flood {
    /// Sets the SRM flags of the LSPs that are lacking. Their memory is already allocated; the other entries need none.
    fn send_lacking(
        &mut self,
        store: &Store,
        link: u16,
        start: &LspId,
        last: &LspId,
        rows: &[Summary],
    ) -> M<()>
        requires link { link < length self.old.flood.up }
        requires flags { length (filter (lacks start.now last.now rows.now) store.now.entries) ≤ self.old.spare }
        ensures next { self.new.flood ≡ fold (send_lacking link start.now last.now rows.now) self.old.flood store.now.entries }
        ensures ok { IsOk result }
        ensures spare { self.old.spare ≤ self.new.spare + length (filter (lacks start.now last.now rows.now) store.now.entries) }
    {
        'entries: for place in 0..store.len() {
            let e = store.at(place);
            if lacks(start, last, rows, e) {
                // Its row mostly has the same index as the entry.
                self.want(e.id, link, place)?;
            }
        }
        Ok(())
    }

    /// Processes a CSNP from `start` to `last` that was received on a link, given the octets of its TLVs. The result is as for
    /// a PSNP (ISO/IEC 10589, 7.3.15.2). If an allocation fails, nothing has changed.
    #[tactic(auto, unfolding(wire_base::specs::model::Flooding::on_csnp))]
    pub fn on_csnp(
        &mut self,
        store: &mut Store,
        link: u16,
        start: LspId,
        last: LspId,
        tlvs: &[u8],
        spent: bool,
    ) -> M<SnpOut>
        requires link { link < length self.old.flood.up }
        requires tlvs { length tlvs.now ≤ 65535 }
        ensures done { SnpDone result self.old.flood store.old.entries self.new.flood store.new.entries (on_csnp self.old.flood store.old.entries link start last tlvs.now spent) }
        ensures kept { NotLowered store.old.entries store.new.entries }
        // An entry that the PDU adds to the LSDB, as a request, is not one that the PDU lacks.
        ensures spare { self.old.spare ≤ self.new.spare + (length (rows_of tlvs.now) + length store.old.entries) }
        ensures links { length self.new.flood.up ≡ length self.old.flood.up }
    {
        let rows = listed(store.allocator(), tlvs)?;
        self.on_csnp_listed(store, link, &start, &last, rows.as_slice(), spent)
    }

    /// Like `on_csnp`, given the LSP entries.
    pub fn on_csnp_listed(
        &mut self,
        store: &mut Store,
        link: u16,
        start: &LspId,
        last: &LspId,
        rows: &[Summary],
        spent: bool,
    ) -> M<SnpOut>
        requires link { link < length self.old.flood.up }
        requires few { length rows.now ≤ 65535 }
        ensures done { SnpDone result self.old.flood store.old.entries self.new.flood store.new.entries (csnp_listed self.old.flood store.old.entries link start.now last.now rows.now spent) }
        ensures kept { NotLowered store.old.entries store.new.entries }
        ensures spare { self.old.spare ≤ self.new.spare + (length rows.now + length store.old.entries) }
        ensures links { length self.new.flood.up ≡ length self.old.flood.up }
    {
        self.apply_csnp(store, link, start, last, rows, spent)
    }

    /// Processes the LSP entries of a CSNP, and then what it lacks, after all memory is allocated: a row for each listed entry,
    /// and for each entry that was in the LSDB.
    #[tactic(auto, unfolding(wire_base::specs::model::Flooding::on_list))]
    fn apply_csnp(
        &mut self,
        store: &mut Store,
        link: u16,
        start: &LspId,
        last: &LspId,
        rows: &[Summary],
        spent: bool,
    ) -> M<SnpOut>
        requires link { link < length self.old.flood.up }
        requires few { length rows.now ≤ 65535 }
        ensures done { SnpDone result self.old.flood store.old.entries self.new.flood store.new.entries (csnp_listed self.old.flood store.old.entries link start.now last.now rows.now spent) }
        ensures spare { self.old.spare ≤ self.new.spare + (length rows.now + length store.old.entries) }
    {
        self.reserve(rows.len() + store.len())?;
        store.reserve(rows.len())?;
        let mut answer = SnpOut {
            reissue: None,
            full: 0,
        };
        self.on_list(store, link, rows, spent, &mut answer)?;
        self.send_lacking(store, link, start, last, rows)?;
        Ok(answer)
    }

    /// Sets the SRM flags of all known LSPs for a link; their memory is already allocated.
    fn send_known(&mut self, store: &Store, link: u16) -> M<()>
        requires link { link < length self.old.flood.up }
        requires flags { length store.now.entries ≤ self.old.spare }
        ensures next { self.new.flood ≡ fold (send_known link) self.old.flood store.now.entries }
        ensures ok { IsOk result }
        ensures spare { self.old.spare ≤ self.new.spare + length store.now.entries }
        ensures links { length self.new.flood.up ≡ length self.old.flood.up }
    {
        'entries: for place in 0..store.len() {
            let e = store.at(place);
            if e.seq > 0 {
                // Its row mostly has the same index as the entry.
                self.want(e.id, link, place)?;
            }
        }
        Ok(())
    }

    /// Handles a link that comes up: a CSNP is due there, and all known LSPs are to be sent (ISO/IEC 10589, 7.3.17). Always Ok if
    /// there is a spare row for each entry.
    #[tactic(auto, unfolding(wire_base::specs::model::Flooding::link_up))]
    pub fn link_up(&mut self, store: &Store, link: u16) -> M<()>
        requires { link < length self.old.flood.up }
        ensures ok { OnOk result (self.new.flood ≡ link_up self.old.flood store.now.entries link) }
        ensures err { OnErr result (self.new.flood ≡ self.old.flood) }
        ensures room { length store.now.entries ≤ self.old.spare → IsOk result }
        ensures spare { self.old.spare ≤ self.new.spare + length store.now.entries }
        ensures links { length self.new.flood.up ≡ length self.old.flood.up }
    {
        self.reserve(store.len())?;
        self.open(link);
        self.send_known(store, link)
    }
}
