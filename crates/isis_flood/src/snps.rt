//! Received CSNPs and PSNPs (ISO/IEC 10589, 7.3.15.2).
ghost use Rattle.std.specs.Prelude.{◌≡◌, ◌<◌, ◌≤◌, ◌+◌, length, fold, false, IsOk, OnOk, OnErr};
ghost use Rattle.wire_base.specs.model.Control.{entry_in, put_entry, age_of, is_full};
ghost use Rattle.wire_base.specs.model.Flooding.{wanted, asks, listed_aged, on_listed, on_list, on_psnp};
ghost use Rattle.wire_base.specs.model.Tlv.{rows_of};
ghost use Rattle.wire_base.specs.declared.entry.Age.TheVariants.{Confused};
ghost use Rattle.lsp_store.specs.Places.{is_new};
ghost use Rattle.isis_flood.specs.Answers.{state_of, SnpDone, Becomes};
ghost use Rattle.isis_flood.specs.Kept.{NotLowered};

use crate::entries::listed;
use crate::flood::Flood;
use crate::lsps::is_full;
use lsp_store::{Store, purge};
use wire_base::limits::PURGE_HOLD;
use wire_base::{Age, Content, Entry, LspId, M, Memory, SnpOut, Summary};

/// Returns the empty entry that requests an unknown LSP until it comes.
fn wanted(s: &Summary) -> Entry
    ensures { result ≡ wanted s.now }
{
    Entry {
        id: s.id,
        seq: 0,
        life: 0,
        hold: PURGE_HOLD,
        sum: 0,
        flags: 0,
        content: Content::new(),
    }
}

impl Flood {
    /// Requests an unknown LSP, if the LSDB has room.
    fn request(
        &mut self,
        store: &mut Store,
        link: u16,
        s: &Summary,
        guess: usize,
        answer: &mut SnpOut,
    ) -> M<()>
        requires link { link < length self.old.flood.up }
        requires few { answer.old.full < 4294967295 }
        ensures next { Becomes result (state_of self.new.flood store.new.entries answer.new) (asks (state_of self.old.flood store.old.entries answer.old) link s.now) }
        ensures room { 0 < self.old.spare → 0 < store.old.spare → IsOk result }
        ensures spare { self.old.spare ≤ self.new.spare + 1 }
        ensures entries { store.old.spare ≤ store.new.spare + 1 }
        ensures full { answer.new.full ≤ answer.old.full + 1 }
        ensures links { OnOk result (length self.new.flood.up ≡ length self.old.flood.up) }
    {
        if is_full(store) {
            answer.full += 1;
            return Ok(());
        }
        if store.put_near(wanted(s), guess).is_err() {
            return Err(Memory);
        }
        self.ask(s.id, link, guess)
    }

    /// Handles LSP confusion: purges the entry, or requests that the own LSP be originated again.
    fn on_confused(
        &mut self,
        store: &mut Store,
        link: u16,
        s: &Summary,
        spent: bool,
        answer: &mut SnpOut,
    ) -> M<()>
        requires known { is_new store.old.entries s.now.id ≡ false }
        requires link { link < length self.old.flood.up }
        requires few { answer.old.full < 4294967295 }
        ensures next { Becomes result (state_of self.new.flood store.new.entries answer.new) (listed_aged (state_of self.old.flood store.old.entries answer.old) link s.now spent Confused) }
        ensures room { 0 < self.old.spare → 0 < store.old.spare → IsOk result }
        ensures spare { self.old.spare ≤ self.new.spare + 1 }
        ensures entries { store.old.spare ≤ store.new.spare + 1 }
        ensures full { answer.new.full ≤ answer.old.full + 1 }
        ensures links { OnOk result (length self.new.flood.up ≡ length self.old.flood.up) }
    {
        if s.id == LspId::fragment_0(self.own()) && !spent {
            answer.reissue = Some(s.seq);
            return Ok(());
        }
        let gone = purge(s.id, s.seq);
        if store.put(gone).is_err() {
            return Err(Memory);
        }
        self.mark_all(s.id)
    }

    /// Handles a listed LSP by the comparison; its sequence number is above 0. `guess` is a guess of the index of row and
    /// entry.
    fn on_listed_aged(
        &mut self,
        store: &mut Store,
        link: u16,
        s: &Summary,
        spent: bool,
        age: Age,
        guess: usize,
        answer: &mut SnpOut,
    ) -> M<()>
        requires age { age ≡ age_of (entry_in store.old.entries s.now.id) s.now }
        requires link { link < length self.old.flood.up }
        requires few { answer.old.full < 4294967295 }
        ensures next { Becomes result (state_of self.new.flood store.new.entries answer.new) (listed_aged (state_of self.old.flood store.old.entries answer.old) link s.now spent age) }
        ensures room { 0 < self.old.spare → 0 < store.old.spare → IsOk result }
        ensures spare { self.old.spare ≤ self.new.spare + 1 }
        ensures entries { store.old.spare ≤ store.new.spare + 1 }
        ensures full { answer.new.full ≤ answer.old.full + 1 }
        ensures links { OnOk result (length self.new.flood.up ≡ length self.old.flood.up) }
    {
        match age {
            Age::Unknown => {
                if s.is_live() {
                    self.request(store, link, s, guess, answer)
                } else {
                    Ok(())
                }
            }
            Age::Newer => self.ask(s.id, link, guess),
            Age::Equal => self.acknowledge(s.id, link, guess),
            Age::Older => self.resend(s.id, link, guess),
            Age::Confused => self.on_confused(store, link, s, spent, answer),
        }
    }

    /// Processes an LSP entry of a CSNP or PSNP; one of sequence number 0 requests the LSP.
    #[tactic(auto, unfolding(wire_base::specs::model::Flooding::on_listed))]
    fn on_listed(
        &mut self,
        store: &mut Store,
        link: u16,
        s: &Summary,
        spent: bool,
        answer: &mut SnpOut,
    ) -> M<()>
        requires link { link < length self.old.flood.up }
        requires few { answer.old.full < 4294967295 }
        ensures next { Becomes result (state_of self.new.flood store.new.entries answer.new) (on_listed link spent (state_of self.old.flood store.old.entries answer.old) s.now) }
        ensures room { 0 < self.old.spare → 0 < store.old.spare → IsOk result }
        ensures spare { self.old.spare ≤ self.new.spare + 1 }
        ensures entries { store.old.spare ≤ store.new.spare + 1 }
        ensures full { answer.new.full ≤ answer.old.full + 1 }
        ensures links { OnOk result (length self.new.flood.up ≡ length self.old.flood.up) }
    {
        // Rows and entries mostly have the same indices, so one search finds both.
        let guess = self.place_of(&s.id);
        if s.seq == 0 {
            if store.seq_of(&s.id) > 0 {
                return self.resend(s.id, link, guess);
            }
            return Ok(());
        }
        let age = store.compare_near(s, guess);
        self.on_listed_aged(store, link, s, spent, age, guess, answer)
    }

    /// Processes the LSP entries of a CSNP or PSNP, in order; their memory is already allocated.
    pub(crate) fn on_list(
        &mut self,
        store: &mut Store,
        link: u16,
        rows: &[Summary],
        spent: bool,
        answer: &mut SnpOut,
    ) -> M<()>
        requires link { link < length self.old.flood.up }
        requires flags { length rows.now ≤ self.old.spare }
        requires entries { length rows.now ≤ store.old.spare }
        requires few { answer.old.full + length rows.now ≤ 4294967295 }
        ensures next { state_of self.new.flood store.new.entries answer.new ≡ fold (on_listed link spent) (state_of self.old.flood store.old.entries answer.old) rows.now }
        ensures ok { IsOk result }
        ensures spare { self.old.spare ≤ self.new.spare + length rows.now }
        ensures links { length self.new.flood.up ≡ length self.old.flood.up }
    {
        let mut rest = rows;
        'rows: loop {
            match rest {
                [] => return Ok(()),
                [s, after @ ..] => {
                    self.on_listed(store, link, s, spent, answer)?;
                    rest = after;
                }
            }
        }
    }

    /// Processes a PSNP that was received on a link, given the octets of its TLVs. Returns the sequence number past which the
    /// router must originate its own LSP, if a listed one was in LSP confusion with it, and the number of entries for which there
    /// was no room (ISO/IEC 10589, 7.3.15.2). If an allocation fails, nothing has changed.
    #[tactic(auto, unfolding(wire_base::specs::model::Flooding::on_psnp))]
    pub fn on_psnp(&mut self, store: &mut Store, link: u16, tlvs: &[u8], spent: bool) -> M<SnpOut>
        requires link { link < length self.old.flood.up }
        requires tlvs { length tlvs.now ≤ 65535 }
        ensures done { SnpDone result self.old.flood store.old.entries self.new.flood store.new.entries (on_psnp self.old.flood store.old.entries link tlvs.now spent) }
        ensures kept { NotLowered store.old.entries store.new.entries }
        ensures spare { self.old.spare ≤ self.new.spare + length (rows_of tlvs.now) }
        ensures links { length self.new.flood.up ≡ length self.old.flood.up }
    {
        let rows = listed(store.allocator(), tlvs)?;
        self.on_psnp_listed(store, link, rows.as_slice(), spent)
    }

    /// Like `on_psnp`, given the LSP entries.
    pub fn on_psnp_listed(
        &mut self,
        store: &mut Store,
        link: u16,
        rows: &[Summary],
        spent: bool,
    ) -> M<SnpOut>
        requires link { link < length self.old.flood.up }
        requires few { length rows.now ≤ 65535 }
        ensures done { SnpDone result self.old.flood store.old.entries self.new.flood store.new.entries (on_list self.old.flood store.old.entries link rows.now spent) }
        ensures kept { NotLowered store.old.entries store.new.entries }
        ensures spare { self.old.spare ≤ self.new.spare + length rows.now }
        ensures links { length self.new.flood.up ≡ length self.old.flood.up }
    {
        self.apply_psnp(store, link, rows, spent)
    }

    /// Processes the LSP entries of a PSNP, after all memory is allocated.
    #[tactic(auto, unfolding(wire_base::specs::model::Flooding::on_list))]
    fn apply_psnp(
        &mut self,
        store: &mut Store,
        link: u16,
        rows: &[Summary],
        spent: bool,
    ) -> M<SnpOut>
        requires link { link < length self.old.flood.up }
        requires few { length rows.now ≤ 65535 }
        ensures done { SnpDone result self.old.flood store.old.entries self.new.flood store.new.entries (on_list self.old.flood store.old.entries link rows.now spent) }
        ensures spare { self.old.spare ≤ self.new.spare + length rows.now }
    {
        self.reserve(rows.len())?;
        store.reserve(rows.len())?;
        let mut answer = SnpOut {
            reissue: None,
            full: 0,
        };
        self.on_list(store, link, rows, spent, &mut answer)?;
        Ok(answer)
    }
}
