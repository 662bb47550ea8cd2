//! Received LSPs (ISO/IEC 10589, 7.3.15.1 and 7.3.16).
ghost use Rattle.std.specs.Prelude.{◌≡◌, ◌<◌, ◌≤◌, ◌+◌, ◌&&◌, not, length, true, false, if◌then◌else◌, OnOk, OnErr};
ghost use Rattle.wire_base.specs.model.Control.{entry_in, put_entry, age_of, is_full, is_unknown, is_newer_or_confused, purge};
ghost use Rattle.wire_base.specs.model.Flooding.{mark_all, pass_on, kept, on_lsp, lsp_aged, stores, only_says, puts_marked, is_own_ahead, is_unheld_own};
ghost use Rattle.wire_base.specs.declared.entry.Age.TheVariants.{Unknown};
ghost use Rattle.wire_base.specs.declared.flood_out.FloodOut.TheVariants as out;
ghost use Rattle.wire_base.specs.model.Pdu.{head_summary};
ghost use Rattle.lsp_store.specs.Places.{is_refused, is_new};
ghost use Rattle.isis_pdu.specs.Views.{head_of};
ghost use Rattle.isis_flood.specs.Answers.{LspDone};
ghost use Rattle.isis_flood.specs.Kept.{NotLowered};

use crate::action::LspAction;
use crate::flood::Flood;
use isis_pdu::LspHead;
use lsp_store::{Store, is_same_id, purge};
use wire_base::limits::MOST_ENTRIES;
use wire_base::{Age, Entry, LspId, M, Memory};

/// Stores an entry that the LSDB has room for. `guess` is a guess of its index.
fn put_into(store: &mut Store, e: Entry, guess: usize) -> M<()>
    requires { is_refused store.old.entries e.id ≡ false }
    ensures ok { OnOk result (store.new.entries ≡ put_entry e store.old.entries) }
    ensures err { OnErr result (store.new.entries ≡ store.old.entries) }
{
    match store.put_near(e, guess) {
        Ok(()) => Ok(()),
        Err(_) => Err(Memory),
    }
}

/// Returns whether an LSDB has no room for a new LSP ID.
pub(crate) fn is_full(store: &Store) -> bool
    ensures { result ≡ is_full store.now.entries }
{
    store.len() >= MOST_ENTRIES
}

fn is_unknown(age: Age) -> bool
    ensures { result ≡ is_unknown age }
{
    match age {
        Age::Unknown => true,
        Age::Newer | Age::Equal | Age::Older | Age::Confused => false,
    }
}

/// Returns whether the LSP is newer than the entry, or in LSP confusion with it.
fn is_newer_or_confused(age: Age) -> bool
    ensures { result ≡ is_newer_or_confused age }
{
    match age {
        Age::Newer | Age::Confused => true,
        Age::Unknown | Age::Equal | Age::Older => false,
    }
}

impl Flood {
    /// Stores an entry, and sets its SRM flag for all links that are up.
    pub(crate) fn put_marked(&mut self, store: &mut Store, e: Entry) -> M<()>
        requires { is_refused store.old.entries e.id ≡ false }
        ensures ok { OnOk result ((self.new.flood ≡ mark_all self.old.flood e.id) × (store.new.entries ≡ put_entry e store.old.entries)) }
        ensures err { OnErr result ((self.new.flood ≡ self.old.flood) × (store.new.entries ≡ store.old.entries)) }
        ensures spare { self.old.spare ≤ self.new.spare + 1 }
    {
        let id = e.id;
        self.reserve(1)?;
        let guess = self.place_of(&id);
        put_into(store, e, guess)?;
        self.mark_all(id)
    }

    /// Stores an entry that was received on a link, and floods it further.
    fn put_passed(&mut self, store: &mut Store, link: u16, e: Entry, guess: usize) -> M<()>
        requires link { link < length self.old.flood.up }
        requires room { is_refused store.old.entries e.id ≡ false }
        ensures ok { OnOk result ((self.new.flood ≡ pass_on self.old.flood e.id link) × (store.new.entries ≡ put_entry e store.old.entries)) }
        ensures err { OnErr result ((self.new.flood ≡ self.old.flood) × (store.new.entries ≡ store.old.entries)) }
        ensures spare { self.old.spare ≤ self.new.spare + 1 }
    {
        let id = e.id;
        self.reserve(1)?;
        put_into(store, e, guess)?;
        self.pass(id, link, guess)
    }

    /// Returns whether this is the router's own fragment 0, ahead of the one that the router originated.
    pub(crate) fn is_own_ahead(&self, id: &LspId, spent: bool, age: Age) -> bool
        ensures { result ≡ is_own_ahead self.now.flood id.now spent age }
    {
        // Tests the comparison first, since most LSPs are not newer.
        if spent || !is_newer_or_confused(age) {
            return false;
        }
        is_same_id(*id, LspId::fragment_0(self.own()))
    }

    /// Returns whether this is a live self-originated LSP that the router does not hold.
    fn is_unheld_own(&self, head: &LspHead, age: Age) -> bool
        ensures { result ≡ is_unheld_own self.now.flood (head_of head.now) age }
    {
        if head.life == 0 || !(is_unknown(age) || is_newer_or_confused(age)) {
            return false;
        }
        head.id.system == self.own()
    }

    /// Purges a self-originated LSP that the router does not hold, on all links.
    fn on_stray(&mut self, store: &mut Store, head: &LspHead, age: Age) -> M<LspAction>
        requires { age ≡ age_of (entry_in store.old.entries head.now.id) (head_summary (head_of head.now)) }
        ensures done { LspDone (head_of head.now) result self.old.flood store.old.entries self.new.flood store.new.entries
            (if is_unknown age && is_full store.old.entries then only_says self.old.flood store.old.entries out.Full else puts_marked self.old.flood store.old.entries (purge head.now.id head.now.seq)) }
        ensures spare { self.old.spare ≤ self.new.spare + 1 }
    {
        if is_unknown(age) && is_full(store) {
            return Ok(LspAction::Full);
        }
        let gone = purge(head.id, head.seq);
        self.put_marked(store, gone)?;
        Ok(LspAction::Kept)
    }

    /// Stores an LSP and floods it further.
    fn keep(
        &mut self,
        store: &mut Store,
        link: u16,
        head: &LspHead,
        tlvs: &[u8],
        guess: usize,
    ) -> M<LspAction>
        requires link { link < length self.old.flood.up }
        requires room { is_refused store.old.entries head.now.id ≡ false }
        ensures done { LspDone (head_of head.now) result self.old.flood store.old.entries self.new.flood store.new.entries (stores self.old.flood store.old.entries link (kept (head_of head.now) tlvs.now)) }
        ensures spare { self.old.spare ≤ self.new.spare + 1 }
    {
        let entry = store.received(&head.summary(), head.flags, tlvs)?;
        self.put_passed(store, link, entry, guess)?;
        Ok(LspAction::Kept)
    }

    /// Handles an unknown LSP: an expired one is acknowledged at once, a live one is stored if there is room.
    fn on_unknown(
        &mut self,
        store: &mut Store,
        link: u16,
        head: &LspHead,
        tlvs: &[u8],
        guess: usize,
    ) -> M<LspAction>
        requires link { link < length self.old.flood.up }
        ensures done { LspDone (head_of head.now) result self.old.flood store.old.entries self.new.flood store.new.entries (lsp_aged self.old.flood store.old.entries link (head_of head.now) tlvs.now Unknown) }
        ensures spare { self.old.spare ≤ self.new.spare + 1 }
    {
        if head.life == 0 {
            return Ok(LspAction::Ack);
        }
        if is_full(store) {
            return Ok(LspAction::Full);
        }
        self.keep(store, link, head, tlvs, guess)
    }

    /// Handles an LSP by the comparison, except for the router's own LSPs. `guess` is a guess of the index of row and entry.
    fn on_aged(
        &mut self,
        store: &mut Store,
        link: u16,
        head: &LspHead,
        tlvs: &[u8],
        age: Age,
        guess: usize,
    ) -> M<LspAction>
        requires link { link < length self.old.flood.up }
        requires age { age ≡ age_of (entry_in store.old.entries head.now.id) (head_summary (head_of head.now)) }
        ensures done { LspDone (head_of head.now) result self.old.flood store.old.entries self.new.flood store.new.entries (lsp_aged self.old.flood store.old.entries link (head_of head.now) tlvs.now age) }
        ensures spare { self.old.spare ≤ self.new.spare + 1 }
    {
        match age {
            Age::Unknown => self.on_unknown(store, link, head, tlvs, guess),
            Age::Newer => self.keep(store, link, head, tlvs, guess),
            Age::Confused => {
                let gone = purge(head.id, head.seq);
                self.put_marked(store, gone)?;
                Ok(LspAction::Kept)
            }
            Age::Equal => {
                self.ask(head.id, link, guess)?;
                Ok(LspAction::Kept)
            }
            Age::Older => {
                self.resend(head.id, link, guess)?;
                Ok(LspAction::Kept)
            }
        }
    }

    /// Processes an LSP that was received on a link. `spent` means that the router originates no LSP of its own.
    ///
    /// Returns what the router must do in addition: originate its own LSP again, acknowledge this one at once, or drop it,
    /// because the LSDB is full or its sequence number is 0 (ISO/IEC 10589, 7.3.15.1 and 7.3.16). If an allocation fails,
    /// nothing has changed.
    pub fn on_lsp(
        &mut self,
        store: &mut Store,
        link: u16,
        head: &LspHead,
        tlvs: &[u8],
        spent: bool,
    ) -> M<LspAction>
        requires { link < length self.old.flood.up }
        ensures done { LspDone (head_of head.now) result self.old.flood store.old.entries self.new.flood store.new.entries (on_lsp self.old.flood store.old.entries link (head_of head.now) tlvs.now spent) }
        ensures kept { NotLowered store.old.entries store.new.entries }
        ensures spare { self.old.spare ≤ self.new.spare + 1 }
        ensures links { length self.new.flood.up ≡ length self.old.flood.up }
    {
        self.apply_lsp(store, link, head, tlvs, spent)
    }

    /// Applies the rules for an LSP; the first that applies decides.
    #[tactic(auto, unfolding(wire_base::specs::model::Flooding::on_lsp))]
    fn apply_lsp(
        &mut self,
        store: &mut Store,
        link: u16,
        head: &LspHead,
        tlvs: &[u8],
        spent: bool,
    ) -> M<LspAction>
        requires { link < length self.old.flood.up }
        ensures done { LspDone (head_of head.now) result self.old.flood store.old.entries self.new.flood store.new.entries (on_lsp self.old.flood store.old.entries link (head_of head.now) tlvs.now spent) }
        ensures spare { self.old.spare ≤ self.new.spare + 1 }
    {
        if head.seq == 0 {
            return Ok(LspAction::Zero);
        }
        // Rows and entries mostly have the same indices, so one search finds both.
        let guess = self.place_of(&head.id);
        let age = store.compare_near(&head.summary(), guess);
        if self.is_own_ahead(&head.id, spent, age) {
            return Ok(LspAction::Reissue);
        }
        if self.is_unheld_own(head, age) {
            return self.on_stray(store, head, age);
        }
        self.on_aged(store, link, head, tlvs, age, guess)
    }
}
