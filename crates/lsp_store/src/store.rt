ghost use Rattle.std.specs.Prelude.{◌≡◌, ◌≤◌, ◌<◌, ◌+◌, ◌-◌, [], length, map, slice_get, option_map, Some, true, false, OnOk, OnErr, IfOk, IfErr, IfSome};
ghost use Rattle.wire_base.specs.model.Control.{IsDatabase, ids_of, entry_in, put_entry, age_of, seq_of};
ghost use Rattle.wire_base.specs.model.Flooding.{kept};
ghost use Rattle.wire_base.specs.model.View.{nodes_of};
ghost use Rattle.wire_base.specs.declared.faults.PutFault.TheVariants.{Memory};
ghost use Rattle.lsp_store.specs.Places.{IsPlace, is_new, place_in, stands_at, PutAnswers, IsSecondAt};
ghost use Rattle.lsp_store.specs.Topologies.{seen_claims};

use crate::ages::age_beside;
use crate::contents::Contents;
use crate::entries::{live, purge};
use crate::entry_list::EntryList;
use crate::places::{LspIds, is_gap, place_of, stands_at};
use crate::seconds::is_removed;
use std::alloc::Global;
use std::marker::Model;
use std::rc::Rc;
use wire_base::limits::MOST_ENTRIES;
use wire_base::{Age, Aged, Content, Entry, LspId, M, PutFault, Rows, SubKind, Summary, View};

/// An LSDB: at most `MOST_ENTRIES` entries in the order of their LSP IDs, no LSP ID twice. Contracts model it as these entries, and
/// the number of new entries for which memory is already allocated.
#[derive(Drop)]
pub struct Store {
    list: EntryList,
    /// Where the contents of received LSPs and the topology are stored, if not by this LSDB and its router alone.
    contents: Option<Contents>,
}

impl Model for Store {
    ghost use Rattle.wire_base.specs.model.Control.{IsDatabase};
    ghost use Rattle.lsp_store.specs.Views.{Stored};

    ghost Value = { Stored };

    ghost view = { λ s. s.list };

    ghost invariant = { λ s. IsDatabase s.list.entries };
}

impl LspIds for Store {
    ghost ids = { λ s. ids_of s.entries };

    fn count(&self) -> usize {
        self.list.count()
    }

    fn id_at(&self, i: usize) -> LspId {
        self.list.id_at(i)
    }
}

/// Returns the index as Ok if the LSP ID has an entry there, and as Err otherwise.
fn found_at(list: &EntryList, place: usize, id: &LspId) -> Result<usize, usize>
    requires { place ≡ place_in (ids_of list.now.entries) id.now }
    ensures there { IfOk result (λ place. IsPlace list.now.entries id.now true place) }
    ensures gone { IfErr result (λ place. IsPlace list.now.entries id.now false place) }
{
    if stands_at(list, place, id) {
        Ok(place)
    } else {
        Err(place)
    }
}

/// Compares a summary with an entry, if there is one.
fn age_of(entry: Option<&Entry>, s: &Summary) -> Age
    ensures { result ≡ age_of (option_map (λ e. e.now) entry.entry) s.now }
{
    match entry {
        None => Age::Unknown,
        Some(entry) => age_beside(entry, s),
    }
}

impl Store {
    /// Creates an empty LSDB.
    pub fn new(alloc: Global) -> Store
        ensures { result.entries ≡ [] }
    {
        Store {
            list: EntryList::new(alloc),
            contents: None,
        }
    }

    /// Has the contents of LSPs that are received from now on stored once for all LSDBs with these `Contents`, and topologies that
    /// are computed from now on once for all routers with these LSDBs.
    pub fn share_contents(&mut self, contents: Contents)
        ensures { self.new ≡ self.old }
    {
        self.contents = Some(contents);
    }

    /// Replaces the entries by those of another LSDB. Contents are shared as before.
    pub fn replace_entries(&mut self, by: Store)
        ensures { self.new ≡ by }
    {
        self.list = by.list;
    }

    /// Returns the entry of a received LSP, as `entries::received` does.
    pub fn received(&self, s: &Summary, flags: u8, tlvs: &[u8]) -> M<Entry>
        ensures entry { IfOk result (λ e. e ≡ kept (record { life = s.now.life; id = s.now.id; seq = s.now.seq; sum = s.now.sum; flags = flags }) tlvs.now) }
        ensures id { IfOk result (λ e. e.id ≡ s.now.id) }
    {
        if s.life == 0 {
            return Ok(purge(s.id, s.seq));
        }
        Ok(live(s, flags, self.content(&s.id, tlvs)?))
    }

    /// Returns the content of a received LSP.
    fn content(&self, id: &LspId, tlvs: &[u8]) -> M<Content>
        ensures { IfOk result (λ content. content ≡ tlvs.now) }
    {
        match &self.contents {
            None => Content::from_slice(self.allocator(), tlvs),
            Some(contents) => contents.content(self.allocator(), id, tlvs),
        }
    }

    /// Returns whether topologies are shared with other LSDBs.
    pub fn shares_views(&self) -> bool {
        self.contents.is_some()
    }

    /// Returns the topology of this LSDB for those kinds of sub-domains, if it was noted last among the LSDBs with the same `Contents`,
    /// for this LSDB or for one that differs at most in sequence numbers, checksums and lifetimes of live LSPs.
    pub fn known_view(&self, kinds: &[SubKind]) -> M<Option<Rc<View>>>
        ensures { IfOk result (λ found. IfSome found (λ v. v.value.nodes ≡ nodes_of (seen_claims kinds.now self.now.entries))) }
    {
        match &self.contents {
            None => Ok(None),
            Some(contents) => contents.topologies().known(kinds, &self.list),
        }
    }

    /// Notes a topology of this LSDB for those kinds of sub-domains, in place of the one that was noted before. Does nothing if
    /// topologies are not shared. Errors if an allocation fails.
    pub fn note_view(&self, kinds: &Rows<SubKind>, shared: &Rc<View>) -> M<()>
        requires { shared.now.value.nodes ≡ nodes_of (seen_claims kinds.now self.now.entries) }
    {
        match &self.contents {
            None => Ok(()),
            Some(contents) => {
                let topologies = contents.topologies();
                topologies.note(self.allocator(), kinds, &self.list, shared)
            }
        }
    }

    /// Returns the number of entries.
    pub fn len(&self) -> usize
        ensures len { result ≡ length self.now.entries }
        ensures database { IsDatabase self.now.entries }
    {
        self.list.len()
    }

    /// Returns the allocator of the LSDB.
    pub fn allocator(&self) -> Global {
        self.list.allocator()
    }

    /// Returns the entry at index `i`.
    pub fn at(&self, i: usize) -> &Entry
        requires { i < length self.now.entries }
        ensures { slice_get self.now.entries i ≡ Some result.now }
    {
        self.list.at(i)
    }

    /// Returns the entry of an LSP ID. None exactly where there is none.
    pub fn get(&self, id: &LspId) -> Option<&Entry>
        ensures { option_map (λ e. e.now) result ≡ entry_in self.now.entries id.now }
    {
        match self.find(id) {
            Ok(place) => Some(self.list.at(place)),
            Err(_) => None,
        }
    }

    /// Like `get`, with a guess of the index. If the guess is right, there is no search.
    pub fn get_near(&self, id: &LspId, guess: usize) -> Option<&Entry>
        ensures { option_map (λ e. e.now) result ≡ entry_in self.now.entries id.now }
    {
        match self.find_near(id, guess) {
            Ok(place) => Some(self.list.at(place)),
            Err(_) => None,
        }
    }

    /// Finds an LSP ID: its index as Ok, or the index to insert it at as Err.
    fn find(&self, id: &LspId) -> Result<usize, usize>
        ensures there { IfOk result (λ place. IsPlace self.now.entries id.now true place) }
        ensures gone { IfErr result (λ place. IsPlace self.now.entries id.now false place) }
    {
        found_at(&self.list, place_of(&self.list, id), id)
    }

    /// Like `find`, with a guess of the index. A right guess is tested once, and there is no search. It is inlined, since most
    /// guesses are right.
    #[inline(always)]
    #[tactic(auto, using(crate::proofs::PlaceLaws::stands_placed))]
    fn find_near(&self, id: &LspId, guess: usize) -> Result<usize, usize>
        ensures there { IfOk result (λ place. IsPlace self.now.entries id.now true place) }
        ensures gone { IfErr result (λ place. IsPlace self.now.entries id.now false place) }
    {
        if stands_at(&self.list, guess, id) {
            return Ok(guess);
        }
        self.find_beside(id, guess)
    }

    /// Finds an LSP ID that is not at the guessed index: it has no entry if the guess is the index to insert it at.
    #[inline(never)]
    fn find_beside(&self, id: &LspId, guess: usize) -> Result<usize, usize>
        requires { stands_at (ids_of self.now.entries) guess id.now ≡ false }
        ensures there { IfOk result (λ place. IsPlace self.now.entries id.now true place) }
        ensures gone { IfErr result (λ place. IsPlace self.now.entries id.now false place) }
    {
        if is_gap(&self.list, id, guess) {
            return Err(guess);
        }
        self.find(id)
    }

    /// Returns the sequence number of an LSP ID's entry; 0 if there is none.
    pub fn seq_of(&self, id: &LspId) -> u32
        ensures { result ≡ seq_of (entry_in self.now.entries id.now) }
    {
        match self.get(id) {
            None => 0,
            Some(entry) => entry.seq,
        }
    }

    /// Compares a summary with the entry of its LSP ID (ISO/IEC 10589, 7.3.16.2).
    pub fn compare(&self, s: &Summary) -> Age
        ensures { result ≡ age_of (entry_in self.now.entries s.now.id) s.now }
    {
        age_of(self.get(&s.id), s)
    }

    /// Like `compare`, with a guess of the index. If the guess is right, there is no search.
    pub fn compare_near(&self, s: &Summary, guess: usize) -> Age
        ensures { result ≡ age_of (entry_in self.now.entries s.now.id) s.now }
    {
        age_of(self.get_near(&s.id, guess), s)
    }

    /// Adds an entry, or replaces the one with its LSP ID. Returns Full if the LSP ID is new and there are `MOST_ENTRIES` entries.
    /// Replacing an entry always succeeds and does not allocate.
    pub fn put(&mut self, e: Entry) -> Result<(), PutFault>
        ensures ok { OnOk result (self.new.entries ≡ put_entry e self.old.entries) }
        ensures err { OnErr result (self.new.entries ≡ self.old.entries) }
        ensures answers { PutAnswers self.old.entries self.old.spare e.id result }
        // A new LSP ID uses at most one spare slot, and a known one uses none.
        ensures spare { self.old.spare ≤ self.new.spare + 1 }
        ensures kept { is_new self.old.entries e.id ≡ false → self.old.spare ≤ self.new.spare }
        ensures database { IsDatabase self.new.entries }
    {
        // An entry that comes in order is appended.
        let end = self.list.len();
        self.put_near(e, end)
    }

    /// Like `put`, with a guess of the index. If the guess is right, there is no search.
    pub fn put_near(&mut self, e: Entry, guess: usize) -> Result<(), PutFault>
        ensures ok { OnOk result (self.new.entries ≡ put_entry e self.old.entries) }
        ensures err { OnErr result (self.new.entries ≡ self.old.entries) }
        ensures answers { PutAnswers self.old.entries self.old.spare e.id result }
        ensures spare { self.old.spare ≤ self.new.spare + 1 }
        ensures kept { is_new self.old.entries e.id ≡ false → self.old.spare ≤ self.new.spare }
        ensures database { IsDatabase self.new.entries }
    {
        match self.find_near(&e.id, guess) {
            Ok(place) => {
                self.list.put(place, e);
                Ok(())
            }
            Err(place) => self.add(place, e),
        }
    }

    /// Allocates memory for that many new entries.
    pub fn reserve(&mut self, n: usize) -> M<()>
        ensures entries { self.new.entries ≡ self.old.entries }
        ensures ok { OnOk result (n ≤ self.new.spare) }
        ensures spare { self.old.spare ≤ self.new.spare }
    {
        self.list.reserve(n)
    }

    /// Ages the entry at index `i` by one second. A live one loses a second of its lifetime, and becomes a purge at 0. A purge
    /// loses a second of its hold time, and is removed at 0 (ISO/IEC 10589, 7.3.16.3 and 7.3.16.4).
    pub fn age_at(&mut self, i: usize) -> Aged
        requires { i < length self.old.entries }
        ensures second { IfSome (slice_get self.old.entries i) (λ e. IsSecondAt self.old.entries i e result self.new.entries) }
        ensures spare { self.old.spare ≤ self.new.spare }
        ensures database { IsDatabase self.new.entries }
    {
        let answer = self.list.pass_second(i);
        if is_removed(answer) {
            self.list.remove(i);
        }
        answer
    }

    /// Inserts an entry at an index, if there is room.
    fn add(&mut self, place: usize, e: Entry) -> Result<(), PutFault>
        requires { IsPlace self.old.entries e.id false place }
        ensures ok { OnOk result (self.new.entries ≡ put_entry e self.old.entries) }
        ensures err { OnErr result (self.new.entries ≡ self.old.entries) }
        ensures answers { PutAnswers self.old.entries self.old.spare e.id result }
        ensures spare { self.old.spare ≤ self.new.spare + 1 }
        ensures new { is_new self.old.entries e.id ≡ true }
        ensures database { IsDatabase self.new.entries }
    {
        if self.list.len() >= MOST_ENTRIES {
            return Err(PutFault::Full(self.list.len()));
        }
        match self.list.insert(place, e) {
            Ok(()) => Ok(()),
            Err(_) => Err(PutFault::Memory),
        }
    }
}
