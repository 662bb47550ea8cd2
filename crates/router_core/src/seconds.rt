//! The passing of a second (ISO/IEC 10589, 7.3.16.3 and 7.3.16.4).
ghost use Rattle.std.specs.Prelude.{◌≡◌, ◌+◌, ◌<◌, ◌≤◌, ◌++◌, false, length, take, drop, fold, slice_get, option_to_list, IfSome, OnOk, OnErr};
ghost use Rattle.std.specs.List.{filter_map};
ghost use Rattle.wire_base.specs.model.Control.{IsDatabase, after_second, entry_in, put_entry};
ghost use Rattle.wire_base.specs.model.Flooding.{flags_aged, flood_aged, mark_all, tick};
ghost use Rattle.lsp_store.specs.Places.{is_refused};
ghost use Rattle.router_core.specs.Aging.{IsOneAged, count_left, is_near};

use crate::control::Control;
use crate::own::{issue_within, own_now, spent_past};
use isis_flood::Flood;
use lsp_store::Store;
use wire_base::limits::{MOST_ENTRIES, REFRESH_LIFE};
use wire_base::{Aged, Entry, LspId, M};

/// Updates the flags of an entry after a second. An entry that expires is to be sent on all links that are up, and an
/// entry that is removed loses its flags.
fn flag_aged(flood: &mut Flood, id: LspId, answer: Aged)
    requires { 1 ≤ flood.old.spare }
    ensures flags { flood.new.flood ≡ flags_aged flood.old.flood id answer }
    ensures spare { flood.old.spare ≤ flood.new.spare + 1 }
{
    match answer {
        Aged::Live | Aged::Held => (),
        Aged::Expired => flood.mark_all(id).unwrap(),
        Aged::Removed => flood.forget(id),
    }
}

/// Returns the index of the entry that follows one that has aged.
fn next_place(place: usize, answer: Aged) -> usize
    requires { place < MOST_ENTRIES }
    ensures { result ≡ place + count_left answer }
{
    match answer {
        Aged::Live | Aged::Held | Aged::Expired => place + 1,
        Aged::Removed => place,
    }
}

/// Ages the entry at an index by a second, and returns the index of the next one.
fn age_one(store: &mut Store, flood: &mut Flood, place: usize) -> usize
    requires place { place < length store.old.entries }
    requires flags { 1 ≤ flood.old.spare }
    ensures one { IfSome (slice_get store.old.entries place) (λ e. IsOneAged store.old.entries place e flood.old.flood store.new.entries flood.new.flood result) }
    ensures spare { flood.old.spare ≤ flood.new.spare + 1 }
    ensures entries { store.old.spare ≤ store.new.spare }
    ensures database { IsDatabase store.new.entries }
{
    let _few = store.len();
    let id = store.at(place).id;
    let answer = store.age_at(place);
    flag_aged(flood, id, answer);
    next_place(place, answer)
}

/// Ages each entry by a second, in order.
fn age_all(store: &mut Store, flood: &mut Flood)
    requires { length store.old.entries ≤ flood.old.spare }
    ensures flood { flood.new.flood ≡ fold flood_aged flood.old.flood store.old.entries }
    ensures entries { store.new.entries ≡ filter_map after_second store.old.entries }
    ensures spare { flood.old.spare ≤ flood.new.spare + length store.old.entries }
    ensures room { store.old.spare ≤ store.new.spare }
    ensures database { IsDatabase store.new.entries }
{
    let mut place = 0;
    'entries: while place < store.len() {
        place = age_one(store, flood, place);
    }
}

/// Ages each entry by a second. If an allocation fails, nothing has changed.
fn age(store: &mut Store, flood: &mut Flood) -> M<()>
    ensures ok { OnOk result ((flood.new.flood ≡ fold flood_aged flood.old.flood store.old.entries) × (store.new.entries ≡ filter_map after_second store.old.entries)) }
    ensures err { OnErr result ((flood.new.flood ≡ flood.old.flood) × (store.new.entries ≡ store.old.entries)) }
    ensures database { OnOk result (IsDatabase store.new.entries) }
{
    flood.reserve(store.len())?;
    age_all(store, flood);
    Ok(())
}

/// Ages each entry by a second, and then originates the own LSP. If an allocation fails, nothing has changed.
fn age_issuing(store: &mut Store, flood: &mut Flood, own: Entry) -> M<()>
    requires { is_refused (filter_map after_second store.old.entries) own.id ≡ false }
    ensures ok { OnOk result ((flood.new.flood ≡ mark_all (fold flood_aged flood.old.flood store.old.entries) own.id) × (store.new.entries ≡ put_entry own (filter_map after_second store.old.entries))) }
    ensures err { OnErr result ((flood.new.flood ≡ flood.old.flood) × (store.new.entries ≡ store.old.entries)) }
    ensures database { OnOk result (IsDatabase store.new.entries) }
{
    store.reserve(1)?;
    flood.reserve(store.len() + 1)?;
    age_all(store, flood);
    issue_within(store, flood, own);
    Ok(())
}

/// Returns whether an entry is to be refreshed after the next second.
fn is_near(store: &Store, id: &LspId) -> bool
    ensures { result ≡ is_near (entry_in store.now.entries id.now) }
{
    match store.get(id) {
        None => false,
        Some(entry) => entry.life == REFRESH_LIFE + 1,
    }
}

impl Control {
    /// Lets one second pass. If an allocation fails, nothing has changed.
    pub(crate) fn tick(&mut self) -> M<()>
        ensures ok { OnOk result (self.new ≡ (tick self.old).control) }
        ensures err { OnErr result (self.new ≡ self.old) }
    {
        let id = LspId::fragment_0(self.conf.system);
        if !is_near(&self.store, &id) {
            age(&mut self.store, &mut self.flood)?;
            return Ok(());
        }
        let seq = self.store.seq_of(&id);
        let own = own_now(self.allocator(), &self.conf, &self.flood, seq)?;
        age_issuing(&mut self.store, &mut self.flood, own)?;
        self.spent = spent_past(self.spent, seq);
        Ok(())
    }
}
