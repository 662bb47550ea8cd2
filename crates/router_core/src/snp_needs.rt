//! What a list of entries will require, computed and prepared before anything changes (ISO/IEC 10589, 7.3.15.2). So a
//! sequence numbers PDU that runs out of memory leaves the router unchanged.
ghost use Rattle.std.specs.Prelude.{◌≡◌, ◌≤◌, ◌<◌, ◌+◌, ◌^◌, false, length, map, replicate, option_map, IfOk, IfSome, OnOk};
ghost use Rattle.std.specs.List.{list_any};
ghost use Rattle.wire_base.specs.declared.cause.Cause.TheVariants as cause;
ghost use Rattle.wire_base.specs.model.Control.{IsDatabase, same_id};
ghost use Rattle.lsp_store.specs.Places.{is_new};
ghost use Rattle.router_core.specs.SnpNeeds.{is_confused, is_confusing, is_at_odds, past_asked, spent_if, flags_issued, entries_issued, is_wanted, looked, count_full, IsReady};
ghost use Rattle.router_core.specs.Own.{own_past};
ghost use Rattle.router_core.specs.Received.{full_drop};

use crate::control::Control;
use crate::own::{issue_within, own_now, spent_past};
use bier_forward::DropNote;
use isis_flood::Flood;
use lsp_store::{Store, is_same_id};
use std::alloc::Global;
use wire_base::limits::MOST_ENTRIES;
use wire_base::{Age, Cause, Entry, LspId, M, Rows, Summary};

/// What is prepared for a list of entries.
#[derive(Drop)]
pub(crate) struct Ready {
    /// The own LSP, if it is to be originated again.
    pub(crate) own: Option<Entry>,
    /// Whether the sequence number space is exhausted then.
    pub(crate) spent: bool,
    /// One drop for each entry that does not fit the LSDB.
    pub(crate) drops: Rows<DropNote>,
}

/// The LSP IDs that a list makes the LSDB wait for, and how many of its entries do not fit.
#[derive(Drop)]
pub(crate) struct Look {
    added: Rows<LspId>,
    full: usize,
}

fn is_confused(age: Age) -> bool
    ensures { result ≡ is_confused age }
{
    match age {
        Age::Confused => true,
        Age::Unknown | Age::Newer | Age::Equal | Age::Older => false,
    }
}

/// Returns whether a listed entry is in LSP confusion with the LSDB's entry of the same LSP ID.
fn is_confusing(store: &Store, s: &Summary) -> bool
    ensures { result ≡ is_confusing store.now.entries s.now }
{
    is_confused(store.compare(s))
}

/// Returns whether any entry of a list is in LSP confusion with the LSDB.
pub(crate) fn any_confusing(store: &Store, rows: &[Summary]) -> bool
    ensures { result ≡ list_any (is_confusing store.now.entries) rows.now }
{
    rows.iter().any(|s| is_confusing(store, s))
}

/// Returns whether a listed entry has this LSP ID and is in LSP confusion with the LSDB's.
fn is_at_odds(store: &Store, id: &LspId, s: &Summary) -> bool
    ensures { result ≡ is_at_odds store.now.entries id.now s.now }
{
    is_same_id(s.id, *id) && is_confused(store.compare(s))
}

fn any_at_odds(store: &Store, id: &LspId, rows: &[Summary]) -> bool
    ensures { result ≡ list_any (is_at_odds store.now.entries id.now) rows.now }
{
    rows.iter().any(|s| is_at_odds(store, id, s))
}

/// Returns the sequence number after which a list requires the own LSP to be originated again, if it requires that.
fn past_asked(store: &Store, own: &LspId, rows: &[Summary], spent: bool) -> Option<u32>
    ensures { result ≡ past_asked spent store.now.entries own.now rows.now }
{
    if !spent && any_at_odds(store, own, rows) {
        return Some(store.seq_of(own));
    }
    None
}

/// Returns whether the sequence number space is exhausted once the own LSP is originated after a sequence number, if a
/// list requires that.
fn spent_if(spent: bool, past: Option<u32>) -> bool
    ensures { result ≡ spent_if spent past }
{
    match past {
        None => spent,
        Some(seq) => spent_past(spent, seq),
    }
}

fn is_new(store: &Store, id: &LspId) -> bool
    ensures { result ≡ is_new store.now.entries id.now }
{
    store.get(id).is_none()
}

fn has_id(ids: &[LspId], id: &LspId) -> bool
    ensures { result ≡ list_any (λ i. same_id i id.now) ids.now }
{
    ids.iter().any(|i| i == id)
}

/// Returns whether the LSDB is to wait for a listed entry, besides those that it already waits for.
fn is_wanted(store: &Store, added: &[LspId], s: &Summary) -> bool
    ensures { result ≡ is_wanted store.now.entries added.now s.now }
{
    s.is_live() && is_new(store, &s.id) && !has_id(added, &s.id)
}

/// Handles one entry of a list.
#[tactic(auto, unfolding(crate::specs::SnpNeeds::looked))]
fn look_at(store: &Store, look: &mut Look, s: &Summary) -> M<()>
    requires { look.old.full + 1 < 2 ^ 64 }
    ensures next { OnOk result (look.new ≡ looked store.now.entries look.old s.now) }
    ensures few { OnOk result (look.new.full ≤ look.old.full + 1) }
{
    if !is_wanted(store, look.added.as_slice(), s) {
        return Ok(());
    }
    if store.len() + look.added.len() >= MOST_ENTRIES {
        look.full += 1;
        return Ok(());
    }
    look.added.push(s.id)
}

/// Returns how many entries of a list do not fit the LSDB. The list is read only if it can fill the LSDB.
#[tactic(auto, unfolding(crate::specs::SnpNeeds::count_full))]
fn count_full(store: &Store, rows: &[Summary]) -> M<usize>
    ensures { IfOk result (λ full. full ≡ count_full store.now.entries rows.now) }
{
    if store.len() + rows.len() <= MOST_ENTRIES {
        return Ok(0);
    }
    let mut look = Look {
        added: Rows::new(store.allocator()),
        full: 0,
    };
    for s in rows {
        look_at(store, &mut look, s)?;
    }
    Ok(look.full)
}

/// Returns one drop for each entry that does not fit. If there are none, nothing is prepared.
fn full_drops(alloc: Global, full: usize) -> M<Rows<DropNote>>
    ensures { IfOk result (λ drops. drops ≡ map full_drop (replicate full cause.Full)) }
{
    if full == 0 {
        return Ok(Rows::new(alloc));
    }
    repeated_drops(alloc, full)
}

fn repeated_drops(alloc: Global, full: usize) -> M<Rows<DropNote>>
    ensures { IfOk result (λ drops. drops ≡ map full_drop (replicate full cause.Full)) }
{
    let mut drops = Rows::new(alloc);
    'drops: while drops.len() < full {
        drops.push(DropNote {
            cause: Cause::Full,
            sets: None,
        })?;
    }
    Ok(drops)
}

/// Originates the own LSP that was prepared, if one was. Does not allocate.
pub(crate) fn issue_ready(store: &mut Store, flood: &mut Flood, own: Option<Entry>)
    requires known { IfSome own (λ e. is_new store.old.entries e.id ≡ false) }
    requires flags { 1 ≤ flood.old.spare }
    ensures flood { flood.new.flood ≡ flags_issued own flood.old.flood }
    ensures entries { store.new.entries ≡ entries_issued own store.old.entries }
    ensures database { IsDatabase store.new.entries }
{
    let _entries = store.len();
    match own {
        None => (),
        Some(own) => issue_within(store, flood, own),
    }
}

impl Control {
    /// Returns the own LSP after a sequence number, if a list requires one.
    fn own_asked(&self, past: Option<u32>) -> M<Option<Entry>>
        ensures { IfOk result (λ own. own ≡ option_map (own_past self.now.conf self.now.flood.up) past) }
    {
        match past {
            None => Ok(None),
            Some(seq) => {
                let own = own_now(self.allocator(), &self.conf, &self.flood, seq)?;
                Ok(Some(own))
            }
        }
    }

    /// Prepares all that a list of entries requires.
    pub(crate) fn ready(&self, rows: &[Summary]) -> M<Ready>
        ensures { IfOk result (λ r. IsReady self.now rows.now r) }
    {
        let own = LspId::fragment_0(self.conf.system);
        let past = past_asked(&self.store, &own, rows, self.spent);
        let full = count_full(&self.store, rows)?;
        Ok(Ready {
            own: self.own_asked(past)?,
            spent: spent_if(self.spent, past),
            drops: full_drops(self.allocator(), full)?,
        })
    }
}
