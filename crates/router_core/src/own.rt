//! The router's own LSP (ISO/IEC 10589, 7.3.6 and 7.3.16.1).
ghost use Rattle.std.specs.Prelude.{◌≡◌, ◌<◌, ◌≤◌, true, false, length, slice_set, IfOk, OnOk, OnErr};
ghost use Rattle.wire_base.specs.model.Configuration.{IsSound};
ghost use Rattle.wire_base.specs.model.Control.{IsDatabase, put_entry};
ghost use Rattle.wire_base.specs.model.Flooding.{mark_all, reissue};
ghost use Rattle.lsp_store.specs.Places.{is_new, is_refused};
ghost use Rattle.router_core.specs.Own.{own_past, spent_past};

use crate::control::Control;
use isis_flood::Flood;
use lsp_origin::originate;
use lsp_store::{Store, purge};
use std::alloc::Global;
use wire_base::{Entry, LspId, M, RouterConf};

/// The last sequence number, after which the sequence number space is exhausted.
const LAST_SEQUENCE: u32 = u32::MAX;

/// Returns the own LSP with the sequence number after `seq`. After the last sequence number, returns its purge.
#[tactic(auto, unfolding(crate::specs::Own::own_past))]
pub(crate) fn own_past(alloc: Global, conf: &RouterConf, up: &[bool], seq: u32) -> M<Entry>
    requires sound { IsSound conf.now }
    requires up { length up.now ≡ length conf.now.ends }
    ensures { IfOk result (λ e. e ≡ own_past conf.now up.now seq) }
{
    if seq == LAST_SEQUENCE {
        return Ok(purge(LspId::fragment_0(conf.system), seq));
    }
    originate(alloc, conf, up, seq + 1)
}

/// Returns whether the sequence number space of a router is exhausted once it has originated its own LSP after a
/// sequence number.
pub(crate) fn spent_past(spent: bool, seq: u32) -> bool
    ensures { result ≡ spent_past spent seq }
{
    spent || seq == LAST_SEQUENCE
}

/// Returns for each interface whether it is up.
pub(crate) fn ends_up(alloc: Global, flood: &Flood, ends: u16) -> M<Vec<bool>>
    requires { ends ≡ length flood.now.flood.up }
    ensures { IfOk result (λ up. up.items ≡ flood.now.flood.up) }
{
    let mut up = Vec::new(alloc);
    'ends: for link in 0..ends {
        up.push(flood.is_up(link))?;
    }
    Ok(up)
}

/// Returns the own LSP after a sequence number, from the interfaces that are up.
pub(crate) fn own_now(alloc: Global, conf: &RouterConf, flood: &Flood, seq: u32) -> M<Entry>
    requires sound { IsSound conf.now }
    requires ends { length flood.now.flood.up ≡ length conf.now.ends }
    ensures { IfOk result (λ e. e ≡ own_past conf.now flood.now.flood.up seq) }
{
    let up = ends_up(alloc, flood, conf.ends.len() as u16)?;
    own_past(alloc, conf, up.as_slice(), seq)
}

/// Returns the same LSP as if the interface at an index were up or down.
pub(crate) fn own_with(
    alloc: Global,
    conf: &RouterConf,
    flood: &Flood,
    link: u16,
    is_up: bool,
    seq: u32,
) -> M<Entry>
    requires sound { IsSound conf.now }
    requires ends { length flood.now.flood.up ≡ length conf.now.ends }
    requires link { link < length conf.now.ends }
    ensures { IfOk result (λ e. e ≡ own_past conf.now (slice_set flood.now.flood.up link is_up) seq) }
{
    let mut up = ends_up(alloc, flood, conf.ends.len() as u16)?;
    up[usize::from(link)] = is_up;
    own_past(alloc, conf, up.as_slice(), seq)
}

/// Stores the own LSP, and marks it for sending on all links that are up. If an allocation fails, nothing has changed.
pub(crate) fn issue(store: &mut Store, flood: &mut Flood, own: Entry) -> M<()>
    requires { is_refused store.old.entries own.id ≡ false }
    ensures ok { OnOk result ((flood.new.flood ≡ mark_all flood.old.flood own.id) × (store.new.entries ≡ put_entry own store.old.entries)) }
    ensures err { OnErr result ((flood.new.flood ≡ flood.old.flood) × (store.new.entries ≡ store.old.entries)) }
    ensures database { OnOk result (IsDatabase store.new.entries) }
{
    store.reserve(1)?;
    flood.reserve(1)?;
    issue_within(store, flood, own);
    Ok(())
}

/// Stores the own LSP, and marks it for sending on all links that are up, in memory that is already reserved. The LSDB
/// needs no more memory if it has this LSP already.
#[tactic(auto, using(crate::proofs::OwnLaws::put_is_ok))]
pub(crate) fn issue_within(store: &mut Store, flood: &mut Flood, own: Entry)
    requires known { is_refused store.old.entries own.id ≡ false }
    requires entries { is_new store.old.entries own.id ≡ true → 1 ≤ store.old.spare }
    requires flags { 1 ≤ flood.old.spare }
    ensures flood { flood.new.flood ≡ mark_all flood.old.flood own.id }
    ensures entries { store.new.entries ≡ put_entry own store.old.entries }
    ensures database { IsDatabase store.new.entries }
{
    let id = own.id;
    store.put(own).unwrap();
    flood.mark_all(id).unwrap();
}

impl Control {
    /// Returns for each interface whether it is up.
    pub(crate) fn ends_up(&self) -> M<Vec<bool>>
        ensures { IfOk result (λ up. up.items ≡ self.now.flood.up) }
    {
        ends_up(self.allocator(), &self.flood, self.conf.ends.len() as u16)
    }

    /// Originates the own LSP after a sequence number. If an allocation fails, nothing has changed.
    pub(crate) fn reissue(&mut self, seq: u32) -> M<()>
        requires { self.old.spent ≡ false }
        ensures ok { OnOk result (self.new ≡ reissue self.old seq) }
        ensures err { OnErr result (self.new ≡ self.old) }
    {
        let own = own_now(self.allocator(), &self.conf, &self.flood, seq)?;
        issue(&mut self.store, &mut self.flood, own)?;
        self.spent = spent_past(self.spent, seq);
        Ok(())
    }
}
