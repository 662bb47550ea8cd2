//! Interfaces that come up and go down, and the start of a router (ISO/IEC 10589, 7.3.6 and 7.3.17).
ghost use Rattle.std.specs.Prelude.{◌≡◌, ◌<◌, true, false, length, replicate, IfOk, OnOk, OnErr};
ghost use Rattle.wire_base.specs.model.Configuration.{IsSound};
ghost use Rattle.wire_base.specs.model.Control.{IsDatabase, put_entry};
ghost use Rattle.wire_base.specs.model.Flooding.{mark_all, link_up, link_down, end_up, end_down, restart, started, first_control};
ghost use Rattle.lsp_store.specs.Places.{is_refused};
ghost use Rattle.laws_router.specs.State.{is_up};

use crate::control::Control;
use crate::own::{issue, issue_within, own_with, spent_past};
use isis_flood::Flood;
use lsp_origin::originate;
use lsp_store::Store;
use std::alloc::Global;
use wire_base::{Entry, LspId, M, RouterConf};

/// Brings a link up and originates the own LSP. If an allocation fails, nothing has changed.
fn link_up_issuing(store: &mut Store, flood: &mut Flood, link: u16, own: Entry) -> M<()>
    requires link { link < length flood.old.flood.up }
    requires known { is_refused store.old.entries own.id ≡ false }
    ensures ok { OnOk result ((flood.new.flood ≡ mark_all (link_up flood.old.flood store.old.entries link) own.id) × (store.new.entries ≡ put_entry own store.old.entries)) }
    ensures err { OnErr result ((flood.new.flood ≡ flood.old.flood) × (store.new.entries ≡ store.old.entries)) }
    ensures database { OnOk result (IsDatabase store.new.entries) }
{
    store.reserve(1)?;
    flood.reserve(store.len() + 1)?;
    flood.link_up(store, link).unwrap();
    issue_within(store, flood, own);
    Ok(())
}

/// Takes a link down and originates the own LSP. If an allocation fails, nothing has changed.
fn link_down_issuing(store: &mut Store, flood: &mut Flood, link: u16, own: Entry) -> M<()>
    requires link { link < length flood.old.flood.up }
    requires known { is_refused store.old.entries own.id ≡ false }
    ensures ok { OnOk result ((flood.new.flood ≡ mark_all (link_down flood.old.flood link) own.id) × (store.new.entries ≡ put_entry own store.old.entries)) }
    ensures err { OnErr result ((flood.new.flood ≡ flood.old.flood) × (store.new.entries ≡ store.old.entries)) }
    ensures database { OnOk result (IsDatabase store.new.entries) }
{
    store.reserve(1)?;
    flood.reserve(1)?;
    flood.link_down(link);
    issue_within(store, flood, own);
    Ok(())
}

/// Returns the LSDB and the flags of a router that has just started.
#[tactic(auto, unfolding(wire_base::specs::model::Flooding::started))]
fn started(alloc: Global, conf: &RouterConf, up: &[bool]) -> M<(Store, Flood)>
    requires sound { IsSound conf.now }
    requires up { length up.now ≡ length conf.now.ends }
    ensures entries { IfOk result (λ s. s.0.entries ≡ (started conf.now up.now).entries) }
    ensures flood { IfOk result (λ s. s.1.flood ≡ (started conf.now up.now).flood) }
    ensures database { IfOk result (λ s. IsDatabase s.0.entries) }
{
    let own = originate(alloc, conf, up, 1)?;
    let mut flood = Flood::new(alloc, conf.system, conf.ends.len() as u16, up)?;
    let mut store = Store::new(alloc);
    issue(&mut store, &mut flood, own)?;
    Ok((store, flood))
}

/// Returns that many interfaces, all of them up.
fn all_up(alloc: Global, ends: usize) -> M<Vec<bool>>
    ensures { IfOk result (λ up. up.items ≡ replicate ends true) }
{
    let mut up = Vec::new(alloc);
    'ends: while up.len() < ends {
        up.push(true)?;
    }
    Ok(up)
}

/// Returns the LSDB and the flags of a router that has just started, with all its interfaces up.
fn first_started(alloc: Global, conf: &RouterConf) -> M<(Store, Flood)>
    requires { IsSound conf.now }
    ensures entries { IfOk result (λ s. s.0.entries ≡ (started conf.now (replicate (length conf.now.ends) true)).entries) }
    ensures flood { IfOk result (λ s. s.1.flood ≡ (started conf.now (replicate (length conf.now.ends) true)).flood) }
    ensures database { IfOk result (λ s. IsDatabase s.0.entries) }
{
    let up = all_up(alloc, conf.ends.len())?;
    started(alloc, conf, up.as_slice())
}

impl Control {
    /// Returns a router that has just started, with all its interfaces up.
    pub(crate) fn new(alloc: Global, conf: RouterConf) -> M<Control>
        requires { IsSound conf }
        ensures { IfOk result (λ c. c ≡ first_control conf) }
    {
        let (store, flood) = first_started(alloc, &conf)?;
        Ok(Control {
            conf,
            store,
            flood,
            spent: false,
            room: Vec::new(alloc),
            known: None,
        })
    }

    /// Restarts the router. If an allocation fails, nothing has changed.
    pub(crate) fn restart(&mut self) -> M<()>
        ensures ok { OnOk result (self.new ≡ (restart self.old).control) }
        ensures err { OnErr result (self.new ≡ self.old) }
    {
        let up = self.ends_up()?;
        let (store, flood) = started(self.allocator(), &self.conf, up.as_slice())?;
        self.store.replace_entries(store);
        self.flood = flood;
        self.spent = false;
        Ok(())
    }

    /// Brings the interface at an index up. If an allocation fails, nothing has changed.
    pub(crate) fn end_up(&mut self, link: u16) -> M<()>
        requires { link < length self.old.conf.ends }
        ensures ok { OnOk result (self.new ≡ (end_up self.old link).control) }
        ensures err { OnErr result (self.new ≡ self.old) }
    {
        if self.spent {
            self.flood.link_up(&self.store, link)?;
            return Ok(());
        }
        let alloc = self.allocator();
        let seq = self.store.seq_of(&LspId::fragment_0(self.conf.system));
        let own = own_with(alloc, &self.conf, &self.flood, link, true, seq)?;
        link_up_issuing(&mut self.store, &mut self.flood, link, own)?;
        self.spent = spent_past(self.spent, seq);
        Ok(())
    }

    /// Takes the interface at an index down. If an allocation fails, nothing has changed.
    pub(crate) fn end_down(&mut self, link: u16) -> M<()>
        requires { is_up self.old link ≡ true }
        ensures ok { OnOk result (self.new ≡ (end_down self.old link).control) }
        ensures err { OnErr result (self.new ≡ self.old) }
    {
        if self.spent {
            self.flood.link_down(link);
            return Ok(());
        }
        let alloc = self.allocator();
        let seq = self.store.seq_of(&LspId::fragment_0(self.conf.system));
        let own = own_with(alloc, &self.conf, &self.flood, link, false, seq)?;
        link_down_issuing(&mut self.store, &mut self.flood, link, own)?;
        self.spent = spent_past(self.spent, seq);
        Ok(())
    }
}
