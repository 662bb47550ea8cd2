ghost use Rattle.std.specs.Prelude.{◌≡◌, IfOk};
ghost use Rattle.wire_base.specs.model.View.{control_view};
ghost use Rattle.laws_router.specs.State.{IsRouter, IssuesAlone, is_up};

use isis_flood::Flood;
use isis_pdu::KnownLsps;
use lsp_store::{Contents, Store};
use std::alloc::Global;
use std::marker::Model;
use view_graph::view;
use wire_base::{M, RouterConf, Summary, View};

/// The control state of a router: its configuration, its LSDB, the flooding flags, and whether it has used the last
/// sequence number.
#[derive(Drop)]
pub(crate) struct Control {
    pub(crate) conf: RouterConf,
    pub(crate) store: Store,
    pub(crate) flood: Flood,
    pub(crate) spent: bool,
    /// A buffer for the entries that a PSNP lists, reused from one PSNP to the next.
    pub(crate) room: Vec<Summary>,
    /// The LSPs that are known to be verified, if the router shares them with others.
    pub(crate) known: Option<KnownLsps>,
}

impl Model for Control {
    ghost use Rattle.wire_base.specs.model.Control.{Control as ControlState};
    ghost use Rattle.laws_router.specs.State.{IsWhole, control_of};

    ghost Value = { ControlState };

    ghost view = { λ c. control_of c.conf c.flood.flood c.store.entries c.spent };

    ghost invariant = { λ c. IsWhole (control_of c.conf c.flood.flood c.store.entries c.spent) };
}

impl Control {
    pub(crate) fn conf(&self) -> &RouterConf
        ensures conf { result.now ≡ self.now.conf }
        ensures keeps { IsRouter self.now }
        ensures issued { IssuesAlone self.now }
    {
        &self.conf
    }

    pub(crate) fn store(&self) -> &Store
        ensures { result.now.entries ≡ self.now.entries }
    {
        &self.store
    }

    /// Has the contents of received LSPs, and topologies, stored once for all routers with these `Contents`.
    pub(crate) fn share_contents(&mut self, contents: Contents)
        ensures { self.new ≡ self.old }
    {
        self.store.share_contents(contents);
    }

    /// Has received LSPs verified once for all routers with these `KnownLsps`.
    pub(crate) fn share_known(&mut self, known: KnownLsps)
        ensures { self.new ≡ self.old }
    {
        self.known = Some(known);
    }

    pub(crate) fn flood(&self) -> &Flood
        ensures { result.now.flood ≡ self.now.flood }
    {
        &self.flood
    }

    pub(crate) fn spent(&self) -> bool
        ensures spent { result ≡ self.now.spent }
        ensures issued { IssuesAlone self.now }
    {
        self.spent
    }

    pub(crate) fn is_up(&self, link: u16) -> bool
        ensures { result ≡ is_up self.now link }
    {
        self.flood.is_up(link)
    }

    /// Returns the current topology.
    pub(crate) fn view(&self) -> M<View>
        ensures nodes { IfOk result (λ v. v.nodes ≡ control_view self.now) }
    {
        let up = self.ends_up()?;
        view(self.allocator(), &self.conf, up.as_slice(), &self.store)
    }

    /// Returns the allocator of the LSDB.
    pub(crate) fn allocator(&self) -> Global {
        self.store.allocator()
    }
}
