//! A topology that is kept, and updated when systems change.
ghost use Rattle.std.specs.Prelude.{◌≡◌, ◌↔◌, length, false, IfOk, OnOk, OnErr};
ghost use Rattle.wire_base.specs.model.Configuration.{IsSound};
ghost use Rattle.wire_base.specs.model.View.{view_of};
ghost use Rattle.view_graph.specs.Keep.{IsUnchanged, heard};

use crate::kept_view::KeptView;
use crate::others::Others;
use crate::patch::are_present;
use crate::renewal::patch_of;
use crate::same::are_same_nodes;
use crate::shared::kept_view;
use lsp_store::Store;
use std::alloc::Global;
use std::marker::Model;
use wire_base::{M, RouterConf, Rows, SubKind, SystemId, View};

/// The topology of a router, which is updated without reading the whole LSDB: an update reads what the changed systems advertise,
/// and what the systems that they list advertise.
///
/// Contracts model it as the topology, the router's system ID and kinds of sub-domains, and what the LSPs of each other system
/// with a live fragment 0 contain: its overload bit, its links before the two-way connectivity check, and its memberships of
/// sub-domains before prefixes of two systems are compared.
#[derive(Drop)]
pub struct ViewKeep {
    system: SystemId,
    kinds: Rows<SubKind>,
    others: Others,
    /// Whether the topology is this router's alone, and no node lacks a membership because another system has its prefix.
    is_whole: bool,
    view: KeptView,
}

impl Model for ViewKeep {
    ghost use Rattle.view_graph.specs.Keep.{Keep, IsKept};

    ghost Value = { Keep };

    ghost view = { λ k. record { nodes = k.view.nodes; system = k.system; kinds = k.kinds; others = k.others.claims } };

    ghost invariant = { λ k. IsKept k.system k.others.claims k.is_whole k.view.nodes };
}

impl ViewKeep {
    /// Builds the topology from a configuration, a truth value for each interface (whether it is up), and an LSDB.
    ///
    /// Where the LSDB contains of the router itself what the router advertises now, the topology follows from the LSDB alone, and
    /// routers whose LSDBs have the same `Contents` compute and store it once.
    #[tactic(auto, unfolding(wire_base::specs::model::View::view_of))]
    pub fn new(alloc: Global, conf: &RouterConf, up: &[bool], store: &Store) -> M<ViewKeep>
        requires one_each { length up.now ≡ length conf.now.ends }
        requires sound { IsSound conf.now }
        ensures exact { IfOk result (λ k. k.nodes ≡ view_of conf.now up.now store.now.entries) }
        ensures system { IfOk result (λ k. k.system ≡ conf.now.system) }
        ensures kinds { IfOk result (λ k. k.kinds ≡ conf.now.kinds) }
        ensures heard { IfOk result (λ k. k.others ≡ heard conf.now.system conf.now.kinds store.now.entries) }
    {
        let (view, is_whole) = kept_view(alloc, conf, up, store)?;
        Ok(ViewKeep {
            system: conf.system,
            kinds: conf.kinds.copy()?,
            others: Others::heard(conf, store),
            is_whole,
            view,
        })
    }

    /// Updates the topology for a configuration of the same system and kinds of sub-domains, for its interfaces that are up and an
    /// LSDB. `changed` must name each other system that advertises something new in the LSDB; unchanged systems may be named too.
    /// Returns true exactly where the topology changed. After Memory the topology is unchanged.
    pub fn renew(
        &mut self,
        conf: &RouterConf,
        up: &[bool],
        store: &Store,
        changed: &[SystemId],
    ) -> M<bool>
        requires one_each { length up.now ≡ length conf.now.ends }
        requires sound { IsSound conf.now }
        requires system { conf.now.system ≡ self.old.system }
        requires kinds { conf.now.kinds ≡ self.old.kinds }
        requires unchanged { IsUnchanged self.old changed.now store.now.entries }
        ensures exact { OnOk result (self.new.nodes ≡ view_of conf.now up.now store.now.entries) }
        ensures answer { IfOk result (λ is_new. (is_new ≡ false) ↔ (self.new.nodes ≡ self.old.nodes)) }
        ensures system { OnOk result (self.new.system ≡ conf.now.system) }
        ensures kinds { OnOk result (self.new.kinds ≡ conf.now.kinds) }
        ensures heard { OnOk result (self.new.others ≡ heard conf.now.system conf.now.kinds store.now.entries) }
        ensures err { OnErr result (self.new ≡ self.old) }
    {
        // A shared topology, which is not known to be whole, isn't changed in place: the new one may be known already.
        if !self.is_whole {
            return self.make_anew(conf, up, store);
        }
        let _entries = store.len();
        let patch = patch_of(self.view.as_slice(), conf, up, store, changed)?;
        let Some(anew) = patch else {
            return self.make_anew(conf, up, store);
        };
        let are_same = are_present(self.view.as_slice(), anew.as_slice());
        if !self.view.turn(anew) {
            return self.make_anew(conf, up, store);
        }
        self.others = Others::heard(conf, store);
        Ok(!are_same)
    }

    /// The same, by building everything again.
    fn make_anew(&mut self, conf: &RouterConf, up: &[bool], store: &Store) -> M<bool>
        requires one_each { length up.now ≡ length conf.now.ends }
        requires sound { IsSound conf.now }
        ensures exact { OnOk result (self.new.nodes ≡ view_of conf.now up.now store.now.entries) }
        ensures answer { IfOk result (λ is_new. (is_new ≡ false) ↔ (self.new.nodes ≡ self.old.nodes)) }
        ensures system { OnOk result (self.new.system ≡ conf.now.system) }
        ensures kinds { OnOk result (self.new.kinds ≡ conf.now.kinds) }
        ensures heard { OnOk result (self.new.others ≡ heard conf.now.system conf.now.kinds store.now.entries) }
        ensures err { OnErr result (self.new ≡ self.old) }
    {
        let next = ViewKeep::new(self.kinds.allocator(), conf, up, store)?;
        let is_same = are_same_nodes(self.view.as_slice(), next.view.as_slice());
        *self = next;
        Ok(!is_same)
    }

    /// Returns the topology. Does not allocate.
    pub fn view(&self) -> &View
        ensures { result.now.nodes ≡ self.now.nodes }
    {
        self.view.view()
    }
}
