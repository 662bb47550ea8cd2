//! The topology that a router caches from one packet to the next, with the forwarding state that is derived from it.
ghost use Rattle.std.specs.Prelude.{◌≡◌, ◌↔◌, List, None, if◌then◌else◌, false, IfOk, OnOk};
ghost use Rattle.wire_base.specs.declared.conf.RouterConf.{RouterConf as Conf};
ghost use Rattle.wire_base.specs.declared.view.ViewNode.{ViewNode};
ghost use Rattle.bier_forward.specs.Kept.{AreRoutes};
ghost use Rattle.router_core.specs.Keeping.{IsCurrent, IsKept, IsNow, MayKeep};

use crate::control::Control;
use bier_forward::Routes;
use std::alloc::Global;
use view_graph::ViewKeep;
use wire_base::{M, Rows, SystemId};

/// The topology of a control state, and what is cached of it.
#[derive(Drop)]
pub struct Kept {
    pub(crate) view: ViewKeep,
    /// Whether nothing that the topology is derived from has changed since it was last renewed.
    pub(crate) is_current: bool,
    /// The other systems that may advertise something else since then.
    pub(crate) changed: Rows<SystemId>,
    pub(crate) routes: Routes,
}

/// Drops the cache. It is not inlined: it is rare, and large, since a topology is freed.
#[inline(never)]
fn forget(kept: &mut Option<Kept>)
    ensures { kept.new ≡ None }
{
    *kept = None;
}

/// Keeps the cache, or drops it. Inlined, since nearly always nothing is to be done.
#[inline(always)]
pub(crate) fn keep_if(kept: &mut Option<Kept>, stays: bool)
    ensures { kept.new ≡ (if stays then kept.old else None) }
{
    if !stays {
        forget(kept);
    }
}

/// Renews the forwarding state after its topology was renewed: if the topology is a new one, the state is emptied.
fn renew_routes(alloc: Global, routes: &mut Routes, is_new: bool)
    ensures { (r : Conf) (before now : List ViewNode) → AreRoutes r before routes.old → ((is_new ≡ false) ↔ (now ≡ before)) → AreRoutes r now routes.new }
{
    if is_new {
        *routes = Routes::new(alloc);
    }
}

impl Control {
    /// Renews the cache if something has changed since. If nothing is cached, caches the current topology.
    pub(crate) fn keep(&self, kept: &mut Option<Kept>) -> M<()>
        requires { MayKeep self.now kept.old }
        ensures { OnOk result (IsNow self.now kept.new) }
    {
        match kept {
            None => self.keep_first(kept),
            Some(kept) => self.renew(kept),
        }
    }

    /// Caches the current topology, with no forwarding state yet.
    fn keep_first(&self, kept: &mut Option<Kept>) -> M<()>
        ensures { OnOk result (IsNow self.now kept.new) }
    {
        let first = self.first_kept()?;
        *kept = Some(first);
        Ok(())
    }

    /// Returns the current topology, with no forwarding state yet.
    fn first_kept(&self) -> M<Kept>
        ensures { IfOk result (IsCurrent self.now) }
    {
        let alloc = self.allocator();
        let up = self.ends_up()?;
        Ok(Kept {
            view: ViewKeep::new(alloc, self.conf(), up.as_slice(), &self.store)?,
            is_current: true,
            changed: Rows::new(alloc),
            routes: Routes::new(alloc),
        })
    }

    /// Renews the cache. If the topology is the same as before, everything cached is kept.
    fn renew(&self, kept: &mut Kept) -> M<()>
        requires { IsKept self.now kept.old }
        ensures { OnOk result (IsCurrent self.now kept.new) }
    {
        if kept.is_current {
            return Ok(());
        }
        let alloc = self.allocator();
        let conf = self.conf();
        let up = self.ends_up()?;
        let changed = kept.changed.as_slice();
        let is_new = kept.view.renew(conf, up.as_slice(), &self.store, changed)?;
        kept.is_current = true;
        kept.changed = Rows::new(alloc);
        renew_routes(alloc, &mut kept.routes, is_new);
        Ok(())
    }
}
