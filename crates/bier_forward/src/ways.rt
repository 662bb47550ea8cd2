//! The route of a copy to a router: over the interface to a neighbor, or in a tunnel (RFC 8279, 6.9; RFC 2784).
ghost use Rattle.std.specs.Prelude.{◌≡◌, ◌<◌, ◌^◌, Some, IfOk, IfSome, List, OnOk, slice_get};
ghost use Rattle.wire_base.specs.declared.view.ViewNode.{ViewNode};
ghost use Rattle.wire_base.specs.model.Configuration.{IsSound};
ghost use Rattle.bier_forward.specs.Hops.{tunnel_way, way_at, way_by, way_on};
ghost use Rattle.bier_forward.specs.Tunnels.{HasNode, IsBuilt};

use crate::bift::bift_at;
use crate::table_rows::own_place;
use bier_tunnel::Fib;
use std::alloc::Global;
use wire_base::{End, First, Ipv4, M, RouterConf, Triple, View};

/// The route of a copy to a router: the link, by its index and as an interface, the router's BIFT-id for the triple, and the
/// router's BFR-prefix if a tunnel leads to it.
#[derive(Clone, Copy)]
pub(crate) struct Way {
    pub(crate) link: u16,
    pub(crate) end: End,
    pub(crate) bift: u32,
    pub(crate) tunnel: Option<Ipv4>,
}

/// Returns the route to a router of a table. None if no interface leads to it, if it has no BIFT-id for the triple, or if a tunnel
/// has no prefix as its destination. The routes of tunnels are built when the first of them is needed.
pub(crate) fn way_to(
    alloc: Global,
    conf: &RouterConf,
    view: &View,
    triple: Triple,
    to: First,
    fib: &mut Option<Fib>,
) -> M<Option<Way>>
    requires sound { IsSound conf.now }
    requires built { IsBuilt conf.now view.now.nodes fib.old }
    ensures value { IfOk result (λ way. way ≡ way_at conf.now view.now.nodes triple to) }
    ensures bift { IfOk result (λ way. IfSome way (λ w. w.bift < 2 ^ 20)) }
    ensures kept { OnOk result (IsBuilt conf.now view.now.nodes fib.new) }
{
    match bift_at(conf, view.as_slice(), triple, to.system) {
        None => Ok(None),
        Some(bift) => way_by(alloc, conf, view, triple, to, bift, fib),
    }
}

/// Returns the route to a router that has a BIFT-id for the triple.
fn way_by(
    alloc: Global,
    conf: &RouterConf,
    view: &View,
    triple: Triple,
    to: First,
    bift: u32,
    fib: &mut Option<Fib>,
) -> M<Option<Way>>
    requires sound { IsSound conf.now }
    requires built { IsBuilt conf.now view.now.nodes fib.old }
    requires bift { bift < 2 ^ 20 }
    ensures value { IfOk result (λ way. way ≡ way_by conf.now view.now.nodes triple to bift to.direct) }
    ensures bift { IfOk result (λ way. IfSome way (λ w. w.bift < 2 ^ 20)) }
    ensures kept { OnOk result (IsBuilt conf.now view.now.nodes fib.new) }
{
    match to.direct {
        Some(link) => Ok(way_on(conf, bift, None, link)),
        None => {
            build(alloc, conf, view, fib)?;
            Ok(tunnel_way(conf, triple, to, bift, fib))
        }
    }
}

/// Builds the routes of tunnels, if they are not there yet; a router without a node has none.
pub(crate) fn build(alloc: Global, conf: &RouterConf, view: &View, fib: &mut Option<Fib>) -> M<()>
    requires sound { IsSound conf.now }
    requires built { IsBuilt conf.now view.now.nodes fib.old }
    ensures built { OnOk result (IsBuilt conf.now view.now.nodes fib.new) }
    ensures there { OnOk result (HasNode conf.now view.now.nodes fib.new) }
{
    if fib.is_none() {
        if let Some(u) = own_place(view.as_slice(), conf.system) {
            *fib = Some(Fib::build(alloc, view, conf, u)?);
        }
    }
    Ok(())
}

/// Returns the route in a tunnel to the router's BFR-prefix in the topology, if routes were found.
fn tunnel_way(
    conf: &RouterConf,
    triple: Triple,
    to: First,
    bift: u32,
    fib: &Option<Fib>,
) -> Option<Way>
    ensures { (g : List ViewNode) → IsBuilt conf.now g fib.now → HasNode conf.now g fib.now → result ≡ tunnel_way conf.now g triple to bift }
{
    match fib {
        None => None,
        Some(fib) => way_by_fib(conf, triple, to, bift, fib),
    }
}

fn way_by_fib(conf: &RouterConf, triple: Triple, to: First, bift: u32, fib: &Fib) -> Option<Way>
    ensures { (g : List ViewNode) → IsBuilt conf.now g (Some fib.now) → result ≡ tunnel_way conf.now g triple to bift }
{
    let dst = fib.prefix_of(to.system, triple.sd)?;
    let link = fib.next_link(to.system)?;
    way_on(conf, bift, Some(dst), link)
}

/// Returns the route over a link, if it has an interface.
fn way_on(conf: &RouterConf, bift: u32, tunnel: Option<Ipv4>, link: u16) -> Option<Way>
    ensures { result ≡ way_on conf.now bift tunnel link }
{
    let end = end_at(conf, link)?;
    Some(Way {
        link,
        end,
        bift,
        tunnel,
    })
}

/// Returns the interface of a link, if there is one.
pub(crate) fn end_at(conf: &RouterConf, link: u16) -> Option<End>
    ensures { result ≡ slice_get conf.now.ends link }
{
    let ends = conf.ends.as_slice();
    if usize::from(link) < ends.len() {
        Some(ends[usize::from(link)])
    } else {
        None
    }
}
