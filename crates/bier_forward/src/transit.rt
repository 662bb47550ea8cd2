//! Tunnel packets for another router, which are forwarded (RFC 2784; RFC 1812, 5.2.1 and 5.3.1).
ghost use Rattle.std.specs.Prelude.{◌≡◌, ◌≤◌, ◌++◌, Some, false, IfOk, OnOk, length, take, drop};
ghost use Rattle.std.specs.Str.{bytes_eq};
ghost use Rattle.wire_base.specs.model.Configuration.{IsSound};
ghost use Rattle.wire_base.specs.model.Item.{ip_frame};
ghost use Rattle.wire_base.specs.model.OnFrame.{or_no_route, sent_on};
ghost use Rattle.wire_base.specs.model.Tunnel.{total_of, tunnel_on};
ghost use Rattle.gre_ip.specs.Tunnels.{HasPlaces, packet_of};
ghost use Rattle.bier_forward.specs.Kept.{AreRoutes};
ghost use Rattle.bier_tunnel.specs.Ways.{next_of};
ghost use Rattle.bier_forward.specs.Tunnels.{IsBuilt, carried_on, link_to_prefix};

use crate::cache::Routes;
use crate::copy::ip_head;
use crate::effects::Effects;
use crate::ways::{build, end_at};
use bier_tunnel::{Fib, Next, next_of};
use gre_ip::{Tunnel, write_onward};
use std::alloc::Global;
use wire_base::ethernet::FRAME_HEAD;
use wire_base::{Cause, End, M, Octets, RouterConf, View};

/// Processes a tunnel packet for another router, by a topology of its domain: forwards it toward the router with that prefix,
/// with a lower TTL and an updated checksum. Octets past the packet's total length are removed.
///
/// Drops it with `Outer` if the TTL has expired, and with `Route` if there is no path to a router with that prefix.
pub fn forward_tunnel(
    alloc: Global,
    conf: &RouterConf,
    view: &View,
    routes: &mut Routes,
    octets: &[u8],
    tunnel: &Tunnel,
) -> M<Effects>
    requires sound { IsSound conf.now }
    requires places { HasPlaces octets.now tunnel.now }
    requires elsewhere { bytes_eq tunnel.now.dst.0 conf.now.prefix.0 ≡ false }
    requires kept { AreRoutes conf.now view.now.nodes routes.old }
    ensures effects { IfOk result (λ e. e ≡ carried_on conf.now view.now.nodes octets.now (packet_of octets.now tunnel.now)) }
    ensures kept { OnOk result (AreRoutes conf.now view.now.nodes routes.new) }
{
    match next_hop(alloc, conf, view, &mut routes.fib, tunnel)? {
        Next::On { link, ttl } => send_on(alloc, conf, octets, tunnel, (link, ttl)),
        Next::Outer => Effects::dropped(alloc, Cause::Outer),
        Next::Route => Effects::dropped(alloc, Cause::Route),
        // The tunnel does not end here.
        Next::Leave => Ok(Effects::nothing(alloc)),
    }
}

/// Returns the next step of the packet. A router without a node in the topology reaches no other.
fn next_hop(
    alloc: Global,
    conf: &RouterConf,
    view: &View,
    fib: &mut Option<Fib>,
    tunnel: &Tunnel,
) -> M<Next>
    requires sound { IsSound conf.now }
    requires built { IsBuilt conf.now view.now.nodes fib.old }
    ensures next { IfOk result (λ next. next ≡ next_of conf.now.prefix tunnel.now (link_to_prefix conf.now view.now.nodes tunnel.now.dst)) }
    ensures built { OnOk result (IsBuilt conf.now view.now.nodes fib.new) }
{
    build(alloc, conf, view, fib)?;
    match fib {
        None => Ok(next_of(conf.prefix, tunnel, None)),
        Some(fib) => Ok(fib.transit(conf.prefix, tunnel)),
    }
}

/// Forwards the packet over a link with a TTL, if the link has an interface.
fn send_on(
    alloc: Global,
    conf: &RouterConf,
    octets: &[u8],
    tunnel: &Tunnel,
    on: (u16, u8),
) -> M<Effects>
    requires places { HasPlaces octets.now tunnel.now }
    ensures { IfOk result (λ e. e ≡ or_no_route (sent_on conf.now (Some on.0) (λ end. ip_frame end.peer_mac end.own_mac (tunnel_on octets.now on.1)))) }
{
    match end_at(conf, on.0) {
        None => Effects::dropped(alloc, Cause::Route),
        Some(end) => {
            let frame = onward_frame(alloc, end, octets, tunnel, on.1)?;
            let mut effects = Effects::nothing(alloc);
            effects.send(on.0, frame.as_slice())?;
            Ok(effects)
        }
    }
}

/// Returns the frame of the packet on an interface, with that TTL.
fn onward_frame(alloc: Global, end: End, octets: &[u8], tunnel: &Tunnel, ttl: u8) -> M<Octets>
    requires places { HasPlaces octets.now tunnel.now }
    ensures { IfOk result (λ frame. frame ≡ ip_frame end.peer_mac end.own_mac (tunnel_on octets.now ttl)) }
{
    let head = ip_head(end);
    let mut frame = Vec::with_capacity(alloc, head.len() + tunnel.to)?;
    frame.extend_from_slice(&head)?;
    frame.extend_from_slice(&octets[..tunnel.to])?;
    write_behind(frame.as_mut_slice(), ttl);
    Ok(Octets::from_vec(frame))
}

/// Replaces the TTL of the tunnel packet after the Ethernet header of a frame.
fn write_behind(frame: &mut [u8], ttl: u8)
    requires head { 20 ≤ total_of (drop 14 frame.old) }
    requires whole { total_of (drop 14 frame.old) ≤ length (drop 14 frame.old) }
    ensures { frame.new ≡ take 14 frame.old ++ (tunnel_on (drop 14 frame.old) ttl ++ drop (total_of (drop 14 frame.old)) (drop 14 frame.old)) }
{
    write_onward(&mut frame[FRAME_HEAD..], ttl);
}
