//! The frame of a copy, as it is sent: the packet with another BIFT-id, TTL and BitString, in a tunnel or not.
ghost use Rattle.std.specs.Prelude.{◌≡◌, ◌<◌, ◌≤◌, ◌+◌, ◌*◌, ◌^◌, ◌-◌, ◌++◌, List, ℕ, OnOk, IsTrue, length};
ghost use Rattle.wire_base.specs.model.Place.{bits_of};
ghost use Rattle.wire_base.specs.model.BierHeader.{header_length};
ghost use Rattle.wire_base.specs.model.Ethernet.{ethernet, ip_type};
ghost use Rattle.wire_base.specs.model.Item.{bier_frame, ip_frame};
ghost use Rattle.wire_base.specs.model.OnFrame.{one_sent};
ghost use Rattle.wire_base.specs.model.Tunnel.{tunnel as tunnel_octets};
ghost use Rattle.gre_ip.specs.Tunnels.{packet_with};
ghost use Rattle.bier_bits.specs.Sets.{is_width};
ghost use Rattle.bier_forward.specs.Hops.{after, copy_head, copy_octets, frame_in};
ghost use Rattle.bier_forward.specs.Packets.{IsShort};

use crate::effects::Effects;
use crate::incoming::Incoming;
use crate::ways::Way;
use bier_bits::BitString;
use bier_head::write_copy;
use gre_ip::{Tunnel, write_tunnel};
use link_frame::write_eth;
use wire_base::ethernet::{FRAME_HEAD, IP_TYPE};
use wire_base::limits::MOST_FRAME;
use wire_base::{End, M, RouterConf};

/// The initial outer TTL of a tunnel.
const OUTER_TTL: u8 = 255;

/// The length of the headers of a tunnel, in octets: an IPv4 header without options, and a GRE header.
const OUTER_HEAD: usize = 24;

/// The length of the longest header of a copy, in octets: that with a BitString of 4,096 bits.
const MOST_HEAD: usize = 524;

/// The length of the header of a copy with a BitString of 256 bits, the default length. A copy with no longer header needs little
/// room.
const SHORT_HEAD: usize = 44;

/// Sends a copy over its route: the packet with the route's BIFT-id, that TTL and that BitString. A tunnel leads from the router's
/// own prefix to that of the route. The frame is appended in two parts, its headers and its payload, so that it needs no memory of
/// its own.
pub(crate) fn send_frame<const W: usize>(
    conf: &RouterConf,
    packet: &Incoming<'_>,
    way: Way,
    set: &BitString<W>,
    ttl: u8,
    effects: &mut Effects,
) -> M<()>
    requires width { IsTrue (is_width W) }
    requires bits { bits_of packet.now.triple.bsl ≡ 64 * W }
    requires bift { way.bift < 2 ^ 20 }
    requires short { IsShort packet.now }
    ensures { OnOk result (effects.new ≡ after effects.old (one_sent way.link (frame_in conf.now packet.now way.end (copy_octets packet.now way.bift set.now ttl) way.tunnel))) }
{
    match way.tunnel {
        None => send_bare(packet, way, set, ttl, effects),
        Some(dst) => {
            let tunnel = Tunnel {
                src: conf.prefix,
                dst,
                ttl: OUTER_TTL,
                inner: packet.kind,
                from: OUTER_HEAD,
                to: OUTER_HEAD + head_len(set) + packet.payload.len(),
            };
            send_in_tunnel(&tunnel, packet, way, set, ttl, effects)
        }
    }
}

/// Returns the length of a header with that BitString, in octets.
fn head_len<const W: usize>(set: &BitString<W>) -> usize
    requires { IsTrue (is_width W) }
    ensures len { result ≡ 12 + 8 * W }
    ensures most { result ≤ MOST_HEAD }
{
    12 + usize::from(set.width() / 8)
}

/// Sends a copy that is in no tunnel.
fn send_bare<const W: usize>(
    packet: &Incoming<'_>,
    way: Way,
    set: &BitString<W>,
    ttl: u8,
    effects: &mut Effects,
) -> M<()>
    requires width { IsTrue (is_width W) }
    requires bits { bits_of packet.now.triple.bsl ≡ 64 * W }
    requires bift { way.bift < 2 ^ 20 }
    ensures { OnOk result (effects.new ≡ after effects.old (one_sent way.link (bier_frame way.end.peer_mac way.end.own_mac packet.now.kind (copy_octets packet.now way.bift set.now ttl)))) }
{
    if head_len(set) <= SHORT_HEAD {
        let mut front = [0; FRAME_HEAD + SHORT_HEAD];
        return send_after(&mut front, packet, way, set, ttl, effects);
    }
    let mut front = [0; FRAME_HEAD + MOST_HEAD];
    send_after(&mut front, packet, way, set, ttl, effects)
}

/// Does the same, with room for the Ethernet header and that of the copy.
fn send_after<const W: usize>(
    room: &mut [u8],
    packet: &Incoming<'_>,
    way: Way,
    set: &BitString<W>,
    ttl: u8,
    effects: &mut Effects,
) -> M<()>
    requires room { 26 + 8 * W ≤ length room.old }
    requires width { IsTrue (is_width W) }
    requires bits { bits_of packet.now.triple.bsl ≡ 64 * W }
    requires bift { way.bift < 2 ^ 20 }
    ensures { OnOk result (effects.new ≡ after effects.old (one_sent way.link (bier_frame way.end.peer_mac way.end.own_mac packet.now.kind (copy_octets packet.now way.bift set.now ttl)))) }
{
    let front = &mut room[..FRAME_HEAD + head_len(set)];
    let (ethernet, head) = front.split_at_mut(FRAME_HEAD);
    write_eth(
        ethernet,
        way.end.peer_mac,
        way.end.own_mac,
        packet.kind.protocol(),
    );
    write_head(packet, way.bift, set, ttl, head);
    effects.send_parts(way.link, front, packet.payload)
}

/// Returns the Ethernet header of a frame with IPv4, sent on an interface.
pub(crate) fn ip_head(end: End) -> [u8; FRAME_HEAD]
    ensures octets { result ≡ ethernet end.peer_mac.0 end.own_mac.0 ip_type }
    ensures len { length result ≡ 14 }
{
    let mut octets = [0; FRAME_HEAD];
    write_eth(&mut octets, end.peer_mac, end.own_mac, IP_TYPE);
    octets
}

/// Returns all octets of a frame with a tunnel packet before those that it carries.
fn outer_head(end: End, tunnel: &Tunnel) -> [u8; FRAME_HEAD + OUTER_HEAD]
    requires ordered { tunnel.now.from ≤ tunnel.now.to }
    requires size { tunnel.now.to - tunnel.now.from ≤ MOST_FRAME }
    ensures whole { (carried : List ℕ) → length carried ≡ tunnel.now.to - tunnel.now.from
        → result ++ carried ≡ ip_frame end.peer_mac end.own_mac (tunnel_octets (packet_with tunnel.now carried)) }
    ensures len { length result ≡ 38 }
{
    let mut octets = [0; FRAME_HEAD + OUTER_HEAD];
    let (ethernet, outer) = octets.split_at_mut(FRAME_HEAD);
    ethernet.copy_from_slice(&ip_head(end));
    write_tunnel(tunnel, outer);
    octets
}

/// Sends a copy in a tunnel, whose lengths count the copy.
fn send_in_tunnel<const W: usize>(
    tunnel: &Tunnel,
    packet: &Incoming<'_>,
    way: Way,
    set: &BitString<W>,
    ttl: u8,
    effects: &mut Effects,
) -> M<()>
    requires width { IsTrue (is_width W) }
    requires bits { bits_of packet.now.triple.bsl ≡ 64 * W }
    requires bift { way.bift < 2 ^ 20 }
    requires short { IsShort packet.now }
    requires from { tunnel.now.from ≡ 24 }
    requires to { tunnel.now.to ≡ 24 + (header_length packet.now.triple.bsl + length packet.now.payload) }
    ensures { OnOk result (effects.new ≡ after effects.old (one_sent way.link (ip_frame way.end.peer_mac way.end.own_mac (tunnel_octets (packet_with tunnel.now (copy_octets packet.now way.bift set.now ttl)))))) }
{
    let mut front = [0; FRAME_HEAD + OUTER_HEAD + MOST_HEAD];
    let front = &mut front[..FRAME_HEAD + OUTER_HEAD + head_len(set)];
    let (outer, head) = front.split_at_mut(FRAME_HEAD + OUTER_HEAD);
    outer.copy_from_slice(&outer_head(way.end, tunnel));
    write_head(packet, way.bift, set, ttl, head);
    effects.send_parts(way.link, front, packet.payload)
}

/// Writes the header of a copy over all of `out`: as received, except for the BIFT-id, the TTL and the BitString.
fn write_head<const W: usize>(
    packet: &Incoming<'_>,
    bift: u32,
    set: &BitString<W>,
    ttl: u8,
    out: &mut [u8],
)
    requires width { IsTrue (is_width W) }
    requires bits { bits_of packet.now.triple.bsl ≡ 64 * W }
    requires bift { bift < 2 ^ 20 }
    requires room { length out.old ≡ header_length packet.now.triple.bsl }
    ensures { out.new ≡ copy_head packet.now bift set.now ttl }
{
    write_copy(&packet.header, bift, ttl, set, out);
}
