ghost use Rattle.std.specs.Prelude.{◌≡◌, ◌≤◌, ◌+◌, ℕ, List, length, take, drop, Ok, IfOk};
ghost use Rattle.wire_base.specs.model.Fields.{Gives};
ghost use Rattle.wire_base.specs.model.Tunnel.{TunnelPacket, IsTunnel, tunnel_at, gre_at, total_of, tunnel_of};
ghost use Rattle.gre_ip.specs.Tunnels.{packet_of, HasPlaces};

use crate::checksum::is_right_header;
use crate::tunnel::Tunnel;
use byteorder::{BigEndian, ByteOrder};
use wire_base::ethernet::{BIER_TYPE, MPLS_TYPE};
use wire_base::{IpFault, Ipv4, Kind};

/// The protocol number of GRE in IPv4 (RFC 2784, 3).
const GRE: u8 = 47;

/// The length in octets of an IPv4 header without options.
const IP_HEAD: usize = 20;

/// The length in octets of an IPv4 header without options and a GRE header without checksum.
const BOTH_HEADS: usize = 24;

/// Parses the tunnel packet at the start of the octets (RFC 791, 3.1; RFC 2784, 2). Octets past its total length are ignored;
/// the type of service, the identification and "don't fragment" are not tested.
///
/// # Errors
///
/// The first of these that applies: `Short` if there are fewer than 20 octets; `Version` if the version is not 4;
/// `Options` if the header length is not 5 words; `Length` if the total length is below 20 or exceeds the octets
/// received; `Checksum` if the header checksum is wrong; `Fragment` if more fragments follow or this one
/// is not the first; `NotGre` if the protocol is not 47; `GreShort` if the total length is below 24; `GreFlags`
/// if the first two octets of the GRE header are not 0; and `GreType` if the protocol type is neither MPLS nor BIER.
pub fn read_tunnel(bytes: &[u8]) -> Result<Tunnel, IpFault>
    ensures exact { Gives (packet_of bytes.now) result (tunnel_at bytes.now) }
    ensures places { IfOk result (HasPlaces bytes.now) }
    ensures found { IfOk result (λ t. IsTunnel bytes.now (packet_of bytes.now t)) }
    ensures only { (t : TunnelPacket) → IsTunnel bytes.now t → Gives (packet_of bytes.now) result (Ok t) }
{
    tunnel_in(bytes)
}

/// Parses the tunnel packet, by the same rules.
#[tactic(auto, unfolding(wire_base::specs::model::Tunnel::tunnel_at))]
fn tunnel_in(bytes: &[u8]) -> Result<Tunnel, IpFault>
    ensures exact { Gives (packet_of bytes.now) result (tunnel_at bytes.now) }
    ensures places { IfOk result (HasPlaces bytes.now) }
{
    if bytes.len() < IP_HEAD {
        return Err(IpFault::Short);
    }
    if bytes[0] / 16 != 4 {
        return Err(IpFault::Version);
    }
    if bytes[0] % 16 != 5 {
        return Err(IpFault::Options);
    }
    let total = total_of(bytes);
    if total < IP_HEAD || bytes.len() < total {
        return Err(IpFault::Length);
    }
    if !is_right_header(&bytes[..IP_HEAD]) {
        return Err(IpFault::Checksum);
    }
    if BigEndian::read_u16(&bytes[6..]) % 0x4000 != 0 {
        return Err(IpFault::Fragment);
    }
    if bytes[9] != GRE {
        return Err(IpFault::NotGre);
    }
    gre_in(bytes)
}

/// Returns the total length in an IPv4 header.
fn total_of(bytes: &[u8]) -> usize
    requires { 4 ≤ length bytes.now }
    ensures { result ≡ total_of bytes.now }
{
    usize::from(BigEndian::read_u16(&bytes[2..]))
}

/// Tests the GRE header, after the rules of the IPv4 header hold.
fn gre_in(bytes: &[u8]) -> Result<Tunnel, IpFault>
    requires head { 20 ≤ length bytes.now }
    requires whole { total_of bytes.now ≤ length bytes.now }
    ensures exact { Gives (packet_of bytes.now) result (gre_at bytes.now) }
    ensures places { IfOk result (HasPlaces bytes.now) }
{
    if total_of(bytes) < BOTH_HEADS {
        return Err(IpFault::GreShort);
    }
    if BigEndian::read_u16(&bytes[20..]) != 0 {
        return Err(IpFault::GreFlags);
    }
    match BigEndian::read_u16(&bytes[22..]) {
        MPLS_TYPE => Ok(tunnel_of(Kind::Mpls, bytes)),
        BIER_TYPE => Ok(tunnel_of(Kind::Configured, bytes)),
        _ => Err(IpFault::GreType),
    }
}

/// Returns the tunnel packet at the front, without tests.
fn tunnel_of(inner: Kind, bytes: &[u8]) -> Tunnel
    requires heads { 24 ≤ total_of bytes.now }
    requires whole { total_of bytes.now ≤ length bytes.now }
    ensures value { packet_of bytes.now result ≡ tunnel_of inner bytes.now }
    ensures places { HasPlaces bytes.now result }
{
    Tunnel {
        src: address_at(bytes, 12),
        dst: address_at(bytes, 16),
        ttl: bytes[8],
        inner,
        from: BOTH_HEADS,
        to: total_of(bytes),
    }
}

/// Returns the address at index `at`.
fn address_at(bytes: &[u8], at: usize) -> Ipv4
    requires { at + 4 ≤ length bytes.now }
    ensures { result.0 ≡ take 4 (drop at bytes.now) }
{
    let mut address = [0; 4];
    address.copy_from_slice(&bytes[at..at + 4]);
    Ipv4(address)
}
