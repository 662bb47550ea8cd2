ghost use Rattle.std.specs.Prelude.{◌≡◌, ◌≤◌, ◌++◌, ℕ, List, length, take, drop, Ok};
ghost use Rattle.wire_base.specs.model.Tunnel.{TunnelPacket, IsTunnel, header_with, total_of, tunnel_at, tunnel_on};

use crate::checksum::checksum_of;
use byteorder::{BigEndian, ByteOrder};

/// Replaces the TTL of a tunnel packet to be forwarded, and updates the checksum (RFC 791, 3.1; RFC 1812, 5.3.1).
/// No other octet changes, including those past the total length. The result is parsed as the same tunnel packet with the
/// new TTL, whatever follows it.
pub fn write_onward(packet: &mut [u8], ttl: u8)
    requires head { 20 ≤ total_of packet.old }
    requires whole { total_of packet.old ≤ length packet.old }
    ensures octets { packet.new ≡ tunnel_on packet.old ttl ++ drop (total_of packet.old) packet.old }
    ensures again { (t : TunnelPacket) (rest : List ℕ) → IsTunnel packet.old t
        → tunnel_at (packet.new ++ rest) ≡ Ok (record t { ttl = ttl }) }
{
    write_fields(packet, ttl, 0);
    let checksum = checksum_of(&packet[..20]);
    write_fields(packet, ttl, checksum);
}

/// Writes a TTL and a checksum over those of the header.
fn write_fields(packet: &mut [u8], ttl: u8, checksum: u16)
    requires { 20 ≤ length packet.old }
    ensures { packet.new ≡ header_with packet.old ttl checksum ++ drop 20 packet.old }
{
    packet[8] = ttl;
    BigEndian::write_u16(&mut packet[10..], checksum);
}
