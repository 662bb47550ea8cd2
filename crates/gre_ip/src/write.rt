ghost use Rattle.std.specs.Prelude.{◌≡◌, ◌≤◌, ◌<◌, ◌+◌, ◌-◌, ◌++◌, ℕ, List, length, take, drop, Ok};
ghost use Rattle.arrayvec.specs.ArrayVec.{array_vec_len};
ghost use Rattle.wire_base.specs.model.Tunnel.{TunnelPacket, TunnelFits, tunnel, tunnel_head, tunnel_at, ip_header, plain_ip};
ghost use Rattle.gre_ip.specs.Tunnels.{packet_with, held_at};

use crate::checksum::checksum_of;
use crate::tunnel::Tunnel;
use arrayvec::ArrayVec;
use wire_base::{Ipv4, Kind};

/// Writes the 24 octets of a tunnel packet before those that it carries: an IPv4 header without options (RFC 791, 3.1),
/// with "don't fragment" set and the identification 0, and a GRE header (RFC 2784, 2). The total length covers
/// both headers and the octets from `from` to `to`.
///
/// Followed by the carried octets, the result is parsed again, whatever follows; and no other packet has this encoding.
pub fn write_tunnel(t: &Tunnel, out: &mut [u8])
    requires room { 24 ≤ length out.old }
    requires ordered { t.now.from ≤ t.now.to }
    requires size { t.now.to - t.now.from ≤ 65511 }
    ensures octets { (carried : List ℕ) → length carried ≡ t.now.to - t.now.from
        → out.new ≡ tunnel_head (packet_with t.now carried) ++ drop 24 out.old }
    ensures again { (carried rest : List ℕ) → length carried ≡ t.now.to - t.now.from
        → tunnel_at (take 24 out.new ++ (carried ++ rest)) ≡ Ok (packet_with t.now carried) }
    ensures held { (carried rest : List ℕ) → t.now.from ≡ 24 → length carried ≡ t.now.to - t.now.from
        → held_at (take 24 out.new ++ (carried ++ rest)) ≡ Ok t.now }
    ensures only { (carried : List ℕ) (other : TunnelPacket) → length carried ≡ t.now.to - t.now.from → TunnelFits other
        → take 24 out.new ++ carried ≡ tunnel other → other ≡ packet_with t.now carried }
{
    out[..24].copy_from_slice(heads(t).as_slice());
}

/// Returns both headers.
fn heads(t: &Tunnel) -> ArrayVec<u8, 24>
    requires ordered { t.now.from ≤ t.now.to }
    requires size { t.now.to - t.now.from ≤ 65511 }
    ensures items { (carried : List ℕ) → length carried ≡ t.now.to - t.now.from
        → result.items ≡ tunnel_head (packet_with t.now carried) }
    ensures len { length result.items ≡ 24 }
    ensures ttl { t.now.ttl < 256 }
    ensures src { length t.now.src.0 ≡ 4 }
    ensures dst { length t.now.dst.0 ≡ 4 }
{
    let total = (24 + (t.to - t.from)) as u16;
    let unsummed = ip_header(total, t.ttl, t.src, t.dst, 0);
    let checksum = checksum_of(unsummed.as_slice());
    let mut octets = ArrayVec::new();
    put(
        &mut octets,
        ip_header(total, t.ttl, t.src, t.dst, checksum).as_slice(),
    );
    put(&mut octets, &[0, 0]);
    put(&mut octets, &t.inner.protocol().to_be_bytes());
    octets
}

/// Returns an IPv4 header with that checksum.
fn ip_header(total: u16, ttl: u8, src: Ipv4, dst: Ipv4, checksum: u16) -> ArrayVec<u8, 20>
    ensures items { result.items ≡ ip_header plain_ip total ttl src dst checksum }
    ensures len { length result.items ≡ 20 }
    ensures src { length src.0 ≡ 4 }
    ensures dst { length dst.0 ≡ 4 }
{
    let mut octets = ArrayVec::new();
    put(&mut octets, &[0x45, 0]);
    put(&mut octets, &total.to_be_bytes());
    put(&mut octets, &[0, 0, 0x40, 0, ttl, 47]);
    put(&mut octets, &checksum.to_be_bytes());
    put(&mut octets, &src.0);
    put(&mut octets, &dst.0);
    octets
}

/// Appends octets. Precondition: there is room for them.
fn put<const N: usize>(octets: &mut ArrayVec<u8, N>, more: &[u8])
    requires { array_vec_len octets.old + length more.now ≤ N }
    ensures items { octets.new.items ≡ octets.old.items ++ more.now }
    ensures len { array_vec_len octets.new ≡ array_vec_len octets.old + length more.now }
{
    octets.try_extend_from_slice(more).unwrap()
}
