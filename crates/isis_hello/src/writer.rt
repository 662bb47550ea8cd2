ghost use Rattle.std.specs.Prelude.{◌≡◌, ◌≤◌, ◌+◌, ◌++◌, ◌∷◌, ◌%◌, ◌<◌, ◌^◌, [], ℕ, List, length, Ok, Some, IfOk, OnOk, OnErr};
ghost use Rattle.byteorder.specs.Endian.{big_bytes};
ghost use Rattle.wire_base.specs.model.Item.{isis_frame};
ghost use Rattle.wire_base.specs.model.OwnLsp.{area_tlv, protocols_tlv};
ghost use Rattle.wire_base.specs.model.Pdu.{common};
ghost use Rattle.wire_base.specs.model.Tlv.{tlv};
ghost use Rattle.isis_hello.specs.Events.{hello_frame, hello_in};
ghost use Rattle.isis_hello.specs.Hello.{HelloFits, NamedFits, circuit_type, hello, hello_at, named_octets, tri_number, way, way_of, way_tlv};

use crate::codepoints::{HELLO_FRONT, HELLO_TYPE, TLV_THREE_WAY};
use crate::hello::{Hello, Tri};
use arrayvec::ArrayVec;
use isis_tlv::fixed::put;
use link_frame::write_eth;
use std::alloc::Global;
use wire_base::codepoints::{NLPID_IPV4, TLV_AREA_ADDRESSES, TLV_PROTOCOLS_SUPPORTED};
use wire_base::{End, Level, M, Mac, Octets, RouterConf};

/// The maximum size in octets of a hello that is written: 20, the TLV of an area address of 13 octets, the TLV of the
/// protocols, and a three-way adjacency TLV that lists a neighbor.
pub const MOST_HELLO_OCTETS: usize = 56;

/// Returns the circuit type of a level (ISO/IEC 10589, 9.7).
fn circuit_type(level: Level) -> u8
    ensures { result ≡ circuit_type level }
{
    match level {
        Level::One => 1,
        Level::Two => 2,
    }
}

fn state_number(state: Tri) -> u8
    ensures { result ≡ tri_number state }
{
    match state {
        Tri::Up => 0,
        Tri::Initializing => 1,
        Tri::Down => 2,
    }
}

/// Returns the value of the three-way adjacency TLV of a hello.
fn way_octets(h: &Hello) -> ArrayVec<u8, 15>
    ensures spelled { result.items ≡ way (way_of h.now) }
    ensures named { NamedFits h.now.named }
{
    let mut octets = ArrayVec::new();
    octets.push(state_number(h.state));
    put(&mut octets, &h.circuit.to_be_bytes());
    if let Some((system, circuit)) = h.named {
        put(&mut octets, &system.0);
        put(&mut octets, &circuit.to_be_bytes());
    }
    octets
}

/// Returns the octets before the TLVs of a hello of that length (ISO/IEC 10589, 9.7). Its local circuit ID is the low octet of the
/// circuit.
pub fn hello_front(level: Level, h: &Hello, size: u16) -> ArrayVec<u8, 20>
    ensures spelled { result.items ≡ common HELLO_FRONT HELLO_TYPE ++ (circuit_type level ∷ (h.now.source.0 ++ (big_bytes 2 h.now.hold ++ (big_bytes 2 size ++ (h.now.circuit % 256 ∷ []))))) }
    ensures long { length result.items ≡ 20 }
    ensures source { length h.now.source.0 ≡ 6 }
    ensures hold { h.now.hold < 256 ^ 2 }
    ensures circuit { h.now.circuit < 256 ^ 4 }
{
    let mut front = ArrayVec::new();
    put(
        &mut front,
        &[
            0x83,
            HELLO_FRONT,
            1,
            0,
            HELLO_TYPE,
            1,
            0,
            0,
            circuit_type(level),
        ],
    );
    put(&mut front, &h.source.0);
    put(&mut front, &h.hold.to_be_bytes());
    put(&mut front, &size.to_be_bytes());
    front.push((h.circuit % 256) as u8);
    front
}

/// Returns the TLVs of a hello: the area, the protocols and the state of the adjacency (ISO/IEC 10589, 9.7; RFC 5303, 3).
/// Precondition: an area address of at most 13 octets.
pub fn hello_tlvs(area: &[u8], h: &Hello) -> ArrayVec<u8, 36>
    requires { length area.now ≤ 13 }
    ensures spelled { result.items ≡ tlv (area_tlv area.now) ++ (tlv protocols_tlv ++ tlv (way_tlv (way_of h.now))) }
    ensures short { length result.items ≤ 36 }
    ensures named { NamedFits h.now.named }
{
    let way = way_octets(h);
    let size = area.len() as u8;
    let mut tlvs = ArrayVec::new();
    put(&mut tlvs, &[TLV_AREA_ADDRESSES, size + 1, size]);
    put(&mut tlvs, area);
    put(&mut tlvs, &[TLV_PROTOCOLS_SUPPORTED, 1, NLPID_IPV4]);
    put(&mut tlvs, &[TLV_THREE_WAY, way.len() as u8]);
    put(&mut tlvs, way.as_slice());
    tlvs
}

/// Appends a hello of a router of that level and area. If an allocation fails, the octets are unchanged.
fn append_hello(out: &mut Octets, level: Level, area: &[u8], h: &Hello) -> M<()>
    requires { length area.now ≤ 13 }
    ensures ok { OnOk result (out.new ≡ out.old ++ hello level area.now h.now) }
    ensures err { OnErr result (out.new ≡ out.old) }
    ensures fits { HelloFits h.now }
{
    let tlvs = hello_tlvs(area, h);
    let size = usize::from(HELLO_FRONT) + tlvs.len();
    out.append_two(
        hello_front(level, h, size as u16).as_slice(),
        tlvs.as_slice(),
    )
}

/// Returns the hello of a router of that level and area (ISO/IEC 10589, 9.7; RFC 5303, 3). Its local circuit ID is the low
/// octet of the circuit, and it has no padding. Precondition: an area address of 1 to 13 octets.
pub fn write_hello(alloc: Global, level: Level, area: &Octets, h: &Hello) -> M<Octets>
    requires { length area.now ≤ 13 }
    // The only encoding.
    ensures spelled { IfOk result (λ o. o ≡ hello level area.now h.now) }
    // It is parsed again, whatever follows it.
    ensures again { IfOk result (λ o. (rest : List ℕ) → hello_at (o ++ rest) ≡ Ok h.now) }
    ensures fits { OnOk result (HelloFits h.now) }
    ensures short { IfOk result (λ o. length o ≤ MOST_HELLO_OCTETS) }
{
    let mut out = Octets::with_room(alloc, MOST_HELLO_OCTETS)?;
    append_hello(&mut out, level, area.as_slice(), h)?;
    Ok(out)
}

/// The multicast address of all intermediate systems on a link (ISO/IEC 10589, 8.4.8).
const ALL_ROUTERS: Mac = Mac([0x09, 0x00, 0x2b, 0x00, 0x00, 0x05]);

/// The number of octets before the hello: the Ethernet header and the LLC header, FE FE 03.
pub const HELLO_HEAD: usize = 17;

/// Returns the octets before a hello of that length in its frame (IEEE 802.3, 3.1.1; ISO/IEC 10589, 8.4). Precondition: at most
/// 1,497 octets.
pub fn hello_head(own: Mac, size: u16) -> [u8; HELLO_HEAD]
    requires { size ≤ 1497 }
    ensures spelled { (pdu : List ℕ) → length pdu ≡ size → result ++ pdu ≡ isis_frame own pdu }
    ensures own { length own.0 ≡ 6 }
{
    let mut head = [0, 0, 0, 0, 0, 0, 0, 0, 0, 0, 0, 0, 0, 0, 0xfe, 0xfe, 3];
    write_eth(&mut head, ALL_ROUTERS, own, 3 + size);
    head
}

fn frame_octets(alloc: Global, conf: &RouterConf, end: &End, h: &Hello) -> M<Octets>
    requires { length conf.now.area ≤ 13 }
    ensures spelled { IfOk result (λ frame. frame ≡ hello_frame conf.now end.now h.now) }
    ensures fits { OnOk result (HelloFits h.now × (length end.now.own_mac.0 ≡ 6)) }
    ensures short { IfOk result (λ frame. length frame ≤ HELLO_HEAD + MOST_HELLO_OCTETS) }
{
    let pdu = write_hello(alloc, conf.level, &conf.area, h)?;
    let mut frame = Octets::with_room(alloc, HELLO_HEAD + pdu.len())?;
    frame.append_two(&hello_head(end.own_mac, pdu.len() as u16), pdu.as_slice())?;
    Ok(frame)
}

/// Returns the frame of a hello that a router sends on an interface (IEEE 802.3, 3.1.1; ISO/IEC 10589, 8.4).
pub(crate) fn hello_frame(alloc: Global, conf: &RouterConf, end: &End, h: &Hello) -> M<Octets>
    requires { length conf.now.area ≤ 13 }
    ensures spelled { IfOk result (λ frame. frame ≡ hello_frame conf.now end.now h.now) }
    // What a receiver parses from it is the hello.
    ensures parsed { IfOk result (λ frame. hello_in frame ≡ Some h.now) }
    ensures short { IfOk result (λ frame. length frame ≤ HELLO_HEAD + MOST_HELLO_OCTETS) }
{
    frame_octets(alloc, conf, end, h)
}
