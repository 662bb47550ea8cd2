//! A hello with the address of its interface, and its frame. The library's hello has no such TLV; other routers need the address
//! to reach what is behind the interface.
ghost use Rattle.std.specs.Prelude.{◌≡◌, ◌≤◌, ◌++◌, length, IfOk};
ghost use Rattle.std.specs.List.{flat_map};
ghost use Rattle.wire_base.specs.model.OwnLsp.{area_tlv, protocols_tlv};
ghost use Rattle.wire_base.specs.model.Tlv.{tlv};
ghost use Rattle.isis_hello.specs.Hello.{way_of, way_tlv};
ghost use Rattle.live_stream.specs.HelloRun as hello;

use arrayvec::ArrayVec;
use isis_hello::codepoints::HELLO_FRONT;
use isis_hello::{HELLO_HEAD, Hello, hello_front, hello_head, hello_tlvs};
use isis_tlv::fixed::put;
use std::alloc::Global;
use wire_base::{End, M, Octets, RouterConf};

/// IP Interface Addresses (RFC 1195, 5.3.2).
pub const TLV_INTERFACE_ADDRESSES: u8 = 132;

/// The maximum size in octets of a hello that is written: 20, and 42 of TLVs.
const MOST_HELLO: usize = 62;

/// Returns the TLVs of a hello: the area, the protocols, the state of the adjacency, and the interface's address if it has one.
fn tlvs(area: &[u8], h: &Hello, address: Option<[u8; 4]>) -> ArrayVec<u8, 42>
    requires { length area.now ≤ 13 }
    ensures spelled { result.items ≡ tlv (area_tlv area.now) ++ (tlv protocols_tlv ++ (tlv (way_tlv (way_of h.now)) ++ flat_map tlv (hello.address_tlvs address))) }
    ensures short { length result.items ≤ 42 }
{
    let mut tlvs = ArrayVec::new();
    put(&mut tlvs, hello_tlvs(area, h).as_slice());
    if let Some(address) = address {
        put(&mut tlvs, &[TLV_INTERFACE_ADDRESSES, 4]);
        put(&mut tlvs, &address);
    }
    tlvs
}

/// Returns the hello of a router (ISO/IEC 10589, 9.7; RFC 5303, 3). Its local circuit ID is the low octet of the circuit, and it
/// has no padding.
fn write_hello(alloc: Global, conf: &RouterConf, h: &Hello, address: Option<[u8; 4]>) -> M<Octets>
    requires { length conf.now.area ≤ 13 }
    ensures spelled { IfOk result (λ o. o ≡ hello.hello_octets conf.now h.now address) }
    ensures short { IfOk result (λ o. length o ≤ MOST_HELLO) }
{
    let tlvs = tlvs(conf.area.as_slice(), h, address);
    let size = usize::from(HELLO_FRONT) + tlvs.len();
    let mut out = Octets::with_room(alloc, MOST_HELLO)?;
    out.append_two(
        hello_front(conf.level, h, size as u16).as_slice(),
        tlvs.as_slice(),
    )?;
    Ok(out)
}

/// Returns the frame of a hello that a router sends on an interface (IEEE 802.3, 3.1.1; ISO/IEC 10589, 8.4).
pub fn frame_of(
    alloc: Global,
    conf: &RouterConf,
    end: &End,
    h: &Hello,
    address: Option<[u8; 4]>,
) -> M<Octets>
    requires { length conf.now.area ≤ 13 }
    ensures { IfOk result (λ frame. frame ≡ hello.hello_frame conf.now end.now h.now address) }
{
    let pdu = write_hello(alloc, conf, h, address)?;
    let mut frame = Octets::with_room(alloc, HELLO_HEAD + pdu.len())?;
    frame.append_two(&hello_head(end.own_mac, pdu.len() as u16), pdu.as_slice())?;
    Ok(frame)
}
