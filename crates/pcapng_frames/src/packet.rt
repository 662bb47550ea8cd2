//! Packets, as whole blocks have them.
ghost use Rattle.std.specs.Prelude.{◌≡◌, ◌≤◌, ◌+◌, ◌-◌, [], true, length, take, drop, Some, IfOk, IfErr};
ghost use Rattle.pcapng_frames.specs.Packets.{is_long, enhanced_on, enhanced_at, snapped, simple_on, simple_of, simple_at, record_of};
ghost use Rattle.pcapng_frames.specs.Blocks.{number};
ghost use Rattle.pcapng_frames.specs.Seen.{IsLasting};

use crate::faults::NgFault;
use crate::interface::Interface;
use crate::moment::{Moment, moment_at};
use crate::order::Order;
use pcap_frames::CapRecord;
use std::alloc::Global;
use wire_base::limits::MOST_CAPTURED;
use wire_base::{M, Octets};

/// A captured packet: the number of its interface in its section, whether that interface is Ethernet, and the captured frame
/// with its time.
#[derive(Drop)]
pub struct NgRecord {
    pub interface: u32,
    pub ethernet: bool,
    pub cap: CapRecord,
}

impl NgRecord {
    /// Creates a record to read into: an empty frame on interface 0, which was captured at time 0.
    pub fn empty(alloc: Global) -> NgRecord
        ensures { result ≡ record { interface = 0; ethernet = true; cap = record { sec = 0; usec = 0; whole = true; octets = [] } } }
    {
        NgRecord {
            interface: 0,
            ethernet: true,
            cap: CapRecord::empty(alloc),
        }
    }
}

/// A packet before its octets are copied: they are `captured` octets of its block after the first `start`.
#[derive(Clone, Copy)]
pub struct Packet {
    pub interface: u32,
    pub ethernet: bool,
    pub moment: Moment,
    pub whole: bool,
    pub start: usize,
    pub captured: usize,
}

/// Returns whether data of that length exceed the octets that are there for them, or the maximum.
fn exceeds(captured: u32, room: usize) -> bool
    ensures { result ≡ is_long captured room }
{
    captured as usize > room || captured > MOST_CAPTURED
}

/// Returns the packet that a whole enhanced packet block has.
pub fn read_enhanced(
    order: Order,
    interfaces: &[Interface],
    octets: &[u8],
) -> Result<Packet, NgFault>
    requires { 32 ≤ length octets.now }
    ensures exact { result ≡ enhanced_at order interfaces.now octets.now }
    ensures within { IfOk result (λ packet. packet.start + packet.captured ≤ length octets.now) }
    ensures lasting { IfErr result IsLasting }
{
    let place = order.four_at(octets, 8);
    match interfaces.get(place as usize) {
        Some(interface) => read_on(order, place, *interface, octets),
        None => Err(NgFault::NgInterface),
    }
}

/// The same on that interface.
fn read_on(order: Order, place: u32, interface: Interface, octets: &[u8]) -> Result<Packet, NgFault>
    requires { 32 ≤ length octets.now }
    ensures exact { result ≡ enhanced_on order octets.now place (Some interface) }
    ensures within { IfOk result (λ packet. packet.start + packet.captured ≤ length octets.now) }
    ensures lasting { IfErr result IsLasting }
{
    let captured = order.four_at(octets, 20);
    if exceeds(captured, octets.len() - 32) {
        return Err(NgFault::NgPacket);
    }
    let high = u64::from(order.four_at(octets, 12));
    let low = u64::from(order.four_at(octets, 16));
    match moment_at(high * 4_294_967_296 + low, interface.resolution) {
        Some(moment) => Ok(Packet {
            interface: place,
            ethernet: interface.ethernet,
            moment,
            whole: captured == order.four_at(octets, 24),
            start: 28,
            captured: captured as usize,
        }),
        None => Err(NgFault::NgTime),
    }
}

/// Returns the packet that a whole simple packet block has, after a packet at that time.
pub fn read_simple(
    order: Order,
    interfaces: &[Interface],
    before: Moment,
    octets: &[u8],
) -> Result<Packet, NgFault>
    requires { 16 ≤ length octets.now }
    ensures exact { result ≡ simple_at order interfaces.now before octets.now }
    ensures within { IfOk result (λ packet. packet.start + packet.captured ≤ length octets.now) }
    ensures lasting { IfErr result IsLasting }
{
    match interfaces.get(0) {
        Some(interface) => read_first(order, *interface, before, octets),
        None => Err(NgFault::NgInterface),
    }
}

/// The same on that interface.
fn read_first(
    order: Order,
    interface: Interface,
    before: Moment,
    octets: &[u8],
) -> Result<Packet, NgFault>
    requires { 16 ≤ length octets.now }
    ensures exact { result ≡ simple_on order before octets.now (Some interface) }
    ensures within { IfOk result (λ packet. packet.start + packet.captured ≤ length octets.now) }
    ensures lasting { IfErr result IsLasting }
{
    let original = order.four_at(octets, 8);
    let captured = snap_to(interface.snap, original);
    if exceeds(captured, octets.len() - 16) {
        return Err(NgFault::NgPacket);
    }
    Ok(Packet {
        interface: 0,
        ethernet: interface.ethernet,
        moment: before,
        whole: captured == original,
        start: 12,
        captured: captured as usize,
    })
}

/// Returns how many octets of that many a simple packet has under a snap length.
fn snap_to(snap: u32, original: u32) -> u32
    ensures { result ≡ snapped snap original }
{
    if snap == 0 {
        original
    } else {
        original.min(snap)
    }
}

/// Returns the record of a packet that stands in these octets.
pub fn copy_record(alloc: Global, packet: Packet, octets: &[u8]) -> M<NgRecord>
    requires { packet.start + packet.captured ≤ length octets.now }
    ensures { IfOk result (λ made. made ≡ record_of packet octets.now) }
{
    let frame = &octets[packet.start..packet.start + packet.captured];
    Ok(NgRecord {
        interface: packet.interface,
        ethernet: packet.ethernet,
        cap: CapRecord {
            sec: packet.moment.sec,
            usec: packet.moment.usec,
            whole: packet.whole,
            octets: Octets::from_slice(alloc, frame)?,
        },
    })
}
