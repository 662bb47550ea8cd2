//! Records of the stream that are events.
ghost use Rattle.std.specs.Prelude.{◌≡◌, ◌≤◌, length, drop, IsTrue};
ghost use Rattle.live_stream.specs.Events as events;

use byteorder::{BigEndian, ByteOrder};
use pcapng_frames::NgRecord;
use wire_base::ethernet::FRAME_HEAD;

/// The EtherType of events, the first one for local experiments (IEEE 802, 9.2.3).
pub const EVENT_TYPE: u16 = 0x88b5;

/// The version of the format of events.
pub const EVENT_VERSION: u8 = 1;

/// Returns whether a record is an event: a whole Ethernet frame of that type.
pub fn is_event(captured: &NgRecord) -> bool
    ensures value { result ≡ events.is_event captured.now }
    ensures long { IsTrue result → FRAME_HEAD ≤ length captured.now.cap.octets }
{
    let octets = captured.cap.octets.as_slice();
    captured.ethernet
        && captured.cap.whole
        && octets.len() >= FRAME_HEAD
        && BigEndian::read_u16(&octets[12..]) == EVENT_TYPE
}

/// Returns what follows the Ethernet header of an event.
pub fn content_of(octets: &[u8]) -> &[u8]
    requires { FRAME_HEAD ≤ length octets.now }
    ensures { result.now ≡ drop FRAME_HEAD octets.now }
{
    &octets[FRAME_HEAD..]
}
