//! Ethernet frames (IEEE 802.3, 3.1.1 and 3.2.6).
ghost use Rattle.std.specs.Prelude.{◌≡◌, ◌≤◌, ◌++◌, List, ℕ, Ok, IfOk, IsTrue, length, drop};
ghost use Rattle.wire_base.specs.model.Fields.{Gives};
ghost use Rattle.wire_base.specs.model.Ethernet.{Carried, IsFrame, IsCarried, ethernet, frame_at, begins_isis, source_at};
ghost use Rattle.link_frame.specs.Frames.{carried, HasPlaces};

use byteorder::{BigEndian, ByteOrder};
use wire_base::ethernet::{BIER_TYPE, FRAME_HEAD, IP_TYPE, MPLS_TYPE};
use wire_base::{FrameFault, Mac};

/// The length of the LLC header before an IS-IS PDU (ISO/IEC 8802-2, 5).
const ISIS_HEAD: usize = 3;

/// The largest value of octets 13 and 14 that is a length (IEEE 802.3, 3.2.6).
const MOST_LENGTH: u16 = 1500;

/// The content of a frame, and its range: octets `from` up to before `to`, counted from 0, or `from` to the end.
#[derive(Clone, Copy, Debug, PartialEq, Eq)]
pub enum Class {
    /// An IS-IS PDU (ISO/IEC 10589, 9).
    Isis { from: usize, to: usize },
    /// A packet with MPLS labels (RFC 3032, 3.3).
    Mpls { from: usize },
    /// A BIER packet without MPLS (RFC 8296, 3).
    Bier { from: usize },
    /// An IPv4 packet.
    Ip { from: usize },
    /// Anything else.
    Other,
}

/// Returns the class of a frame. Destination addresses are not tested, and octets beyond a length are padding.
///
/// Errors, in this order: 1 Short, fewer than 14 octets; 2 Length, a length that exceeds the octets after it.
pub fn classify(frame: &[u8]) -> Result<Class, FrameFault>
    ensures exact { Gives (carried frame.now) result (frame_at frame.now) }
    ensures places { IfOk result (HasPlaces (length frame.now)) }
    ensures found { IfOk result (λ class. IsFrame frame.now (carried frame.now class)) }
    ensures only { (c : Carried) → IsFrame frame.now c → Gives (carried frame.now) result (Ok c) }
{
    class_of(frame)
}

/// Returns the class of a frame, by the same rules.
#[tactic(auto, unfolding(wire_base::specs::model::Ethernet::frame_at))]
fn class_of(frame: &[u8]) -> Result<Class, FrameFault>
    ensures exact { Gives (carried frame.now) result (frame_at frame.now) }
    ensures places { IfOk result (HasPlaces (length frame.now)) }
{
    if frame.len() < FRAME_HEAD {
        return Err(FrameFault::Short);
    }
    let number = BigEndian::read_u16(&frame[12..]);
    if number > MOST_LENGTH {
        return Ok(match number {
            MPLS_TYPE => Class::Mpls { from: FRAME_HEAD },
            BIER_TYPE => Class::Bier { from: FRAME_HEAD },
            IP_TYPE => Class::Ip { from: FRAME_HEAD },
            _ => Class::Other,
        });
    }
    let counted = usize::from(number);
    if frame.len() - FRAME_HEAD < counted {
        return Err(FrameFault::Length);
    }
    if is_isis(&frame[FRAME_HEAD..FRAME_HEAD + counted]) {
        return Ok(Class::Isis {
            from: FRAME_HEAD + ISIS_HEAD,
            to: FRAME_HEAD + counted,
        });
    }
    Ok(Class::Other)
}

/// Returns whether octets begin with the LLC header of IS-IS.
fn is_isis(octets: &[u8]) -> bool
    ensures value { result ≡ begins_isis octets.now }
    ensures long { IsTrue result → 3 ≤ length octets.now }
{
    octets.len() >= ISIS_HEAD && octets[0] == 0xfe && octets[1] == 0xfe && octets[2] == 3
}

/// Returns the source address of a frame of at least 12 octets.
pub fn source_of(frame: &[u8]) -> Mac
    requires { 12 ≤ length frame.now }
    ensures { result.0 ≡ source_at frame.now }
{
    let mut source = [0; 6];
    source.copy_from_slice(&frame[6..12]);
    Mac(source)
}

/// Writes the Ethernet header, the first 14 octets of a frame: the addresses, and a length or an EtherType.
pub fn write_eth(out: &mut [u8], to: Mac, from: Mac, number: u16)
    requires { 14 ≤ length out.old }
    ensures written { out.new ≡ ethernet to.0 from.0 number ++ drop 14 out.old }
    ensures source { source_at out.new ≡ from.0 }
    ensures again { (c : Carried) → IsCarried number (drop 14 out.old) c → frame_at out.new ≡ Ok c }
{
    out[..FRAME_HEAD].copy_from_slice(head(to, from, number).as_slice());
}

/// Returns the first 14 octets of a frame.
fn head(to: Mac, from: Mac, number: u16) -> [u8; FRAME_HEAD]
    ensures items { result ≡ ethernet to.0 from.0 number }
    ensures six_to { length to.0 ≡ 6 }
    ensures six_from { length from.0 ≡ 6 }
{
    let [a, b, c, d, e, f] = to.0;
    let [g, h, i, j, k, l] = from.0;
    let [high, low] = number.to_be_bytes();
    [a, b, c, d, e, f, g, h, i, j, k, l, high, low]
}
