//! The header of a capture file.
ghost use Rattle.std.specs.Prelude.{◌≡◌, ◌≤◌, ◌+◌, length, drop, Some, IfOk, IfErr, option_map};
ghost use Rattle.wire_base.specs.model.Fields.{Gives};
ghost use Rattle.wire_base.specs.model.Capture.{number_in, form_of, header_at, formed_at};
ghost use Rattle.pcap_frames.specs.Seen.{form_seen, opened, HasHeader, IsLasting};

use byteorder::{BigEndian, ByteOrder, LittleEndian};
use wire_base::CaptureFault;

/// The length in octets of a capture's header.
pub const HEADER: usize = 24;

/// The link type of Ethernet.
const ETHERNET: u32 = 1;

/// The format of a capture: its byte order, and whether fractions of a second are in nanoseconds
/// or in microseconds.
#[derive(Clone, Copy, Debug, PartialEq, Eq)]
pub struct Form {
    pub low_first: bool,
    pub nanoseconds: bool,
}

impl Form {
    /// Returns the format of a magic number, which was read with its highest octet first.
    pub fn of_magic(number: u32) -> Option<Form>
        ensures { option_map form_seen result ≡ form_of number }
    {
        let (low_first, nanoseconds) = match number {
            0xa1b2_c3d4 => (false, false),
            0xa1b2_3c4d => (false, true),
            0xd4c3_b2a1 => (true, false),
            0x4d3c_b2a1 => (true, true),
            _ => return None,
        };
        Some(Form {
            low_first,
            nanoseconds,
        })
    }

    /// Returns the 16-bit number at index `at`.
    pub fn two_at(self, bytes: &[u8], at: usize) -> u16
        requires { at + 2 ≤ length bytes.now }
        ensures { result ≡ number_in (form_seen self) 2 (drop at bytes.now) }
    {
        if self.low_first {
            LittleEndian::read_u16(&bytes[at..])
        } else {
            BigEndian::read_u16(&bytes[at..])
        }
    }

    /// Returns the 32-bit number at index `at`.
    pub fn four_at(self, bytes: &[u8], at: usize) -> u32
        requires { at + 4 ≤ length bytes.now }
        ensures { result ≡ number_in (form_seen self) 4 (drop at bytes.now) }
    {
        if self.low_first {
            LittleEndian::read_u32(&bytes[at..])
        } else {
            BigEndian::read_u32(&bytes[at..])
        }
    }
}

/// Returns the format of the capture that begins with these octets; None if the header is not complete yet.
#[tactic(auto, unfolding(wire_base::specs::model::Capture::header_at))]
pub fn read_header(bytes: &[u8]) -> Result<Option<Form>, CaptureFault>
    ensures exact { Gives (opened bytes.now) result (header_at bytes.now) }
    ensures within { IfOk result (HasHeader (length bytes.now)) }
    ensures lasting { IfErr result IsLasting }
{
    if bytes.len() < 4 {
        return Ok(None);
    }
    match Form::of_magic(BigEndian::read_u32(bytes)) {
        Some(form) => read_formed(form, bytes),
        None => Err(CaptureFault::Magic),
    }
}

/// The same, after the magic number was recognized.
fn read_formed(form: Form, bytes: &[u8]) -> Result<Option<Form>, CaptureFault>
    ensures exact { Gives (opened bytes.now) result (formed_at (Some (form_seen form)) bytes.now) }
    ensures within { IfOk result (HasHeader (length bytes.now)) }
    ensures lasting { IfErr result IsLasting }
{
    if bytes.len() < HEADER {
        return Ok(None);
    }
    if form.two_at(bytes, 4) != 2 || form.two_at(bytes, 6) != 4 {
        return Err(CaptureFault::Version);
    }
    if form.four_at(bytes, 20) % 65_536 != ETHERNET {
        return Err(CaptureFault::LinkType);
    }
    Ok(Some(form))
}
