//! Capture files as they are written: microseconds, little-endian, version 2.4, at most 65,535 octets of a
//! frame, Ethernet.
ghost use Rattle.std.specs.Prelude.{◌≡◌, ◌≤◌, ◌++◌, ℕ, List, true, length, drop, Ok, Some, OnOk, OnErr};
ghost use Rattle.wire_base.specs.model.Capture.{header_at, record_at, written_header, written_record, octets_in, written_form};

use byteorder::{ByteOrder, LittleEndian};
use wire_base::{M, Octets};

/// The header of each written capture.
const WRITTEN_HEADER: [u8; 24] = [
    0xd4, 0xc3, 0xb2, 0xa1, 0x02, 0x00, 0x04, 0x00, 0x00, 0x00, 0x00, 0x00, 0x00, 0x00, 0x00, 0x00,
    0xff, 0xff, 0x00, 0x00, 0x01, 0x00, 0x00, 0x00,
];

/// Appends the header of a capture file.
pub fn write_cap_header(out: &mut Octets) -> M<()>
    ensures ok { OnOk result (out.new ≡ out.old ++ written_header) }
    ensures again { OnOk result ((rest : List ℕ) → header_at (drop (length out.old) out.new ++ rest) ≡ Ok (Some (written_form, rest))) }
    ensures err { OnErr result (out.new ≡ out.old) }
{
    out.append(&WRITTEN_HEADER)
}

/// Appends a record of a complete frame of at most 65,535 octets, with the second and the microsecond of its sending.
pub fn write_cap_record(out: &mut Octets, sec: u32, usec: u32, frame: &[u8]) -> M<()>
    requires { length frame.now ≤ 65535 }
    ensures ok { OnOk result (out.new ≡ out.old ++ written_record sec usec frame.now) }
    ensures again { OnOk result ((rest : List ℕ) → record_at written_form (drop (length out.old) out.new ++ rest) ≡ Ok (Some (record { sec = sec; usec = usec; whole = true; octets = frame.now }, rest))) }
    ensures err { OnErr result (out.new ≡ out.old) }
{
    append_record(out, sec, usec, frame)
}

/// Appends a record's header and its frame, or neither if an allocation fails. Unlike in `Octets::append_two`, the length of the
/// header is known, so that it is copied by one instruction and not by a call.
fn append_framed(out: &mut Octets, head: &[u8; 16], frame: &[u8]) -> M<()>
    ensures ok { OnOk result (out.new ≡ out.old ++ (head.now ++ frame.now)) }
    ensures err { OnErr result (out.new ≡ out.old) }
{
    let before = out.len();
    out.append(head)?;
    let done = out.append(frame);
    if done.is_err() {
        out.truncate(before);
    }
    done
}

/// Appends the record of a frame, or nothing if an allocation fails.
fn append_record(out: &mut Octets, sec: u32, usec: u32, frame: &[u8]) -> M<()>
    requires { length frame.now ≤ 65535 }
    ensures ok { OnOk result (out.new ≡ out.old ++ written_record sec usec frame.now) }
    ensures err { OnErr result (out.new ≡ out.old) }
{
    append_framed(out, &record_head(sec, usec, frame.len() as u32), frame)
}

/// Returns the 16-octet header of a record with a frame of that many octets.
fn record_head(sec: u32, usec: u32, captured: u32) -> [u8; 16]
    ensures { result ≡ octets_in written_form 4 sec ++ (octets_in written_form 4 usec ++ (octets_in written_form 4 captured ++ octets_in written_form 4 captured)) }
{
    let mut head = [0; 16];
    LittleEndian::write_u32(&mut head[0..], sec);
    LittleEndian::write_u32(&mut head[4..], usec);
    LittleEndian::write_u32(&mut head[8..], captured);
    LittleEndian::write_u32(&mut head[12..], captured);
    head
}
