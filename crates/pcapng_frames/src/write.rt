//! pcapng captures as they are written: one little-endian section, Ethernet interfaces, and a packet block per frame with its
//! time in microseconds.
ghost use Rattle.std.specs.Prelude.{◌≡◌, ◌≤◌, ◌<◌, ◌+◌, ◌*◌, ◌/◌, ◌%◌, ◌++◌, ◌-◌, ℕ, List, [], length, take, drop, replicate, OnOk, OnErr};
ghost use Rattle.byteorder.specs.Endian.{little_bytes};
ghost use Rattle.pcapng_frames.specs.Times.{padded};
ghost use Rattle.pcapng_frames.specs.declared.moment.Moment.{Moment};
ghost use Rattle.pcapng_frames.specs.Draining.{more_after};
ghost use Rattle.pcapng_frames.specs.Reading.{ng_unread, ng_fed, ng_drained};
ghost use Rattle.pcapng_frames.specs.Written.{written_head, written_block, written_body, written_packet, written_record, writing};

use byteorder::{ByteOrder, LittleEndian};
use wire_base::{M, Octets};

/// The section header of each written capture.
const WRITTEN_SECTION: [u8; 28] = [
    0x0a, 0x0d, 0x0d, 0x0a, 0x1c, 0x00, 0x00, 0x00, 0x4d, 0x3c, 0x2b, 0x1a, 0x01, 0x00, 0x00, 0x00,
    0xff, 0xff, 0xff, 0xff, 0xff, 0xff, 0xff, 0xff, 0x1c, 0x00, 0x00, 0x00,
];

/// Each of its interfaces.
const WRITTEN_INTERFACE: [u8; 20] = [
    0x01, 0x00, 0x00, 0x00, 0x14, 0x00, 0x00, 0x00, 0x01, 0x00, 0x00, 0x00, 0xff, 0xff, 0x00, 0x00,
    0x14, 0x00, 0x00, 0x00,
];

/// Appends the section header of a capture, and that many interfaces, at most 64,000.
pub fn write_ng_head(out: &mut Octets, interfaces: u32) -> M<()>
    requires { interfaces ≤ 64000 }
    ensures ok { OnOk result (out.new ≡ out.old ++ written_head interfaces) }
    ensures again { OnOk result ((rest : List ℕ) → ng_drained (ng_fed ng_unread (drop (length out.old) out.new ++ rest)) ≡ ng_drained (writing interfaces (record { sec = 0; usec = 0 }) rest)) }
    ensures err { OnErr result (out.new ≡ out.old) }
{
    append_whole_head(out, interfaces)
}

/// Appends a packet with a complete frame of at most 65,535 octets on that interface, with the second and the microsecond of its
/// sending.
pub fn write_ng_record(out: &mut Octets, interface: u32, sec: u32, usec: u32, frame: &[u8]) -> M<()>
    requires part { usec < 1000000 }
    requires short { length frame.now ≤ 65535 }
    ensures ok { OnOk result (out.new ≡ out.old ++ written_packet interface sec usec frame.now) }
    ensures again { OnOk result ((interfaces : ℕ) (before : Moment) (rest : List ℕ) → interface < interfaces → ng_drained (writing interfaces before (drop (length out.old) out.new ++ rest)) ≡ more_after (written_record interface sec usec frame.now) (ng_drained (writing interfaces (record { sec = sec; usec = usec }) rest))) }
    ensures err { OnErr result (out.new ≡ out.old) }
{
    append_whole_packet(out, interface, sec, usec, frame)
}

/// Appends the section header and the interfaces, or nothing if an allocation fails.
fn append_whole_head(out: &mut Octets, interfaces: u32) -> M<()>
    ensures ok { OnOk result (out.new ≡ out.old ++ written_head interfaces) }
    ensures err { OnErr result (out.new ≡ out.old) }
{
    let before = out.len();
    let done = append_head(out, interfaces);
    if done.is_err() {
        out.truncate(before);
    }
    done
}

/// Appends the packet, or nothing if an allocation fails.
fn append_whole_packet(out: &mut Octets, interface: u32, sec: u32, usec: u32, frame: &[u8]) -> M<()>
    requires short { length frame.now ≤ 65535 }
    ensures ok { OnOk result (out.new ≡ out.old ++ written_packet interface sec usec frame.now) }
    ensures err { OnErr result (out.new ≡ out.old) }
{
    let before = out.len();
    let ticks = u64::from(sec) * 1_000_000 + u64::from(usec);
    let done = append_packet(out, interface, ticks, frame);
    if done.is_err() {
        out.truncate(before);
    }
    done
}

/// Appends the section header and the interfaces, or some of their octets if an allocation fails.
fn append_head(out: &mut Octets, interfaces: u32) -> M<()>
    ensures ok { OnOk result (out.new ≡ out.old ++ written_head interfaces) }
    ensures front { take (length out.old) out.new ≡ out.old }
{
    out.append(&WRITTEN_SECTION)?;
    for done in 0..interfaces {
        out.append(&WRITTEN_INTERFACE)?;
    }
    Ok(())
}

/// Appends the packet, or some of its octets if an allocation fails.
fn append_packet(out: &mut Octets, interface: u32, ticks: u64, frame: &[u8]) -> M<()>
    requires short { length frame.now ≤ 65535 }
    ensures ok { OnOk result (out.new ≡ out.old ++ written_block 6 (written_body interface ticks frame.now)) }
    ensures front { take (length out.old) out.new ≡ out.old }
{
    let captured = frame.len() as u32;
    let padding = padding_of(captured);
    let total = 32 + captured + padding;
    out.append_two(&packet_head(total, interface, ticks, captured), frame)?;
    append_end(out, padding, total)
}

/// Appends that many octets of padding, fewer than four, and the total length; nothing if an allocation fails.
fn append_end(out: &mut Octets, padding: u32, total: u32) -> M<()>
    requires { padding < 4 }
    ensures ok { OnOk result (out.new ≡ out.old ++ (replicate padding 0 ++ little_bytes 4 total)) }
    ensures err { OnErr result (out.new ≡ out.old) }
{
    let zeros = match padding {
        0 => b"".as_slice(),
        1 => b"\0",
        2 => b"\0\0",
        _ => b"\0\0\0",
    };
    out.append_two(zeros, &number_octets(total))
}

/// Returns how many octets fill the last four of that many.
fn padding_of(captured: u32) -> u32
    requires { captured ≤ 65535 }
    ensures exact { result ≡ padded captured - captured }
    ensures few { result < 4 }
    ensures whole { captured + result ≡ padded captured }
{
    (captured + 3) / 4 * 4 - captured
}

/// Returns a number in its octets.
fn number_octets(number: u32) -> [u8; 4]
    ensures { result ≡ little_bytes 4 number }
{
    let mut octets = [0; 4];
    LittleEndian::write_u32(&mut octets, number);
    octets
}

/// Returns the octets of an enhanced packet block of that total length before the frame.
fn packet_head(total: u32, interface: u32, ticks: u64, captured: u32) -> [u8; 28]
    ensures { result ≡ little_bytes 4 6 ++ (little_bytes 4 total ++ (little_bytes 4 interface ++ (little_bytes 4 (ticks / 4294967296) ++ (little_bytes 4 (ticks % 4294967296) ++ (little_bytes 4 captured ++ little_bytes 4 captured))))) }
{
    let mut head = [0; 28];
    LittleEndian::write_u32(&mut head[0..], 6);
    LittleEndian::write_u32(&mut head[4..], total);
    LittleEndian::write_u32(&mut head[8..], interface);
    LittleEndian::write_u32(&mut head[12..], (ticks / 4_294_967_296) as u32);
    LittleEndian::write_u32(&mut head[16..], (ticks % 4_294_967_296) as u32);
    LittleEndian::write_u32(&mut head[20..], captured);
    LittleEndian::write_u32(&mut head[24..], captured);
    head
}
