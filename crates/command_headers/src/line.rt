//! The line of a record: its BIER header, or why its octets are not a valid header.
ghost use Rattle.std.specs.Prelude.{◌≡◌, ◌≤◌, ◌+◌, ◌++◌, ◌∷◌, [], IfOk, OnOk, length};
ghost use Rattle.std.specs.Fmt.{decimal};
ghost use Rattle.wire_base.specs.model.Place.{bits_of};
ghost use Rattle.wire_base.specs.model.Labels.{stack_at};
ghost use Rattle.wire_base.specs.model.BierHeader.{coded_header_at, header_length};
ghost use Rattle.bier_head.specs.Views.{header_in};
ghost use Rattle.command_headers.specs.HeadersText.{sight_in};
ghost use Rattle.command_headers.specs.Sight as sight;

use bier_head::{HeaderFields, read_fields};
use link_frame::{Class, classify, read_stack};
use pcapng_frames::NgRecord;
use replay_text::{Block, push_rule, put_bit_string};
use wire_base::{HeadFault, Kind, M, Octets};

/// The room of a block in octets. A block without room for as many is appended whole.
const BLOCK: usize = 256;

/// Appends why a record's octets are not a header: the number and the name of the rule that they break.
fn push_bad(out: &mut Octets, fault: HeadFault) -> M<()>
    ensures { OnOk result (out.new ≡ out.old ++ sight.head_fault_text fault) }
{
    out.append(b" bad ")?;
    push_rule(out, fault.number(), fault.name())?;
    out.push(b'\n')
}

fn kind_text(kind: Kind) -> &'static [u8]
    ensures text { result.now ≡ sight.kind_text kind }
    ensures six { length result.now ≡ 6 }
{
    match kind {
        Kind::Mpls => b" mpls ",
        Kind::Configured => b" bier ",
    }
}

/// Appends a number and a space.
fn put_spaced(line: &mut Block, number: u32)
    requires { length line.old + 11 ≤ 256 }
    ensures text { line.new ≡ line.old ++ (decimal number ++ 32 ∷ []) }
    ensures len { length line.new ≤ length line.old + 11 }
{
    line.number(u64::from(number));
    line.push(b' ');
}

/// Appends three numbers, with a space after each.
#[tactic(auto, using(crate::proofs::Lines::three_put))]
fn put_three(line: &mut Block, first: u32, second: u32, third: u32)
    requires { length line.old + 33 ≤ 256 }
    ensures text { line.new ≡ line.old ++ sight.three_text first second third }
    ensures len { length line.new ≤ length line.old + 33 }
{
    put_spaced(line, first);
    put_spaced(line, second);
    put_spaced(line, third);
}

/// Writes the number of a record, its kind, and the fields of its header up to the bit positions into an empty block.
#[tactic(auto, using(crate::proofs::Lines::front_put))]
fn put_front(line: &mut Block, number: u64, kind: Kind, header: &HeaderFields)
    requires { line.old ≡ [] }
    ensures { let h = header.now in
        line.new ≡ decimal number ++ (sight.kind_text kind ++ (sight.three_text h.bift h.ttl (bits_of h.bsl) ++ sight.three_text h.entropy h.proto h.bfir)) }
{
    let bits = header.bsl.bits();
    line.number(number);
    line.append(kind_text(kind));
    put_three(line, header.bift, u32::from(header.ttl), u32::from(bits));
    put_three(
        line,
        header.entropy,
        u32::from(header.proto),
        u32::from(header.bfir),
    );
}

/// Empties a block. It mostly is empty, since each line leaves it so; a new one would be set to zero.
fn empty(line: &mut Block)
    ensures { line.new ≡ [] }
{
    if !line.as_slice().is_empty() {
        *line = Block::new();
    }
}

/// Appends the line of a record with a header, which has those fields and is at the front of those octets. It is collected in
/// `line`.
fn push_seen(
    out: &mut Octets,
    line: &mut Block,
    number: u64,
    kind: Kind,
    header: &HeaderFields,
    bytes: &[u8],
) -> M<()>
    requires { header_length header.now.bsl ≤ length bytes.now }
    ensures { OnOk result (out.new ≡ out.old ++ (decimal number ++ (sight.kind_text kind ++ sight.header_text (header_in bytes.now header.now)))) }
{
    empty(line);
    put_front(line, number, kind, header);
    put_bit_string(out, line, header.bsl, header.bit_string(bytes))?;
    line.make_room(out)?;
    line.push(b'\n');
    line.make_room_for(out, BLOCK)
}

/// Appends the line of a record whose octets are a BIER packet, and returns how many headers it has: one, or none if
/// they are not a header.
fn push_header(out: &mut Octets, line: &mut Block, number: u64, kind: Kind, bytes: &[u8]) -> M<u64>
    ensures text { OnOk result (out.new ≡ out.old ++ sight.sight_text number (sight.sight_by kind (coded_header_at kind bytes.now))) }
    ensures count { IfOk result (λ count. count ≡ sight.sight_count (sight.sight_by kind (coded_header_at kind bytes.now))) }
{
    match read_fields(kind, bytes) {
        Ok(header) => {
            push_seen(out, line, number, kind, &header, bytes)?;
            Ok(1)
        }
        Err(fault) => {
            out.append_number(number)?;
            push_bad(out, fault)?;
            Ok(0)
        }
    }
}

/// Returns whether octets begin with the four bits of a BIER header after a label (RFC 8296, 2.1.2).
fn begins_bier(bytes: &[u8]) -> bool
    ensures { result ≡ sight.begins_bier bytes.now }
{
    match bytes {
        [] => false,
        [octet, ..] => octet / 16 == 5,
    }
}

/// Appends the line of a record that carries a packet after labels, the last of which is the first number of a header.
/// If the stack cannot be parsed, or no BIER header follows it, nothing is appended.
fn push_behind_stack(out: &mut Octets, line: &mut Block, number: u64, bytes: &[u8]) -> M<u64>
    ensures text { OnOk result (out.new ≡ out.old ++ sight.sight_text number (sight.behind_stack bytes.now (stack_at 8 bytes.now))) }
    ensures count { IfOk result (λ count. count ≡ sight.sight_count (sight.behind_stack bytes.now (stack_at 8 bytes.now))) }
{
    let Ok(labels) = read_stack(bytes) else {
        return Ok(0);
    };
    let last = 4 * (labels.len() - 1);
    if begins_bier(&bytes[last + 4..]) {
        push_header(out, line, number, Kind::Mpls, &bytes[last..])
    } else {
        Ok(0)
    }
}

/// Appends the line of a record, if it carries a BIER packet in an Ethernet frame, and returns how many headers it has: one,
/// or none. The line is collected in `line`.
pub fn push_record(out: &mut Octets, line: &mut Block, number: u64, captured: &NgRecord) -> M<u64>
    ensures text { OnOk result (out.new ≡ out.old ++ sight.sight_text number (sight_in captured.now)) }
    ensures count { IfOk result (λ count. count ≡ sight.sight_count (sight_in captured.now)) }
{
    if !captured.ethernet {
        return Ok(0);
    }
    push_frame(out, line, number, captured.cap.octets.as_slice())
}

/// The same for its frame.
#[tactic(auto, unfolding(crate::specs::Sight::sight_of))]
fn push_frame(out: &mut Octets, line: &mut Block, number: u64, frame: &[u8]) -> M<u64>
    ensures text { OnOk result (out.new ≡ out.old ++ sight.sight_text number (sight.sight_of frame.now)) }
    ensures count { IfOk result (λ count. count ≡ sight.sight_count (sight.sight_of frame.now)) }
{
    match classify(frame) {
        Ok(Class::Mpls { from }) => push_behind_stack(out, line, number, &frame[from..]),
        Ok(Class::Bier { from }) => {
            push_header(out, line, number, Kind::Configured, &frame[from..])
        }
        _ => Ok(0),
    }
}
