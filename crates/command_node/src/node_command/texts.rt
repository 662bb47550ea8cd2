//! What a node sent, as records of a capture, and the lines of its report.
ghost use Rattle.std.specs.Prelude.{◌≡◌, ◌≤◌, ◌++◌, ◌∷◌, [], codes, map, filter, flat_map, IfOk, OnOk};
ghost use Rattle.std.specs.Fmt.{decimal};
ghost use Rattle.bier_bits.specs.Any.{bsl_of, positions_of};
ghost use Rattle.bier_forward.specs.Sets.{set_in, HaveLength};
ghost use Rattle.wire_base.specs.model.BitSet.{has_member};
ghost use Rattle.wire_base.specs.model.Place.{bits_of, id_at};
ghost use Rattle.router_core.specs.Bounds.{FitRecords};
ghost use Rattle.command_drive.specs.Answer.{behind};
ghost use Rattle.command_drive.specs.Captured.{refused_record};
ghost use Rattle.domain_model.specs.Moves.{listed};
ghost use Rattle.command_node.specs.NodeRun as run;

use super::tally::Tally;
use bier_bits::AnyBits;
use command_drive::push_refused;
use pcap_frames::write_cap_record;
use replay_text::{push_loss, push_number, push_payload};
use router_core::{DropNote, Effects, Got, Packet, SentFrames};
use std::alloc::Global;
use wire_base::{M, Octets, Rows, Status, Triple};

/// Appends a record of each frame, in order, with that time.
pub fn push_frames(out: &mut Octets, sec: u32, usec: u32, sent: &SentFrames) -> M<()>
    requires { FitRecords sent.now }
    ensures { OnOk result (out.new ≡ out.old ++ run.frames_text sec usec sent.now) }
{
    'frames: for i in 0..sent.len() {
        write_cap_record(out, sec, usec, sent.octets_at(i))?;
    }
    Ok(())
}

/// Appends the number of a record, and the keyword of what is reported of it.
fn push_front(out: &mut Octets, number: u64, what: &[u8]) -> M<()>
    ensures { OnOk result (out.new ≡ out.old ++ (decimal number ++ what.now)) }
{
    out.append_number(number)?;
    out.append(what)
}

/// Appends the line of a delivery.
fn push_got(out: &mut Octets, number: u64, got: &Got) -> M<()>
    ensures { OnOk result (out.new ≡ out.old ++ run.got_text number got.now) }
{
    push_front(out, number, b" got ")?;
    push_number(out, u32::from(got.sd))?;
    push_number(out, u32::from(got.id))?;
    push_number(out, u32::from(got.bfir))?;
    push_payload(out, got.payload.as_slice())?;
    out.push(b'\n')
}

/// Appends the BFR-id of a bit position, if the BitString has that bit and the number is a BFR-id.
fn push_id(ids: &mut Rows<u16>, triple: Triple, bits: &AnyBits, position: u16) -> M<()>
    requires low { 1 ≤ position }
    requires high { position ≤ bits_of (bsl_of bits.now) }
    ensures { OnOk result (ids.new ≡ ids.old ++ listed (map (id_at triple) (filter (λ p. has_member p (positions_of bits.now)) (position ∷ [])))) }
{
    let id = u32::from(triple.si) * u32::from(triple.bsl.bits()) + u32::from(position);
    if bits.has(position) && id <= 65535 {
        ids.push(id as u16)?;
    }
    Ok(())
}

/// Returns the BFR-ids of bit positions of a triple, ascending. A number above 65,535 is not a BFR-id, and is not
/// listed.
fn ids_listed(alloc: Global, triple: Triple, bits: &AnyBits) -> M<Rows<u16>>
    requires { bsl_of bits.now ≡ triple.bsl }
    ensures { IfOk result (λ ids. ids ≡ listed (map (id_at triple) (positions_of bits.now))) }
{
    let mut ids = Rows::new(alloc);
    for position in 0..bits.bsl().bits() {
        push_id(&mut ids, triple, bits, position + 1)?;
    }
    Ok(ids)
}

/// Returns the BFR-ids of a drop; the drop of a whole frame has none.
fn ids_dropped(alloc: Global, sets: &Option<Packet>) -> M<Rows<u16>>
    requires { HaveLength sets.now }
    ensures { IfOk result (λ ids. ids ≡ run.dropped_ids (set_in sets.now)) }
{
    match sets {
        None => Ok(Rows::new(alloc)),
        Some(packet) => ids_listed(alloc, packet.triple, &packet.bits),
    }
}

/// Appends the line of a drop.
fn push_drop(alloc: Global, out: &mut Octets, number: u64, note: &DropNote) -> M<()>
    ensures { OnOk result (out.new ≡ out.old ++ run.drop_text number note.now) }
{
    let ids = ids_dropped(alloc, &note.sets)?;
    push_front(out, number, b" drop ")?;
    push_loss(out, &note.cause, ids.as_slice())
}

fn push_gots(out: &mut Octets, number: u64, gots: &[Got]) -> M<()>
    ensures { OnOk result (out.new ≡ out.old ++ flat_map (run.got_text number) gots.now) }
{
    for got in gots {
        push_got(out, number, got)?;
    }
    Ok(())
}

fn push_drops(alloc: Global, out: &mut Octets, number: u64, drops: &[DropNote]) -> M<()>
    ensures { OnOk result (out.new ≡ out.old ++ flat_map (run.drop_text number) drops.now) }
{
    for note in drops {
        push_drop(alloc, out, number, note)?;
    }
    Ok(())
}

/// Appends the lines of a record: its deliveries, as `RECORD got SD ID BFIR PAYLOAD`, and then its drops, as
/// `RECORD drop CAUSE IDS`.
pub fn push_effects(alloc: Global, out: &mut Octets, number: u64, effects: &Effects) -> M<()>
    ensures { OnOk result (out.new ≡ out.old ++ run.effects_text number effects.now) }
{
    push_gots(out, number, effects.got.as_slice())?;
    push_drops(alloc, out, number, effects.drops.as_slice())
}

/// Appends a keyword and the number after it.
fn push_count(out: &mut Octets, what: &[u8], count: u64) -> M<()>
    ensures { OnOk result (out.new ≡ out.old ++ (what.now ++ decimal count)) }
{
    out.append(what)?;
    out.append_number(count)
}

/// Appends the last line, with the counts of all records.
fn push_counts(out: &mut Octets, tally: Tally) -> M<()>
    ensures { OnOk result (out.new ≡ out.old ++ (run.node_done tally).1) }
{
    push_count(out, b"done records ", tally.records)?;
    push_count(out, b" used ", tally.used)?;
    push_count(out, b" passed ", tally.passed)?;
    push_count(out, b" got ", tally.got)?;
    push_count(out, b" dropped ", tally.dropped)?;
    push_count(out, b" sent ", tally.sent)?;
    out.push(b'\n')
}

/// Ends the report after the last record.
pub fn push_done(out: &mut Octets, tally: Tally) -> M<Status>
    ensures { IfOk result (λ ended. (ended, out.new) ≡ behind out.old (run.node_done tally)) }
{
    push_counts(out, tally)?;
    Ok(Status::Done)
}

/// Appends the line for the rejection of a record that makes a gap that is too long, with both seconds.
pub fn push_gap(out: &mut Octets, number: u64, gap: (u32, u32)) -> M<()>
    ensures { OnOk result (out.new ≡ out.old ++ (refused_record number (decimal 7 ∷ codes "Gap" ∷ decimal gap.0 ∷ decimal gap.1 ∷ [])).1) }
{
    push_refused(out, number, 7, b"Gap")?;
    out.push(b' ')?;
    out.append_number(u64::from(gap.0))?;
    out.push(b' ')?;
    out.append_number(u64::from(gap.1))?;
    out.push(b'\n')
}
