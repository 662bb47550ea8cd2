//! What is reported of the effects of a router.
ghost use Rattle.std.specs.Prelude.{◌≡◌, ◌↔◌, ◌≤◌, IsTrue, ◌++◌, ◌∷◌, [], length, map, filter, Some, option_map, IfOk, IfSome, OnOk, OnErr};
ghost use Rattle.wire_base.specs.model.BitSet.{has_member};
ghost use Rattle.wire_base.specs.model.Configuration.{IsSound};
ghost use Rattle.wire_base.specs.model.Place.{bits_of, id_at};
ghost use Rattle.bfr_edge.specs.Entry.{positions_in};
ghost use Rattle.bier_bits.specs.Any.{bsl_of, positions_of};
ghost use Rattle.bier_forward.specs.Sets.{set_in, HasLength, HaveLength};
ghost use Rattle.frames_in_flight.specs.Told.{IsSilent, told_of, told_lost};
ghost use Rattle.frames_in_flight.specs.Flights.{number_of, ids_read, ids_taken};
ghost use Rattle.frames_in_flight.specs.Framed.{peer_noted, wire_from, got_line, drop_line, ids_dropped};
ghost use Rattle.frames_in_flight.specs.Read.{packet_for, packet_ids};
ghost use Rattle.domain_model.specs.Moves.{listed};
ghost use Rattle.domain_model.specs.World.{peer_place};

use crate::flight::FlightSeen;
use crate::inside::packet_for;
use crate::places::peer_place;
use bfr_edge::Packet;
use bier_bits::AnyBits;
use bier_forward::{DropNote, Effects, SentFrames};
use domain_model::{DropLine, GotLine, StepOut, WireFrames};
use frame_list::FrameList;
use std::alloc::Global;
use std::mem;
use wire_base::limits::MOST_ROUTERS;
use wire_base::{Cause, Got, M, RouterConf, Rows, Triple};

/// Returns whether a router sent, delivered and dropped nothing.
pub fn is_silent(effects: &Effects) -> bool
    ensures { IsTrue result ↔ IsSilent effects.now }
{
    effects.sent.len() == 0 && effects.got.len() == 0 && effects.drops.len() == 0
}

/// Returns the injection that a frame belongs to.
pub fn number_of(flight: &FlightSeen<'_>) -> Option<u32>
    ensures { result ≡ number_of flight.now }
{
    match flight.note {
        None => None,
        Some(note) => Some(note.number),
    }
}

/// Returns the index of the router at the far end of a link, which may be that of the interface that is passed in.
pub(crate) fn peer_again(confs: &[RouterConf], at: u16, link: u16, known: Option<(u16, u16)>) -> u16
    requires few { length confs.now ≤ MOST_ROUTERS }
    requires known { IfSome known (λ k. k.1 ≡ peer_place confs.now at k.0) }
    ensures { result ≡ peer_place confs.now at link }
{
    match known {
        Some((end, to)) if end == link => to,
        _ => peer_place(confs, at, link),
    }
}

/// Returns what is sent, as frames. This needs no allocation. The caller may pass in where one of the interfaces leads.
#[tactic(auto, using(crate::proofs::SentLaws::wires_are))]
pub(crate) fn wire_frames(
    confs: &[RouterConf],
    at: u16,
    known: Option<(u16, u16)>,
    sent: SentFrames,
) -> WireFrames
    requires few { length confs.now ≤ MOST_ROUTERS }
    requires known { IfSome known (λ k. k.1 ≡ peer_place confs.now at k.0) }
    ensures { result ≡ map (wire_from confs.now at) sent }
{
    let mut frames = sent.into_frames();
    note_peers(confs, at, known, &mut frames);
    WireFrames::sent_by(at, frames)
}

/// Moves what is sent to `made`, as frames. The memory of the frames there before serves for what is sent next.
pub(crate) fn move_frames(
    confs: &[RouterConf],
    at: u16,
    known: Option<(u16, u16)>,
    sent: &mut SentFrames,
    made: &mut WireFrames,
)
    requires few { length confs.now ≤ MOST_ROUTERS }
    requires known { IfSome known (λ k. k.1 ≡ peer_place confs.now at k.0) }
    ensures { made.new ≡ map (wire_from confs.now at) sent.old }
{
    let memory = SentFrames::from_frames(made.take_memory());
    *made = wire_frames(confs, at, known, mem::replace(sent, memory));
}

/// Sets the note of each frame to the router at the far end instead of the link. Frames that are sent together usually
/// share their link, so the index that was found last is kept.
fn note_peers(confs: &[RouterConf], at: u16, known: Option<(u16, u16)>, frames: &mut FrameList<u16>)
    requires few { length confs.now ≤ MOST_ROUTERS }
    requires known { IfSome known (λ k. k.1 ≡ peer_place confs.now at k.0) }
    ensures { frames.new ≡ map (peer_noted confs.now at) frames.old }
{
    let mut last = known;
    'frames: for place in 0..frames.len() {
        let link = frames.note_at(place);
        let to = peer_again(confs, at, link, last);
        last = Some((link, to));
        frames.set_note(place, to);
    }
}

/// Returns what is reported of deliveries, and removes them: their payloads are moved. If there are none, no memory is allocated.
pub(crate) fn got_lines(
    alloc: Global,
    at: u16,
    number: Option<u32>,
    got: &mut Vec<Got>,
) -> M<Rows<GotLine>>
    ensures lines { IfOk result (λ lines. lines ≡ map (got_line at number) got.old.items) }
    ensures memory { OnErr result (got.old.items ≡ [] → ⊥) }
{
    let mut lines = Rows::new(alloc);
    for delivery in got.drain(..) {
        lines.push(GotLine {
            router: at,
            injection: number.unwrap_or(0),
            id: delivery.id,
            payload: delivery.payload,
        })?;
    }
    Ok(lines)
}

/// Returns what is reported of drops of the router at an index, for that injection or for none, after it received that frame or
/// none. The packet in the frame, if it was dropped as a whole, is parsed as by `reader`. If there are none, no memory is allocated.
pub(crate) fn drop_lines(
    alloc: Global,
    reader: Option<&RouterConf>,
    at: u16,
    number: Option<u32>,
    taken: Option<&FlightSeen<'_>>,
    drops: &[DropNote],
) -> M<Rows<DropLine>>
    requires { IfSome reader (λ r. IsSound r.now) }
    ensures lines { IfOk result (λ lines. lines ≡ map (drop_line at number (ids_taken (option_map (λ r. r.now) reader.entry) (option_map (λ f. f.now) taken.entry))) drops.now) }
    ensures memory { OnErr result (drops.now ≡ [] → ⊥) }
{
    let mut lines = Rows::new(alloc);
    for note in drops {
        lines.push(DropLine {
            router: at,
            injection: number,
            cause: note.cause,
            ids: ids_dropped(alloc, reader, taken, &note.sets)?,
        })?;
    }
    Ok(lines)
}

/// Returns the BFR-ids of bit positions. For a frame that is dropped as a whole these are all that it carries.
fn ids_dropped(
    alloc: Global,
    reader: Option<&RouterConf>,
    taken: Option<&FlightSeen<'_>>,
    sets: &Option<Packet>,
) -> M<Rows<u16>>
    requires sound { IfSome reader (λ r. IsSound r.now) }
    requires length { HaveLength sets.now }
    ensures { IfOk result (λ ids. ids ≡ ids_dropped (ids_taken (option_map (λ r. r.now) reader.entry) (option_map (λ f. f.now) taken.entry)) (set_in sets.now)) }
{
    match sets {
        None => ids_taken(alloc, reader, taken),
        Some(packet) => ids_listed(alloc, packet.triple, &packet.bits),
    }
}

fn ids_taken(
    alloc: Global,
    reader: Option<&RouterConf>,
    taken: Option<&FlightSeen<'_>>,
) -> M<Rows<u16>>
    requires { IfSome reader (λ r. IsSound r.now) }
    ensures { IfOk result (λ ids. ids ≡ listed (ids_taken (option_map (λ r. r.now) reader.entry) (option_map (λ f. f.now) taken.entry))) }
{
    match taken {
        None => Ok(Rows::new(alloc)),
        Some(flight) => ids_of(alloc, reader, flight),
    }
}

/// Returns the BFR-ids of a frame, as a router parses it; a PDU has none.
fn ids_of(alloc: Global, reader: Option<&RouterConf>, flight: &FlightSeen<'_>) -> M<Rows<u16>>
    requires { IfSome reader (λ r. IsSound r.now) }
    ensures { IfOk result (λ ids. ids ≡ listed (ids_read (option_map (λ r. r.now) reader.entry) flight.now)) }
{
    match flight.note {
        None => Ok(Rows::new(alloc)),
        Some(_) => ids_in(alloc, reader, flight.octets),
    }
}

/// Returns the BFR-ids of the packet in a frame, as a router parses it.
fn ids_in(alloc: Global, reader: Option<&RouterConf>, octets: &[u8]) -> M<Rows<u16>>
    requires { IfSome reader (λ r. IsSound r.now) }
    ensures { IfOk result (λ ids. ids ≡ listed (packet_ids (packet_for (option_map (λ r. r.now) reader.entry) octets.now))) }
{
    match reader {
        Some(conf) => ids_at(alloc, conf, octets),
        None => Ok(Rows::new(alloc)),
    }
}

fn ids_at(alloc: Global, conf: &RouterConf, octets: &[u8]) -> M<Rows<u16>>
    requires { IsSound conf.now }
    ensures { IfOk result (λ ids. ids ≡ listed (packet_ids (packet_for (Some conf.now) octets.now))) }
{
    match packet_for(conf, octets) {
        Some(packet) => ids_listed(alloc, packet.triple, &packet.bits()),
        None => Ok(Rows::new(alloc)),
    }
}

/// Returns the BFR-ids of bit positions of a triple, ascending. A number above 65,535 is not a BFR-id, and is not
/// listed.
fn ids_listed(alloc: Global, triple: Triple, bits: &AnyBits) -> M<Rows<u16>>
    requires { bsl_of bits.now ≡ triple.bsl }
    ensures { IfOk result (λ ids. ids ≡ listed (map (id_at triple) (positions_of bits.now))) }
{
    let mut ids = Rows::new(alloc);
    for position in 0..bits.bsl().bits() {
        push_id(&mut ids, triple, bits, position + 1)?;
    }
    Ok(ids)
}

/// Appends the BFR-id of a bit position, if the BitString has that bit and the number is a BFR-id.
fn push_id(ids: &mut Rows<u16>, triple: Triple, bits: &AnyBits, position: u16) -> M<()>
    requires low { 1 ≤ position }
    requires high { position ≤ bits_of (bsl_of bits.now) }
    ensures { OnOk result (ids.new ≡ ids.old ++ listed (map (id_at triple) (filter (λ p. has_member p (positions_of bits.now)) (position ∷ [])))) }
{
    let id = u32::from(triple.si) * u32::from(triple.bsl.bits()) + u32::from(position);
    if bits.has(position) && id <= 65535 {
        ids.push(id as u16)?;
    }
    Ok(())
}

/// Returns the report of a frame that the router at an index drops as a whole. The packet in it is parsed as by
/// `reader`.
pub fn lost(
    alloc: Global,
    reader: Option<&RouterConf>,
    at: u16,
    cause: Cause,
    flight: &FlightSeen<'_>,
) -> M<StepOut>
    requires { IfSome reader (λ r. IsSound r.now) }
    ensures { IfOk result (λ out. out ≡ told_lost at (number_of flight.now) cause (ids_read (option_map (λ r. r.now) reader.entry) flight.now)) }
{
    let mut out = StepOut::nothing(alloc);
    out.drops.push(DropLine {
        router: at,
        injection: number_of(flight),
        cause,
        ids: ids_of(alloc, reader, flight)?,
    })?;
    Ok(out)
}
