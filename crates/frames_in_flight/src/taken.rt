//! Frames that leave their queue, because a router received or dropped them.
ghost use Rattle.std.specs.Prelude.{◌≡◌, ◌≤◌, false, length, slice_get, option_map, IfOk, IfSome, OnOk, OnErr};
ghost use Rattle.wire_base.specs.model.Configuration.{IsSound};
ghost use Rattle.frames_in_flight.specs.Flights.{frames_at, ids_read, number_of, push_after, without_frame};
ghost use Rattle.frames_in_flight.specs.Told.{IsSilent, taken_report, told_lost, told_of};
ghost use Rattle.domain_model.specs.World.{peer_place};

use crate::flights::Flights;
use crate::sent::{first_peer, send_all};
use crate::told::{drop_lines, got_lines, lost, move_frames, number_of};
use bier_forward::Effects;
use domain_model::StepOut;
use std::alloc::Global;
use std::mem;
use wire_base::limits::MOST_ROUTERS;
use wire_base::{Cause, M, RouterConf, Rows};

/// Removes the frame at an index of those in a direction, dropped as a whole by the router at the index `at`, and
/// returns the report. The packet in it is parsed as by `reader`, the router that it is for. If an allocation fails,
/// nothing has changed. If there is no such frame, nothing is reported.
pub fn drop_flight(
    alloc: Global,
    flights: &mut Flights,
    reader: Option<&RouterConf>,
    place: u16,
    link: u16,
    i: u32,
    at: u16,
    cause: Cause,
) -> M<Option<StepOut>>
    requires { IfSome reader (λ r. IsSound r.now) }
    ensures out { IfOk result (λ out. out ≡ option_map (λ f. told_lost at (number_of f) cause (ids_read (option_map (λ r. r.now) reader.entry) f)) (slice_get (frames_at flights.old place link) i)) }
    ensures ok { OnOk result (flights.new ≡ without_frame flights.old place link i) }
    ensures err { OnErr result (flights.new ≡ flights.old) }
{
    let Some(flight) = flights.get(place, link, i) else {
        return Ok(None);
    };
    let out = lost(alloc, reader, at, cause, &flight)?;
    flights.remove(place, link, i as usize);
    Ok(Some(out))
}

/// Writes to `made` what is reported of the router at the index `at`, which received the frame at an index of those in a
/// direction, queues what it sent, and removes the frame. Returns whether there is such a frame. If there is none, or an
/// allocation fails, nothing has changed but `effects`, whose memory serves for the effects of the next frame.
///
/// The packet in the frame, if it was dropped as a whole, is parsed as by `reader`, the router that it is for. The
/// caller may pass in where one of the interfaces leads.
pub fn queue_taken(
    flights: &mut Flights,
    confs: &[RouterConf],
    reader: Option<&RouterConf>,
    place: u16,
    link: u16,
    i: u32,
    at: u16,
    known: Option<(u16, u16)>,
    effects: &mut Effects,
    made: &mut StepOut,
) -> M<bool>
    requires few { length confs.now ≤ MOST_ROUTERS }
    requires sound { IfSome reader (λ r. IsSound r.now) }
    requires known { IfSome known (λ k. k.1 ≡ peer_place confs.now at k.0) }
    ensures out { IfOk result (λ some. taken_report some made.new ≡ option_map (λ f. told_of confs.now at (number_of f) (ids_read (option_map (λ r. r.now) reader.entry) f) effects.old) (slice_get (frames_at flights.old place link) i)) }
    ensures idle { IfOk result (λ some. some ≡ false → made.new ≡ made.old) }
    ensures none { OnErr result (made.new ≡ made.old) }
    ensures ok { OnOk result (flights.new ≡ push_after confs.now at effects.old.sent flights.old place link i (slice_get (frames_at flights.old place link) i)) }
    ensures err { OnErr result (flights.new ≡ flights.old) }
    ensures memory { OnErr result (IsSilent effects.old → ⊥) }
{
    let Some(flight) = flights.get(place, link, i) else {
        return Ok(false);
    };
    let number = number_of(&flight);
    let alloc = effects.allocator();
    let dropped = effects.drops.as_slice();
    let drops = drop_lines(alloc, reader, at, number, Some(&flight), dropped)?;
    let mut delivered = mem::replace(&mut effects.got, Rows::new(alloc)).into_vec();
    let got = got_lines(alloc, at, number, &mut delivered)?;
    effects.got = Rows::from_vec(delivered);
    let known = first_peer(confs, at, known, &effects.sent);
    send_all(flights, confs, at, number, known, &effects.sent)?;
    flights.remove(place, link, i as usize);
    made.got = got;
    made.drops = drops;
    move_frames(confs, at, known, &mut effects.sent, &mut made.sent);
    Ok(true)
}
