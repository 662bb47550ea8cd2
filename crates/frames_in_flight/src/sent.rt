//! Queues what a router sends.
ghost use Rattle.std.specs.Prelude.{◌≡◌, ◌≤◌, [], List, length, drop, None, OnOk, OnErr, OnSome, IfOk, IfSome};
ghost use Rattle.std.specs.List.{AllByRecursion};
ghost use Rattle.frames_in_flight.specs.Told.{told_of};
ghost use Rattle.frames_in_flight.specs.Flights.{IsOver, push_all_sent};
ghost use Rattle.frames_in_flight.specs.Framed.{note_over};
ghost use Rattle.domain_model.specs.World.{peer_place};
ghost use Rattle.wire_base.specs.declared.conf.RouterConf.{RouterConf};

use crate::flight::Note;
use crate::flights::Flights;
use crate::told::{drop_lines, got_lines, peer_again, wire_frames};
use bier_forward::{Effects, SentFrames};
use domain_model::StepOut;
use wire_base::limits::MOST_ROUTERS;
use wire_base::{M, RouterConf};

/// Queues what the router at an index sent by itself, for that injection or for none, and returns the report of its
/// effects. If an allocation fails, nothing has changed.
pub fn queue_sent(
    flights: &mut Flights,
    confs: &[RouterConf],
    at: u16,
    number: Option<u32>,
    effects: Effects,
) -> M<StepOut>
    requires { length confs.now ≤ MOST_ROUTERS }
    ensures out { IfOk result (λ out. out ≡ told_of confs.now at number [] effects) }
    ensures ok { OnOk result (flights.new ≡ push_all_sent confs.now at number flights.old effects.sent) }
    ensures err { OnErr result (flights.new ≡ flights.old) }
{
    let alloc = effects.allocator();
    let drops = drop_lines(alloc, None, at, number, None, effects.drops.as_slice())?;
    let got = got_lines(alloc, at, number, &mut effects.got.into_vec())?;
    let known = first_peer(confs, at, None, &effects.sent);
    send_all(flights, confs, at, number, known, &effects.sent)?;
    let sent = wire_frames(confs, at, known, effects.sent);
    Ok(StepOut { sent, got, drops })
}

/// Queues frames that the router at an index sent by itself on one link, for no injection. If an allocation fails, nothing
/// has changed.
#[tactic(auto, using(crate::proofs::SentLaws::all_sent))]
pub fn queue_on_link(flights: &mut Flights, at: u16, link: u16, sent: &SentFrames) -> M<()>
    requires { AllByRecursion (IsOver link) sent.now }
    ensures ok { (confs : List RouterConf) → OnOk result (flights.new ≡ push_all_sent confs at None flights.old sent.now) }
    ensures err { OnErr result (flights.new ≡ flights.old) }
{
    flights.push_all(at, link, sent.frames(), None)
}

/// Returns the link that the first frame is sent on, if there is one, and where it leads, which the caller may have passed in.
pub(crate) fn first_peer(
    confs: &[RouterConf],
    at: u16,
    known: Option<(u16, u16)>,
    sent: &SentFrames,
) -> Option<(u16, u16)>
    requires few { length confs.now ≤ MOST_ROUTERS }
    requires known { IfSome known (λ k. k.1 ≡ peer_place confs.now at k.0) }
    ensures { IfSome result (λ k. k.1 ≡ peer_place confs.now at k.0) }
{
    if sent.len() == 0 {
        return None;
    }
    let link = sent.link_at(0);
    Some((link, peer_again(confs, at, link, known)))
}

/// Queues what the router at an index sends, for that injection or for none, at the ends of its directions, in order.
/// If an allocation fails, nothing has changed. Frames that share one link, the usual case, are queued together. The caller may
/// pass in where one of the interfaces leads.
#[tactic(auto, using(crate::proofs::SentLaws::all_sent))]
pub fn send_all(
    flights: &mut Flights,
    confs: &[RouterConf],
    at: u16,
    number: Option<u32>,
    known: Option<(u16, u16)>,
    sent: &SentFrames,
) -> M<()>
    requires few { length confs.now ≤ MOST_ROUTERS }
    requires known { IfSome known (λ k. k.1 ≡ peer_place confs.now at k.0) }
    ensures ok { OnOk result (flights.new ≡ push_all_sent confs.now at number flights.old sent.now) }
    ensures err { OnErr result (flights.new ≡ flights.old) }
    ensures memory { OnErr result (sent.now ≡ [] → ⊥) }
{
    match shared_link(sent) {
        Some(link) => {
            let note = note_over(confs, at, number, known, link);
            flights.push_all(at, link, sent.frames(), note)
        }
        None => send_from(flights, confs, at, number, sent, 0),
    }
}

/// Returns the link that all frames are sent on, if there are frames and they share one link.
fn shared_link(sent: &SentFrames) -> Option<u16>
    ensures shared { IfSome result (λ link. AllByRecursion (IsOver link) sent.now) }
    ensures some { OnSome result (sent.now ≡ [] → ⊥) }
{
    if sent.len() == 0 {
        return None;
    }
    let link = sent.link_at(0);
    'frames: for place in 0..sent.len() {
        if sent.link_at(place) != link {
            return None;
        }
    }
    Some(link)
}

/// Does the same for the frames from an index on.
#[tactic(auto, using(crate::proofs::QueueLaws::sent_from, crate::proofs::QueueLaws::sent_none))]
fn send_from(
    flights: &mut Flights,
    confs: &[RouterConf],
    at: u16,
    number: Option<u32>,
    sent: &SentFrames,
    place: usize,
) -> M<()>
    requires few { length confs.now ≤ MOST_ROUTERS }
    ensures ok { OnOk result (flights.new ≡ push_all_sent confs.now at number flights.old (drop place sent.now)) }
    ensures err { OnErr result (flights.new ≡ flights.old) }
    ensures memory { OnErr result (drop place sent.now ≡ [] → ⊥) }
{
    if place >= sent.len() {
        return Ok(());
    }
    let link = sent.link_at(place);
    let note = note_over(confs, at, number, None, link);
    flights.push(at, link, sent.octets_at(place), note)?;
    let done = send_from(flights, confs, at, number, sent, place + 1);
    if done.is_err() {
        flights.pop(at, link);
    }
    done
}

/// Returns the note of a frame that the router at an index sends on an interface.
fn note_over(
    confs: &[RouterConf],
    at: u16,
    number: Option<u32>,
    known: Option<(u16, u16)>,
    link: u16,
) -> Option<Note>
    requires few { length confs.now ≤ MOST_ROUTERS }
    requires known { IfSome known (λ k. k.1 ≡ peer_place confs.now at k.0) }
    ensures { result ≡ note_over confs.now at number link }
{
    match number {
        None => None,
        Some(number) => Some(Note {
            number,
            to: peer_again(confs, at, link, known),
        }),
    }
}
