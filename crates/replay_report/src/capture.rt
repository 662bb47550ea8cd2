//! What routers send, as records of a capture.
ghost use Rattle.std.specs.Prelude.{◌≡◌, ◌<◌, ◌≤◌, ◌*◌, ◌++◌, length, take, OnOk, OnErr};
ghost use Rattle.std.specs.List.{AllByRecursion};
ghost use Rattle.wire_base.specs.declared.limits.TheConstants.{MOST_ROUTERS, MOST_ENDS};
ghost use Rattle.wire_base.specs.model.Configuration.{IsSound};
ghost use Rattle.replay_report.specs.Captures as spec;
ghost use Rattle.replay_report.specs.Captures.{capture_front, frame_record, wire_record, wire_records, interface_toward, AreShort};
ghost use Rattle.replay_report.specs.declared.recording.Recording.TheVariants as recordings;

use crate::interfaces::interfaces_before;
use crate::recording::Recording;
use domain_model::{WireFrame, WireFrames};
use frames_in_flight::link_between;
use pcap_frames::{write_cap_header, write_cap_record};
use pcapng_frames::{write_ng_head, write_ng_record};
use std::alloc::Global;
use wire_base::{M, Octets, RouterConf};

/// Appends what a capture begins with. If an allocation fails, nothing is appended.
#[tactic(auto, unfolding(crate::specs::Captures::capture_front), using(replay_text::proofs::Appended::front))]
pub fn push_front(out: &mut Octets, recording: Recording, routers: &[RouterConf]) -> M<()>
    requires few { length routers.now ≤ MOST_ROUTERS }
    requires sound { AllByRecursion IsSound routers.now }
    ensures ok { OnOk result (out.new ≡ out.old ++ capture_front recording routers.now) }
    ensures err { OnErr result (out.new ≡ out.old) }
{
    match recording {
        Recording::Discarded => Ok(()),
        Recording::Pcap => write_cap_header(out),
        Recording::Pcapng => write_ng_head(out, interfaces_before(routers, routers.len())),
    }
}

/// Appends the record of a frame with those octets.
#[tactic(auto, unfolding(crate::specs::Captures::frame_record))]
fn push_frame(
    out: &mut Octets,
    recording: Recording,
    interface: u32,
    line: u32,
    octets: &[u8],
) -> M<()>
    requires { length octets.now < 65536 }
    ensures ok { OnOk result (out.new ≡ out.old ++ frame_record recording interface line octets.now) }
    ensures err { OnErr result (out.new ≡ out.old) }
{
    match recording {
        Recording::Discarded => Ok(()),
        Recording::Pcap => write_cap_record(out, line, 0, octets),
        Recording::Pcapng => write_ng_record(out, interface, line, 0, octets),
    }
}

/// Returns the number of the first interface of a router, if the format of the capture has interfaces.
fn first_interface(recording: Recording, routers: &[RouterConf], from: u16) -> u32
    requires few { length routers.now ≤ MOST_ROUTERS }
    requires sound { AllByRecursion IsSound routers.now }
    ensures first { recording ≡ recordings.Pcapng → result ≡ spec.interfaces_before routers.now from }
    ensures few { result ≤ MOST_ENDS * MOST_ROUTERS }
{
    match recording {
        Recording::Pcapng => interfaces_before(routers, usize::from(from)),
        _ => 0,
    }
}

/// Returns the number of a router's interface toward another, given that of its first one, if the format of the capture
/// has interfaces.
fn interface_at(recording: Recording, routers: &[RouterConf], first: u32, from: u16, to: u16) -> u32
    requires sound { AllByRecursion IsSound routers.now }
    requires first { recording ≡ recordings.Pcapng → first ≡ spec.interfaces_before routers.now from }
    requires few { first ≤ MOST_ENDS * MOST_ROUTERS }
    ensures { recording ≡ recordings.Pcapng → result ≡ interface_toward routers.now from to }
{
    match recording {
        Recording::Pcapng => first + u32::from(link_between(routers, from, to).unwrap_or(0)),
        _ => 0,
    }
}

/// Does the same as `push_frames`, except that octets may follow the old end if an allocation fails.
#[tactic(auto, using(replay_text::proofs::Appended::front, replay_text::proofs::Appended::front_of_front, crate::proofs::RecordLaws::is_short))]
fn push_each(
    out: &mut Octets,
    recording: Recording,
    routers: &[RouterConf],
    line: u32,
    frames: &WireFrames,
) -> M<()>
    requires few { length routers.now ≤ MOST_ROUTERS }
    requires sound { AllByRecursion IsSound routers.now }
    requires short { AreShort frames.now }
    ensures ok { OnOk result (out.new ≡ out.old ++ wire_records recording routers.now line frames.now) }
    ensures err { OnErr result (take (length out.old) out.new ≡ out.old) }
{
    let from = frames.sender();
    let first = first_interface(recording, routers, from);
    for i in 0..frames.len() {
        let to = frames.receiver_at(i);
        let interface = interface_at(recording, routers, first, from, to);
        push_frame(out, recording, interface, line, frames.octets_at(i))?;
    }
    Ok(())
}

/// Appends a record of each frame, in order, in the format of the capture. The timestamp of a record, in seconds, is
/// the line number of the event that sent the frame. If an allocation fails, nothing is appended.
#[tactic(auto, using(crate::proofs::RecordLaws::none_recorded))]
pub fn push_frames(
    out: &mut Octets,
    recording: Recording,
    routers: &[RouterConf],
    line: u32,
    frames: &WireFrames,
) -> M<()>
    requires few { length routers.now ≤ MOST_ROUTERS }
    requires sound { AllByRecursion IsSound routers.now }
    requires short { AreShort frames.now }
    ensures ok { OnOk result (out.new ≡ out.old ++ wire_records recording routers.now line frames.now) }
    ensures err { OnErr result (out.new ≡ out.old) }
{
    if recording == Recording::Discarded {
        return Ok(());
    }
    let len = out.len();
    let pushed = push_each(out, recording, routers, line, frames);
    if pushed.is_err() {
        out.truncate(len);
    }
    pushed
}

/// Appends the record of one frame that a router sent to another, in the format of the capture. The timestamp of the record, in
/// seconds, is the line number of the event that sent the frame. If an allocation fails, nothing is appended.
pub fn push_record(
    out: &mut Octets,
    recording: Recording,
    routers: &[RouterConf],
    line: u32,
    frame: &WireFrame,
) -> M<()>
    requires few { length routers.now ≤ MOST_ROUTERS }
    requires sound { AllByRecursion IsSound routers.now }
    requires short { length frame.now.octets < 65536 }
    ensures ok { OnOk result (out.new ≡ out.old ++ wire_record recording routers.now line frame.now) }
    ensures err { OnErr result (out.new ≡ out.old) }
{
    let first = first_interface(recording, routers, frame.from);
    let interface = interface_at(recording, routers, first, frame.from, frame.to);
    push_frame(out, recording, interface, line, frame.octets.as_slice())
}
