//! A failure at each call of a source or a sink in turn, and the state after it.
use crate::runs::{FREE, Limits, Object, Outcome, run_row};
use std::alloc::Global;
use wire_base::Status;

// One packet with configured rows.
const HOP: &str = "hop input | bsl 64 / self 1 / row 2 B / row 3 B / row 4 D / packet 1,2,3,4";

// A frame with a label and a BIER header.
const HEADERS: &str =
    "headers input | d4c3b2a1020004000000000000000000ffff000001000000010000000000000022000000220000000200000100000200000000018847000641405010000a000400010000000000000005";

// Two packets around the ring.
const REPLAY: &str =
    "replay ring schedule frames | settle 4 / inject A 0 64 3 8 0 00ff / inject A 0 64 3 8 1 00ff / settle 4";

// Two routers whose interfaces come up by hellos, and a packet.
const HANDSHAKE: &str =
    "handshake pair schedule frames | settle 3 / inject A 0 64 2 8 0 00ff / settle 1";

// Questions before and after two routers agree, and a packet.
const CHECK: &str =
    "check pair schedule frames | quiet / settle 3 / quiet / cover A 0 64 1,2 8 0 / inject A 0 64 2 8 0 00ff / settle 1";

// What the first router of two advertises, twice, five seconds apart.
const NODE: &str = "node pair B capture frames | 100 A 105 A";

/// Returns how many octets of frames are written before the first line or record is read.
fn head_of(work: &str) -> usize {
    if work.starts_with("hop") || work.starts_with("headers") {
        0
    } else {
        24
    }
}

/// Returns whether a run in which a call of an object failed is as promised, compared with the complete run.
fn stands(work: &str, limits: Limits, stopped: &Outcome, whole: &Outcome) -> bool {
    let report = stopped.report.as_slice();
    let frames = stopped.frames.as_slice();
    let all = whole.report.as_slice();
    match limits.broken {
        Object::Conf => stopped.status == Status::ReadFault
            && report.is_empty()
            && frames.is_empty(),
        Object::Input if limits.call == 1 => {
            stopped.status == Status::ReadFault
                && report.is_empty()
                && frames.len() == head_of(work)
        }
        // All lines and records were read and processed; only the last line is missing.
        Object::Input => {
            stopped.status == Status::ReadFault
                && report.len() < all.len()
                && all.starts_with(report)
                && frames == whole.frames.as_slice()
        }
        Object::Frames | Object::Report => {
            stopped.status == Status::WriteFault
                && all.starts_with(report)
                && whole.frames.as_slice().starts_with(frames)
        }
    }
}

/// Returns whether both runs returned and wrote the same.
fn same(one: &Outcome, other: &Outcome) -> bool {
    one.status == other.status
        && one.report.as_slice() == other.report.as_slice()
        && one.frames.as_slice() == other.frames.as_slice()
}

/// Returns whether the call that should fail is after the last one, so that the run is as without a failure. Returns
/// none if it is not and the run is not as promised.
fn is_past(alloc: Global, work: &str, limits: Limits, whole: &Outcome) -> Option<bool> {
    let stopped = run_row(alloc, work, limits)?;
    let is_past = same(&stopped, whole);
    if is_past || stands(work, limits, &stopped, whole) {
        Some(is_past)
    } else {
        None
    }
}

/// Returns whether each of an object's calls fails as promised, and the fourth is after the last one.
fn fails_in_turn(alloc: Global, work: &str, broken: Object, whole: &Outcome) -> bool {
    let mut last = None;
    for call in 1..5 {
        let limits = Limits {
            broken,
            call,
            ..FREE
        };
        last = is_past(alloc, work, limits, whole);
        if last.is_none() {
            return false;
        }
    }
    last == Some(true)
}

/// Returns the same for the four objects of a run.
fn each_fails_in_turn(alloc: Global, work: &str) -> Option<[bool; 4]> {
    let whole = run_row(alloc, work, FREE)?;
    Some([
        fails_in_turn(alloc, work, Object::Conf, &whole),
        fails_in_turn(alloc, work, Object::Input, &whole),
        fails_in_turn(alloc, work, Object::Frames, &whole),
        fails_in_turn(alloc, work, Object::Report, &whole),
    ])
}

#[test]
fn each_call_fails_in_turn(rt: HostRuntime) {
    for work in [HOP, HEADERS, REPLAY, HANDSHAKE, CHECK, NODE] {
        assert!(rt;
            each_fails_in_turn(rt.alloc(), work) == Some([true; 4]),
            "at {work}"
        );
    }
}

/// Returns whether a report's sink that accepts nothing has failed, after a complete capture.
fn no_report(alloc: Global, whole: &[u8]) -> Option<bool> {
    let run = run_row(alloc, REPLAY, Limits { report: 0, ..FREE })?;
    Some(
        run.status == Status::WriteFault
            && run.report.as_slice().is_empty()
            && run.frames.as_slice() == whole,
    )
}

/// Returns whether a capture's sink that accepts nothing has failed at its header.
fn no_frames(alloc: Global) -> Option<bool> {
    let run = run_row(alloc, REPLAY, Limits { frames: 0, ..FREE })?;
    Some(
        run.status == Status::WriteFault
            && run.report.as_slice().is_empty()
            && run.frames.as_slice().is_empty(),
    )
}

fn no_report_of_whole(alloc: Global) -> Option<bool> {
    let whole = run_row(alloc, REPLAY, FREE)?;
    no_report(alloc, whole.frames.as_slice())
}

/// A sink that accepts no octet of a chunk has failed: the report's, after a complete capture, and the capture's, at
/// its header.
#[test]
fn sinks_that_take_nothing(rt: HostRuntime) {
    assert!(rt; no_report_of_whole(rt.alloc()) == Some(true));
    assert!(rt; no_frames(rt.alloc()) == Some(true));
}
