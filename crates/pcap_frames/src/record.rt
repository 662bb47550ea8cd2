//! A record of a capture file.
ghost use Rattle.std.specs.Prelude.{◌≡◌, ◌≤◌, ◌+◌, [], true, length, drop, take, IfOk};
ghost use Rattle.wire_base.specs.model.Capture.{record_at, frame_at, most_captured, microseconds};
ghost use Rattle.pcap_frames.specs.Seen.{form_seen, taken, Answers, Holds, IsWithin};

use crate::header::Form;
use std::alloc::Global;
use wire_base::limits::MOST_CAPTURED;
use wire_base::{CaptureFault, Octets};

/// The length in octets of a record's header.
pub const RECORD: usize = 16;

/// A captured frame: the second and the microsecond of its capture, and whether the frame is complete.
#[derive(Drop)]
pub struct CapRecord {
    pub sec: u32,
    pub usec: u32,
    pub whole: bool,
    pub octets: Octets,
}

impl CapRecord {
    /// Creates a record to read into: an empty frame, which was captured at time 0.
    pub fn empty(alloc: Global) -> CapRecord
        ensures { result ≡ record { sec = 0; usec = 0; whole = true; octets = [] } }
    {
        CapRecord {
            sec: 0,
            usec: 0,
            whole: true,
            octets: Octets::new(alloc),
        }
    }
}

/// Reads the record at the front into `cap`, and returns its length in octets; None if it is not complete yet. The frame is
/// copied into the memory that the record has.
#[tactic(auto, unfolding(wire_base::specs::model::Capture::record_at))]
pub fn read_record(
    form: Form,
    bytes: &[u8],
    cap: &mut CapRecord,
) -> Result<Option<usize>, CaptureFault>
    ensures exact { Answers (taken cap.new bytes.now) result (record_at (form_seen form) bytes.now) }
    ensures within { IfOk result (IsWithin (length bytes.now)) }
    ensures holds { Holds cap.old result cap.new }
{
    if bytes.len() < RECORD {
        return Ok(None);
    }
    let captured = form.four_at(bytes, 8);
    if captured > MOST_CAPTURED {
        return Err(CaptureFault::LongRecord);
    }
    let size = RECORD + captured as usize;
    if bytes.len() < size {
        return Ok(None);
    }
    cap.octets.truncate(0);
    cap.octets.append(&bytes[RECORD..size])?;
    cap.sec = form.four_at(bytes, 0);
    cap.usec = microseconds_of(form, form.four_at(bytes, 4));
    cap.whole = captured == form.four_at(bytes, 12);
    Ok(Some(size))
}

/// Converts a fraction of a second to microseconds.
fn microseconds_of(form: Form, fraction: u32) -> u32
    ensures { result ≡ microseconds (form_seen form) fraction }
{
    if form.nanoseconds {
        fraction / 1000
    } else {
        fraction
    }
}
