//! The records that are written of a router's hellos: frames, and events for the router.
ghost use Rattle.std.specs.Prelude.{◌≡◌, ◌++◌, IfOk, OnOk};
ghost use Rattle.live_stream.specs.HelloRun as hello;

use crate::seat::Seat;
use pcap_frames::write_cap_record;
use pcapng_frames::NgRecord;
use std::alloc::Global;
use wire_base::{End, M, Memory, Octets, RouterConf};

/// The octets of an event before its line: two empty addresses, the type, and the version.
const EVENT_HEAD: [u8; 15] = [0, 0, 0, 0, 0, 0, 0, 0, 0, 0, 0, 0, 0x88, 0xb5, 1];

/// The greatest number of octets of a frame in a record of a capture.
const MOST_RECORDED: usize = 65_535;

/// Appends a record of a frame, with the time of another record. A frame that does not fit a record is reported as out of memory,
/// and none is that long: a hello's frame has at most 79 octets, and an event the names of two routers.
pub fn push_record(out: &mut Octets, captured: &NgRecord, octets: &[u8]) -> M<()>
    ensures { OnOk result (out.new ≡ out.old ++ hello.written captured.now octets.now) }
{
    if octets.len() > MOST_RECORDED {
        return Err(Memory);
    }
    write_cap_record(out, captured.cap.sec, captured.cap.usec, octets)
}

/// Returns the frame of the event that the interface of a router toward its neighbor came up, or went down.
fn change_frame(alloc: Global, seat: &Seat, conf: &RouterConf, end: &End, up: bool) -> M<Octets>
    ensures { IfOk result (λ frame. frame ≡ hello.event_frame (hello.change_line seat.now conf.now end.now up)) }
{
    let mut frame = Octets::from_slice(alloc, &EVENT_HEAD)?;
    frame.append(if up {
        b"up ".as_slice()
    } else {
        b"down ".as_slice()
    })?;
    frame.append(conf.name.as_slice())?;
    frame.push(b' ')?;
    frame.append(seat.name_of(end.peer))?;
    Ok(frame)
}

/// Appends a record of that event, with the time of another record.
pub fn push_change(
    out: &mut Octets,
    seat: &Seat,
    captured: &NgRecord,
    conf: &RouterConf,
    end: &End,
    up: bool,
) -> M<()>
    ensures { OnOk result (out.new ≡ out.old ++ hello.written captured.now (hello.event_frame (hello.change_line seat.now conf.now end.now up))) }
{
    let frame = change_frame(conf.ends.allocator(), seat, conf, end, up)?;
    push_record(out, captured, frame.as_slice())
}
