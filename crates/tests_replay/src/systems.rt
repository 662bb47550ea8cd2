//! More systems than fit an LSDB.
use crate::inputs::{no_records, push_record};
use crate::runs::{FREE, run_on};
use isis_pdu::checksum_at;
use std::alloc::Global;
use wire_base::{M, Octets};

// A frame of A with an LSP of 27 octets, which has no TLVs and a lifetime of 1,200 seconds, up to its LSP ID.
const FRONT_OF_LSP: [u8; 29] = [
    9, 0, 43, 0, 0, 5, 2, 0, 0, 0, 0, 1, 0, 30, 254, 254, 3, 131, 27, 1, 0, 20, 1, 0, 0, 0, 27, 4,
    176,
];

/// Appends what a system with that number advertises, which is only that it exists.
fn push_system(out: &mut Octets, number: u16) -> M<()> {
    let [high, low] = number.to_be_bytes();
    let covered = [0, 1, 0, 0, high, low, 0, 0, 0, 0, 0, 1, 0, 0, 3];
    let [first, second] = checksum_at(&covered, 12).to_be_bytes();
    let said = [0, 1, 0, 0, high, low, 0, 0, 0, 0, 0, 1, first, second, 3];
    let mut frame = [0; 44];
    frame[..29].copy_from_slice(&FRONT_OF_LSP);
    frame[29..].copy_from_slice(&said);
    push_record(out, 0, &frame)
}

/// Returns a capture in which each of that many systems advertises that it exists.
fn systems(alloc: Global, count: u16) -> M<Octets> {
    let mut out = no_records(alloc)?;
    for number in 0..count {
        push_system(&mut out, number)?;
    }
    Ok(out)
}

/// Returns whether the last of that many systems does not fit, and each before it does.
fn last_has_no_room(alloc: Global) -> M<bool> {
    let words = ["node", "pair", "B", "capture", "frames"];
    let heard = run_on(alloc, &words, systems(alloc, 16_384)?, FREE)?;
    let report =
        b"16384 drop full -\ndone records 16384 used 16384 passed 0 got 0 dropped 1 sent 0\n";
    Ok(heard.report.as_slice() == report.as_slice())
}

/// Besides the router's own LSP there is room for 16,383 entries.
#[test]
fn the_last_of_16384_systems_has_no_room(rt: HostRuntime) {
    assert!(rt; last_has_no_room(rt.alloc()) == Ok(true));
}
