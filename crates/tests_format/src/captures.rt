//! Captures whose records were written by hand.
ghost use Rattle.std.specs.Prelude.{◌<◌};

use crate::told::Told;
use pcap_frames::{CapRecord, Reader};
use std::test::Fail;
use wire_base::CaptureFault;

/// Captures, their records, and what follows these. A record has its second and microsecond, whether its frame is
/// complete, and its octets.
const CAPTURES: &str = "\
d4c3b2a1020004000700000008000000ffff00000100000064000000050000000300000003000000010203ffffffff3f420f000000000007000000 -> 100.5 whole 010203, 4294967295.999999 cut -, end
a1b2c3d40002000400000007000000080000ffff0000000100000064000000050000000300000003010203ffffffff000f423f0000000000000007 -> 100.5 whole 010203, 4294967295.999999 cut -, end
4d3cb2a1020004000700000008000000ffff000001000000640000006f1700000300000002000000010203ffffffffffffffff010000000100000009 -> 100.5 cut 010203, 4294967295.4294967 whole 09, end
a1b23c4d0002000400000007000000080000ffff50000001000000640000176f0000000300000002010203ffffffffffffffff000000010000000109 -> 100.5 cut 010203, 4294967295.4294967 whole 09, end
d4c3b2a1020004000700000008000000ffff000001000000 -> end
 -> fault 4 CutHeader
d4c3b2a1020004000700000008000000ffff0000010000 -> fault 4 CutHeader
000000 -> fault 4 CutHeader
d4c3b2a2 -> fault 1 Magic
1f8b0800d4c3b2a1020004000700000008000000ffff00000100000064000000050000000300000003000000010203ffffffff3f420f000000000007000000 -> fault 1 Magic
d4c3b2a1020003000700000008000000ffff00000500000064000000050000000300000003000000010203ffffffff3f420f000000000007000000 -> fault 2 Version
d4c3b2a1040002000700000008000000ffff00000100000064000000050000000300000003000000010203ffffffff3f420f000000000007000000 -> fault 2 Version
a1b2c3d40002000400000007000000080000ffff0001000000000064000000050000000300000003010203ffffffff000f423f0000000000000007 -> fault 3 LinkType
d4c3b2a1020004000700000008000000ffff00000100000064000000050000000300000003000000010203ffffffff3f420f00000000000700000000 -> 100.5 whole 010203, 4294967295.999999 cut -, fault 5 CutRecord
d4c3b2a1020004000700000008000000ffff00000100000064000000050000000300000003000000010203ffffffff3f420f0000000000070000000100000002000000020000000200000061 -> 100.5 whole 010203, 4294967295.999999 cut -, fault 5 CutRecord
d4c3b2a1020004000700000008000000ffff00000100000064000000050000000300000003000000010203ffffffff3f420f00000000000700000001000000020000000100040001000400 -> 100.5 whole 010203, 4294967295.999999 cut -, fault 6 LongRecord
d4c3b2a1020004000700000008000000ffff00000100000064000000050000000300000003000000010203ffffffff3f420f000000000007000000010000000200000001000400010004 -> 100.5 whole 010203, 4294967295.999999 cut -, fault 5 CutRecord";

fn tell_record(told: &mut Told, record: &CapRecord) {
    told.number("", u64::from(record.sec));
    told.number(".", u64::from(record.usec));
    told.word(if record.whole { " whole" } else { " cut" });
    told.digits(" ", record.octets.as_slice());
    told.word(", ");
}

/// Reports the records that a reader returns until it has none, and returns its error. There are few records.
fn tell_records(told: &mut Told, reader: &mut Reader) -> Result<(), CaptureFault> {
    for _ in 0..9 {
        match reader.next()? {
            Some(record) => tell_record(told, &record),
            None => return Ok(()),
        }
    }
    Ok(())
}

/// Reports the records of a capture that arrives in chunks of that many octets, and returns the error after them.
fn read_pieces(
    told: &mut Told,
    mut reader: Reader,
    capture: &[u8],
    size: usize,
) -> Result<(), CaptureFault>
    requires { 0 < size }
{
    for piece in capture.chunks(size) {
        if reader.feed(piece).is_err() {
            return Err(CaptureFault::Memory);
        }
        tell_records(told, &mut reader)?;
    }
    match reader.next() {
        Ok(None) => reader.finish(),
        _ => Err(CaptureFault::Memory),
    }
}

#[test]
fn captures_have_their_records(rt: HostRuntime) -> Result<(), Fail> {
    for line in CAPTURES.lines() {
        let (digits, wanted) = line.split_once(" -> ").ok_or("a line without an arrow")?;
        let capture = hex::decode(rt.alloc(), digits)?;
        for size in [1usize, 7, 24, 1000] {
            let mut told = Told::new(rt.alloc());
            match read_pieces(&mut told, Reader::new(rt.alloc()), capture.as_slice(), size) {
                Ok(()) => told.word("end"),
                Err(fault) => told.fault(fault.number(), fault.name()),
            }
            assert_eq!(rt; told.text(), wanted.as_bytes(), "at {digits} by {size}");
        }
    }
    Ok(())
}
