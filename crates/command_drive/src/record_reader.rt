//! Captures that are read from a source in chunks and returned record by record.
ghost use Rattle.std.specs.Prelude.{◌≡◌, ◌<◌, ◌≤◌, ◌-◌, ◌^◌, ℕ, List, Ok, None, true, false, IfOk, OnOk, length, take, min, nat_lt};
ghost use Rattle.wire_base.specs.declared.limits.TheConstants.{CAPTURE_LIMIT};
ghost use Rattle.command_drive.specs.CaptureReading.{any_unread, any_fed, any_next, any_end};
ghost use Rattle.command_drive.specs.Reading.{End};
ghost use Rattle.command_drive.specs.Records.{close_by};

use crate::capture_reader::CaptureReader;
use crate::items::{Close, Found, Items};
use crate::whole::{READ_SIZE, buffer};
use pcapng_frames::NgRecord;
use std::alloc::Global;
use std::mem;
use wire_base::limits::CAPTURE_LIMIT;
use wire_base::{M, Source};

/// A capture of either format that is read record by record: at most 268,435,456 octets.
///
/// It holds one chunk of the capture, and what was read and is not returned yet. An error within the size limit is
/// reported before the capture is found to be too long.
#[derive(Drop)]
pub struct RecordReader {
    buffer: Vec<u8>,
    reader: CaptureReader,
    given: NgRecord,
    room: usize,
    over: bool,
    short: bool,
    waits: bool,
    ghost chunk: { 0 < length buffer.items },
    ghost within: { room ≤ CAPTURE_LIMIT },
}

impl RecordReader {
    ghost use Rattle.command_drive.specs.Records.{records_read, records_left};

    /// Returns a reader that has read nothing.
    pub fn new(alloc: Global) -> M<Self>
        ensures fresh { IfOk result (λ made. (end : End) (octets : List ℕ) → records_read made.reader made.room made.over end octets ≡ records_read any_unread CAPTURE_LIMIT false end octets) }
        ensures idle { IfOk result (λ made. made.waits ≡ false) }
        ensures few { IfOk result (λ made. records_left made.reader made.room made.short < 2 ^ 30) }
    {
        Ok(RecordReader {
            buffer: buffer(alloc)?,
            reader: CaptureReader::new(alloc),
            given: NgRecord::empty(alloc),
            room: CAPTURE_LIMIT,
            over: false,
            short: false,
            waits: false,
        })
    }

    /// Accepts that many octets that were read, up to the limit.
    fn take(&mut self, count: usize) -> M<()>
        requires { count ≤ length self.old.buffer.items }
        ensures reader { OnOk result (self.new.reader ≡ any_fed self.old.reader (take (min count self.old.room) self.old.buffer.items)) }
        ensures room { OnOk result (self.new.room ≡ self.old.room - count) }
        ensures over { OnOk result (self.new.over ≡ nat_lt self.old.room count) }
        ensures waits { OnOk result (self.new.waits ≡ self.old.waits) }
        ensures short { OnOk result (self.new.short ≡ true → count < self.old.room) }
    {
        let room = self.room;
        let fits = count.min(room);
        self.reader.feed(&self.buffer[..fits])?;
        self.room -= fits;
        self.over = count > room;
        self.short = count < room.min(READ_SIZE);
        Ok(())
    }

    /// Returns how the capture closes when the source ended.
    fn end(&mut self, alloc: Global) -> Close
        requires { any_next self.old.reader ≡ (Ok None, self.old.reader) }
        ensures { result ≡ close_by (any_end self.old.reader) }
    {
        match mem::replace(&mut self.reader, CaptureReader::new(alloc)).finish() {
            Ok(()) => Close::Ended,
            Err(why) => Close::Broken(why),
        }
    }
}

impl<S: Source> Items<NgRecord, S> for RecordReader {
    ghost use Rattle.command_drive.specs.Records.{records_read, records_left};

    ghost reads = { λ s end octets. records_read s.reader s.room s.over end octets };

    ghost last = { λ s. s.given };

    ghost most = { λ s. records_left s.reader s.room s.short };

    ghost waits = { λ s. s.waits };

    fn next(&mut self, alloc: Global, input: &mut S) -> M<Found> {
        self.waits = false;
        'chunks: loop {
            let read = self.reader.next_into(alloc, &mut self.given)?;
            match read {
                Ok(true) => return Ok(Found::Item),
                Ok(false) => {}
                Err(why) => return Ok(Found::Closed(Close::Broken(why))),
            }
            if self.over {
                return Ok(Found::Closed(Close::TooLong));
            }
            if self.short {
                self.short = false;
                self.waits = true;
                return Ok(Found::Waits);
            }
            let Ok(count) = input.read(&mut self.buffer) else {
                return Ok(Found::Failed);
            };
            if count == 0 {
                return Ok(Found::Closed(self.end(alloc)));
            }
            self.take(count)?;
        }
    }

    fn item(&self) -> &NgRecord {
        &self.given
    }
}
