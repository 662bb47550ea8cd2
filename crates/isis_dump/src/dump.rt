//! Dumps a capture from beginning to end.
ghost use Rattle.std.specs.Prelude.{◌≡◌, Ok, None, OnOk};
ghost use Rattle.wire_base.specs.model.Capture.{next_of};

use crate::frames::show_record;
use isis_text::Shown;
use pcap_frames::{CapRecord, Reader};
use std::alloc::Global;
use std::fmt::Write as _;
use std::io::{Read, Write};
use wire_base::{CaptureFault, M, Memory, Status};

/// The number of octets read at a time, and the size of the text at which it is written.
const PIECE: usize = 65_536;

/// The progress through a capture: its reader; the numbers of records, of parsed IS-IS frames and of invalid ones; and
/// the lines that are still to be written.
#[derive(Drop)]
struct Progress {
    reader: Reader,
    records: u64,
    read: u64,
    refused: u64,
    text: String,
}

impl Progress {
    fn new(alloc: Global) -> Progress {
        Progress {
            reader: Reader::new(alloc),
            records: 0,
            read: 0,
            refused: 0,
            text: String::new(alloc),
        }
    }

    /// Appends the lines of a record.
    fn show(&mut self, record: &CapRecord) -> M<()>
        ensures reader { self.new.reader ≡ self.old.reader }
    {
        self.records = self.records.saturating_add(1);
        match show_record(&mut self.text, self.records, record)? {
            Some(Shown::Whole) => self.read = self.read.saturating_add(1),
            Some(Shown::Refused) => self.refused = self.refused.saturating_add(1),
            None => {}
        }
        Ok(())
    }

    /// Appends the lines of a record that is not needed afterwards.
    fn show_next(&mut self, record: CapRecord) -> M<()>
        ensures reader { self.new.reader ≡ self.old.reader }
    {
        self.show(&record)
    }

    /// Appends the lines of all records that are complete in what the reader was fed. Afterwards the reader has no further one.
    fn show_records(&mut self) -> Result<(), CaptureFault>
        ensures open { OnOk result ((next_of self.new.reader).0 ≡ Ok None) }
    {
        'records: loop {
            let Some(record) = self.reader.next()? else {
                return Ok(());
            };
            self.show_next(record)?;
        }
    }
}

/// Allocates a buffer for a chunk of the capture.
fn buffer(alloc: Global) -> M<Vec<u8>> {
    Ok(vec![in alloc; 0u8; PIECE]?)
}

/// Returns the number of the record at which an error occurred; the capture's header has the number 0.
fn fault_record(records: u64, why: CaptureFault) -> u64 {
    match why {
        CaptureFault::Magic
        | CaptureFault::Version
        | CaptureFault::LinkType
        | CaptureFault::CutHeader => 0,
        CaptureFault::CutRecord | CaptureFault::LongRecord | CaptureFault::Memory => {
            records.saturating_add(1)
        }
    }
}

/// Appends the last line for an invalid capture.
fn show_fault(text: &mut String, records: u64, why: CaptureFault) -> M<Status> {
    if why == CaptureFault::Memory {
        return Err(Memory);
    }
    let record = fault_record(records, why);
    let number = why.number();
    let name = std::str::from_utf8(why.name()).unwrap_or("?");
    writeln!(text, "refused record {record} {number} {name}")?;
    Ok(Status::CaptureRefused)
}

/// Appends the last line at the end of the capture.
fn show_end(progress: Progress) -> M<(Status, String)> {
    let mut progress = progress;
    let ended = progress.show_records();
    let Progress {
        reader,
        records,
        read,
        refused,
        mut text,
    } = progress;
    let ended = match ended {
        Ok(()) => reader.finish(),
        Err(why) => Err(why),
    };
    let status = match ended {
        Ok(()) => {
            writeln!(text, "done records {records} read {read} refused {refused}")?;
            Status::Done
        }
        Err(why) => show_fault(&mut text, records, why)?,
    };
    Ok((status, text))
}

/// Writes the lines and discards them.
fn write_out<W: Write>(output: &mut W, text: &mut String) -> Result<(), Status> {
    match output.write_all(text.as_bytes()) {
        Ok(()) => {
            text.clear();
            Ok(())
        }
        Err(_) => Err(Status::WriteFault),
    }
}

/// Writes the last lines, and returns the status.
fn end<W: Write>(output: &mut W, text: &str, status: Status) -> Result<Status, Status> {
    let written = match output.write_all(text.as_bytes()) {
        Ok(()) => output.flush(),
        Err(error) => Err(error),
    };
    match written {
        Ok(()) => Ok(status),
        Err(_) => Err(Status::WriteFault),
    }
}

/// Reads a capture in chunks and writes the lines of its IS-IS frames, up to its end or to an invalid record.
/// The last line is `done`, with the numbers of records, of parsed frames and of invalid ones, or
/// `refused record`, with the broken rule. After a read or write error there is no such line.
pub fn dump<R: Read, W: Write>(
    alloc: Global,
    input: &mut R,
    output: &mut W,
) -> Result<Status, Status> {
    let mut buffer = buffer(alloc)?;
    let mut progress = Progress::new(alloc);
    for _ in 0..u64::MAX {
        let Ok(count) = input.read(&mut buffer) else {
            return end(output, progress.text.as_str(), Status::ReadFault);
        };
        if count == 0 {
            break;
        }
        progress.reader.feed(&buffer[..count])?;
        if let Err(why) = progress.show_records() {
            let status = show_fault(&mut progress.text, progress.records, why)?;
            return end(output, progress.text.as_str(), status);
        }
        write_out(output, &mut progress.text)?;
    }
    let (status, text) = show_end(progress)?;
    end(output, text.as_str(), status)
}
