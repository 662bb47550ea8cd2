//! Captures of either format, pcap and pcapng, whose octets arrive in chunks.
ghost use Rattle.std.specs.Prelude.{◌≡◌, ◌≤◌, ℕ, [], length, Ok, Err, None, Some, false, IfOk, OnOk, option_map};
ghost use Rattle.wire_base.specs.model.Capture.{next_of, end_of};
ghost use Rattle.pcapng_frames.specs.Reading.{ng_next, ng_end};
ghost use Rattle.command_drive.specs.declared.capture_reader.CaptureReader.TheVariants as readers;
ghost use Rattle.command_drive.specs.CaptureReading.{chosen_of, chosen, any_fed, any_next, answer_of, by_pcap, by_pcapng, any_end, fault_of, fault_number, fault_name, given, HoldsGiven};

use byteorder::{BigEndian, ByteOrder};
use pcap_frames::Reader;
use pcapng_frames::{NgFault, NgReader, NgRecord};
use std::alloc::Global;
use wire_base::{CaptureFault, M, Memory, Octets};

/// The first four octets of a pcapng capture: the type of a section header.
const PCAPNG: u32 = 0x0a0d_0d0a;

/// Why a capture is rejected.
#[derive(Clone, Copy, Debug, PartialEq, Eq)]
pub enum RecordFault {
    Pcap(CaptureFault),
    Pcapng(NgFault),
}

impl RecordFault {
    /// Returns the number of the broken rule, as reports print it.
    pub fn number(self) -> u8
        ensures { result ≡ fault_number self }
    {
        match self {
            RecordFault::Pcap(fault) => fault.number(),
            RecordFault::Pcapng(fault) => fault.number(),
        }
    }

    /// Returns the name of the rule, as reports print it.
    pub fn name(self) -> &'static [u8]
        ensures { result.now ≡ fault_name self }
    {
        match self {
            RecordFault::Pcap(fault) => fault.name(),
            RecordFault::Pcapng(fault) => fault.name(),
        }
    }
}

/// A reader of a capture in the format that its first four octets tell. Until they are there it holds what it was fed.
#[derive(Drop)]
pub enum CaptureReader {
    Unknown(Octets),
    Pcap(Reader),
    Pcapng(NgReader),
}

impl CaptureReader {
    /// Creates a reader that was fed nothing.
    pub fn new(alloc: Global) -> CaptureReader
        ensures { result ≡ readers.Unknown [] }
    {
        CaptureReader::Unknown(Octets::new(alloc))
    }

    /// Appends the next octets of the capture.
    pub fn feed(&mut self, piece: &[u8]) -> M<()>
        ensures { OnOk result (self.new ≡ any_fed self.old piece.now) }
    {
        match self {
            CaptureReader::Unknown(octets) => octets.append(piece),
            CaptureReader::Pcap(reader) => reader.feed(piece),
            CaptureReader::Pcapng(reader) => reader.feed(piece),
        }
    }

    /// Reads the next record into `read`, and returns whether there is one: false if it is not complete yet. The error, why the
    /// capture is rejected, is permanent. The record is unchanged if none was read; after Memory its frame may be empty. A reader
    /// of a pcap capture uses the memory of the record again.
    #[tactic(auto, unfolding(crate::specs::CaptureReading::any_next))]
    pub fn next_into(&mut self, alloc: Global, read: &mut NgRecord) -> M<Result<bool, RecordFault>>
        ensures exact { IfOk result (λ found. given read.new found ≡ (any_next self.old).0) }
        ensures kept { IfOk result (λ found. found ≡ Ok false → read.new ≡ read.old) }
        ensures after { OnOk result (self.new ≡ (any_next self.old).1) }
        ensures holds { HoldsGiven read.old result read.new }
    {
        self.choose(alloc)?;
        self.answer(read)
    }

    /// Chooses the format once four octets are there.
    fn choose(&mut self, alloc: Global) -> M<()>
        ensures { OnOk result (self.new ≡ chosen self.old) }
    {
        let made = match self {
            CaptureReader::Unknown(octets) => reader_of(alloc, octets.as_slice())?,
            CaptureReader::Pcap(_) | CaptureReader::Pcapng(_) => return Ok(()),
        };
        if let Some(reader) = made {
            *self = reader;
        }
        Ok(())
    }

    /// Reads the next record in the format that was chosen.
    fn answer(&mut self, read: &mut NgRecord) -> M<Result<bool, RecordFault>>
        ensures exact { IfOk result (λ found. given read.new found ≡ (answer_of self.old).0) }
        ensures kept { IfOk result (λ found. found ≡ Ok false → read.new ≡ read.old) }
        ensures after { OnOk result (self.new ≡ (answer_of self.old).1) }
        ensures holds { HoldsGiven read.old result read.new }
    {
        match self {
            CaptureReader::Unknown(_) => Ok(Ok(false)),
            CaptureReader::Pcap(reader) => pcap_next(reader, read),
            CaptureReader::Pcapng(reader) => pcapng_next(reader, read),
        }
    }

    /// Ends the capture, for a reader that has no further record.
    pub fn finish(self) -> Result<(), RecordFault>
        requires { any_next self ≡ (Ok None, self) }
        ensures { fault_of result ≡ any_end self }
    {
        match self {
            CaptureReader::Unknown(_) => Err(RecordFault::Pcap(CaptureFault::CutHeader)),
            CaptureReader::Pcap(reader) => pcap_end(reader),
            CaptureReader::Pcapng(reader) => pcapng_end(reader),
        }
    }
}

/// Returns a reader of the format that these first octets tell, which was fed them; None if there are fewer than four.
fn reader_of(alloc: Global, octets: &[u8]) -> M<Option<CaptureReader>>
    ensures { IfOk result (λ made. made ≡ chosen_of octets.now) }
{
    if octets.len() < 4 {
        return Ok(None);
    }
    if BigEndian::read_u32(octets) == PCAPNG {
        let mut reader = NgReader::new(alloc);
        reader.feed(octets)?;
        return Ok(Some(CaptureReader::Pcapng(reader)));
    }
    let mut reader = Reader::new(alloc);
    reader.feed(octets)?;
    Ok(Some(CaptureReader::Pcap(reader)))
}

/// Reads the next record of a pcap capture, which has one interface, of Ethernet.
fn pcap_next(reader: &mut Reader, read: &mut NgRecord) -> M<Result<bool, RecordFault>>
    ensures exact { IfOk result (λ found. given read.new found ≡ (by_pcap (next_of reader.old)).0) }
    ensures kept { IfOk result (λ found. found ≡ Ok false → read.new ≡ read.old) }
    ensures after { OnOk result (readers.Pcap reader.new ≡ (by_pcap (next_of reader.old)).1) }
    ensures holds { HoldsGiven read.old result read.new }
{
    match reader.next_into(&mut read.cap) {
        Ok(true) => {
            read.interface = 0;
            read.ethernet = true;
            Ok(Ok(true))
        }
        Ok(false) => Ok(Ok(false)),
        Err(CaptureFault::Memory) => Err(Memory),
        Err(fault) => Ok(Err(RecordFault::Pcap(fault))),
    }
}

/// Reads the next record of a pcapng capture.
fn pcapng_next(reader: &mut NgReader, read: &mut NgRecord) -> M<Result<bool, RecordFault>>
    ensures exact { IfOk result (λ found. given read.new found ≡ (by_pcapng (ng_next reader.old)).0) }
    ensures kept { IfOk result (λ found. found ≡ Ok false → read.new ≡ read.old) }
    ensures after { OnOk result (readers.Pcapng reader.new ≡ (by_pcapng (ng_next reader.old)).1) }
    ensures holds { HoldsGiven read.old result read.new }
{
    match reader.next() {
        Ok(Some(record)) => {
            *read = record;
            Ok(Ok(true))
        }
        Ok(None) => Ok(Ok(false)),
        Err(NgFault::Memory) => Err(Memory),
        Err(fault) => Ok(Err(RecordFault::Pcapng(fault))),
    }
}

/// Ends a pcap capture, for a reader that has no further record.
fn pcap_end(reader: Reader) -> Result<(), RecordFault>
    requires { next_of reader ≡ (Ok None, reader) }
    ensures { fault_of result ≡ any_end (readers.Pcap reader) }
{
    match reader.finish() {
        Ok(()) => Ok(()),
        Err(fault) => Err(RecordFault::Pcap(fault)),
    }
}

/// Ends a pcapng capture, for a reader that has no further packet.
fn pcapng_end(reader: NgReader) -> Result<(), RecordFault>
    requires { ng_next reader ≡ (Ok None, reader) }
    ensures { fault_of result ≡ any_end (readers.Pcapng reader) }
{
    match reader.finish() {
        Ok(()) => Ok(()),
        Err(fault) => Err(RecordFault::Pcapng(fault)),
    }
}
