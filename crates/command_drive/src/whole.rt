//! Output that is written whole, or a chunk at a time.
ghost use Rattle.std.specs.Prelude.{◌≡◌, ◌⊎◌, ◌<◌, ◌++◌, ℕ, List, [], false, nat_le, length, IfOk, OnOk, OnErr, if◌then◌else◌};
ghost use Rattle.std.specs.Io.KnownBytes.{Appends};
ghost use Rattle.wire_base.specs.Causes.{last_count};
ghost use Rattle.wire_base.specs.declared.status.Status.TheVariants as statuses;
ghost use Rattle.command_drive.specs.Outside.{AppendsFront};
ghost use Rattle.command_drive.specs.Answer.{IsDecided};

use std::alloc::Global;
use wire_base::{Failed, M, Octets, Sink, Status};

/// The amount of pending output, in octets, from which on output is written.
pub const PIECE: usize = 65_536;

/// The size of a read, in octets. Most domain files and schedules are not longer, and a buffer of this size is quickly set to zero.
pub const READ_SIZE: usize = 16_384;

/// Returns a buffer for a chunk of an input.
pub fn buffer(alloc: Global) -> M<Vec<u8>>
    ensures { IfOk result (λ bytes. 0 < length bytes.items) }
{
    Ok(vec![in alloc; 0u8; READ_SIZE]?)
}

/// Writes all octets. It fails if the sink accepts none of those that remain.
pub fn write_all<R: Sink>(sink: &mut R, text: &[u8]) -> Result<(), Failed>
    requires faults { R.faults sink.old < last_count }
    requires zeros { R.zeros sink.old < last_count }
    ensures written { OnOk result (Appends (R.written sink.old) (R.written sink.new) text.now) }
    ensures quiet { OnOk result (R.faults sink.new ≡ R.faults sink.old) }
    ensures no_zeros { OnOk result (R.zeros sink.new ≡ R.zeros sink.old) }
    ensures front { OnErr result (AppendsFront (R.written sink.old) (R.written sink.new) text.now) }
    ensures cause { OnErr result ((R.faults sink.old < R.faults sink.new) ⊎ (R.zeros sink.old < R.zeros sink.new)) }
{
    let mut done = 0;
    'pieces: while done < text.len() {
        let count = sink.write(&text[done..])?;
        if count == 0 {
            return Err(Failed);
        }
        done += count;
    }
    Ok(())
}

/// Writes output once there is a chunk of it. Less than a chunk remains.
pub fn flush<R: Sink>(report: &mut R, lines: &mut Octets) -> Result<(), Failed>
    requires faults { R.faults report.old < last_count }
    requires zeros { R.zeros report.old < last_count }
    ensures written { OnOk result ((flushed : List ℕ) × Appends (R.written report.old) (R.written report.new) flushed × (lines.old ≡ flushed ++ lines.new)) }
    ensures small { OnOk result (length lines.new < PIECE) }
    ensures quiet { OnOk result (R.faults report.new ≡ R.faults report.old) }
    ensures no_zeros { OnOk result (R.zeros report.new ≡ R.zeros report.old) }
    ensures front { OnErr result (AppendsFront (R.written report.old) (R.written report.new) lines.old) }
    ensures cause { OnErr result ((R.faults report.old < R.faults report.new) ⊎ (R.zeros report.old < R.zeros report.new)) }
{
    if lines.len() < PIECE {
        return Ok(());
    }
    write_all(report, lines.as_slice())?;
    lines.truncate(0);
    Ok(())
}

/// Writes all octets and finishes the sink.
pub fn write_whole<R: Sink>(sink: &mut R, text: &[u8]) -> Result<(), Failed>
    requires faults { R.faults sink.old < last_count }
    requires zeros { R.zeros sink.old < last_count }
    ensures written { OnOk result (Appends (R.written sink.old) (R.written sink.new) text.now) }
    ensures finished { OnOk result (R.unfinished sink.new ≡ false) }
    ensures quiet { OnOk result (R.faults sink.new ≡ R.faults sink.old) }
    ensures no_zeros { OnOk result (R.zeros sink.new ≡ R.zeros sink.old) }
    ensures front { OnErr result (AppendsFront (R.written sink.old) (R.written sink.new) text.now) }
    ensures cause { OnErr result ((R.faults sink.old < R.faults sink.new) ⊎ (R.zeros sink.old < R.zeros sink.new)) }
{
    write_all(sink, text)?;
    sink.finish()
}

/// Writes a whole report, finishes the sink and returns the status, or `WriteFault` if the sink fails.
pub fn deliver<R: Sink>(report: &mut R, status: Status, text: &[u8]) -> Status
    requires decided { IsDecided status }
    requires faults { R.faults report.old < last_count }
    requires zeros { R.zeros report.old < last_count }
    ensures status { (result ≡ status) ⊎ (result ≡ statuses.WriteFault) }
    ensures written { IsDecided result → Appends (R.written report.old) (R.written report.new) text.now }
    ensures finished { IsDecided result → R.unfinished report.new ≡ false }
    ensures quiet { IsDecided result → R.faults report.new ≡ R.faults report.old }
    ensures no_zeros { IsDecided result → R.zeros report.new ≡ R.zeros report.old }
    ensures front { result ≡ statuses.WriteFault → AppendsFront (R.written report.old) (R.written report.new) text.now }
    ensures cause { result ≡ statuses.WriteFault → (R.faults report.old < R.faults report.new) ⊎ (R.zeros report.old < R.zeros report.new) }
{
    match write_whole(report, text) {
        Ok(()) => status,
        Err(Failed) => Status::WriteFault,
    }
}
