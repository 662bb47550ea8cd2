//! Frames and report, written to their sinks.
ghost use Rattle.std.specs.Prelude.{◌≡◌, ◌<◌, [], false, length, OnOk, OnErr};
ghost use Rattle.std.specs.Io.KnownBytes.{Appends};
ghost use Rattle.command_drive.specs.Driving.{SinksMayRise, SinksQuiet, OneRose, Wrote, Fronted};

use crate::whole::{PIECE, flush, write_all, write_whole};
use run_texts::Texts;
use wire_base::{Failed, Sink};

/// Writes the frames, the report or both, if a chunk or more of them is pending. Less than a chunk of each remains.
pub fn flush_both<C: Sink, R: Sink>(
    frames: &mut C,
    report: &mut R,
    texts: &mut Texts,
) -> Result<(), Failed>
    requires { SinksMayRise C.Sink R.Sink frames.old report.old }
    ensures wrote { OnOk result (Wrote C.Sink R.Sink texts.old texts.new frames.old frames.new report.old report.new) }
    ensures small { OnOk result ((length texts.new.frames < PIECE) × (length texts.new.report < PIECE)) }
    ensures quiet { OnOk result (SinksQuiet C.Sink R.Sink frames.old frames.new report.old report.new) }
    ensures front { OnErr result (Fronted C.Sink R.Sink texts.old frames.old frames.new report.old report.new) }
    ensures cause { OnErr result (OneRose C.Sink R.Sink frames.old frames.new report.old report.new) }
{
    flush(frames, &mut texts.frames)?;
    flush(report, &mut texts.report)
}

/// Writes all that is pending of both, however little it is.
pub fn write_out<C: Sink, R: Sink>(
    frames: &mut C,
    report: &mut R,
    texts: &mut Texts,
) -> Result<(), Failed>
    requires { SinksMayRise C.Sink R.Sink frames.old report.old }
    ensures wrote { OnOk result (Wrote C.Sink R.Sink texts.old texts.new frames.old frames.new report.old report.new) }
    ensures no_frames { OnOk result (texts.new.frames ≡ []) }
    ensures no_report { OnOk result (texts.new.report ≡ []) }
    ensures quiet { OnOk result (SinksQuiet C.Sink R.Sink frames.old frames.new report.old report.new) }
    ensures front { OnErr result (Fronted C.Sink R.Sink texts.old frames.old frames.new report.old report.new) }
    ensures cause { OnErr result (OneRose C.Sink R.Sink frames.old frames.new report.old report.new) }
{
    write_all(frames, texts.frames.as_slice())?;
    write_all(report, texts.report.as_slice())?;
    texts.frames.truncate(0);
    texts.report.truncate(0);
    Ok(())
}

/// Writes what is pending of both, and finishes both sinks.
pub fn write_both<C: Sink, R: Sink>(
    frames: &mut C,
    report: &mut R,
    texts: &Texts,
) -> Result<(), Failed>
    requires { SinksMayRise C.Sink R.Sink frames.old report.old }
    ensures frames { OnOk result (Appends (C.written frames.old) (C.written frames.new) texts.now.frames) }
    ensures report { OnOk result (Appends (R.written report.old) (R.written report.new) texts.now.report) }
    ensures frames_finished { OnOk result (C.unfinished frames.new ≡ false) }
    ensures report_finished { OnOk result (R.unfinished report.new ≡ false) }
    ensures quiet { OnOk result (SinksQuiet C.Sink R.Sink frames.old frames.new report.old report.new) }
    ensures front { OnErr result (Fronted C.Sink R.Sink texts.now frames.old frames.new report.old report.new) }
    ensures cause { OnErr result (OneRose C.Sink R.Sink frames.old frames.new report.old report.new) }
{
    write_whole(frames, texts.frames.as_slice())?;
    write_whole(report, texts.report.as_slice())
}
