//! The command `handshake`: a domain that runs a schedule with hellos.
ghost use Rattle.std.specs.Prelude.{◌≡◌};
ghost use Rattle.wire_base.specs.declared.status.Status.TheVariants as status;
ghost use Rattle.command_drive.specs.Driving.{MayRise, Drives};
ghost use Rattle.command_replay.specs.Course.{plays_mean};
ghost use Rattle.command_handshake.specs.Shaken.{shaken};

use crate::shaking::Shaking;
use command_drive::{LineReader, Texts, drive};
use domain_replay::{Recording, confs_of, push_front};
use std::alloc::Global;
use wire_base::{Domain, Sink, Source, Status};

/// Runs the command `handshake CONF SCHEDULE FRAMES` after the domain file was read: executes the schedule's lines in the domain, up
/// to the end of the schedule or to the first line that is rejected, and writes the capture of what the routers sent, in the pcap
/// format, and the report of the adjacencies that changed and of what was delivered and dropped.
///
/// The status and both outputs are those of the schedule. After a read error the lines that are complete in what was read are
/// executed and reported. After a write error, or if an allocation fails, a prefix of each output is written. Each error has its
/// cause.
pub fn shake<S: Source, C: Sink, R: Sink>(
    alloc: Global,
    domain: Domain,
    input: &mut S,
    frames: &mut C,
    report: &mut R,
) -> Status
    requires { MayRise S.Source C.Sink R.Sink input.old frames.old report.old }
    ensures { Drives S.Source C.Sink R.Sink status.InputRefused (plays_mean (shaken domain)) result input.old input.new frames.old frames.new report.old report.new }
{
    let Ok(mut reader) = LineReader::new(alloc) else {
        return Status::Memory;
    };
    let mut texts = Texts::new(alloc);
    let Ok(()) = push_front(&mut texts.frames, Recording::Pcap, confs_of(&domain)) else {
        return Status::Memory;
    };
    let Ok(mut shaking) = Shaking::new(alloc, domain, &mut texts) else {
        return Status::Memory;
    };
    drive(
        alloc,
        &mut reader,
        &mut shaking,
        &mut texts,
        input,
        frames,
        report,
    )
}
