//! The command `replay`: a domain that runs a schedule.
ghost use Rattle.std.specs.Prelude.{◌≡◌};
ghost use Rattle.wire_base.specs.declared.status.Status.TheVariants as status;
ghost use Rattle.command_drive.specs.Driving.{MayRise, Drives};
ghost use Rattle.command_replay.specs.ScheduleText.{schedule_means};

use crate::replaying::Replaying;
use command_drive::{LineReader, Texts, drive};
use domain_replay::{Recording, confs_of, push_front};
use std::alloc::Global;
use std::mem::forget;
use wire_base::{Domain, Sink, Source, Status};

/// The room for frames that are not written yet, in octets, before it grows.
const FRAMES_ROOM: usize = 262_144;

/// Runs the command `replay CONF SCHEDULE FRAMES` after the domain file was read: executes the schedule's lines in the
/// domain, up to the end of the schedule or to the first line that is rejected, and writes the capture of what the
/// routers sent, in the given format, and the report of what they delivered and dropped. `replay-ng` differs in the
/// format alone.
///
/// The status and both outputs are those of the schedule. After a read error the lines that are complete in what was
/// read are executed and reported. After a write error, or if an allocation fails, a prefix of each output is written.
/// Each error has its cause. The memory of the domain is not freed, since the program ends with the command.
pub fn play<S: Source, C: Sink, R: Sink>(
    alloc: Global,
    domain: Domain,
    recording: Recording,
    input: &mut S,
    frames: &mut C,
    report: &mut R,
) -> Status
    requires { MayRise S.Source C.Sink R.Sink input.old frames.old report.old }
    ensures { Drives S.Source C.Sink R.Sink status.InputRefused (schedule_means recording domain) result input.old input.new frames.old frames.new report.old report.new }
{
    let Ok(mut reader) = LineReader::new(alloc) else {
        return Status::Memory;
    };
    let Ok(mut texts) = Texts::with_room(alloc, FRAMES_ROOM) else {
        return Status::Memory;
    };
    let Ok(()) = push_front(&mut texts.frames, recording, confs_of(&domain)) else {
        return Status::Memory;
    };
    let Ok(mut replaying) = Replaying::new(alloc, domain, recording) else {
        return Status::Memory;
    };
    let status = drive(
        alloc,
        &mut reader,
        &mut replaying,
        &mut texts,
        input,
        frames,
        report,
    );
    // Freeing the many pieces of a large domain one by one takes time, and the program ends now.
    forget(replaying);
    status
}
