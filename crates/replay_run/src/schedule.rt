//! The commands that execute a schedule.
ghost use Rattle.std.specs.Prelude.{[]};
ghost use Rattle.wire_base.specs.declared.status.Status.TheVariants as status;
ghost use Rattle.command_drive.specs.Driving as driving;
ghost use Rattle.command_drive.specs.Driving.{Drives};
ghost use Rattle.command_line.specs.Form as form;
ghost use Rattle.command_replay.specs.Course.{plays_mean};
ghost use Rattle.replay_run.specs.Endings.{ReplayLeaves};
ghost use Rattle.replay_run.specs.Faults.{MayRise};
ghost use Rattle.replay_run.specs.Run.{ReadsDomain};
ghost use Rattle.replay_run.specs.Verdict.{plays};

use command_check::check;
use command_drive::deliver;
use command_handshake::shake;
use command_line::ScheduleKind;
use command_node::{NoDomain, domain_in};
use command_replay::play;
use domain_replay::Recording;
use std::alloc::Global;
use wire_base::{Domain, Sink, Source, Status};

/// Executes a schedule in a domain, by a command.
fn execute<S: Source, C: Sink, R: Sink>(
    alloc: Global,
    kind: ScheduleKind,
    domain: Domain,
    input: &mut S,
    frames: &mut C,
    report: &mut R,
) -> Status
    requires { driving.MayRise S.Source C.Sink R.Sink input.old frames.old report.old }
    ensures { Drives S.Source C.Sink R.Sink status.InputRefused (plays_mean (plays kind domain)) result input.old input.new frames.old frames.new report.old report.new }
{
    match kind {
        ScheduleKind::Replay => play(alloc, domain, Recording::Pcap, input, frames, report),
        ScheduleKind::ReplayNg => play(alloc, domain, Recording::Pcapng, input, frames, report),
        ScheduleKind::Handshake => shake(alloc, domain, input, frames, report),
        ScheduleKind::Check => check(alloc, domain, input, frames, report),
    }
}

/// All that the program does on the arguments `replay CONF SCHEDULE FRAMES`, and by the other commands that execute a schedule: where
/// the domain file breaks a rule, it reports that; else it executes the schedule in the domain.
pub(crate) fn replay<D: Source, S: Source, C: Sink, R: Sink>(
    alloc: Global,
    kind: ScheduleKind,
    conf: &mut D,
    input: &mut S,
    frames: &mut C,
    report: &mut R,
) -> Status
    requires counters { MayRise D.Source S.Source C.Sink R.Sink conf.old input.old frames.old report.old }
    ensures does { ReadsDomain D.Source S.Source C.Sink R.Sink (form.Replay kind) [] status.InputRefused result
        conf.old conf.new input.old input.new frames.old frames.new report.old report.new }
    ensures leaves { ReplayLeaves D.Source S.Source C.Sink R.Sink kind result
        conf.old conf.new input.old input.new frames.old frames.new report.old report.new }
{
    match domain_in(alloc, conf) {
        Ok(domain) => execute(alloc, kind, domain, input, frames, report),
        Err(NoDomain::Refused(line)) => deliver(report, Status::ConfRefused, line.as_slice()),
        Err(NoDomain::Stopped(why)) => why,
    }
}
