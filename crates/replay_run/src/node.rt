//! The command `node`: one router of a domain on a capture.
ghost use Rattle.wire_base.specs.declared.status.Status.TheVariants as status;
ghost use Rattle.command_line.specs.Form as form;
ghost use Rattle.replay_run.specs.Endings.{NodeLeaves};
ghost use Rattle.replay_run.specs.Faults.{MayRise};
ghost use Rattle.replay_run.specs.Run.{ReadsDomain};

use command_drive::deliver;
use command_node::{NoDomain, domain_in, node_in};
use std::alloc::Global;
use wire_base::{Sink, Source, Status};

/// All that the program does on the arguments `node CONF ROUTER CAPTURE FRAMES`: where the domain file breaks a rule, or no router of
/// its domain has the name `router`, it reports that; else that router runs on the frames of the capture.
pub(crate) fn node<D: Source, S: Source, C: Sink, R: Sink>(
    alloc: Global,
    router: &[u8],
    conf: &mut D,
    input: &mut S,
    frames: &mut C,
    report: &mut R,
) -> Status
    requires counters { MayRise D.Source S.Source C.Sink R.Sink conf.old input.old frames.old report.old }
    ensures does { ReadsDomain D.Source S.Source C.Sink R.Sink form.Node router.now status.CaptureRefused result
        conf.old conf.new input.old input.new frames.old frames.new report.old report.new }
    ensures leaves { NodeLeaves D.Source S.Source C.Sink R.Sink router.now result
        conf.old conf.new input.old input.new frames.old frames.new report.old report.new }
{
    match domain_in(alloc, conf) {
        Ok(domain) => node_in(alloc, &domain, router, input, frames, report),
        Err(NoDomain::Refused(line)) => deliver(report, Status::ConfRefused, line.as_slice()),
        Err(NoDomain::Stopped(why)) => why,
    }
}
