//! A run on the files that the arguments name.
ghost use Rattle.std.specs.Prelude.{◌≡◌, ◌<◌, length, IfOk, IfErr, OnOk};
ghost use Rattle.wire_base.specs.Causes.{last_count};
ghost use Rattle.command_drive.specs.Answer.{IsDecided};
ghost use Rattle.command_drive.specs.Driving.{MayRise};
ghost use Rattle.live_stream.specs.HelloRun.{hello_means};
ghost use Rattle.live_stream.specs.LiveRun.{live_means};
ghost use Rattle.live_stream.specs.Verdict.{IsAnswered, IsFound, IsUnnamed, Seats, Unseated};

use crate::hello_stream::run_hellos;
use crate::stream::run_router;
use command_drive::deliver;
use command_node::{NoDomain, domain_in, place_of};
use std::alloc::Global;
use wire_base::{Domain, Sink, Source, Status};

/// The line that is reported for an unknown command line.
const USAGE: &[u8] =
    b"usage: live_router CONF ROUTER STREAM FRAMES | live_router hello CONF ROUTER STREAM FRAMES\n";

/// The line that is reported if the argument for the router names none.
const NO_ROUTER: &[u8] = b"refused conf 6 Reference words[2]\n";

/// Reports an unknown command line.
pub fn refuse_words<R: Sink>(report: &mut R) -> Status
    requires report_faults { R.faults report.old < last_count }
    requires report_zeros { R.zeros report.old < last_count }
{
    deliver(report, Status::Usage, USAGE)
}

/// Returns a domain and the index of its router of that name. If none has it, the report says so.
fn seat_of<R: Sink>(domain: Domain, router: &[u8], report: &mut R) -> Result<(Domain, u16), Status>
    requires report_faults { R.faults report.old < last_count }
    requires report_zeros { R.zeros report.old < last_count }
    ensures found { IfOk result (λ found. IsFound domain router.now found.0 found.1) }
    ensures within { IfOk result (λ found. found.1 < length found.0.routers) }
    ensures untouched { OnOk result (report.new ≡ report.old) }
    ensures unnamed { IfErr result (λ ended. IsUnnamed domain router.now ended (R.written report.old) (R.written report.new)) }
{
    match place_of(&domain, router) {
        Some(place) => Ok((domain, place)),
        None => Err(deliver(report, Status::ConfRefused, NO_ROUTER)),
    }
}

/// Returns the domain of a file and the index of the router of that name. If the file breaks a rule, or no router has the name, the
/// report says so, and the error is how the run ends.
fn seat_in<D: Source, R: Sink>(
    alloc: Global,
    router: &[u8],
    conf: &mut D,
    report: &mut R,
) -> Result<(Domain, u16), Status>
    requires conf_faults { D.faults conf.old < last_count }
    requires report_faults { R.faults report.old < last_count }
    requires report_zeros { R.zeros report.old < last_count }
    ensures seats { IfOk result (λ found. Seats (D.left conf.old) router.now found.0 found.1) }
    ensures within { IfOk result (λ found. found.1 < length found.0.routers) }
    ensures untouched { OnOk result (report.new ≡ report.old) }
    ensures unseated { IfErr result (λ ended. Unseated (D.left conf.old) router.now ended (R.written report.old) (R.written report.new)) }
{
    match domain_in(alloc, conf) {
        Ok(domain) => seat_of(domain, router, report),
        Err(NoDomain::Refused(line)) => {
            Err(deliver(report, Status::ConfRefused, line.as_slice()))
        }
        Err(NoDomain::Stopped(why)) => Err(why),
    }
}

/// Runs the router of that name in the domain of a file on a stream. If there is none, the stream and the frames are untouched.
pub fn run_live<D: Source, S: Source, C: Sink, R: Sink>(
    alloc: Global,
    router: &[u8],
    conf: &mut D,
    input: &mut S,
    frames: &mut C,
    report: &mut R,
) -> Status
    requires conf_faults { D.faults conf.old < last_count }
    requires may { MayRise S.Source C.Sink R.Sink input.old frames.old report.old }
    ensures { IsDecided result → IsAnswered live_means (D.left conf.old) router.now (S.left input.old) result (R.written report.old) (R.written report.new) (C.written frames.old) (C.written frames.new) }
{
    match seat_in(alloc, router, conf, report) {
        Ok((domain, place)) => run_router(alloc, domain, place, input, frames, report),
        Err(ended) => ended,
    }
}

/// Runs the hellos of the router of that name in the domain of a file on a stream. If there is none, the stream and the frames
/// are untouched.
pub fn run_hello<D: Source, S: Source, C: Sink, R: Sink>(
    alloc: Global,
    router: &[u8],
    conf: &mut D,
    input: &mut S,
    frames: &mut C,
    report: &mut R,
) -> Status
    requires conf_faults { D.faults conf.old < last_count }
    requires may { MayRise S.Source C.Sink R.Sink input.old frames.old report.old }
    ensures { IsDecided result → IsAnswered hello_means (D.left conf.old) router.now (S.left input.old) result (R.written report.old) (R.written report.new) (C.written frames.old) (C.written frames.new) }
{
    match seat_in(alloc, router, conf, report) {
        Ok((domain, place)) => run_hellos(alloc, domain, place, input, frames, report),
        Err(ended) => ended,
    }
}
