//! The command: the hellos of a live router on the records of a stream.
ghost use Rattle.std.specs.Prelude.{◌≡◌, ◌<◌, ◌≤◌, ◌^◌, length, slice_get, IfSome, IfOk, OnOk};
ghost use Rattle.wire_base.specs.declared.status.Status.TheVariants as status;
ghost use Rattle.command_drive.specs.Driving.{MayRise, Drives};
ghost use Rattle.live_stream.specs.HelloRun as hello;
ghost use Rattle.live_stream.specs.HelloOwed.{GreetsAs};

use crate::greeter::Greeter;
use crate::seat::Seat;
use crate::stream::conf_at;
use command_drive::{Close, Command, Flow, RecordReader, Texts, drive};
use pcapng_frames::NgRecord;
use std::alloc::Global;
use wire_base::{Domain, M, Sink, Source, Status};

/// The hellos of a router, and its place in the domain.
#[derive(Drop)]
struct LiveHellos {
    seat: Seat,
    greeter: Greeter,
}

impl Command<NgRecord> for LiveHellos {
    ghost use Rattle.std.specs.Prelude.{◌-◌, ◌^◌};
    ghost use Rattle.wire_base.specs.declared.status.Status.TheVariants as status;
    ghost use Rattle.live_stream.specs.HelloOwed.{hello_owed, nothing_cut};

    ghost owes = { λ s given how. hello_owed s.seat s.greeter given how };

    ghost refusal = { status.CaptureRefused };

    ghost waits = { λ _. 0 };

    ghost room = { λ s. 2 ^ 63 - s.greeter.records };

    fn item(&mut self, alloc: Global, item: &NgRecord, texts: &mut Texts) -> M<Flow> {
        self.greeter.trade(texts);
        self.greeter.take(alloc, &self.seat, item)?;
        self.greeter.trade(texts);
        Ok(Flow::On)
    }

    fn more(&mut self, _alloc: Global, _texts: &mut Texts) -> M<Flow> {
        Ok(Flow::On)
    }

    fn close(&mut self, _alloc: Global, close: Close, texts: &mut Texts) -> M<Status> {
        self.greeter.close(&mut texts.report, close)
    }

    ghost cut = { λ s none. nothing_cut s.seat s.greeter };
}

/// Returns the hellos of the router at an index of a domain, just started.
fn start(alloc: Global, domain: Domain, router: u16) -> M<LiveHellos>
    requires { router < length domain.routers }
    ensures { IfOk result (λ made. GreetsAs domain router made.seat made.greeter) }
{
    let conf = conf_at(&domain, router)?;
    let seat = Seat::new(alloc, domain, router)?;
    let greeter = Greeter::new(alloc, conf)?;
    Ok(LiveHellos { seat, greeter })
}

/// Runs the hellos of the router at an index of a domain on a stream: it starts with all its adjacencies down, and does what the
/// records say, one after the other. The hellos that it sends are written as a capture, and between them events for the router:
/// an interface comes up, or goes down. Events that are not done are reported. All output is written before the call waits for
/// more of the stream.
pub fn run_hellos<S: Source, C: Sink, R: Sink>(
    alloc: Global,
    domain: Domain,
    router: u16,
    input: &mut S,
    frames: &mut C,
    report: &mut R,
) -> Status
    requires place { router < length domain.routers }
    requires may { MayRise S.Source C.Sink R.Sink input.old frames.old report.old }
    ensures { IfSome (slice_get domain.routers router) (λ conf. Drives S.Source C.Sink R.Sink status.CaptureRefused (hello.hello_means (record { domain = domain; place = router }) conf) result input.old input.new frames.old frames.new report.old report.new) }
{
    let Ok(mut records) = RecordReader::new(alloc) else {
        return Status::Memory;
    };
    let Ok(mut hellos) = start(alloc, domain, router) else {
        return Status::Memory;
    };
    let mut texts = Texts::new(alloc);
    hellos.greeter.trade(&mut texts);
    drive(
        alloc,
        &mut records,
        &mut hellos,
        &mut texts,
        input,
        frames,
        report,
    )
}
