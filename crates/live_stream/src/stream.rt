//! The command: a live router on the records of a stream.
ghost use Rattle.std.specs.Prelude.{◌≡◌, ◌<◌, ◌≤◌, ◌^◌, Some, None, length, slice_get, IfSome, IfOk, OnOk};
ghost use Rattle.wire_base.specs.declared.status.Status.TheVariants as status;
ghost use Rattle.wire_base.specs.model.Configuration.{IsSound};
ghost use Rattle.command_drive.specs.Driving.{MayRise, Drives};
ghost use Rattle.live_stream.specs.LiveRun.{live_means};
ghost use Rattle.live_stream.specs.Owed.{StartsAs};

use crate::node::{end, take};
use crate::seat::Seat;
use command_drive::{Close, Command, Flow, RecordReader, Texts, drive};
use command_node::RunningNode;
use pcapng_frames::NgRecord;
use std::alloc::Global;
use wire_base::{Domain, M, RouterConf, Sink, Source, Status};

/// A router that runs, and its place in the domain.
#[derive(Drop)]
struct LiveRouter {
    seat: Seat,
    node: RunningNode,
}

impl Command<NgRecord> for LiveRouter {
    ghost use Rattle.std.specs.Prelude.{◌-◌, ◌^◌};
    ghost use Rattle.wire_base.specs.declared.status.Status.TheVariants as status;
    ghost use Rattle.live_stream.specs.Owed.{live_owed, nothing_cut};

    ghost owes = { λ s given how. live_owed s.seat s.node given how };

    ghost refusal = { status.CaptureRefused };

    ghost waits = { λ _. 0 };

    ghost room = { λ s. 2 ^ 63 - s.node.tally.records };

    fn item(&mut self, alloc: Global, item: &NgRecord, texts: &mut Texts) -> M<Flow> {
        self.node.trade(texts);
        take(&mut self.node, alloc, &self.seat, item)?;
        self.node.trade(texts);
        Ok(Flow::On)
    }

    fn more(&mut self, _alloc: Global, _texts: &mut Texts) -> M<Flow> {
        Ok(Flow::On)
    }

    fn close(&mut self, _alloc: Global, close: Close, texts: &mut Texts) -> M<Status> {
        end(&self.node, &mut texts.report, close)
    }

    ghost cut = { λ s none. nothing_cut s.seat s.node };
}

/// Returns the configuration of the router at an index of a domain.
pub fn conf_at(domain: &Domain, router: u16) -> M<RouterConf>
    requires { router < length domain.now.routers }
    ensures at { IfOk result (λ conf. slice_get domain.now.routers router ≡ Some conf) }
    ensures sound { IfOk result (λ conf. IsSound conf) }
{
    domain.routers.as_slice()[usize::from(router)].copy()
}

/// Returns the router at an index of a domain, just started.
fn start(alloc: Global, domain: Domain, router: u16) -> M<LiveRouter>
    requires { router < length domain.routers }
    ensures { IfOk result (λ live. StartsAs domain router live.seat live.node) }
{
    let conf = conf_at(&domain, router)?;
    let seat = Seat::new(alloc, domain, router)?;
    let node = RunningNode::new(alloc, conf)?;
    Ok(LiveRouter { seat, node })
}

/// Runs the router at an index of a domain on a stream: it starts with all its interfaces up, and does what the records say,
/// one after the other. What it sends is written as a capture, each frame with the time of the record; what it delivers and
/// drops is reported, and which events are not done. All output is written before the call waits for more of the stream.
pub fn run_router<S: Source, C: Sink, R: Sink>(
    alloc: Global,
    domain: Domain,
    router: u16,
    input: &mut S,
    frames: &mut C,
    report: &mut R,
) -> Status
    requires place { router < length domain.routers }
    requires may { MayRise S.Source C.Sink R.Sink input.old frames.old report.old }
    ensures { IfSome (slice_get domain.routers router) (λ conf. Drives S.Source C.Sink R.Sink status.CaptureRefused (live_means (record { domain = domain; place = router }) conf) result input.old input.new frames.old frames.new report.old report.new) }
{
    let Ok(mut records) = RecordReader::new(alloc) else {
        return Status::Memory;
    };
    let Ok(mut live) = start(alloc, domain, router) else {
        return Status::Memory;
    };
    let mut texts = Texts::new(alloc);
    live.node.trade(&mut texts);
    drive(
        alloc,
        &mut records,
        &mut live,
        &mut texts,
        input,
        frames,
        report,
    )
}
