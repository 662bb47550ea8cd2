//! The command `node`: one router on the records of a capture.
ghost use Rattle.std.specs.Prelude.{◌≡◌, ◌<◌, ◌≤◌, ◌^◌, Some, None, length, slice_get, IfSome, IfOk, OnOk};
ghost use Rattle.wire_base.specs.declared.status.Status.TheVariants as status;
ghost use Rattle.wire_base.specs.model.Configuration.{IsSound};
ghost use Rattle.command_drive.specs.Answer.{behind};
ghost use Rattle.command_drive.specs.Driving.{MayRise, Drives};
ghost use Rattle.command_drive.specs.Reading.{Closed};
ghost use Rattle.command_node.specs.Owed.{StartsAs, end_by, node_means};

mod links;
mod standing;
mod tally;
mod texts;

use command_drive::{Close, Command, Flow, RecordReader, Texts, drive, refuse_by, refuse_length};
pub use links::link_of;
use pcapng_frames::NgRecord;
pub use standing::RunningNode;
use std::alloc::Global;
pub use tally::{Tally, sum};
pub use texts::{push_effects, push_frames};
use texts::{push_done, push_gap};
use wire_base::{Domain, M, Memory, Octets, RouterConf, Sink, Source, Status};

/// Checks that the record counter can be incremented. An overflow is reported as out of memory.
pub fn countable(records: u64) -> M<()>
    ensures { OnOk result (records < 2 ^ 63) }
{
    if records < 1 << 63 {
        return Ok(());
    }
    Err(Memory)
}

/// Ends the report after the last record: with the counts of all records, or with why the capture is rejected.
pub fn conclude(out: &mut Octets, close: Close, tally: Tally) -> M<Status>
    requires { tally.records < 2 ^ 63 }
    ensures { IfOk result (λ ended. (ended, out.new) ≡ behind out.old (end_by (Closed close) tally None)) }
{
    match close {
        Close::Ended => push_done(out, tally),
        Close::TooLong => refuse_length(out, tally.records),
        Close::Broken(why) => refuse_by(out, tally.records, why),
    }
}

impl Command<NgRecord> for RunningNode {
    ghost use Rattle.std.specs.Prelude.{◌-◌, ◌^◌};
    ghost use Rattle.wire_base.specs.declared.status.Status.TheVariants as status;
    ghost use Rattle.command_node.specs.Owed.{owed, nothing_cut};

    ghost owes = { λ s given how. owed s given how };

    ghost refusal = { status.CaptureRefused };

    ghost waits = { λ _. 0 };

    ghost room = { λ s. 2 ^ 63 - s.tally.records };

    fn item(&mut self, alloc: Global, item: &NgRecord, texts: &mut Texts) -> M<Flow> {
        if let Some(gap) = self.gap_at(item.cap.sec) {
            push_gap(&mut texts.report, self.tally.records + 1, gap)?;
            return Ok(Flow::Ends(Status::CaptureRefused));
        }
        self.trade(texts);
        self.take(alloc, item)?;
        self.trade(texts);
        Ok(Flow::On)
    }

    fn more(&mut self, _alloc: Global, _texts: &mut Texts) -> M<Flow> {
        Ok(Flow::On)
    }

    fn close(&mut self, _alloc: Global, close: Close, texts: &mut Texts) -> M<Status> {
        countable(self.tally.records)?;
        conclude(&mut texts.report, close, self.tally)
    }

    ghost cut = { λ s none. nothing_cut s };
}

/// Returns the configuration of the router at an index of a domain.
fn conf_at(domain: &Domain, router: u16) -> M<RouterConf>
    requires { router < length domain.now.routers }
    ensures at { IfOk result (λ conf. slice_get domain.now.routers router ≡ Some conf) }
    ensures sound { IfOk result (λ conf. IsSound conf) }
{
    domain.routers.as_slice()[usize::from(router)].copy()
}

/// Returns the router at an index of a domain, just started.
fn start(alloc: Global, domain: &Domain, router: u16) -> M<RunningNode>
    requires { router < length domain.now.routers }
    ensures { IfOk result (λ node. StartsAs (slice_get domain.now.routers router) node) }
{
    RunningNode::new(alloc, conf_at(domain, router)?)
}

/// Runs the command `node CONF ROUTER CAPTURE FRAMES` once the domain file is read and the router is found. The router
/// at that index of the domain starts and receives the frames of the capture on the interfaces that they arrived on,
/// while the seconds between them pass one by one. What it sends is written as a capture; what it delivers and drops is
/// reported. Both outputs are written from time to time, so that neither is held in memory as a whole.
///
/// A record arrived on the interface whose peer has the frame's source address. Ignored are records of other sources and
/// of other link types than Ethernet, of fewer than 12 or more than 65,000 octets, and those that were captured only in part; and frames of another class,
/// hellos and PDUs of another type. The first record sets the clock. The timestamp of a later one advances it by at
/// most 65,535 seconds, and a timestamp that goes back does not change it. In each second the router's LSDB ages, and
/// after every fifth it sends what is due on each interface.
pub fn node<S: Source, C: Sink, R: Sink>(
    alloc: Global,
    domain: &Domain,
    router: u16,
    input: &mut S,
    frames: &mut C,
    report: &mut R,
) -> Status
    requires place { router < length domain.now.routers }
    requires may { MayRise S.Source C.Sink R.Sink input.old frames.old report.old }
    ensures { IfSome (slice_get domain.now.routers router) (λ conf. Drives S.Source C.Sink R.Sink status.CaptureRefused (node_means conf) result input.old input.new frames.old frames.new report.old report.new) }
{
    let Ok(mut records) = RecordReader::new(alloc) else {
        return Status::Memory;
    };
    let Ok(mut node) = start(alloc, domain, router) else {
        return Status::Memory;
    };
    let mut texts = Texts::new(alloc);
    node.trade(&mut texts);
    drive(
        alloc,
        &mut records,
        &mut node,
        &mut texts,
        input,
        frames,
        report,
    )
}
