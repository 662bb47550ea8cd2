//! A capture, up to a record.
ghost use Rattle.std.specs.Prelude.{◌≡◌, ◌<◌, length, IfOk};
ghost use Rattle.wire_base.specs.model.Configuration.{IsSound};

use crate::ending::NoAnswer;
use crate::refusal::{capture_refused, gap_refused, too_few};
use command_drive::CaptureReader;
use command_node::{RunningNode, countable};
use pcapng_frames::NgRecord;
use router_core::Router;
use std::alloc::Global;
use wire_base::{Domain, M, RouterConf};

/// Returns the configuration of the router at an index of a domain.
fn conf_at(domain: &Domain, router: u16) -> M<RouterConf>
    requires { router < length domain.now.routers }
    ensures { IfOk result (λ conf. IsSound conf) }
{
    domain.routers.as_slice()[usize::from(router)].copy()
}

/// Processes a record, which has that number, from 1, as the command `node` does. What it sends and reports is not needed.
fn take_record(
    alloc: Global,
    node: &mut RunningNode,
    number: u32,
    captured: &NgRecord,
) -> Result<(), NoAnswer> {
    if let Some((from, to)) = node.gap_at(captured.cap.sec) {
        return Err(gap_refused(alloc, number, from, to));
    }
    countable(node.tally.records)?;
    node.take(alloc, captured)?;
    node.frames.truncate(0);
    node.report.truncate(0);
    Ok(())
}

/// Processes the first records of a capture, up to that one.
fn take_records(
    alloc: Global,
    node: &mut RunningNode,
    capture: &[u8],
    last: u32,
) -> Result<(), NoAnswer> {
    let mut reader = CaptureReader::new(alloc);
    reader.feed(capture)?;
    let mut captured = NgRecord::empty(alloc);
    'records: for done in 0..last {
        let found = reader.next_into(alloc, &mut captured)?;
        match found {
            Ok(true) => take_record(alloc, node, done + 1, &captured)?,
            Ok(false) => return Err(too_few(alloc, "records", done)),
            Err(why) => return Err(capture_refused(alloc, done, why)),
        }
    }
    Ok(())
}

/// Returns the router at an index of a domain after a record of a capture, from 1; 0 is before the first one.
pub fn router_after(
    alloc: Global,
    domain: &Domain,
    router: u16,
    capture: &[u8],
    last: u32,
) -> Result<Router, NoAnswer>
    requires { router < length domain.now.routers }
{
    let mut node = RunningNode::new(alloc, conf_at(domain, router)?)?;
    take_records(alloc, &mut node, capture, last)?;
    let RunningNode { router, .. } = node;
    Ok(router)
}
