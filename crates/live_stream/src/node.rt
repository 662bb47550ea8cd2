//! What a live router does with a record. Its state is that of a node whose clock no record sets.
ghost use Rattle.std.specs.Prelude.{◌≡◌, ◌≤◌, ◌<◌, ◌^◌, length, None, IfOk, OnOk};
ghost use Rattle.command_drive.specs.Answer.{behind};
ghost use Rattle.command_drive.specs.Reading.{Closed};
ghost use Rattle.command_node.specs.Owed.{end_by};
ghost use Rattle.replay_text.specs.Events.{EventFits};
ghost use Rattle.live_stream.specs.LiveRun as live;

use crate::event::{content_of, is_event};
use crate::fault::LiveFault;
use crate::happening::happen;
use crate::seat::Seat;
use crate::texts::push_refusal;
use command_drive::Close;
use command_node::{RunningNode, conclude, countable};
use pcapng_frames::NgRecord;
use replay_text::Event;
use std::alloc::Global;
use wire_base::ethernet::FRAME_HEAD;
use wire_base::{M, Octets, Status};

/// Reports an event that is not done.
fn refuse(node: &mut RunningNode, why: LiveFault) -> M<()>
    ensures { OnOk result (node.new ≡ live.refuses node.old why) }
{
    push_refusal(&mut node.report, node.tally.records, why)?;
    node.pass_over()
}

/// Lets an event happen.
fn do_event(
    node: &mut RunningNode,
    alloc: Global,
    seat: &Seat,
    captured: &NgRecord,
    event: &Event,
) -> M<()>
    requires fits { EventFits (length seat.now.domain.routers) event.now }
    ensures { OnOk result (node.new ≡ live.happens seat.now captured.now node.old event.now) }
{
    let done = happen(alloc, &mut node.router, seat, event)?;
    match done {
        Ok(effects) => node.tell(alloc, captured, &effects),
        Err(why) => refuse(node, why),
    }
}

/// Lets the event happen that a record spells.
fn read_event(node: &mut RunningNode, alloc: Global, seat: &Seat, captured: &NgRecord) -> M<()>
    requires { FRAME_HEAD ≤ length captured.now.cap.octets }
    ensures { OnOk result (node.new ≡ live.evented seat.now captured.now node.old) }
{
    let found = seat.read(alloc, content_of(captured.cap.octets.as_slice()))?;
    match found {
        Ok(event) => do_event(node, alloc, seat, captured, &event),
        Err(why) => refuse(node, why),
    }
}

/// Does what a record says.
fn follow(node: &mut RunningNode, alloc: Global, seat: &Seat, captured: &NgRecord) -> M<()>
    ensures { OnOk result (node.new ≡ live.streamed seat.now captured.now node.old) }
{
    if is_event(captured) {
        read_event(node, alloc, seat, captured)
    } else {
        node.receive(alloc, captured)
    }
}

/// Processes a record: it is counted, and then its event happens or its frame is received.
#[tactic(auto, unfolding(crate::specs::LiveRun::live_done))]
pub fn take(node: &mut RunningNode, alloc: Global, seat: &Seat, captured: &NgRecord) -> M<()>
    requires { node.old.tally.records < 2 ^ 63 }
    ensures { OnOk result (node.new ≡ live.live_done seat.now node.old captured.now) }
{
    node.tally.records += 1;
    follow(node, alloc, seat, captured)
}

/// Ends the report after the last record.
pub fn end(node: &RunningNode, out: &mut Octets, close: Close) -> M<Status>
    ensures { IfOk result (λ ended. (ended, out.new) ≡ behind out.old (end_by (Closed close) node.now.tally None)) }
{
    countable(node.tally.records)?;
    conclude(out, close, node.tally)
}
