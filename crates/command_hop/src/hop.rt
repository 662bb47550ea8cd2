//! The command `hop`, line by line.
ghost use Rattle.std.specs.Prelude.{◌≡◌, ◌<◌};
ghost use Rattle.wire_base.specs.Causes.{last_count};
ghost use Rattle.wire_base.specs.declared.status.Status.TheVariants as status;
ghost use Rattle.command_drive.specs.Reporting.{Reports};
ghost use Rattle.command_hop.specs.HopText.{hop_answer, hop_cut};
ghost use Rattle.command_hop.specs.Owed.{nothing_reached};

use crate::report::{accept, push_done, push_refused, refuse};
use crate::ways::Ways;
use command_drive::{Close, Command, Flow, LineReader, NoSink, Texts, drive};
use replay_text::{HopLine, HopState, read_hop_line};
use std::alloc::Global;
use std::marker::Model;
use wire_base::{M, Octets, Rows, Sink, Source, Status};

/// The state of a run on a hop text: what its lines contained, the forwarding table that was built from them, and the
/// numbers of lines and packets. What the last line contained is kept, so that the next packet is read into the set of the last.
#[derive(Drop)]
struct Hop {
    state: HopState,
    ways: Option<Ways>,
    said: HopLine,
    lines: u64,
    packets: u64,
}

impl Model for Hop {
    ghost use Rattle.command_hop.specs.Owed.{Reached};
    ghost use Rattle.command_hop.specs.Ready.{IsReady};

    ghost Value = { Reached };

    ghost view = { λ h. record { state = h.state; lines = h.lines; packets = h.packets } };

    ghost invariant = { λ h. IsReady h.state h.ways h.lines h.packets };
}

impl Hop {
    /// Returns the state before the first line.
    fn new(alloc: Global) -> Self
        ensures { result ≡ nothing_reached }
    {
        Hop {
            state: HopState {
                bsl: None,
                own: None,
                rows: Rows::new(alloc),
                packets: false,
            },
            ways: None,
            said: HopLine::Empty,
            lines: 0,
            packets: 0,
        }
    }
}

impl Command<Octets> for Hop {
    ghost use Rattle.std.specs.Prelude.{◌-◌, ◌^◌};
    ghost use Rattle.wire_base.specs.declared.status.Status.TheVariants as status;
    ghost use Rattle.command_hop.specs.Owed.{owed, nothing_cut};

    ghost owes = { λ s items behind. owed s items behind };

    ghost refusal = { status.InputRefused };

    ghost waits = { λ _. 0 };

    ghost room = { λ s. 2 ^ 62 - s.lines };

    fn item(&mut self, alloc: Global, item: &Octets, texts: &mut Texts) -> M<Flow> {
        let out = &mut texts.report;
        let line = self.lines + 1;
        match read_hop_line(item.as_slice(), &self.state, &mut self.said) {
            Err(why) => Ok(Flow::Ends(refuse(out, line, why)?)),
            Ok(()) => {
                let said = &self.said;
                let packets = accept(alloc, out, line, &mut self.state, &mut self.ways, said)?;
                self.lines = line;
                self.packets += packets;
                Ok(Flow::On)
            }
        }
    }

    fn more(&mut self, _alloc: Global, _texts: &mut Texts) -> M<Flow> {
        Ok(Flow::On)
    }

    fn close(&mut self, _alloc: Global, close: Close, texts: &mut Texts) -> M<Status> {
        let out = &mut texts.report;
        if let Close::Ended = close {
            push_done(out, self.lines, self.packets)?;
            return Ok(Status::Done);
        }
        push_refused(out, self.lines + 1, 6, b"TooLong")?;
        Ok(Status::InputRefused)
    }

    ghost cut = { λ s none. nothing_cut s };
}

/// Runs the command `hop INPUT`: reads the input line by line and reports the outcomes of each packet, up to the end of
/// the input or to the first line that is rejected.
pub fn run_hop<S: Source, R: Sink>(alloc: Global, input: &mut S, report: &mut R) -> Status
    requires input_faults { S.faults input.old < last_count }
    requires report_faults { R.faults report.old < last_count }
    requires report_zeros { R.zeros report.old < last_count }
    ensures { Reports S.Source R.Sink status.InputRefused hop_answer hop_cut result input.old input.new report.old report.new }
{
    let Ok(mut lines) = LineReader::new(alloc) else {
        return Status::Memory;
    };
    let mut hop = Hop::new(alloc);
    let mut texts = Texts::new(alloc);
    let mut frames = NoSink::new();
    drive(
        alloc,
        &mut lines,
        &mut hop,
        &mut texts,
        input,
        &mut frames,
        report,
    )
}
