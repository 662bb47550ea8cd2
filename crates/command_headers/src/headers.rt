//! The command `headers`, record by record.
ghost use Rattle.std.specs.Prelude.{◌≡◌, ◌<◌, ◌≤◌, ◌^◌, IfOk};
ghost use Rattle.wire_base.specs.Causes.{last_count};
ghost use Rattle.wire_base.specs.declared.status.Status.TheVariants as status;
ghost use Rattle.command_drive.specs.Answer.{behind};
ghost use Rattle.command_drive.specs.Reporting.{Reports};
ghost use Rattle.command_headers.specs.HeadersText.{headers_done, headers_answer, headers_cut};

use crate::line::push_record;
use command_drive::{
    Close, Command, Flow, NoSink, RecordReader, Texts, drive, refuse_by, refuse_length,
};
use pcapng_frames::NgRecord;
use replay_text::Block;
use std::alloc::Global;
use wire_base::{M, Octets, Sink, Source, Status};

/// How many records were read, how many of them have a header, and a block in which lines are collected.
#[derive(Drop)]
struct Headers {
    records: u64,
    headers: u64,
    line: Block,
    ghost counted: { headers ≤ records },
    ghost few: { records ≤ 2 ^ 62 },
}

/// Ends a report after the last record.
fn push_done(out: &mut Octets, records: u64, headers: u64) -> M<Status>
    ensures { IfOk result (λ ended. (ended, out.new) ≡ behind out.old (headers_done records headers)) }
{
    out.append(b"done records ")?;
    out.append_number(records)?;
    out.append(b" headers ")?;
    out.append_number(headers)?;
    out.push(b'\n')?;
    Ok(Status::Done)
}

impl Command<NgRecord> for Headers {
    ghost use Rattle.std.specs.Prelude.{◌-◌, ◌^◌};
    ghost use Rattle.wire_base.specs.declared.status.Status.TheVariants as status;
    ghost use Rattle.command_headers.specs.Owed.{owed, nothing_cut};

    ghost owes = { λ s given how. owed s.records s.headers given how };

    ghost refusal = { status.CaptureRefused };

    ghost waits = { λ _. 0 };

    ghost room = { λ s. 2 ^ 62 - s.records };

    fn item(&mut self, _alloc: Global, item: &NgRecord, texts: &mut Texts) -> M<Flow> {
        let number = self.records + 1;
        let found = push_record(&mut texts.report, &mut self.line, number, item)?;
        self.records = number;
        self.headers += found;
        Ok(Flow::On)
    }

    fn more(&mut self, _alloc: Global, _texts: &mut Texts) -> M<Flow> {
        Ok(Flow::On)
    }

    fn close(&mut self, _alloc: Global, close: Close, texts: &mut Texts) -> M<Status> {
        let out = &mut texts.report;
        match close {
            Close::Ended => push_done(out, self.records, self.headers),
            Close::TooLong => refuse_length(out, self.records),
            Close::Broken(why) => refuse_by(out, self.records, why),
        }
    }

    ghost cut = { λ s none. nothing_cut s.records s.headers };
}

/// Runs the command `headers CAPTURE`: reads the capture record by record and reports the header of each BIER packet in
/// it, up to the end of the capture or to the record that is rejected.
pub fn run_headers<S: Source, R: Sink>(alloc: Global, input: &mut S, report: &mut R) -> Status
    requires input_faults { S.faults input.old < last_count }
    requires report_faults { R.faults report.old < last_count }
    requires report_zeros { R.zeros report.old < last_count }
    ensures { Reports S.Source R.Sink status.CaptureRefused headers_answer headers_cut result input.old input.new report.old report.new }
{
    let Ok(mut records) = RecordReader::new(alloc) else {
        return Status::Memory;
    };
    let mut headers = Headers {
        records: 0,
        headers: 0,
        line: Block::new(),
    };
    let mut texts = Texts::new(alloc);
    let mut frames = NoSink::new();
    drive(
        alloc,
        &mut records,
        &mut headers,
        &mut texts,
        input,
        &mut frames,
        report,
    )
}
