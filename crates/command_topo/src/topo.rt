//! The command `topo`, record by record.
ghost use Rattle.std.specs.Prelude.{◌≡◌, ◌<◌, ◌≤◌, ◌^◌, ◌++◌, IfOk};
ghost use Rattle.wire_base.specs.Causes.{last_count};
ghost use Rattle.wire_base.specs.declared.status.Status.TheVariants as status;
ghost use Rattle.command_drive.specs.Answer.{behind};
ghost use Rattle.command_drive.specs.Reporting.{Reports};
ghost use Rattle.command_topo.specs.Lines.{topology_text};
ghost use Rattle.command_topo.specs.TopoText.{full_at, topo_answer, topo_cut};

use crate::frames::add_record;
use crate::graphs::push_topology;
use crate::query::Query;
use command_drive::{
    Close, Command, Flow, NoSink, RecordReader, Texts, drive, push_refused, refuse_by,
    refuse_length,
};
use lsp_store::Store;
use pcapng_frames::NgRecord;
use std::alloc::Global;
use wire_base::{Level, M, Octets, Sink, Source, Status, SystemId};

/// The newest LSPs so far, and how many records were read.
#[derive(Drop)]
struct Topo {
    query: Query,
    store: Store,
    records: u64,
    ghost few: { records ≤ 2 ^ 62 },
}

/// Ends a report at the record after that many others, whose LSP has no room.
fn refuse_full(out: &mut Octets, records: u64) -> M<Status>
    requires { records < 2 ^ 63 }
    ensures { IfOk result (λ ended. (ended, out.new) ≡ behind out.old (full_at records)) }
{
    push_refused(out, records + 1, 9, b"Full")?;
    out.push(b'\n')?;
    Ok(Status::CaptureRefused)
}

/// Ends a report after the last record.
fn conclude(alloc: Global, out: &mut Octets, query: Query, store: &Store, records: u64) -> M<Status>
    ensures { IfOk result (λ ended. (ended, out.new) ≡ behind out.old (status.Done, topology_text query.mt query.from records store.now.entries)) }
{
    push_topology(alloc, out, store, query.mt, query.from, records)?;
    Ok(Status::Done)
}

impl Command<NgRecord> for Topo {
    ghost use Rattle.std.specs.Prelude.{◌-◌, ◌^◌};
    ghost use Rattle.wire_base.specs.declared.status.Status.TheVariants as status;
    ghost use Rattle.command_topo.specs.Owed.{owed, nothing_cut};

    ghost owes = { λ s given how. owed s.query s.records s.store.entries given how };

    ghost refusal = { status.CaptureRefused };

    ghost waits = { λ _. 0 };

    ghost room = { λ s. 2 ^ 62 - s.records };

    fn item(&mut self, _alloc: Global, item: &NgRecord, texts: &mut Texts) -> M<Flow> {
        let added = add_record(self.query.level, &mut self.store, item)?;
        if added {
            self.records += 1;
            return Ok(Flow::On);
        }
        let ended = refuse_full(&mut texts.report, self.records)?;
        Ok(Flow::Ends(ended))
    }

    fn more(&mut self, _alloc: Global, _texts: &mut Texts) -> M<Flow> {
        Ok(Flow::On)
    }

    fn close(&mut self, alloc: Global, close: Close, texts: &mut Texts) -> M<Status> {
        let out = &mut texts.report;
        match close {
            Close::Ended => conclude(alloc, out, self.query, &self.store, self.records),
            Close::TooLong => refuse_length(out, self.records),
            Close::Broken(why) => refuse_by(out, self.records, why),
        }
    }

    ghost cut = { λ s none. nothing_cut s.query s.records s.store.entries };
}

/// Runs the command `topo CAPTURE LEVEL MT FROM`: reads the capture record by record, keeps the newest LSP of the level for each
/// LSP ID, and after the last record reports one topology (RFC 5120): its nodes, edges and BIER memberships, and the cost of the
/// path from the router `from` to each other one. A capture is rejected at its first error, or at the first LSP for which the LSDB
/// has no room.
///
/// `mt` is the topology, 0 to 4,095; a greater number is in no LSP.
pub fn run_topo<S: Source, R: Sink>(
    alloc: Global,
    level: Level,
    mt: u16,
    from: SystemId,
    input: &mut S,
    report: &mut R,
) -> Status
    requires input_faults { S.faults input.old < last_count }
    requires report_faults { R.faults report.old < last_count }
    requires report_zeros { R.zeros report.old < last_count }
    ensures { Reports S.Source R.Sink status.CaptureRefused (topo_answer (record { level = level; mt = mt; from = from })) (topo_cut (record { level = level; mt = mt; from = from })) result input.old input.new report.old report.new }
{
    let Ok(mut records) = RecordReader::new(alloc) else {
        return Status::Memory;
    };
    let store = Store::new(alloc);
    let mut topo = Topo {
        query: Query { level, mt, from },
        store,
        records: 0,
    };
    let mut texts = Texts::new(alloc);
    let mut frames = NoSink::new();
    drive(
        alloc,
        &mut records,
        &mut topo,
        &mut texts,
        input,
        &mut frames,
        report,
    )
}
