//! Each command as one function.
ghost use Rattle.std.specs.Prelude.{◌≡◌, ◌<◌, length, slice_get, IfSome};
ghost use Rattle.wire_base.specs.Causes.{last_count};
ghost use Rattle.wire_base.specs.declared.status.Status.TheVariants as status;
ghost use Rattle.command_drive.specs.Driving.{MayRise, Drives};
ghost use Rattle.command_drive.specs.Reporting.{Reports};
ghost use Rattle.command_hop.specs.HopText.{hop_answer, hop_cut};
ghost use Rattle.command_headers.specs.HeadersText.{headers_answer, headers_cut};
ghost use Rattle.command_node.specs.Owed.{node_means};
ghost use Rattle.command_topo.specs.TopoText.{topo_answer, topo_cut};

use std::alloc::Global;
use wire_base::{Domain, Level, Sink, Source, Status, SystemId};

/// Runs `hop`, the forwarding of packets by one router with configured rows. The input is read line by line, and the
/// report has the outcomes of each packet, up to the end of the input or to the first line that is rejected.
pub fn hop<S: Source, R: Sink>(alloc: Global, input: &mut S, report: &mut R) -> Status
    requires input_faults { S.faults input.old < last_count }
    requires report_faults { R.faults report.old < last_count }
    requires report_zeros { R.zeros report.old < last_count }
    ensures { Reports S.Source R.Sink status.InputRefused hop_answer hop_cut result input.old input.new report.old report.new }
{
    command_hop::run_hop(alloc, input, report)
}

/// Runs `headers`: reports the BIER header of each record of a capture that carries a BIER packet, up to the end of the
/// capture or to the record that is rejected.
pub fn headers<S: Source, R: Sink>(alloc: Global, input: &mut S, report: &mut R) -> Status
    requires input_faults { S.faults input.old < last_count }
    requires report_faults { R.faults report.old < last_count }
    requires report_zeros { R.zeros report.old < last_count }
    ensures { Reports S.Source R.Sink status.CaptureRefused headers_answer headers_cut result input.old input.new report.old report.new }
{
    command_headers::run_headers(alloc, input, report)
}

/// Runs `node`, the router at an index of a domain on the records of a capture. What it sends is written as a capture,
/// and what it delivers and drops is reported.
pub fn node<S: Source, C: Sink, R: Sink>(
    alloc: Global,
    domain: &Domain,
    router: u16,
    input: &mut S,
    frames: &mut C,
    report: &mut R,
) -> Status
    requires place { router < length domain.now.routers }
    requires may { MayRise S.Source C.Sink R.Sink input.old frames.old report.old }
    ensures { IfSome (slice_get domain.now.routers router) (λ conf. Drives S.Source C.Sink R.Sink status.CaptureRefused (node_means conf) result input.old input.new frames.old frames.new report.old report.new) }
{
    command_node::node(alloc, domain, router, input, frames, report)
}

/// Runs `topo`: reports the topology `mt` (RFC 5120) of the newest LSPs of one level in a capture, and the cost of the path from the
/// router `from` to each other one, after the last record or up to the record that is rejected. `mt` is 0 to 4095; a greater
/// number is in no LSP.
pub fn topo<S: Source, R: Sink>(
    alloc: Global,
    level: Level,
    mt: u16,
    from: SystemId,
    input: &mut S,
    report: &mut R,
) -> Status
    requires input_faults { S.faults input.old < last_count }
    requires report_faults { R.faults report.old < last_count }
    requires report_zeros { R.zeros report.old < last_count }
    ensures { Reports S.Source R.Sink status.CaptureRefused (topo_answer (record { level = level; mt = mt; from = from })) (topo_cut (record { level = level; mt = mt; from = from })) result input.old input.new report.old report.new }
{
    command_topo::run_topo(alloc, level, mt, from, input, report)
}
