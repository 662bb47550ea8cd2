//! The command `node` after the domain file was read: one router of the domain on a capture.
ghost use Rattle.std.specs.Prelude.{◌≡◌, ◌⊎◌, ◌<◌, ◌≢◌, ℕ, List, Some, None, false, length, IfSome};
ghost use Rattle.std.specs.List.{position};
ghost use Rattle.std.specs.Io.KnownBytes.{IsAtEnd, Consumes};
ghost use Rattle.wire_base.specs.Causes.{last_count};
ghost use Rattle.wire_base.specs.declared.conf.RouterConf.{RouterConf};
ghost use Rattle.wire_base.specs.declared.status.Status.TheVariants as status;
ghost use Rattle.command_drive.specs.Answer.{IsDecided};
ghost use Rattle.command_drive.specs.Captures.{IsOpen};
ghost use Rattle.command_node.specs.NodeRun.{node_cut, node_reached};
ghost use Rattle.command_drive.specs.Outside.{Held, Meets, AppendsFront};
ghost use Rattle.command_node.specs.Named.{node_by};
ghost use Rattle.command_node.specs.Routers.{has_name, router_named};

use crate::node_command::node;
use command_drive::deliver;
use std::alloc::Global;
use wire_base::{Domain, RouterConf, Sink, Source, Status};

/// The line that is reported if the argument for the router names none.
const NO_ROUTER: &[u8] = b"refused conf 6 Reference words[2]\n";

fn is_named(router: &RouterConf, name: &[u8]) -> bool
    ensures { result ≡ has_name name.now router.now }
{
    router.name.as_slice() == name
}

fn position_of(routers: &[RouterConf], name: &[u8]) -> Option<usize>
    ensures value { result ≡ position (has_name name.now) routers.now }
    ensures within { IfSome result (λ place. place < length routers.now) }
{
    routers.iter().position(|router| is_named(router, name))
}

/// Returns the index in the domain of the router with that name.
pub fn place_of(domain: &Domain, name: &[u8]) -> Option<u16>
    ensures value { result ≡ position (has_name name.now) domain.now.routers }
    ensures within { IfSome result (λ place. place < length domain.now.routers) }
{
    let place = position_of(domain.routers.as_slice(), name)?;
    Some(place as u16)
}

/// Runs `node` after the domain file was read. If the domain has a router with that name, the router runs on the
/// capture. Otherwise the report states that there is none, and the capture and the frames are untouched. An I/O error
/// is returned only if its count rose. After a read error, the records that are complete in what was read are processed
/// and reported. After a write error, or out of memory, a prefix of each output is written.
pub fn node_in<S: Source, C: Sink, R: Sink>(
    alloc: Global,
    domain: &Domain,
    router: &[u8],
    input: &mut S,
    frames: &mut C,
    report: &mut R,
) -> Status
    requires input_faults { S.faults input.old < last_count }
    requires frames_faults { C.faults frames.old < last_count }
    requires frames_zeros { C.zeros frames.old < last_count }
    requires report_faults { R.faults report.old < last_count }
    requires report_zeros { R.zeros report.old < last_count }
    ensures answer { IsDecided result → (octets : List ℕ) × Held (S.left input.old) octets × IfSome (node_by (router_named domain.now router.now) (Some octets))
        (λ owed. Meets owed result (R.written report.old) (R.written report.new) (C.written frames.old) (C.written frames.new)) }
    ensures statuses { IsDecided result → (result ≡ status.Done) ⊎ ((result ≡ status.ConfRefused) ⊎ (result ≡ status.CaptureRefused)) }
    ensures all { result ≡ status.Done → IsAtEnd (S.left input.new) }
    ensures read { result ≡ status.ReadFault → S.faults input.old < S.faults input.new }
    ensures write { result ≡ status.WriteFault → (C.faults frames.old < C.faults frames.new) ⊎ ((C.zeros frames.old < C.zeros frames.new) ⊎ ((R.faults report.old < R.faults report.new) ⊎ (R.zeros report.old < R.zeros report.new))) }
    ensures input_quiet { result ≢ status.ReadFault → result ≢ status.WriteFault → S.faults input.new ≡ S.faults input.old }
    ensures frames_quiet { result ≢ status.WriteFault → C.faults frames.new ≡ C.faults frames.old }
    ensures frames_take { result ≢ status.WriteFault → C.zeros frames.new ≡ C.zeros frames.old }
    ensures report_quiet { result ≢ status.WriteFault → R.faults report.new ≡ R.faults report.old }
    ensures report_takes { result ≢ status.WriteFault → R.zeros report.new ≡ R.zeros report.old }
    ensures accepted { ((input.new ≡ input.old) × (frames.new ≡ frames.old)) ⊎ ((own : RouterConf) × (router_named domain.now router.now ≡ Some own)) }
    ensures refused { result ≡ status.ConfRefused → (input.new ≡ input.old) × (frames.new ≡ frames.old) }
    ensures capture_finished { (result ≡ status.Done) ⊎ (result ≡ status.CaptureRefused) → C.unfinished frames.new ≡ false }
    ensures frames_finished { result ≢ status.WriteFault → result ≢ status.Memory → (frames.new ≡ frames.old) ⊎ (C.unfinished frames.new ≡ false) }
    ensures report_finished { result ≢ status.WriteFault → result ≢ status.Memory → R.unfinished report.new ≡ false }
    ensures both_finished { result ≡ status.ReadFault → (C.unfinished frames.new ≡ false) × (R.unfinished report.new ≡ false) }
    ensures stopped { result ≡ status.ReadFault → (own : RouterConf) × (router_named domain.now router.now ≡ Some own) × ((octets : List ℕ) × Consumes (S.left input.old) (S.left input.new) octets
        × IsOpen octets × ((node_reached own octets).gap ≡ None)
        × Meets (node_cut own octets) result (R.written report.old) (R.written report.new) (C.written frames.old) (C.written frames.new)) }
    ensures front { (result ≡ status.WriteFault) ⊎ (result ≡ status.Memory) → (octets : List ℕ) × Held (S.left input.old) octets × IfSome (node_by (router_named domain.now router.now) (Some octets))
        (λ owed. AppendsFront (R.written report.old) (R.written report.new) owed.report × AppendsFront (C.written frames.old) (C.written frames.new) owed.frames) }
{
    match place_of(domain, router) {
        Some(place) => node(alloc, domain, place, input, frames, report),
        None => deliver(report, Status::ConfRefused, NO_ROUTER),
    }
}
