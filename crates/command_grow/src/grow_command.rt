//! The command `grow`: a generated domain that runs its schedule.
ghost use Rattle.std.specs.Prelude.{◌<◌, ◌≤◌, ℕ, List};
ghost use Rattle.wire_base.specs.Causes.{last_count};
ghost use Rattle.wire_base.specs.declared.limits.TheConstants.{MOST_ROUTERS};
ghost use Rattle.wire_base.specs.declared.status.Status.TheVariants as status;
ghost use Rattle.command_drive.specs.Reporting.{Reports};
ghost use Rattle.command_grow.specs.Grow.{grow_answer};

use crate::growing::{Growing, GrownLines};
use command_drive::{NoSink, NoSource, Texts, drive};
use std::alloc::Global;
use std::mem::forget;
use wire_base::{Sink, Source, Status};

/// Runs the command `grow N`: builds the domain of N routers and its schedule, runs the schedule in the domain, and
/// reports the counts of the run, or the line that is rejected. It reads nothing. After a write error, or if an
/// allocation fails, a prefix of the report is written. The memory of the domain is not freed, since the program ends with
/// the command.
pub fn grow<R: Sink>(alloc: Global, n: u16, report: &mut R) -> Status
    requires some { 3 ≤ n }
    requires few { n ≤ MOST_ROUTERS }
    requires faults { R.faults report.old < last_count }
    requires zeros { R.zeros report.old < last_count }
    ensures { Reports ⟦<NoSource as Source>⟧ R.Sink status.InputRefused (λ (octets : List ℕ). grow_answer n) (λ (octets : List ℕ). grow_answer n) result (record {}) (record {}) report.old report.new }
{
    let Ok(mut growing) = Growing::new(alloc, n) else {
        return Status::Memory;
    };
    let mut lines = GrownLines::new();
    let mut texts = Texts::new(alloc);
    let mut input = NoSource;
    let mut frames = NoSink::new();
    let status = drive(
        alloc,
        &mut lines,
        &mut growing,
        &mut texts,
        &mut input,
        &mut frames,
        report,
    );
    // Freeing the many pieces of a large domain one by one takes time, and the program ends now.
    forget(growing);
    status
}
