//! Counts of what a run did.
ghost use Rattle.std.specs.Prelude.{◌≡◌, ◌+◌, sum_by, IfOk};
ghost use Rattle.replay_report.specs.Counting as spec;

use domain_model::{DropLine, StepOut};
use replay_text::Event;
use wire_base::{M, Memory};

/// The number of injections of a run, and the numbers of BFR-ids that they named, that were delivered, and that were
/// dropped. A BFR-id that an injection names twice counts once.
#[derive(Clone, Copy, Debug, PartialEq, Eq)]
pub struct Counts {
    pub injected: u64,
    pub named: u64,
    pub got: u64,
    pub dropped: u64,
}

/// Returns the number of injections of an event: one or none.
fn injected_by(event: &Event) -> usize
    ensures { result ≡ spec.injected_by event.now }
{
    match event {
        Event::Inject { .. } => 1,
        Event::Take { .. } => 0,
        Event::Lose { .. } => 0,
        Event::Again { .. } => 0,
        Event::Down { .. } => 0,
        Event::Up { .. } => 0,
        Event::Send { .. } => 0,
        Event::Tick { .. } => 0,
        Event::Restart { .. } => 0,
        Event::Relabel { .. } => 0,
        Event::Leave { .. } => 0,
        Event::Join { .. } => 0,
    }
}

/// Returns how many BFR-ids an event names.
fn named_by(event: &Event) -> usize
    requires { spec.NamesOnce event.now }
    ensures { result ≡ spec.named_by event.now }
{
    match event {
        Event::Inject { ids, .. } => ids.len(),
        Event::Take { .. } => 0,
        Event::Lose { .. } => 0,
        Event::Again { .. } => 0,
        Event::Down { .. } => 0,
        Event::Up { .. } => 0,
        Event::Send { .. } => 0,
        Event::Tick { .. } => 0,
        Event::Restart { .. } => 0,
        Event::Relabel { .. } => 0,
        Event::Leave { .. } => 0,
        Event::Join { .. } => 0,
    }
}

/// Returns the sum. An overflow is reported as out of memory.
fn sum(count: u64, more: usize) -> M<u64>
    ensures { IfOk result (λ sum. sum ≡ count + more) }
{
    match count.checked_add(more as u64) {
        Some(sum) => Ok(sum),
        None => Err(Memory),
    }
}

/// Returns the count increased by the BFR-ids of drops.
fn with_drops(count: u64, drops: &[DropLine]) -> M<u64>
    ensures { IfOk result (λ sum. sum ≡ count + sum_by spec.dropped_ids drops.now) }
{
    let mut total = count;
    for dropped in drops {
        total = sum(total, dropped.ids.len())?;
    }
    Ok(total)
}

impl Counts {
    /// Returns counts of zero.
    pub fn none() -> Self
        ensures { result ≡ spec.no_counts }
    {
        Counts {
            injected: 0,
            named: 0,
            got: 0,
            dropped: 0,
        }
    }

    /// Returns the counts with one more event, which names no BFR-id twice, and its effects.
    pub fn with(&self, event: &Event, made: &StepOut) -> M<Counts>
        requires { spec.NamesOnce event.now }
        ensures { IfOk result (λ counts. counts ≡ spec.counted self.now event.now made.now.got made.now.drops) }
    {
        Ok(Counts {
            injected: sum(self.injected, injected_by(event))?,
            named: sum(self.named, named_by(event))?,
            got: sum(self.got, made.got.len())?,
            dropped: with_drops(self.dropped, made.drops.as_slice())?,
        })
    }
}
