//! The loop that drives a command.
ghost use Rattle.std.specs.Prelude.{◌≡◌, ◌≢◌, ◌⊎◌, true, false, ◌<◌, ◌≤◌, ◌+◌, ◌∷◌, [], None, IfOk, IfErr, OnOk, OnErr};
ghost use Rattle.command_drive.specs.Outside.{AppendsFronts};
ghost use Rattle.wire_base.specs.declared.status.Status.TheVariants as status;
ghost use Rattle.command_drive.specs.declared.items.Close.TheVariants as closes;
ghost use Rattle.wire_base.specs.Causes.{last_count};
ghost use Rattle.command_drive.specs.declared.items.Found.TheVariants as found;
ghost use Rattle.command_drive.specs.Reading.{Closed, Finds, GoesOn, IsWaiting};
ghost use Rattle.command_drive.specs.Driving.{MayRise, SinksMayRise, SinksQuiet, StopsFor, Drives, Went, Fronts, Owing, EndsDecided, EndsCut, Stops, IsRefusal, IsWritten, meaning, total};

use crate::command::{Command, Flow};
use crate::items::{Close, Found, Items};
use crate::outputs::{flush_both, write_both, write_out};
use run_texts::Texts;
use std::alloc::Global;
use wire_base::{Failed, M, Sink, Source, Status};

/// Processes an item, and writes long output between its parts. Returns how the run ends if the item is rejected.
fn do_item<T, K: Command<T>, C: Sink, R: Sink>(
    alloc: Global,
    item: &T,
    command: &mut K,
    texts: &mut Texts,
    frames: &mut C,
    report: &mut R,
) -> Result<Option<Status>, Status>
    requires may { SinksMayRise C.Sink R.Sink frames.old report.old }
    requires rests { K.waits command.old ≡ 0 }
    requires room { 0 < K.room command.old }
    ensures went { IfOk result (λ ended. Went C.Sink R.Sink ended K.refusal (total texts.old (λ more behind. K.owes command.old (item.now ∷ more) behind)) (total texts.new (K.owes command.new)) texts.new frames.old frames.new report.old report.new) }
    ensures rests { IfOk result (λ ended. ended ≡ None → K.waits command.new ≡ 0) }
    ensures room { OnOk result (K.room command.old ≤ K.room command.new + 1) }
    ensures quiet { OnOk result (SinksQuiet C.Sink R.Sink frames.old frames.new report.old report.new) }
    ensures stops { IfErr result (λ why. StopsFor why C.Sink R.Sink frames.old frames.new report.old report.new) }
    ensures front { OnErr result (Fronts C.Sink R.Sink (total texts.old (λ more behind. K.owes command.old (item.now ∷ more) behind)) frames.old frames.new report.old report.new) }
{
    let mut flow = command.item(alloc, item, texts)?;
    'rounds: loop {
        match flow {
            Flow::On => return Ok(None),
            Flow::Ends(status) => return Ok(Some(status)),
            Flow::More => {}
        }
        let Ok(()) = flush_both(frames, report, texts) else {
            return Err(Status::WriteFault);
        };
        flow = command.more(alloc, texts)?;
    }
}

/// Processes the last item, and ends the output.
fn do_last<T, K: Command<T>, C: Sink, R: Sink>(
    alloc: Global,
    item: &T,
    command: &mut K,
    texts: &mut Texts,
    frames: &mut C,
    report: &mut R,
) -> Result<Status, Status>
    requires may { SinksMayRise C.Sink R.Sink frames.old report.old }
    requires rests { K.waits command.old ≡ 0 }
    requires room { 0 < K.room command.old }
    ensures owing { IfOk result (λ ended. Owing C.Sink R.Sink (total texts.old (K.owes command.old) (item.now ∷ []) (Closed closes.Ended)) ended texts.new frames.old frames.new report.old report.new) }
    ensures statuses { IfOk result (λ ended. (ended ≡ status.Done) ⊎ (ended ≡ K.refusal)) }
    ensures quiet { OnOk result (SinksQuiet C.Sink R.Sink frames.old frames.new report.old report.new) }
    ensures stops { IfErr result (λ why. StopsFor why C.Sink R.Sink frames.old frames.new report.old report.new) }
    ensures front { OnErr result (AppendsFronts (total texts.old (K.owes command.old) (item.now ∷ []) (Closed closes.Ended)) (R.written report.old) (R.written report.new) (C.written frames.old) (C.written frames.new)) }
{
    match do_item(alloc, item, command, texts, frames, report)? {
        Some(status) => Ok(status),
        None => Ok(command.close(alloc, Close::Ended, texts)?),
    }
}

/// Finds the next item. If the call waits for the input, all output is written before.
fn next_item<T, I: Items<T, S>, S: Source>(
    alloc: Global,
    items: &mut I,
    _texts: &Texts,
    input: &mut S,
) -> M<Found>
    requires faults { S.faults input.old < last_count }
    requires written { I.waits items.old ≡ true → IsWritten _texts.now }
    ensures found { IfOk result (λ what. Finds what (I.reads items.old) (I.reads items.new) (I.last items.new) (S.left input.old) (S.left input.new)) }
    ensures fewer { IfOk result (λ what. GoesOn what → I.most items.new < I.most items.old) }
    ensures waits { IfOk result (λ what. IsWaiting what (I.waits items.new)) }
    ensures quiet { IfOk result (λ what. what ≢ found.Failed → S.faults input.new ≡ S.faults input.old) }
    ensures failed { IfOk result (λ what. what ≡ found.Failed → S.faults input.old < S.faults input.new) }
    ensures memory { OnErr result (S.faults input.new ≡ S.faults input.old) }
{
    items.next(alloc, input)
}

/// Processes the items of an input, and returns how the run ends. The end of the output remains in `texts`.
///
/// Output is written once there is a chunk of it. All pending output is written before the next call that may wait for
/// the input.
fn do_items<T, I: Items<T, S>, K: Command<T>, S: Source, C: Sink, R: Sink>(
    alloc: Global,
    items: &mut I,
    command: &mut K,
    texts: &mut Texts,
    input: &mut S,
    frames: &mut C,
    report: &mut R,
) -> Result<Status, Status>
    requires may { MayRise S.Source C.Sink R.Sink input.old frames.old report.old }
    requires refuses { IsRefusal K.refusal }
    requires rests { K.waits command.old ≡ 0 }
    requires room { I.most items.old ≤ K.room command.old }
    requires fresh { I.waits items.old ≡ false }
    ensures ended { IfOk result (λ ended. EndsDecided S.Source C.Sink R.Sink K.refusal (meaning (I.reads items.old) (K.owes command.old) texts.old) ended texts.new input.old input.new frames.old frames.new report.old report.new
        ⊎ EndsCut S.Source C.Sink R.Sink (meaning (I.reads items.old) (K.owes command.old) texts.old) ended texts.new input.old input.new frames.old frames.new report.old report.new) }
    ensures stopped { IfErr result (λ why. Stops S.Source C.Sink R.Sink (meaning (I.reads items.old) (K.owes command.old) texts.old) why input.old input.new frames.old frames.new report.old report.new) }
{
    'items: loop {
        match next_item(alloc, items, texts, input)? {
            Found::Item => {}
            Found::Last => {
                let last = items.item();
                return do_last(alloc, last, command, texts, frames, report);
            }
            Found::Waits => {
                let Ok(()) = write_out(frames, report, texts) else {
                    return Err(Status::WriteFault);
                };
                continue 'items;
            }
            Found::Closed(how) => return Ok(command.close(alloc, how, texts)?),
            Found::Failed => return Ok(Status::ReadFault),
        }
        let item = items.item();
        let ended = do_item(alloc, item, command, texts, frames, report)?;
        if let Some(status) = ended {
            return Ok(status);
        }
        let Ok(()) = flush_both(frames, report, texts) else {
            return Err(Status::WriteFault);
        };
    }
}

/// Processes the items of an input with a command, one after the other, and writes its frames and its report to their
/// sinks.
///
/// Output is written once there is a chunk of it. If the source returned less than requested, as a pipe does, all
/// output is written before more is read, so that a reader of the output sees the result of each item at once. Whatever
/// the size of the input, the output in memory is less than a chunk plus what one part of an item reports.
pub fn drive<T, I: Items<T, S>, K: Command<T>, S: Source, C: Sink, R: Sink>(
    alloc: Global,
    items: &mut I,
    command: &mut K,
    texts: &mut Texts,
    input: &mut S,
    frames: &mut C,
    report: &mut R,
) -> Status
    requires may { MayRise S.Source C.Sink R.Sink input.old frames.old report.old }
    requires refuses { IsRefusal K.refusal }
    requires rests { K.waits command.old ≡ 0 }
    requires room { I.most items.old ≤ K.room command.old }
    requires fresh { I.waits items.old ≡ false }
    ensures { Drives S.Source C.Sink R.Sink K.refusal (meaning (I.reads items.old) (K.owes command.old) texts.old) result input.old input.new frames.old frames.new report.old report.new }
{
    match do_items(alloc, items, command, texts, input, frames, report) {
        Err(why) => why,
        Ok(status) => match write_both(frames, report, texts) {
            Ok(()) => status,
            Err(Failed) => Status::WriteFault,
        },
    }
}
