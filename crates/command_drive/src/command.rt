//! The interface of a command: what it does with each item.
ghost use Rattle.std.specs.Prelude.{◌≡◌, ◌⊎◌, ◌<◌, ◌≤◌, ◌+◌, ◌∷◌, ℕ, List, [], IfOk, OnOk};
ghost use Rattle.wire_base.specs.declared.status.Status.{Status};
ghost use Rattle.wire_base.specs.declared.status.Status.TheVariants as status;
ghost use Rattle.command_drive.specs.Answer.{Verdict};
ghost use Rattle.command_drive.specs.declared.items.Close.TheVariants as closes;
ghost use Rattle.command_drive.specs.declared.command.Flow.TheVariants as flow;
ghost use Rattle.command_drive.specs.Reading.{Behind, Closed, Cut};
ghost use Rattle.command_drive.specs.Doing.{Did, Concludes, nothing_more};

use crate::items::Close;
use run_texts::Texts;
use std::alloc::Global;
use wire_base::{M, Status};

/// How a run continues after a part of an item.
#[derive(Clone, Copy, Debug, PartialEq, Eq)]
pub enum Flow {
    /// The run continues with the next item.
    On,
    /// The run continues with more of this item, once long output was written.
    More,
    /// The run ends with that status.
    Ends(Status),
}

/// Processes items, and appends what it reports of them to the output.
pub trait Command<T> {
    /// The status and the output that remain to be produced, given the items that follow and how the input ends after
    /// them.
    ghost owes: { Self → List T → Behind → Verdict };

    /// The one status with which it rejects its input.
    ghost refusal: { Status };

    /// How often it may still ask to continue the item; 0 between items.
    ghost waits: { Self → ℕ };

    /// The number of items that it can still process: its counters have room for that many.
    ghost room: { Self → ℕ };

    /// Processes an item, or the first part of it.
    fn item(&mut self, alloc: Global, item: &T, texts: &mut Texts) -> M<Flow>
        requires rests { waits self.old ≡ 0 }
        requires room { 0 < room self.old }
        ensures did { IfOk result (λ how. Did how refusal (λ more behind. owes self.old (item.now ∷ more) behind) (owes self.new) texts.old texts.new) }
        ensures rests { IfOk result (λ how. how ≡ flow.On → waits self.new ≡ 0) }
        ensures room { OnOk result (room self.old ≤ room self.new + 1) };

    /// Processes a further part of the item.
    fn more(&mut self, alloc: Global, texts: &mut Texts) -> M<Flow>
        ensures did { IfOk result (λ how. Did how refusal (owes self.old) (owes self.new) texts.old texts.new) }
        ensures rests { IfOk result (λ how. how ≡ flow.On → waits self.new ≡ 0) }
        ensures fewer { IfOk result (λ how. how ≡ flow.More → waits self.new < waits self.old) }
        ensures room { OnOk result (room self.old ≤ room self.new) };

    /// Ends the output after the last item.
    fn close(&mut self, alloc: Global, close: Close, texts: &mut Texts) -> M<Status>
        requires { waits self.old ≡ 0 }
        ensures concluded { IfOk result (λ ended. Concludes ended (owes self.old [] (Closed close)) texts.old texts.new) }
        ensures done { IfOk result (λ ended. ended ≡ status.Done → close ≡ closes.Ended) }
        ensures statuses { IfOk result (λ ended. (ended ≡ status.Done) ⊎ (ended ≡ refusal)) };

    /// After a read error, nothing more is reported.
    ghost cut: { (self : Self) → waits self ≡ 0 → owes self [] Cut ≡ nothing_more };
}
