//! The interface of a reader: where items come from.
ghost use Rattle.std.specs.Prelude.{◌≡◌, ◌≢◌, ◌<◌, ℕ, Bool, List, IfOk, OnErr};
ghost use Rattle.wire_base.specs.Causes.{last_count};
ghost use Rattle.command_drive.specs.declared.items.Found.TheVariants as found;
ghost use Rattle.command_drive.specs.Reading.{End, Reads, Finds, GoesOn, IsWaiting};

use crate::capture_reader::RecordFault;
use std::alloc::Global;
use wire_base::{M, Source};

/// Why there is no further item, if no read failed.
#[derive(Clone, Copy, Debug, PartialEq, Eq)]
pub enum Close {
    /// The source ended, and there is no further item.
    Ended,
    /// The input exceeds its size limit.
    TooLong,
    /// The octets that follow are not a valid item.
    Broken(RecordFault),
}

/// The result of a call for the next item.
#[derive(Clone, Copy, Debug, PartialEq, Eq)]
pub enum Found {
    /// A further item.
    Item,
    /// A further item, which ends with the source, such as a last line without LF.
    Last,
    /// No whole item remains of what was read, and the source returned less than requested. The next call waits until
    /// the source returns more.
    Waits,
    /// There is no further item.
    Closed(Close),
    /// A read failed.
    Failed,
}

/// Returns the items of an input, one after the other, for sources of a type.
pub trait Items<T, S: Source> {
    /// The items of further octets, if the source then ends, or fails.
    ghost reads: { Self → End → List ℕ → Reads T };

    /// The item that was found last.
    ghost last: { Self → T };

    /// How many items and waits may still be found.
    ghost most: { Self → ℕ };

    /// Whether the last call returned `Waits`, so that the next one waits for the source.
    ghost waits: { Self → Bool };

    /// Finds the next item, and reads as much from the source as it needs.
    fn next(&mut self, alloc: Global, input: &mut S) -> M<Found>
        requires { S.faults input.old < last_count }
        ensures found { IfOk result (λ what. Finds what (reads self.old) (reads self.new) (last self.new) (S.left input.old) (S.left input.new)) }
        ensures fewer { IfOk result (λ what. GoesOn what → most self.new < most self.old) }
        ensures waits { IfOk result (λ what. IsWaiting what (waits self.new)) }
        ensures quiet { IfOk result (λ what. what ≢ found.Failed → S.faults input.new ≡ S.faults input.old) }
        ensures failed { IfOk result (λ what. what ≡ found.Failed → S.faults input.old < S.faults input.new) }
        ensures memory { OnErr result (S.faults input.new ≡ S.faults input.old) };

    /// Returns the item that was found last.
    fn item(&self) -> &T
        ensures { result.now ≡ last self.now };
}
