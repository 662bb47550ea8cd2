//! The queue of the nodes that wait in a search.
ghost use Rattle.std.specs.Prelude.{◌≡◌, ◌≤◌, ◌<◌, ◌^◌, ◌∷◌, [], All, IfSome, IfNone, OnOk};
ghost use Rattle.std.specs.List.Sorted.{IsPermutation};

use std::alloc::Global;
use std::cmp::Reverse;
use std::collections::BinaryHeap;
use std::marker::Model;
use wire_base::M;

/// A priority queue of entries, each a cost and a node. The entry with the least cost comes first. An entry is stored as one number,
/// its cost times 2^16 plus its node, so that two entries are compared at once.
#[derive(Drop)]
pub(crate) struct Queue {
    heap: BinaryHeap<Reverse<u64>>,
}

impl Model for Queue {
    ghost use Rattle.std.specs.Prelude.{List, ℕ, map};
    ghost use Rattle.std.specs.BinaryHeap.{heap_items, IsHeap};
    ghost use Rattle.path_tree.specs.Queue.{entry_cmp, entry_of};

    ghost Value = { List (ℕ × ℕ) };

    ghost view = { λ q. map entry_of (heap_items q.heap) };

    ghost invariant = { λ q. IsHeap entry_cmp (heap_items q.heap) };
}

impl Queue {
    pub(crate) fn new(alloc: Global) -> Self
        ensures { result ≡ [] }
    {
        Queue {
            heap: BinaryHeap::new(alloc),
        }
    }

    pub(crate) fn push(&mut self, length: u64, node: u16) -> M<()>
        requires { length < 2 ^ 48 }
        ensures { OnOk result (IsPermutation ((length, node) ∷ self.old) self.new) }
    {
        self.heap.push(Reverse(length * 65_536 + u64::from(node)))?;
        Ok(())
    }

    pub(crate) fn pop(&mut self) -> Option<(u64, u16)>
        ensures some { IfSome result (λ e. IsPermutation self.old (e ∷ self.new)) }
        ensures least { IfSome result (λ e. All (λ other. e.0 ≤ other.0) self.new) }
        ensures none { IfNone result (self.old ≡ []) }
    {
        let entry = self.heap.pop()?;
        let number = entry.0;
        Some((number / 65_536, (number % 65_536) as u16))
    }
}
