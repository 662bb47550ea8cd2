ghost use Rattle.std.specs.Prelude.{◌≡◌, ◌↔◌, ℕ, ◌<◌, ◌≤◌, ◌+◌, ◌-◌, ◌*◌, [], slice_index_or, false, length, IsTrue, true, None, Some, IfOk, IfSome, MatchOption, is_some};
ghost use Rattle.std.specs.List.{slice_get};
ghost use Rattle.wire_base.specs.declared.view.First.{First};
ghost use Rattle.wire_base.specs.model.BitSet.{has_member, IsWithin, intersection};
ghost use Rattle.bier_bits.specs.Sets.{is_width};
ghost use Rattle.bift_table.specs.Bift.{router_at, member_at, same_router, mask_of, routed_of, routers_of, table_of};

use crate::build::{Drawn, draw};
use crate::neighbour::{Neighbour, routers_of};
use bier_bits::BitString;
use std::alloc::Global;
use std::marker::Model;
use std::sync::ledger::Ledger;
use wire_base::{First, M, RowSet, Steps};

/// A bit index forwarding table (BIFT) of 64 W bit positions (RFC 8279, 6.4). It is modeled as the list of the routers of its
/// positions, from position 1 on, with None for a position without an entry. W is 1, 2, 4, 8, 16, 32 or 64.
///
/// It stores each router once, as a neighbor with its F-BM, and for each position the number of its neighbor, so that an entry
/// is read in one step. The routers are also stored in a list of their own, which a hop can borrow for as long as the table
/// exists.
#[derive(Drop)]
pub struct Table<const W: usize> {
    neighbours: Vec<Neighbour<W>>,
    routers: Vec<First>,
    numbers: Vec<Option<u16>>,
    routed: BitString<W>,
}

impl<const W: usize> Model for Table<W> {
    ghost use Rattle.std.specs.Prelude.{List, Option, ◌*◌};
    ghost use Rattle.std.specs.List.{slice_get};
    ghost use Rattle.wire_base.specs.declared.view.First.{First};
    ghost use Rattle.bift_table.specs.Neighbours.{IsTable, table_in};

    ghost Value = { List (Option First) };

    ghost view = { λ t. table_in t.neighbours.items t.numbers.items };

    ghost invariant = { λ t. IsTable (64 * W) t.neighbours.items t.routers.items t.numbers.items t.routed };
}

/// An entry of a BIFT: the router to which a position leads, the F-BM, which has all positions that lead to it
/// (RFC 8279, 6.4), and the router's number in the table, from 0.
#[derive(Clone, Copy)]
pub struct Row<'t, const W: usize> {
    pub mask: &'t BitString<W>,
    pub to: &'t First,
    pub number: u16,
}

impl<const W: usize> Table<W> {
    /// Builds the table of an entropy class, below 16. Each position leads to the router at index `class` modulo the size of
    /// the position's list; it has no entry if the list is empty (RFC 8279, 6.7). `rows` must have 64 W lists. Errors with
    /// Memory if an allocation fails.
    pub fn build(alloc: Global, rows: &RowSet, class: u8) -> M<Self>
        requires width { IsTrue (is_width W) }
        requires lists { length rows.now.bits ≡ 64 * W }
        requires class { class < 16 }
        ensures table { IfOk result (λ table. table ≡ table_of rows.now.bits class) }
        ensures positions { IfOk result (λ table. (p : ℕ) → 1 ≤ p → router_at table p ≡ member_at class (slice_index_or rows.now.bits (p - 1) [])) }
    {
        let Drawn {
            neighbours,
            numbers,
            routed,
        } = draw(alloc, &rows.bits, class)?;
        let routers = routers_of(alloc, &neighbours)?;
        Ok(Table {
            neighbours,
            routers,
            numbers,
            routed,
        })
    }

    /// Returns the entry of a position, from 1 to 64 W, in one step. None exactly where the position is not in `routed`. The
    /// F-BMs of different routers share no position.
    pub fn row<L: Ledger>(&self, bp: u16, steps: &mut Steps<L>) -> Option<Row<'_, W>>
        requires width { IsTrue (is_width W) }
        requires low { 1 ≤ bp }
        requires high { bp ≤ 64 * W }
        ensures row { MatchOption result (router_at self.now bp ≡ None) (λ r. (router_at self.now bp ≡ Some r.to.now) × (r.mask.now ≡ mask_of self.now r.to.now)) }
        ensures routed { is_some result ≡ has_member bp (routed_of self.now) }
        ensures number { IfSome result (λ r. slice_get (routers_of self.now) r.number ≡ Some r.to.now) }
        ensures has { IfSome result (λ r. has_member bp r.mask.now ≡ true) }
        ensures disjoint { IfSome result (λ r. (other : First) → same_router r.to.now other ≡ false → intersection r.mask.now (mask_of self.now other) ≡ []) }
        ensures steps { steps.new ≡ steps.old + 1 }
    {
        steps.tick();
        let number = self.numbers[usize::from(bp - 1)]?;
        let neighbour = self.neighbours.get(usize::from(number))?;
        Some(Row {
            mask: &neighbour.mask,
            to: &neighbour.to,
            number,
        })
    }

    /// Returns the routers to which positions lead, each once, in the order of their first positions.
    pub fn routers(&self) -> &[First]
        ensures { result.now ≡ routers_of self.now }
    {
        &self.routers
    }

    /// Returns the positions that have an entry, which are those in some F-BM. They are in ascending order, from 1 to 64 W.
    pub fn routed(&self) -> &BitString<W>
        ensures value { result.now ≡ routed_of self.now }
        ensures ordered { IsWithin 0 (64 * W) result.now }
        ensures union { (p : ℕ) → (has_member p result.now ≡ true) ↔ ((f : First) × (has_member p (mask_of self.now f) ≡ true)) }
    {
        &self.routed
    }
}
