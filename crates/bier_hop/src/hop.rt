ghost use Rattle.std.specs.Prelude.{◌≡◌, ◌<◌, ◌≤◌, ◌+◌, ◌*◌, ◌==◌, ℕ, Option, None, [], ◌∷◌, length, true, false, IsTrue, IfSome, MatchOption, is_none, option_map};
ghost use Rattle.std.specs.List.{list_any};
ghost use Rattle.wire_base.specs.declared.view.First.{First};
ghost use Rattle.wire_base.specs.model.BitSet.{difference, first_member, has_member, intersection, IsWithin};
ghost use Rattle.wire_base.specs.model.Hop.{hop};
ghost use Rattle.bier_bits.specs.Sets.{is_width, AreApartBelow};
ghost use Rattle.bift_table.specs.Bift.{router_at, routed_of, routers_of};
ghost use Rattle.bier_hop.specs.Outcomes.{IsFrom, IsNumbering, IsOwn, IsOwnWithin, HopState, left, number_in, choose_in, outcome, out_of, positions_of, own_in, cost, left_after, drop_of, IsCopy, IsNext};

use crate::out::{Action, Out, Why};
use bier_bits::BitString;
use bift_table::Table;
use std::marker::Model;
use std::mem;
use std::sync::ledger::Ledger;
use wire_base::{First, Steps};

/// What stays the same throughout a hop: the router's table, the routers in it, its own position and the packet's TTL.
#[derive(Clone, Copy)]
struct Context<'t, const W: usize> {
    table: &'t Table<W>,
    routers: &'t [First],
    own: Option<u16>,
    ttl: u16,
}

/// A packet being forwarded by one router. It is modeled as the router's table, its own position, the positions that have no
/// outcome yet and the packet's TTL.
///
/// No remaining position below `from` has an entry, so a hop reads each word of the packet about once.
#[derive(Drop)]
pub struct Hop<'t, const W: usize> {
    context: Context<'t, W>,
    rest: BitString<W>,
    from: u16,
}

impl<'t, const W: usize> Model for Hop<'t, W> {
    ghost use Rattle.std.specs.Prelude.{◌≡◌, ◌≤◌, ◌*◌};
    ghost use Rattle.bift_table.specs.Bift.{routed_of, routers_of};
    ghost use Rattle.bier_hop.specs.Outcomes.{HopState, IsOwn, IsFrom};

    ghost Value = { HopState };

    ghost view = { λ h. record { table = h.context.table.now; own = h.context.own; rest = h.rest; ttl = h.context.ttl } };

    ghost invariant = { λ h. (h.context.routers.now ≡ routers_of h.context.table.now) × IsOwn (64 * W) h.context.own × (h.context.ttl ≤ 256) × IsFrom (64 * W) h.from h.rest (routed_of h.context.table.now) };
}

impl<'t, const W: usize> Hop<'t, W> {
    /// Starts a hop of a packet with those positions and that TTL, at most 256, at a router with that table and that own position,
    /// from 1 to 64 W, if it has one.
    pub fn begin(table: &'t Table<W>, own: Option<u16>, set: BitString<W>, ttl: u16) -> Self
        requires width { IsTrue (is_width W) }
        requires own { IsOwn (64 * W) own }
        requires ttl { ttl ≤ 256 }
        ensures state { result ≡ record { table = table.now; own = own; rest = set.entry; ttl = ttl } }
        ensures numbered { IsNumbering table.now (number_in table.now) (choose_in table.now) }
    {
        let context = Context {
            table,
            routers: table.routers(),
            own,
            ttl,
        };
        Hop {
            context,
            rest: set,
            from: 1,
        }
    }

    /// Returns the next outcome, and removes its positions from those that remain. In this order:
    ///
    /// 1. With TTL 0 the whole set is dropped, and there is no other outcome.
    /// 2. Otherwise the own position is delivered, if it is in the set.
    /// 3. With a TTL above 1 each router to which other positions lead gets one copy, with a TTL one lower; the copies are
    ///    in the order of their least positions.
    /// 4. With TTL 1 the other positions that have an entry are dropped together, instead of the copies.
    /// 5. The other positions without an entry are dropped together, last.
    ///
    /// None exactly where every position has had its outcome. A copy takes one step; every other outcome takes none.
    pub fn next<L: Ledger>(&mut self, steps: &mut Steps<L>) -> Option<Out<'t, W>>
        requires { IsTrue (is_width W) }
        ensures outcomes { (number : First → ℕ) (choose : ℕ → Option ℕ) → IsNumbering self.old.table number choose → MatchOption result (left choose self.old ≡ []) (λ out. left choose self.old ≡ outcome number out ∷ left choose self.new) }
        ensures none { is_none result ≡ (length self.old.rest == 0) }
        ensures rest { self.new.rest ≡ left_after self.old.rest result }
        ensures shorter { IfSome result (λ _. length self.new.rest < length self.old.rest) }
        ensures table { self.new.table ≡ self.old.table }
        ensures own { self.new.own ≡ self.old.own }
        ensures ttl { self.new.ttl ≡ self.old.ttl }
        ensures steps { steps.new ≡ steps.old + cost result }
    {
        let mut set = BitString::zero();
        let action = self.next_into(&mut set, steps);
        out_of(action, set)
    }

    /// Like `next`, but stores the positions of a copy or a drop in `set`, instead of its previous positions. What `set` holds
    /// after any other result is not specified.
    pub fn next_into<L: Ledger>(
        &mut self,
        set: &mut BitString<W>,
        steps: &mut Steps<L>,
    ) -> Option<Action<'t>>
        requires { IsTrue (is_width W) }
        ensures outcomes { (number : First → ℕ) (choose : ℕ → Option ℕ) → IsNumbering self.old.table number choose → MatchOption result (left choose self.old ≡ []) (λ action. left choose self.old ≡ outcome number (out_of {w = W} set.new action) ∷ left choose self.new) }
        ensures none { is_none result ≡ (length self.old.rest == 0) }
        ensures rest { self.new.rest ≡ left_after self.old.rest (option_map (out_of {w = W} set.new) result) }
        ensures shorter { IfSome result (λ _. length self.new.rest < length self.old.rest) }
        ensures table { self.new.table ≡ self.old.table }
        ensures own { self.new.own ≡ self.old.own }
        ensures ttl { self.new.ttl ≡ self.old.ttl }
        ensures steps { steps.new ≡ steps.old + cost (option_map (out_of {w = W} set.new) result) }
    {
        outcome(&self.context, &mut self.rest, &mut self.from, set, steps)
    }
}

// Returns an action on a set as an outcome.
fn out_of<'t, const W: usize>(action: Option<Action<'t>>, set: BitString<W>) -> Option<Out<'t, W>>
    ensures { result ≡ option_map (out_of {w = W} set.entry) action.entry }
{
    match action {
        None => None,
        Some(Action::Local(bp)) => Some(Out::Local(bp)),
        Some(Action::Copy { to, ttl }) => Some(Out::Copy { to, set, ttl }),
        Some(Action::Dropped(why)) => Some(Out::Dropped { set, why }),
    }
}

// Returns the outcome of the remaining positions, none of which below `from` has an entry.
fn outcome<'t, const W: usize, L: Ledger>(
    context: &Context<'t, W>,
    rest: &mut BitString<W>,
    from: &mut u16,
    set: &mut BitString<W>,
    steps: &mut Steps<L>,
) -> Option<Action<'t>>
    requires width { IsTrue (is_width W) }
    requires routers { context.now.routers.now ≡ routers_of context.now.table.now }
    requires own { IsOwn (64 * W) context.now.own }
    requires ttl { context.now.ttl ≤ 256 }
    requires from { IsFrom (64 * W) from.old rest.old (routed_of context.now.table.now) }
    ensures next { IsNext (64 * W) (record { table = context.now.table.now; own = context.now.own; rest = rest.old; ttl = context.now.ttl }) (option_map (out_of {w = W} set.new) result) }
    ensures rest { rest.new ≡ left_after rest.old (option_map (out_of {w = W} set.new) result) }
    ensures from { IsFrom (64 * W) from.new rest.new (routed_of context.now.table.now) }
    ensures steps { steps.new ≡ steps.old + cost (option_map (out_of {w = W} set.new) result) }
{
    let ttl = context.ttl;
    if ttl == 0 {
        return drop_all(rest, Why::Ttl, set);
    }
    if let Some(bp) = own_in(context.own, rest) {
        rest.remove(bp);
        return Some(Action::Local(bp));
    }
    match first_routed(context.table, rest, *from) {
        None => drop_all(rest, Why::NoRow, set),
        Some(_) if ttl == 1 => {
            cut_routed(context.table, rest, set);
            Some(Action::Dropped(Why::Ttl))
        }
        Some(bp) => {
            *from = bp;
            copy_toward(context, bp, rest, set, steps)
        }
    }
}

// Returns the own position, if it remains.
fn own_in<const W: usize>(own: Option<u16>, rest: &BitString<W>) -> Option<u16>
    requires width { IsTrue (is_width W) }
    requires own { IsOwn (64 * W) own }
    ensures { result ≡ own_in own rest.now }
{
    let bp = own?;
    if rest.has(bp) { Some(bp) } else { None }
}

// Returns the least position of a set that has an entry, if none below `from` has one.
fn first_routed<const W: usize>(table: &Table<W>, rest: &BitString<W>, from: u16) -> Option<u16>
    requires width { IsTrue (is_width W) }
    requires from { IsFrom (64 * W) from rest.now (routed_of table.now) }
    ensures first { result ≡ first_member (intersection rest.now (routed_of table.now)) }
    ensures low { IfSome result (λ p. 1 ≤ p) }
    ensures high { IfSome result (λ p. p ≤ 64 * W) }
    ensures routed { IfSome result (λ p. has_member p (routed_of table.now) ≡ true) }
    ensures apart { IfSome result (λ p. AreApartBelow p rest.now (routed_of table.now)) }
{
    rest.first_shared_from(table.routed(), from)
}

// Moves the positions of the copy to the router of a position that has an entry to `set`.
fn copy_toward<'t, const W: usize, L: Ledger>(
    context: &Context<'t, W>,
    bp: u16,
    rest: &mut BitString<W>,
    set: &mut BitString<W>,
    steps: &mut Steps<L>,
) -> Option<Action<'t>>
    requires width { IsTrue (is_width W) }
    requires routers { context.now.routers.now ≡ routers_of context.now.table.now }
    requires low { 1 ≤ bp }
    requires high { bp ≤ 64 * W }
    requires onward { 1 < context.now.ttl }
    requires ttl { context.now.ttl ≤ 256 }
    requires routed { has_member bp (routed_of context.now.table.now) ≡ true }
    requires apart { AreApartBelow bp rest.old (routed_of context.now.table.now) }
    ensures copy { IsCopy (record { table = context.now.table.now; own = None; rest = rest.old; ttl = context.now.ttl }) bp (option_map (out_of {w = W} set.new) result) }
    ensures rest { rest.new ≡ left_after rest.old (option_map (out_of {w = W} set.new) result) }
    ensures steps { steps.new ≡ steps.old + 1 }
{
    let routers = context.routers;
    let row = context.table.row(bp, steps)?;
    rest.cut_from_into(row.mask, bp, set);
    Some(Action::Copy {
        to: &routers[usize::from(row.number)],
        ttl: (context.ttl - 1) as u8,
    })
}

// Moves the positions that have an entry to `set`.
fn cut_routed<const W: usize>(table: &Table<W>, rest: &mut BitString<W>, set: &mut BitString<W>)
    requires { IsTrue (is_width W) }
    ensures taken { set.new ≡ intersection rest.old (routed_of table.now) }
    ensures left { rest.new ≡ difference rest.old (routed_of table.now) }
{
    *set = rest.cut(table.routed());
}

// Drops everything that remains, if anything does: moves it to `set`.
fn drop_all<'t, const W: usize>(
    rest: &mut BitString<W>,
    why: Why,
    set: &mut BitString<W>,
) -> Option<Action<'t>>
    requires { IsTrue (is_width W) }
    ensures drop { option_map (out_of {w = W} set.new) result ≡ drop_of rest.old why }
    ensures rest { rest.new ≡ left_after rest.old (option_map (out_of {w = W} set.new) result) }
{
    if rest.is_empty() {
        return None;
    }
    mem::swap(rest, set);
    rest.clear();
    Some(Action::Dropped(why))
}
