//! The forwarding table of configured rows: each different name is a neighbor with a number.
ghost use Rattle.std.specs.Prelude.{◌≡◌, ◌≤◌, ◌<◌, ◌+◌, ◌++◌, ◌∷◌, ℕ, List, [], length, true, false, IfOk, OnOk, MatchOption, slice_index_or, option_map};
ghost use Rattle.std.specs.Str.{bytes_eq};
ghost use Rattle.bift_table.specs.Any.{bsl_of};
ghost use Rattle.command_hop.specs.Forward as forward;
ghost use Rattle.command_hop.specs.Ways as spec;

use bift_table::AnyTable;
use replay_text::{HopRow, ShortText};
use std::alloc::Global;
use wire_base::{Bsl, First, FirstLists, M, PositionRows, RowSet, Rows, SystemId};

/// The neighbors' names, indexed by their numbers, and the table.
#[derive(Drop)]
pub(crate) struct Ways {
    pub names: Rows<ShortText>,
    pub table: AnyTable,
}

/// Returns the name in the row of an id.
fn name_of(rows: &[HopRow], id: u16) -> Option<&ShortText>
    ensures { option_map (λ name. name.now) result ≡ forward.name_of rows.now id }
{
    let row = rows.iter().find(|row| row.id == id)?;
    Some(&row.name)
}

fn is_name(name: &ShortText, text: &[u8]) -> bool
    ensures { result ≡ bytes_eq name.now text.now }
{
    name.as_slice() == text
}

/// Returns the number of a name, if it has one.
fn find_number(names: &[ShortText], text: &[u8]) -> Option<usize>
    ensures { MatchOption result (spec.has_name names.now text.now ≡ false) (λ n. (spec.has_name names.now text.now ≡ true) × ((n ≡ spec.number_in names.now text.now) × (n < length names.now))) }
{
    for (n, name) in names.iter().enumerate() {
        if is_name(name, text) {
            return Some(n);
        }
    }
    None
}

/// Returns the number of a name, and assigns the next number if it has none.
fn number_for(names: &mut Rows<ShortText>, name: &ShortText) -> M<u16>
    requires { length names.old ≤ 65535 }
    ensures number { IfOk result (λ n. n ≡ spec.number_in names.new name.now) }
    ensures names { IfOk result (λ _. names.new ≡ spec.with_name names.old name.now) }
{
    if let Some(n) = find_number(names.as_slice(), name.as_slice()) {
        return Ok(n as u16);
    }
    let n = names.len() as u16;
    names.push(name.copy())?;
    Ok(n)
}

/// Returns the neighbor with a number.
fn neighbour(n: u16) -> First
    ensures { result ≡ spec.neighbour n }
{
    First {
        system: SystemId([0, 0, 0, 0, (n / 256) as u8, (n % 256) as u8]),
        direct: Some(n),
    }
}

/// Appends where a bit position leads.
fn push_list(lists: &mut FirstLists, names: &mut Rows<ShortText>, rows: &[HopRow], p: u16) -> M<()>
    requires { length names.old ≤ 65535 }
    ensures listed { OnOk result ((list : List First) × (lists.new ≡ lists.old ++ list ∷ []) × spec.IsListed rows.now names.new p list) }
    ensures names { OnOk result ((more : List (List ℕ)) × (names.new ≡ names.old ++ more)) }
    ensures few { OnOk result (length names.new ≤ length names.old + 1) }
{
    lists.begin()?;
    if let Some(name) = name_of(rows, p) {
        let n = number_for(names, name)?;
        lists.push(neighbour(n))?;
    }
    Ok(())
}

/// Returns where each bit position of a length leads.
fn lists_of(alloc: Global, names: &mut Rows<ShortText>, rows: &[HopRow], bits: u16) -> M<RowSet>
    requires none { names.old ≡ [] }
    requires few { bits ≤ 4096 }
    ensures length { IfOk result (λ set. length set.bits ≡ bits) }
    ensures listed { IfOk result (λ set. (q : ℕ) → q < bits → spec.IsListed rows.now names.new (q + 1) (slice_index_or set.bits q [])) }
{
    let mut lists = FirstLists::new(alloc);
    'positions: for q in 0..bits {
        push_list(&mut lists, names, rows, q + 1)?;
    }
    Ok(RowSet {
        bits: PositionRows::new(lists, bits),
    })
}

/// Returns the table of rows for packets of a length. The neighbors are numbered in the order of their least bit
/// positions.
pub(crate) fn ways_of(alloc: Global, rows: &[HopRow], bsl: Bsl) -> M<Ways>
    ensures ways { IfOk result (λ ways. spec.AreWays rows.now ways) }
    ensures bsl { IfOk result (λ ways. bsl_of ways.table ≡ bsl) }
{
    let mut names = Rows::new(alloc);
    let lists = lists_of(alloc, &mut names, rows, bsl.bits())?;
    let table = AnyTable::build(alloc, bsl, &lists, 0)?;
    Ok(Ways { names, table })
}
