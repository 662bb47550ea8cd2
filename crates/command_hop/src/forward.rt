//! The forwarding of a packet by one router with configured rows.
ghost use Rattle.std.specs.Prelude.{◌≡◌, ◌≤◌, ◌<◌, ◌+◌, ◌*◌, ◌++◌, ◌∷◌, [], List, length, IfOk, OnOk, IsTrue, codes};
ghost use Rattle.std.specs.Fmt.{decimal};
ghost use Rattle.wire_base.specs.model.Hop.{hop};
ghost use Rattle.wire_base.specs.model.Place.{bits_of};
ghost use Rattle.bier_bits.specs.Any.{positions_of, bsl_of};
ghost use Rattle.bier_bits.specs.Sets.{is_width};
ghost use Rattle.bift_table.specs.Any as tables;
ghost use Rattle.bier_hop.specs.Outcomes.{IsNumbering, IsOwn, left, out_of, outcome};
ghost use Rattle.replay_text.specs.Ids.{in_range, ids_text};
ghost use Rattle.replay_text.specs.declared.hop.HopRow.{HopRow};
ghost use Rattle.command_hop.specs.Forward as forward;
ghost use Rattle.command_hop.specs.Ways.{AreWays, name_at, number_of, seen, chosen, texts};

use crate::ways::Ways;
use bier_bits::{AnyBits, BitString};
use bier_hop::{Action, Hop};
use bift_table::{AnyTable, Table};
use replay_text::{Block, ShortText, put_set};
use std::alloc::Global;
use std::marker::{Brand, Model};
use std::sync::ledger::{Blank, Ledger};
use wire_base::{First, M, Octets, Steps};

/// A TTL with which every copy is sent.
const TTL: u16 = 255;

/// The number of a packet's line, and its digits, with which the line of each outcome begins.
#[derive(Drop)]
struct LineNumber {
    number: u64,
    digits: ShortText,
}

impl Model for LineNumber {
    ghost use Rattle.std.specs.Prelude.{◌≡◌, ◌≤◌, ℕ, length};
    ghost use Rattle.std.specs.Fmt.{decimal};

    ghost Value = { ℕ };

    ghost view = { λ l. l.number };

    ghost invariant = { λ l. (l.digits ≡ decimal l.number) × (length l.digits ≤ 20) };
}

impl LineNumber {
    fn new(number: u64) -> Self
        ensures { result ≡ number }
    {
        LineNumber {
            number,
            digits: ShortText::number(number),
        }
    }
}

/// Appends an octet to the text that a block ends.
fn put_octet(out: &mut Octets, block: &mut Block, octet: u8) -> M<()>
    ensures { OnOk result (out.new ++ block.new ≡ out.old ++ (block.old ++ octet ∷ [])) }
{
    block.make_room(out)?;
    block.push(octet);
    Ok(())
}

/// Appends the decimal digits of a number.
fn put_number(out: &mut Octets, block: &mut Block, number: u64) -> M<()>
    ensures { OnOk result (out.new ++ block.new ≡ out.old ++ (block.old ++ decimal number)) }
{
    block.make_room_for(out, 20)?;
    block.number(number);
    Ok(())
}

/// Appends the number of a packet's line, and the keyword after it. The block then has room for a name and a space.
fn begin_line(out: &mut Octets, block: &mut Block, line: &LineNumber, what: &[u8]) -> M<()>
    requires { length what.now ≤ 12 }
    ensures text { OnOk result (out.new ++ block.new ≡ out.old ++ (block.old ++ (decimal line.now ++ what.now))) }
    ensures room { OnOk result (length block.new + 33 ≤ 256) }
{
    block.make_room_for(out, 65)?;
    block.append_short(&line.digits);
    block.append(what);
    Ok(())
}

/// Appends the name of a neighbor and a space.
fn put_name(block: &mut Block, names: &[ShortText], to: &First)
    requires { length block.old + 33 ≤ 256 }
    ensures { block.new ≡ block.old ++ (name_at names.now (number_of to.now) ++ 32 ∷ []) }
{
    let number = to.direct.unwrap_or(0);
    if let Some(name) = names.get(usize::from(number)) {
        block.append_short(name);
    }
    block.push(b' ');
}

/// Appends the line for the delivery of the router's own id.
fn put_local(out: &mut Octets, block: &mut Block, line: &LineNumber, own: u16) -> M<()>
    ensures { OnOk result (out.new ++ block.new ≡ out.old ++ (block.old ++ forward.outcome_text line.now (forward.Local own))) }
{
    begin_line(out, block, line, b" local ")?;
    put_number(out, block, u64::from(own))?;
    put_octet(out, block, b'\n')
}

/// Appends a set, which is emptied, and the end of a line.
fn put_rest<const W: usize>(out: &mut Octets, block: &mut Block, set: &mut BitString<W>) -> M<()>
    requires { IsTrue (is_width W) }
    ensures { OnOk result (out.new ++ block.new ≡ out.old ++ (block.old ++ (ids_text set.old ++ 10 ∷ []))) }
{
    put_set(out, block, set)?;
    put_octet(out, block, b'\n')
}

/// Appends the line of one copy.
fn put_copy<const W: usize>(
    out: &mut Octets,
    block: &mut Block,
    line: &LineNumber,
    names: &[ShortText],
    to: &First,
    set: &mut BitString<W>,
) -> M<()>
    requires { IsTrue (is_width W) }
    ensures { OnOk result (out.new ++ block.new ≡ out.old ++ (block.old ++ forward.outcome_text line.now (forward.Copy (name_at names.now (number_of to.now)) set.old))) }
{
    begin_line(out, block, line, b" copy ")?;
    put_name(block, names, to);
    put_rest(out, block, set)
}

/// Appends the line for the drop of the ids without a row.
fn put_drop<const W: usize>(
    out: &mut Octets,
    block: &mut Block,
    line: &LineNumber,
    set: &mut BitString<W>,
) -> M<()>
    requires { IsTrue (is_width W) }
    ensures { OnOk result (out.new ++ block.new ≡ out.old ++ (block.old ++ forward.outcome_text line.now (forward.Dropped set.old))) }
{
    begin_line(out, block, line, b" drop none ")?;
    put_rest(out, block, set)
}

/// Appends the line of an outcome.
fn put_outcome<const W: usize>(
    out: &mut Octets,
    block: &mut Block,
    line: &LineNumber,
    names: &[ShortText],
    action: &Action<'_>,
    set: &mut BitString<W>,
) -> M<()>
    requires { IsTrue (is_width W) }
    ensures { OnOk result (out.new ++ block.new ≡ out.old ++ (block.old ++ forward.outcome_text line.now (seen names.now (outcome number_of (out_of {w = W} set.old action.now))))) }
{
    match action {
        Action::Local(own) => put_local(out, block, line, *own),
        Action::Copy { to, .. } => put_copy(out, block, line, names, to, set),
        Action::Dropped(_) => put_drop(out, block, line, set),
    }
}

/// Appends the lines of the remaining outcomes of a packet to the text that a block ends.
fn put_left<const W: usize, L: Ledger>(
    out: &mut Octets,
    block: &mut Block,
    line: &LineNumber,
    names: &[ShortText],
    hop: &mut Hop<'_, W>,
    steps: &mut Steps<L>,
) -> M<()>
    requires width { IsTrue (is_width W) }
    requires numbered { IsNumbering hop.old.table number_of (chosen hop.old.table) }
    ensures { OnOk result (out.new ++ block.new ≡ out.old ++ (block.old ++ texts line.now names.now (left (chosen hop.old.table) hop.old))) }
{
    let mut set = BitString::zero();
    'outcomes: while let Some(action) = hop.next_into(&mut set, steps) {
        put_outcome(out, block, line, names, &action, &mut set)?;
    }
    Ok(())
}

/// Appends the lines of the remaining outcomes of a packet. They are collected in a block, which is appended each time that
/// it is full.
fn push_left<const W: usize, L: Ledger>(
    out: &mut Octets,
    line: u64,
    names: &[ShortText],
    hop: &mut Hop<'_, W>,
    steps: &mut Steps<L>,
) -> M<()>
    requires width { IsTrue (is_width W) }
    requires numbered { IsNumbering hop.old.table number_of (chosen hop.old.table) }
    ensures { OnOk result (out.new ≡ out.old ++ texts line names.now (left (chosen hop.old.table) hop.old)) }
{
    let line = LineNumber::new(line);
    let mut block = Block::new();
    put_left(out, &mut block, &line, names, hop, steps)?;
    out.append(block.as_slice())
}

/// Returns the own id as a bit position, if it is one.
fn own_position(own: u16, bits: u16) -> Option<u16>
    ensures value { result ≡ in_range bits own }
    ensures own { IsOwn bits result }
{
    if own == 0 || own > bits {
        return None;
    }
    Some(own)
}

/// Appends the lines of a packet that a table forwards. It is not inlined: the caller, which has one call for each width, would need
/// stack space for the sets of all seven.
#[inline(never)]
fn push_hop<const W: usize, L: Ledger>(
    out: &mut Octets,
    line: u64,
    names: &[ShortText],
    own: u16,
    table: &Table<W>,
    set: &BitString<W>,
    steps: &mut Steps<L>,
) -> M<()>
    requires width { IsTrue (is_width W) }
    requires numbered { IsNumbering table.now number_of (chosen table.now) }
    ensures { OnOk result (out.new ≡ out.old ++ texts line names.now (hop (in_range (64 * W) own) (chosen table.now) set.now 255)) }
{
    let own = own_position(own, set.width());
    let mut hop = Hop::begin(table, own, set.copy(), TTL);
    push_left(out, line, names, &mut hop, steps)
}

/// Appends the lines of a packet that a table of its length forwards, with a ledger of the steps that is not read.
fn push_along<L: Ledger>(
    out: &mut Octets,
    line: u64,
    own: u16,
    ways: &Ways,
    bits: &AnyBits,
    blank: Blank,
) -> M<()>
    requires name { blank.name ≡ L.name }
    requires parts { blank.parts ≡ L.parts }
    requires some { 0 < blank.parts }
    requires length { tables.bsl_of ways.now.table ≡ bsl_of bits.now }
    requires numbered { IsNumbering (tables.positions_of ways.now.table) number_of (chosen (tables.positions_of ways.now.table)) }
    ensures { OnOk result (out.new ≡ out.old ++ texts line ways.now.names (hop (in_range (bits_of (bsl_of bits.now)) own) (chosen (tables.positions_of ways.now.table)) (positions_of bits.now) 255)) }
{
    let mut steps = Steps::<L>::new(blank);
    let names = ways.names.as_slice();
    match (&ways.table, bits) {
        (AnyTable::B64(table), AnyBits::B64(set)) => {
            push_hop(out, line, names, own, table, set, &mut steps)
        }
        (AnyTable::B128(table), AnyBits::B128(set)) => {
            push_hop(out, line, names, own, table, set, &mut steps)
        }
        (AnyTable::B256(table), AnyBits::B256(set)) => {
            push_hop(out, line, names, own, table, set, &mut steps)
        }
        (AnyTable::B512(table), AnyBits::B512(set)) => {
            push_hop(out, line, names, own, table, set, &mut steps)
        }
        (AnyTable::B1024(table), AnyBits::B1024(set)) => {
            push_hop(out, line, names, own, table, set, &mut steps)
        }
        (AnyTable::B2048(table), AnyBits::B2048(set)) => {
            push_hop(out, line, names, own, table, set, &mut steps)
        }
        (AnyTable::B4096(table), AnyBits::B4096(set)) => {
            push_hop(out, line, names, own, table, set, &mut steps)
        }
        _ => unreachable!(),
    }
}

/// Appends the lines of a packet: the line's number, and the outcome of each id. The packet is forwarded once by the
/// table of the rows, with neighbors shown by name.
pub fn push_outcomes(
    _alloc: Global,
    out: &mut Octets,
    line: u64,
    own: u16,
    ways: &Ways,
    bits: &AnyBits,
) -> M<()>
    requires length { tables.bsl_of ways.now.table ≡ bsl_of bits.now }
    requires ways { (rows : List HopRow) × AreWays rows ways.now }
    ensures { (rows : List HopRow) → AreWays rows ways.now → OnOk result (out.new ≡ out.old ++ forward.outcomes_text line (forward.outcomes own rows (positions_of bits.now))) }
{
    let _bsl = bits.bsl();
    push_along::<Brand>(out, line, own, ways, bits, Blank::new(1))
}
