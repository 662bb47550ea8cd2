//! What is reported of a line.
ghost use Rattle.std.specs.Prelude.{◌≡◌, ◌+◌, ◌<◌, ◌≤◌, ◌^◌, ◌≢◌, ◌++◌, ◌∷◌, [], ℕ, List, IfOk, IfSome, OnOk, OnErr, Some, None, length, unwrap_or, IsTrue};
ghost use Rattle.std.specs.List.{flat_map};
ghost use Rattle.replay_text.specs.declared.fault.TextFault.TheVariants as fault;
ghost use Rattle.replay_text.specs.declared.hop.HopLine.TheVariants as says;
ghost use Rattle.bier_bits.specs.Any.{positions_of};
ghost use Rattle.wire_base.specs.declared.status.Status.TheVariants as status;
ghost use Rattle.replay_text.specs.Fault.{rule_text, fault_text};
ghost use Rattle.command_hop.specs.HopText as text;
ghost use Rattle.command_hop.specs.Forward as forward;
ghost use Rattle.command_hop.specs.Ready.{IsBuilt};
ghost use Rattle.command_hop.specs.Ways.{AreWays};

use crate::forward::push_outcomes;
use crate::ways::{Ways, ways_of};
use bier_bits::AnyBits;
use replay_text::{HopLine, HopRow, HopState, TextFault, push_rule, read_hop_line};
use std::alloc::Global;
use wire_base::{Bsl, M, Octets, Rows, Status};

/// Appends the line for a rejection.
pub fn push_refused(out: &mut Octets, line: u64, number: u8, name: &[u8]) -> M<()>
    ensures { OnOk result (out.new ≡ out.old ++ text.refused_text line (rule_text number name.now)) }
{
    out.append(b"refused ")?;
    out.append_number(line)?;
    out.append(b" text ")?;
    push_rule(out, number, name)?;
    out.push(b'\n')
}

/// Appends the last line of a report on a text that was processed to its end.
pub fn push_done(out: &mut Octets, lines: u64, packets: u64) -> M<()>
    ensures { OnOk result (out.new ≡ out.old ++ text.done_text lines packets) }
{
    out.append(b"done lines ")?;
    out.append_number(lines)?;
    out.append(b" packets ")?;
    out.append_number(packets)?;
    out.push(b'\n')
}

/// Returns whether a table of the rows was built for packets of a length.
fn are_for(ways: &Option<Ways>, bsl: Bsl) -> bool
    ensures { IsTrue result → IsBuilt bsl ways.now }
{
    match ways {
        None => false,
        Some(built) => built.table.bsl() == bsl,
    }
}

/// Builds the table of the rows for packets of a length. It is not inlined: the table that was built for the packet before is
/// mostly used again.
#[inline(never)]
fn build(alloc: Global, ways: &mut Option<Ways>, rows: &[HopRow], bsl: Bsl) -> M<()>
    requires { IfSome ways.old (λ built. AreWays rows.now built) }
    ensures ways { IfSome ways.new (λ built. AreWays rows.now built) }
    ensures built { OnOk result (IsBuilt bsl ways.new) }
{
    *ways = Some(ways_of(alloc, rows, bsl)?);
    Ok(())
}

/// Builds the table of the rows for packets of a length, unless it was built for the packet before.
fn make_ready(alloc: Global, ways: &mut Option<Ways>, rows: &[HopRow], bsl: Bsl) -> M<()>
    requires { IfSome ways.old (λ built. AreWays rows.now built) }
    ensures ways { IfSome ways.new (λ built. AreWays rows.now built) }
    ensures built { OnOk result (IsBuilt bsl ways.new) }
{
    if are_for(ways, bsl) {
        return Ok(());
    }
    build(alloc, ways, rows, bsl)
}

/// Appends the lines of a packet.
fn push_packet(
    alloc: Global,
    out: &mut Octets,
    line: u64,
    state: &HopState,
    ways: &mut Option<Ways>,
    bits: &AnyBits,
) -> M<()>
    requires { IfSome ways.old (λ built. AreWays state.now.rows built) }
    ensures text { OnOk result (out.new ≡ out.old ++ forward.outcomes_text line
        (forward.outcomes (unwrap_or state.now.own 0) state.now.rows (positions_of bits.now))) }
    ensures ways { IfSome ways.new (λ built. AreWays state.now.rows built) }
{
    make_ready(alloc, ways, state.rows.as_slice(), bits.bsl())?;
    let own = state.own.unwrap_or(0);
    match ways {
        None => unreachable!(),
        Some(built) => push_outcomes(alloc, out, line, own, built, bits),
    }
}

/// Adds a row, and discards the table that was built without it. It is not inlined: most lines are packets.
#[inline(never)]
fn add_row(state: &mut HopState, ways: &mut Option<Ways>, row: &HopRow) -> M<()>
    ensures state { OnOk result (state.new ≡ text.after state.old (says.Row row.now)) }
    ensures ways { ways.new ≡ None }
{
    *ways = None;
    let name = row.name.copy();
    state.rows.push(HopRow { id: row.id, name })
}

/// Applies what a line contains, and returns how many packets it has: none or one.
pub fn accept(
    alloc: Global,
    out: &mut Octets,
    line: u64,
    state: &mut HopState,
    ways: &mut Option<Ways>,
    said: &HopLine,
) -> M<u64>
    requires { IfSome ways.old (λ built. AreWays state.old.rows built) }
    ensures text { OnOk result (out.new ≡ out.old ++ flat_map text.packet_text (text.packet_in line state.old said.now)) }
    ensures state { OnOk result (state.new ≡ text.after state.old said.now) }
    ensures ways { IfSome ways.new (λ built. AreWays state.new.rows built) }
    ensures packets { IfOk result (λ packets. packets ≡ length (text.packet_in line state.old said.now)) }
{
    match said {
        HopLine::Empty => Ok(0),
        HopLine::Length(bsl) => {
            state.bsl = Some(*bsl);
            Ok(0)
        }
        HopLine::Own(own) => {
            state.own = Some(*own);
            Ok(0)
        }
        HopLine::Row(row) => {
            add_row(state, ways, row)?;
            Ok(0)
        }
        HopLine::Packet(bits) => {
            push_packet(alloc, out, line, state, ways, bits)?;
            state.packets = true;
            Ok(1)
        }
    }
}

/// Ends the report at a line that breaks a rule.
pub fn refuse(out: &mut Octets, line: u64, why: TextFault) -> M<Status>
    requires { why ≢ fault.Memory }
    ensures status { IfOk result (λ ended. ended ≡ status.InputRefused) }
    ensures text { OnOk result (out.new ≡ out.old ++ text.refused_text line (fault_text why)) }
{
    push_refused(out, line, why.number(), why.name())?;
    Ok(Status::InputRefused)
}
