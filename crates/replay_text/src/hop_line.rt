//! One line of a hop text.
ghost use Rattle.std.specs.Prelude.{◌≡◌, ◌≢◌, IfOk, IfErr, IsOk, IsTrue, MatchOption, Ok, Some, None, option_map};
ghost use Rattle.replay_text.specs.declared.fault.TextFault.TheVariants as texts;
ghost use Rattle.wire_base.specs.model.Place.{bits_of, bsl_with};
ghost use Rattle.replay_text.specs.Reading.{Gives};
ghost use Rattle.replay_text.specs.Pieces.{words_of};
ghost use Rattle.replay_text.specs.Hop as hop;
ghost use Rattle.replay_text.specs.Hop.{IsPacketOf};
ghost use Rattle.replay_text.specs.Ids.{ids_of};
ghost use Rattle.replay_text.specs.Grammar.{IsLine};

use crate::fault::TextFault;
use crate::hop::{HopLine, HopRow, HopState};
use crate::ids::{id, read_ids};
use crate::keyword::keyword_of;
use crate::pieces::{only_word_of, two_words_of};
use crate::short::ShortText;
use crate::tokens::{is_router_name, number};
use bier_bits::AnyBits;
use wire_base::Bsl;

/// Returns the BitStringLength with that many bits.
pub fn length_with(bits: u64) -> Option<Bsl>
    ensures { result ≡ bsl_with bits }
{
    if bits > 4096 {
        return None;
    }
    Bsl::from_bits(bits as u32)
}

/// Parses a `bsl` line from the words after it. It is not inlined: such lines are rare, and reading a packet is to stay short.
#[inline(never)]
#[tactic(auto, unfolding(crate::specs::Hop::length_line))]
fn length_line(state: &HopState, args: &[u8], said: &mut HopLine) -> Result<(), TextFault>
    ensures value { Gives (λ _. said.new) result (hop.length_line state.now (words_of args.now)) }
    ensures quiet { IfErr result (λ why. why ≢ texts.Memory) }
{
    let text = only_word_of(args).ok_or(TextFault::Word)?;
    if state.bsl.is_some() {
        return Err(TextFault::Word);
    }
    let bits = number(text).ok_or(TextFault::Number)?;
    let bsl = length_with(bits).ok_or(TextFault::Number)?;
    *said = HopLine::Length(bsl);
    Ok(())
}

/// Returns the BitStringLength if a `self` line may follow.
fn for_own(state: &HopState) -> Result<Bsl, TextFault>
    ensures value { Gives (λ x. x) result (hop.for_own state.now) }
    ensures quiet { IfErr result (λ why. why ≢ texts.Memory) }
{
    if state.own.is_some() {
        return Err(TextFault::Word);
    }
    state.bsl.ok_or(TextFault::Word)
}

/// Does the same with a `self` line.
#[inline(never)]
#[tactic(auto, unfolding(crate::specs::Hop::own_line))]
fn own_line(state: &HopState, args: &[u8], said: &mut HopLine) -> Result<(), TextFault>
    ensures value { Gives (λ _. said.new) result (hop.own_line state.now (words_of args.now)) }
    ensures quiet { IfErr result (λ why. why ≢ texts.Memory) }
{
    let text = only_word_of(args).ok_or(TextFault::Word)?;
    let bsl = for_own(state)?;
    let own = number(text).ok_or(TextFault::Number)?;
    if own > u64::from(bsl.bits()) {
        return Err(TextFault::Number);
    }
    *said = HopLine::Own(own as u16);
    Ok(())
}

/// Returns the BitStringLength if rows or packets may follow.
fn for_rows(state: &HopState) -> Result<Bsl, TextFault>
    ensures value { Gives (λ x. x) result (hop.for_rows state.now) }
    ensures quiet { IfErr result (λ why. why ≢ texts.Memory) }
{
    if state.own.is_none() {
        return Err(TextFault::Word);
    }
    state.bsl.ok_or(TextFault::Word)
}

fn has_row(rows: &[HopRow], id: u16) -> bool
    ensures { result ≡ hop.has_row rows.now id }
{
    rows.iter().any(|row| row.id == id)
}

/// Does the same with a `row` line.
#[inline(never)]
#[tactic(auto, unfolding(crate::specs::Hop::row_line))]
fn row_line(state: &HopState, args: &[u8], said: &mut HopLine) -> Result<(), TextFault>
    ensures value { Gives (λ _. said.new) result (hop.row_line state.now (words_of args.now)) }
    ensures quiet { IfErr result (λ why. why ≢ texts.Memory) }
{
    let (first, name) = two_words_of(args).ok_or(TextFault::Word)?;
    let bsl = for_rows(state)?;
    if state.packets {
        return Err(TextFault::Word);
    }
    let id = id(first, bsl.bits()).ok_or(TextFault::Number)?;
    if has_row(state.rows.as_slice(), id) {
        return Err(TextFault::Number);
    }
    if !is_router_name(name) {
        return Err(TextFault::Name);
    }
    let name = ShortText::from_slice(name);
    *said = HopLine::Row(HopRow { id, name });
    Ok(())
}

fn has_length(said: &HopLine, bsl: Bsl) -> bool
    ensures { IsTrue result → IsPacketOf bsl said.now }
{
    match said {
        HopLine::Packet(bits) => bits.bsl() == bsl,
        _ => false,
    }
}

/// Creates a packet of a length. It is not inlined: the packet of the line before mostly has that length, and is filled anew.
#[inline(never)]
fn make_packet(said: &mut HopLine, bsl: Bsl)
    ensures { IsPacketOf bsl said.new }
{
    *said = HopLine::Packet(AnyBits::zero(bsl));
}

/// Parses a packet's ids into what was said, in place of what it was.
fn packet_ids(text: &[u8], bsl: Bsl, said: &mut HopLine) -> Option<()>
    ensures { MatchOption result (ids_of (bits_of bsl) text.now ≡ None) (λ _. option_map (hop.packet_of bsl) (ids_of (bits_of bsl) text.now) ≡ Some said.new) }
{
    if !has_length(said, bsl) {
        make_packet(said, bsl);
    }
    match said {
        HopLine::Packet(bits) => read_ids(text, bits),
        _ => unreachable!(),
    }
}

/// Parses a `packet` line from the words after it.
#[tactic(auto, unfolding(crate::specs::Hop::packet_line))]
fn packet_line(state: &HopState, args: &[u8], said: &mut HopLine) -> Result<(), TextFault>
    ensures value { Gives (λ _. said.new) result (hop.packet_line state.now (words_of args.now)) }
    ensures quiet { IfErr result (λ why. why ≢ texts.Memory) }
{
    let text = only_word_of(args).ok_or(TextFault::Word)?;
    let bsl = for_rows(state)?;
    packet_ids(text, bsl, said).ok_or(TextFault::Number)
}

#[tactic(auto, unfolding(crate::specs::Hop::words_line))]
fn words_line(
    state: &HopState,
    word: &[u8],
    args: &[u8],
    said: &mut HopLine,
) -> Result<(), TextFault>
    ensures value { Gives (λ _. said.new) result (hop.words_line state.now word.now (words_of args.now)) }
    ensures quiet { IfErr result (λ why. why ≢ texts.Memory) }
{
    if word == b"bsl".as_slice() {
        length_line(state, args, said)
    } else if word == b"self".as_slice() {
        own_line(state, args, said)
    } else if word == b"row".as_slice() {
        row_line(state, args, said)
    } else if word == b"packet".as_slice() {
        packet_line(state, args, said)
    } else {
        Err(TextFault::Word)
    }
}

/// Parses a line, and stores what it contains or returns its first error.
#[tactic(auto, unfolding(crate::specs::Hop::hop_line))]
fn line_of(line: &[u8], state: &HopState, said: &mut HopLine) -> Result<(), TextFault>
    ensures value { Gives (λ _. said.new) result (hop.hop_line line.now state.now) }
    ensures quiet { IfErr result (λ why. why ≢ texts.Memory) }
{
    match keyword_of(line)? {
        None => {
            *said = HopLine::Empty;
            Ok(())
        }
        Some((word, args)) => words_line(state, word, args, said),
    }
}

/// Parses a line of a hop text, given the lines before it, and stores what it contains in `said`, in place of what that was. The
/// line comes without its line ending. After an error, what `said` is is not specified.
///
/// The errors, in order of precedence. `LineLong`: the line has more than 16,384 octets. `Word`: its first word is
/// unknown, is followed by the wrong number of words, or is not allowed here. The order is `bsl L` first, `self K`
/// second, then `row K NAME` lines, then `packet IDS` lines. `Number` or `Name`: an argument is invalid; arguments are
/// checked from left to right.
///
/// A line is read without an allocation. A packet's set is large. Since it is stored in place, it is not moved, and a packet line
/// after another is stored in its set.
pub fn read_hop_line(line: &[u8], state: &HopState, said: &mut HopLine) -> Result<(), TextFault>
    ensures value { Gives (λ _. said.new) result (hop.hop_line line.now state.now) }
    ensures quiet { IfErr result (λ why. why ≢ texts.Memory) }
    ensures found { IfOk result (λ _. IsLine state.now line.now said.new) }
    ensures only { (read : HopLine) → IsLine state.now line.now read → Gives (λ _. said.new) result (Ok read) }
    ensures ordered { IfOk result (λ _. hop.IsOrdered said.new) }
{
    line_of(line, state, said)
}
