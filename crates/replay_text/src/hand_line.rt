//! One line of a schedule of hellos.
ghost use Rattle.std.specs.Prelude.{◌≡◌, ◌≤◌, ◌<◌, ◌∷◌, length, IfOk, IfErr, Err};
ghost use Rattle.replay_text.specs.Hand as hands;
ghost use Rattle.replay_text.specs.Hand.{HandFits};
ghost use Rattle.replay_text.specs.Pieces.{words_of};
ghost use Rattle.replay_text.specs.Reading.{Gives};
ghost use Rattle.replay_text.specs.Schedule.{TakesMemory};
ghost use Rattle.replay_text.specs.declared.fault.TextFault.TheVariants as texts;

use crate::event::Line;
use crate::fault::TextFault;
use crate::hand::HandLine;
use crate::keyword::keyword_of;
use crate::schedule_line::{frame_named, link_named, read_line};
use std::alloc::Global;
use wire_base::limits::LINE_LIMIT;
use wire_base::{HelloEvent, Name, Rows};

/// Parses a line that is no event of hellos, from its first word.
#[tactic(auto, using(crate::proofs::HandLemmas::steady))]
fn base_line(
    alloc: Global,
    line: &[u8],
    names: &Rows<Name>,
    word: &[u8],
    args: &[u8],
) -> Result<Line, TextFault>
    requires few { length names.now ≤ 65536 }
    requires words { words_of line.now ≡ word.now ∷ words_of args.now }
    ensures value { Gives (λ said. said) result (hands.base_line line.now names.now word.now) }
    ensures memory { IfErr result (λ why. why ≡ texts.Memory → TakesMemory names.now (word.now ∷ words_of args.now)) }
    ensures fits { IfOk result (hands.BaseFits (length names.now)) }
{
    if word == b"up".as_slice() || word == b"down".as_slice() {
        return Err(TextFault::Word);
    }
    read_line(alloc, line, names)
}

/// Parses a line from its first word and the words after it.
fn hand_words(
    alloc: Global,
    line: &[u8],
    names: &Rows<Name>,
    word: &[u8],
    args: &[u8],
) -> Result<HandLine, TextFault>
    requires few { length names.now ≤ 65536 }
    requires words { words_of line.now ≡ word.now ∷ words_of args.now }
    ensures value { Gives (λ said. said) result (hands.hand_words line.now names.now (word.now ∷ words_of args.now)) }
    ensures memory { IfErr result (λ why. why ≡ texts.Memory → TakesMemory names.now (word.now ∷ words_of args.now)) }
    ensures fits { IfOk result (HandFits (length names.now)) }
{
    if word == b"hello".as_slice() {
        let (from, to) = link_named(names, args)?;
        Ok(HandLine::Hello(HelloEvent::Hello { from, to }))
    } else if word == b"greet".as_slice() {
        let (from, to, i) = frame_named(names, args)?;
        Ok(HandLine::Hello(HelloEvent::Greet { from, to, i }))
    } else if word == b"forget".as_slice() {
        let (from, to, i) = frame_named(names, args)?;
        Ok(HandLine::Hello(HelloEvent::Forget { from, to, i }))
    } else if word == b"break".as_slice() {
        let (from, to) = link_named(names, args)?;
        Ok(HandLine::Hello(HelloEvent::Break { from, to }))
    } else if word == b"mend".as_slice() {
        let (from, to) = link_named(names, args)?;
        Ok(HandLine::Hello(HelloEvent::Mend { from, to }))
    } else {
        Ok(HandLine::Base(base_line(alloc, line, names, word, args)?))
    }
}

/// Parses a line of a schedule of hellos, for a domain whose routers have those names, in that order: a line of a schedule, as
/// [`read_line`] parses it, except `up` and `down`, or an event of hellos, `hello`, `greet`, `forget`, `break` or `mend`. The
/// line comes without its line ending.
///
/// The errors, and their order of precedence, are those of [`read_line`]; `up` and `down` are unknown words. `Memory` may be
/// returned instead of any result from the ids of an `inject` line on, and of no other.
#[tactic(auto, unfolding(crate::specs::Hand::hand_line))]
pub fn read_hand_line(alloc: Global, line: &[u8], names: &Rows<Name>) -> Result<HandLine, TextFault>
    requires few { length names.now ≤ 65536 }
    ensures value { Gives (λ said. said) result (hands.hand_line line.now names.now) }
    ensures long { LINE_LIMIT < length line.now → result ≡ Err texts.LineLong }
    ensures memory { IfErr result (λ why. why ≡ texts.Memory → TakesMemory names.now (words_of line.now)) }
    ensures fits { IfOk result (HandFits (length names.now)) }
{
    match keyword_of(line)? {
        None => Ok(HandLine::Base(Line::Empty)),
        Some((word, args)) => hand_words(alloc, line, names, word, args),
    }
}
