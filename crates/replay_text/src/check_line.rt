//! One line of a schedule that is checked.
ghost use Rattle.std.specs.Prelude.{◌≡◌, ◌≤◌, ◌<◌, ◌∷◌, length, IfOk, IfErr, IsOk, Err};
ghost use Rattle.replay_text.specs.Check as checks;
ghost use Rattle.replay_text.specs.Check.{CheckFits, MayAllocate, cover_front};
ghost use Rattle.replay_text.specs.Pieces.{words_of};
ghost use Rattle.replay_text.specs.Reading.{Gives};
ghost use Rattle.replay_text.specs.declared.fault.TextFault.TheVariants as texts;

use crate::arguments::{counted, ids_at, length_at, name_at, number_at, ttl_at};
use crate::check::CheckLine;
use crate::event::Line;
use crate::fault::TextFault;
use crate::keyword::keyword_of;
use crate::schedule_line::read_line;
use std::alloc::Global;
use wire_base::limits::LINE_LIMIT;
use wire_base::{Name, Rows};

/// Parses a `cover` line from the words after it.
#[tactic(auto, unfolding(crate::specs::Check::cover_line, crate::specs::Check::cover_front))]
fn cover_line(alloc: Global, names: &Rows<Name>, args: &[u8]) -> Result<CheckLine, TextFault>
    requires { length names.now ≤ 65536 }
    ensures value { Gives (λ said. said) result (checks.cover_line names.now (words_of args.now)) }
    ensures memory { IfErr result (λ why. why ≡ texts.Memory → IsOk (cover_front names.now (words_of args.now))) }
    ensures fits { IfOk result (CheckFits (length names.now)) }
{
    let args = counted(args, 6)?;
    let (router, args) = name_at(names, args)?;
    let (sd, args) = number_at(255, args)?;
    let (bsl, args) = length_at(args)?;
    let (ids, args) = ids_at(alloc, args)?;
    let (ttl, args) = ttl_at(args)?;
    let (entropy, _) = number_at(1_048_575, args)?;
    Ok(CheckLine::Cover {
        router,
        sd: sd as u8,
        bsl,
        ids,
        ttl,
        entropy: entropy as u32,
    })
}

/// Parses a line from its first word and the words after it.
#[tactic(auto, unfolding(crate::specs::Schedule::schedule_line))]
fn check_words(
    alloc: Global,
    line: &[u8],
    names: &Rows<Name>,
    word: &[u8],
    args: &[u8],
) -> Result<CheckLine, TextFault>
    requires few { length names.now ≤ 65536 }
    requires words { words_of line.now ≡ word.now ∷ words_of args.now }
    ensures value { Gives (λ said. said) result (checks.check_words line.now names.now (word.now ∷ words_of args.now)) }
    ensures memory { IfErr result (λ why. why ≡ texts.Memory → MayAllocate names.now (word.now ∷ words_of args.now)) }
    ensures fits { IfOk result (CheckFits (length names.now)) }
{
    if word == b"quiet".as_slice() {
        counted(args, 0)?;
        Ok(CheckLine::Quiet)
    } else if word == b"cover".as_slice() {
        cover_line(alloc, names, args)
    } else {
        Ok(CheckLine::Base(read_line(alloc, line, names)?))
    }
}

/// Parses a line of a schedule that is checked, for a domain whose routers have those names, in that order: a line of a schedule, as
/// [`read_line`] parses it, or one of two that are no events, `quiet` and `cover`. The line comes without its line ending.
///
/// The errors, and their order of precedence, are those of [`read_line`]. `Memory` may be returned instead of any result from the
/// ids of a `cover` or an `inject` line on, and of no other.
#[tactic(auto, unfolding(crate::specs::Check::check_line))]
pub fn read_check_line(
    alloc: Global,
    line: &[u8],
    names: &Rows<Name>,
) -> Result<CheckLine, TextFault>
    requires few { length names.now ≤ 65536 }
    ensures value { Gives (λ said. said) result (checks.check_line line.now names.now) }
    ensures long { LINE_LIMIT < length line.now → result ≡ Err texts.LineLong }
    ensures memory { IfErr result (λ why. why ≡ texts.Memory → MayAllocate names.now (words_of line.now)) }
    ensures fits { IfOk result (CheckFits (length names.now)) }
{
    match keyword_of(line)? {
        None => Ok(CheckLine::Base(Line::Empty)),
        Some((word, args)) => check_words(alloc, line, names, word, args),
    }
}
