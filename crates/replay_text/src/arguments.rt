//! The arguments of a schedule's lines. Each function takes the text that is left, and returns the value of its first
//! word and the text after it.
ghost use Rattle.std.specs.Prelude.{◌≡◌, ◌≢◌, ◌≤◌, ◌<◌, ◌==◌, length, IfOk, IfErr, IfSome};
ghost use Rattle.replay_text.specs.declared.fault.TextFault.TheVariants as texts;
ghost use Rattle.std.specs.Str.{bytes_eq};
ghost use Rattle.replay_text.specs.Reading.{Gives};
ghost use Rattle.replay_text.specs.Pieces.{words_of};
ghost use Rattle.replay_text.specs.Arguments as arguments;

use crate::fault::TextFault;
use crate::hop_line::length_with;
use crate::ids::id;
use crate::listed::read_listed;
use crate::payload::read_payload;
use crate::pieces::next_word;
use crate::tokens::{number, number_from, number_to};
use std::alloc::Global;
use wire_base::limits::{LAST_LABEL, MOST_PAYLOAD};
use wire_base::{Bsl, Name, Octets, Rows};

/// Returns whether a text has that many words.
pub fn has_words(text: &[u8], count: usize) -> bool
    ensures { result ≡ (length (words_of text.now) == count) }
{
    let mut rest = text;
    'words: for i in 0..count {
        match next_word(rest) {
            None => return false,
            Some((_, next)) => rest = next,
        }
    }
    next_word(rest).is_none()
}

/// Returns the text if it has that many words.
pub fn counted(text: &[u8], count: usize) -> Result<&[u8], TextFault>
    ensures value { Gives (λ text. words_of text.now) result (arguments.counted count (words_of text.now)) }
    ensures quiet { IfErr result (λ why. why ≢ texts.Memory) }
{
    if has_words(text, count) {
        Ok(text)
    } else {
        Err(TextFault::Word)
    }
}

fn is_name(name: &Name, word: &[u8]) -> bool
    ensures { result ≡ bytes_eq name.now word.now }
{
    name.as_slice() == word
}

fn position_of(names: &[Name], word: &[u8]) -> Option<usize>
    ensures value { result ≡ arguments.place_of names.now word.now }
    ensures within { IfSome result (λ place. place < length names.now) }
{
    names.iter().position(|name| is_name(name, word))
}

/// Returns the index of the router with that name.
fn place_of(names: &[Name], word: &[u8]) -> Option<u16>
    requires { length names.now ≤ 65536 }
    ensures value { result ≡ arguments.place_of names.now word.now }
    ensures within { IfSome result (λ place. place < length names.now) }
{
    let place = position_of(names, word)?;
    Some(place as u16)
}

/// Parses the name of a router.
pub fn name_at<'a>(names: &Rows<Name>, args: &'a [u8]) -> Result<(u16, &'a [u8]), TextFault>
    requires { length names.now ≤ 65536 }
    ensures value { Gives (λ found. (found.0, words_of found.1.now)) result (arguments.name_at names.now (words_of args.now)) }
    ensures quiet { IfErr result (λ why. why ≢ texts.Memory) }
    ensures within { IfOk result (λ found. found.0 < length names.now) }
{
    let (word, rest) = next_word(args).ok_or(TextFault::Word)?;
    let place = place_of(names.as_slice(), word).ok_or(TextFault::Name)?;
    Ok((place, rest))
}

/// Parses a number up to the bound.
pub fn number_at(bound: u64, args: &[u8]) -> Result<(u64, &[u8]), TextFault>
    ensures value { Gives (λ found. (found.0, words_of found.1.now)) result (arguments.number_at bound (words_of args.now)) }
    ensures quiet { IfErr result (λ why. why ≢ texts.Memory) }
    ensures within { IfOk result (λ found. found.0 ≤ bound) }
{
    let (word, rest) = next_word(args).ok_or(TextFault::Word)?;
    let number = number_to(word, bound).ok_or(TextFault::Number)?;
    Ok((number, rest))
}

fn length_from(word: &[u8]) -> Option<Bsl>
    ensures { result ≡ arguments.length_from word.now }
{
    length_with(number(word)?)
}

/// Parses a BitStringLength.
pub fn length_at(args: &[u8]) -> Result<(Bsl, &[u8]), TextFault>
    ensures value { Gives (λ found. (found.0, words_of found.1.now)) result (arguments.length_at (words_of args.now)) }
    ensures quiet { IfErr result (λ why. why ≢ texts.Memory) }
{
    let (word, rest) = next_word(args).ok_or(TextFault::Word)?;
    let bsl = length_from(word).ok_or(TextFault::Number)?;
    Ok((bsl, rest))
}

/// Parses an MPLS label that isn't reserved (RFC 3032, 2.1).
pub fn label_at(args: &[u8]) -> Result<(u32, &[u8]), TextFault>
    ensures value { Gives (λ found. (found.0, words_of found.1.now)) result (arguments.label_at (words_of args.now)) }
    ensures quiet { IfErr result (λ why. why ≢ texts.Memory) }
    ensures low { IfOk result (λ found. 16 ≤ found.0) }
    ensures high { IfOk result (λ found. found.0 ≤ LAST_LABEL) }
{
    let (word, rest) = next_word(args).ok_or(TextFault::Word)?;
    let label = number_from(word, 16, u64::from(LAST_LABEL)).ok_or(TextFault::Number)?;
    Ok((label as u32, rest))
}

/// Parses a TTL, which must be above 0.
pub fn ttl_at(args: &[u8]) -> Result<(u8, &[u8]), TextFault>
    ensures value { Gives (λ found. (found.0, words_of found.1.now)) result (arguments.ttl_at (words_of args.now)) }
    ensures low { IfOk result (λ found. 1 ≤ found.0) }
{
    let (word, rest) = next_word(args).ok_or(TextFault::Word)?;
    let ttl = id(word, 255).ok_or(TextFault::Number)?;
    Ok((ttl as u8, rest))
}

/// Parses a list of BFR-ids.
pub fn ids_at(alloc: Global, args: &[u8]) -> Result<(Rows<u16>, &[u8]), TextFault>
    ensures { Gives (λ found. (found.0, words_of found.1.now)) result (arguments.ids_at (words_of args.now)) }
{
    let (word, rest) = next_word(args).ok_or(TextFault::Word)?;
    match read_listed(alloc, word) {
        Ok(ids) => Ok((ids, rest)),
        Err(why) => Err(why),
    }
}

/// Parses a payload.
pub fn payload_at(alloc: Global, args: &[u8]) -> Result<(Octets, &[u8]), TextFault>
    ensures value { Gives (λ found. (found.0, words_of found.1.now)) result (arguments.payload_at (words_of args.now)) }
    ensures short { IfOk result (λ found. length found.0 ≤ MOST_PAYLOAD) }
{
    let (word, rest) = next_word(args).ok_or(TextFault::Word)?;
    match read_payload(alloc, word) {
        Ok(payload) => Ok((payload, rest)),
        Err(why) => Err(why),
    }
}
