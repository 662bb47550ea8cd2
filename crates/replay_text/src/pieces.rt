//! Text that is split into lines, words and the items of a list.
ghost use Rattle.std.specs.Prelude.{◌≡◌, ◌<◌, [], ◌∷◌, length, MatchOption, IfSome, option_map};
ghost use Rattle.std.specs.Str.Lines.{strip_carriage_return};
ghost use Rattle.replay_text.specs.Pieces.{pieces, more_pieces, lines_in, words_of, only_word, two_words};

use memchr::memchr;

/// Returns the text before the first octet of that value, and the text after it, or `None` if the octet does not occur.
pub fn cut(text: &[u8], stop: u8) -> (&[u8], Option<&[u8]>)
    ensures pieces { pieces stop text.now ≡ result.0.now ∷ more_pieces stop (option_map (λ after. after.now) result.1) }
    ensures shorter { IfSome result.1 (λ after. length after.now < length text.now) }
{
    match memchr(stop, text) {
        Some(at) => (&text[..at], Some(&text[at + 1..])),
        None => (text, None),
    }
}

/// Returns the line without the CR at its end, if it has one.
fn without_cr(line: &[u8]) -> &[u8]
    ensures { result.now ≡ strip_carriage_return line.now }
{
    match line.last() {
        Some(13) => &line[..line.len() - 1],
        _ => line,
    }
}

/// Returns the first line of a text without its line ending, and what follows it. With `ended`, the text is complete,
/// and its last line may lack the LF. Otherwise octets after the last LF do not form a line yet. None exactly where
/// there is no line.
#[tactic(auto, using(crate::proofs::Cutting::line_first, crate::proofs::Cutting::line_last, crate::proofs::Cutting::line_none, crate::proofs::Cutting::line_open))]
pub fn next_line(text: &[u8], ended: bool) -> Option<(&[u8], &[u8])>
    ensures lines { MatchOption result (lines_in ended text.now ≡ []) (λ found. lines_in ended text.now ≡ found.0.now ∷ lines_in ended found.1.now) }
    ensures shorter { IfSome result (λ found. length found.1.now < length text.now) }
{
    let (line, after) = cut(text, b'\n');
    match after {
        Some(next) => Some((without_cr(line), next)),
        None => if ended && !line.is_empty() {
            Some((line, &[]))
        } else {
            None
        },
    }
}

/// Returns the first word of a line, and what follows it. None exactly where there is no word.
#[tactic(auto, using(crate::proofs::Cutting::words_last, crate::proofs::Cutting::words_end, crate::proofs::Cutting::words_first, crate::proofs::Cutting::words_skip))]
pub fn next_word(line: &[u8]) -> Option<(&[u8], &[u8])>
    ensures { MatchOption result (words_of line.now ≡ []) (λ found. words_of line.now ≡ found.0.now ∷ words_of found.1.now) }
{
    let mut rest = line;
    'words: loop {
        let (word, after) = cut(rest, b' ');
        match after {
            None => return if word.is_empty() {
                None
            } else {
                Some((word, &[]))
            },
            Some(next) => {
                if !word.is_empty() {
                    return Some((word, next));
                }
                rest = next;
            }
        }
    }
}

/// Returns the word of a text that has exactly one.
pub fn only_word_of(text: &[u8]) -> Option<&[u8]>
    ensures { option_map (λ word. word.now) result ≡ only_word (words_of text.now) }
{
    let (word, rest) = next_word(text)?;
    match next_word(rest) {
        None => Some(word),
        Some(_) => None,
    }
}

/// Returns the words of a text that has exactly two.
pub fn two_words_of(text: &[u8]) -> Option<(&[u8], &[u8])>
    ensures { option_map (λ found. (found.0.now, found.1.now)) result ≡ two_words (words_of text.now) }
{
    let (first, rest) = next_word(text)?;
    let second = only_word_of(rest)?;
    Some((first, second))
}
