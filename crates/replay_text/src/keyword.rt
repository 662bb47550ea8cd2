//! The keyword of a line.
ghost use Rattle.std.specs.Prelude.{◌≡◌, ◌≤◌, ◌<◌, ◌∷◌, [], length, IfOk, IfErr, MatchOption};
ghost use Rattle.replay_text.specs.Hop.{is_comment};
ghost use Rattle.replay_text.specs.Pieces.{words_of};
ghost use Rattle.replay_text.specs.Keyword.{line_words};
ghost use Rattle.replay_text.specs.declared.fault.TextFault.TheVariants as texts;

use crate::fault::TextFault;
use crate::pieces::next_word;
use wire_base::limits::LINE_LIMIT;

/// Returns whether a line is a comment.
fn is_comment(line: &[u8]) -> bool
    ensures { result ≡ is_comment line.now }
{
    match line {
        [] => false,
        [first, ..] => *first == b'#',
    }
}

/// Returns the first word of a line and what follows it, or `None` if the line is blank or a comment. The line comes without its
/// line ending.
///
/// The only error is `LineLong`: the line has more than 16,384 octets.
pub fn keyword_of(line: &[u8]) -> Result<Option<(&[u8], &[u8])>, TextFault>
    ensures words { IfOk result (λ found. MatchOption found (line_words line.now ≡ []) (λ f. line_words line.now ≡ f.0.now ∷ words_of f.1.now)) }
    ensures short { IfOk result (λ found. length line.now ≤ LINE_LIMIT) }
    ensures long { IfErr result (λ why. LINE_LIMIT < length line.now) }
    ensures why { IfErr result (λ why. why ≡ texts.LineLong) }
{
    if line.len() > LINE_LIMIT {
        return Err(TextFault::LineLong);
    }
    if is_comment(line) {
        return Ok(None);
    }
    Ok(next_word(line))
}
