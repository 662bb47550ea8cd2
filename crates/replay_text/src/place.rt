//! The bit positions of a BitString in the octets of a header, one after the other.
ghost use Rattle.std.specs.Prelude.{◌≡◌, ◌<◌, ◌≤◌, ◌+◌, ◌%◌, ◌∷◌, [], length, drop, IfSome, MatchOption};
ghost use Rattle.byteorder.specs.Endian.{big_number};
ghost use Rattle.replay_text.specs.Places.{IsPlace, left};

use byteorder::{BigEndian, ByteOrder};

/// A place in the octets of a BitString, eight of which are a word. The word at index `at` is looked at from its least significant
/// bit on: `from` positions are passed, and `above` is the word without their bits.
#[derive(Clone, Copy)]
pub struct Place {
    pub at: usize,
    pub from: usize,
    pub above: u64,
}

/// Returns the word at an index of the octets.
fn word_at(octets: &[u8], at: usize) -> u64
    requires { at + 8 ≤ length octets.now }
    ensures { result ≡ big_number 8 (drop at octets.now) }
{
    BigEndian::read_u64(&octets[at..])
}

impl Place {
    /// Returns the place before the first position.
    #[inline(always)]
    pub fn new(octets: &[u8]) -> Place
        requires words { length octets.now % 8 ≡ 0 }
        requires some { 8 ≤ length octets.now }
        requires few { length octets.now ≤ 512 }
        ensures place { IsPlace octets.now result.at result.from result.above }
        ensures start { result.from ≡ 0 }
    {
        let at = octets.len() - 8;
        Place {
            at,
            from: 0,
            above: word_at(octets, at),
        }
    }
}

/// Returns the next bit position, and moves behind it. None exactly where none is left.
#[inline(always)]
pub fn next_position(octets: &[u8], place: &mut Place) -> Option<u16>
    requires { IsPlace octets.now place.old.at place.old.from place.old.above }
    ensures place { IsPlace octets.now place.new.at place.new.from place.new.above }
    ensures next { MatchOption result (left octets.now place.old.from ≡ []) (λ p. left octets.now place.old.from ≡ p ∷ left octets.now place.new.from) }
    ensures high { IfSome result (λ p. p ≤ 4096) }
    ensures on { IfSome result (λ p. place.old.from < place.new.from) }
{
    let mut at = place.at;
    let mut from = place.from;
    let mut above = place.above;
    'words: while above == 0 {
        if at == 0 {
            return None;
        }
        at -= 8;
        from = 8 * (octets.len() - at) - 64;
        above = word_at(octets, at);
    }
    let skip = above.trailing_zeros();
    let position = from + skip as usize + 1;
    *place = Place {
        at,
        from: position,
        above: above >> skip >> 1,
    };
    Some(position as u16)
}
