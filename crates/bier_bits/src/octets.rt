//! Words in big-endian octets: the last eight octets are the first word.
ghost use Rattle.std.specs.Prelude.{◌≡◌, ◌≤◌, ◌+◌, ◌*◌, ◌++◌, length, take, drop};
ghost use Rattle.byteorder.specs.Endian.{big_bytes};
ghost use Rattle.bier_bits.specs.Sets.{AreMarked, AreOctets};

use crate::words::with_mark;
use byteorder::{BigEndian, ByteOrder};

/// Reads each word of `words` from eight octets. Returns the marks of the words.
pub fn read_words(bytes: &[u8], words: &mut [u64]) -> u64
    requires octets { length bytes.now ≡ 8 * length words.old }
    requires few { length words.old ≤ 64 }
    ensures octets { AreOctets words.new bytes.now (length words.new) }
    ensures length { length words.new ≡ length words.old }
    ensures marked { AreMarked result words.new }
{
    let count = words.len();
    let mut marks = 0;
    for k in 0..count {
        let word = BigEndian::read_u64(&bytes[8 * (count - 1 - k)..]);
        words[k] = word;
        marks = with_mark(marks, k, word);
    }
    marks
}

/// Writes each word as eight octets.
pub fn write_words(words: &[u64], out: &mut [u8])
    requires { length out.old ≡ 8 * length words.now }
    ensures octets { AreOctets words.now out.new (length words.now) }
    ensures length { length out.new ≡ length out.old }
{
    let count = words.len();
    for k in 0..count {
        write_word(words[k], out, 8 * (count - 1 - k));
    }
}

fn write_word(word: u64, out: &mut [u8], at: usize)
    requires { at + 8 ≤ length out.old }
    ensures { out.new ≡ take at out.old ++ (big_bytes 8 word ++ drop 8 (drop at out.old)) }
{
    BigEndian::write_u64(&mut out[at..], word);
}
