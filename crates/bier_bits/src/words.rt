//! Operations on slices of 64-bit words. Whole slices are joined eight words at once while that many are left; the words of
//! sparse slices are visited by their marks.
//!
//! The marks of at most 64 words are one word: bit k is set if word k is not 0, and may be set if it is 0.
ghost use Rattle.std.specs.Prelude.{◌≡◌, ◌≢◌, ◌≤◌, ◌<◌, ◌+◌, ◌*◌, ℕ, length, slice_index, bit_and, bit_or, MatchOption};
ghost use Rattle.std.specs.Int.{bit_at, trailing_zeros, w64};
ghost use Rattle.std.specs.Simd.Lanes.{zip2, chunk, put_chunk};
ghost use Rattle.bier_bits.specs.Sets.{AreWords, AreMarked, AreSharedMarks, IsNextPlace, IsRest, IsTaken, IsWithoutFirst, NoPlace, has_place, has_both, places_in, and_not};

use std::simd::prelude::*;

/// A bitwise operation on two words, for one pair at a time and for eight at once.
pub trait Joint {
    ghost word: { ℕ → ℕ → ℕ };

    fn one(a: u64, b: u64) -> u64
        ensures { result ≡ word a b };

    fn eight(a: u64x8, b: u64x8) -> u64x8
        ensures { result ≡ zip2 word a b };
}

/// Bitwise and: the bits set in both words.
pub struct Both;

impl Joint for Both {
    ghost word = { bit_and };

    fn one(a: u64, b: u64) -> u64 {
        a & b
    }

    fn eight(a: u64x8, b: u64x8) -> u64x8 {
        a & b
    }
}

/// And-not: the bits of the first word that are not set in the second.
pub struct Without;

impl Joint for Without {
    ghost word = { and_not };

    fn one(a: u64, b: u64) -> u64 {
        a & !b
    }

    fn eight(a: u64x8, b: u64x8) -> u64x8 {
        a & !b
    }
}

/// Bitwise or: the bits set in either word.
pub struct Either;

impl Joint for Either {
    ghost word = { bit_or };

    fn one(a: u64, b: u64) -> u64 {
        a | b
    }

    fn eight(a: u64x8, b: u64x8) -> u64x8 {
        a | b
    }
}

/// Applies the operation to two slices word by word: eight words at once, and then the rest.
pub fn join<J: Joint>(a: &[u64], b: &[u64], out: &mut [u64])
    requires b { length b.now ≡ length a.now }
    requires out { length out.old ≡ length a.now }
    ensures fits { AreWords b.now }
    ensures joined { (k : ℕ) → k < length a.now → slice_index out.new k ≡ J.word (slice_index a.now k) (slice_index b.now k) }
{
    let whole = a.len() / 8 * 8;
    let mut at = 0;
    while at < whole {
        join_eight::<J>(a, b, out, at);
        at += 8;
    }
    for k in whole..a.len() {
        out[k] = J::one(a[k], b[k]);
    }
}

fn join_eight<J: Joint>(a: &[u64], b: &[u64], out: &mut [u64], at: usize)
    requires a { at + 8 ≤ length a.now }
    requires b { at + 8 ≤ length b.now }
    requires out { at + 8 ≤ length out.old }
    ensures { out.new ≡ put_chunk at out.old (zip2 J.word (chunk at 8 a.now) (chunk at 8 b.now)) }
{
    let joined = J::eight(u64x8::from_slice(&a[at..]), u64x8::from_slice(&b[at..]));
    joined.copy_to_slice(&mut out[at..]);
}

/// Returns the marks with that of word `k` as well, if the word is not 0.
pub fn with_mark(marks: u64, k: usize, word: u64) -> u64
    requires { k < 64 }
    ensures kept { (j : ℕ) → bit_at result j ≡ 0 → bit_at marks j ≡ 0 }
    ensures marked { bit_at result k ≡ 0 → word ≡ 0 }
{
    if word == 0 {
        return marks;
    }
    marks | 1 << k
}

/// Returns the marks, without that of word `k` if the word is 0.
fn kept_mark(marks: u64, k: usize, word: u64) -> u64
    requires { k < 64 }
    ensures others { (j : ℕ) → j < 64 → j ≢ k → bit_at result j ≡ 0 → bit_at marks j ≡ 0 }
    ensures here { bit_at result k ≡ 0 → 0 < word → bit_at marks k ≡ 0 }
{
    if word == 0 {
        return marks & !(1 << k);
    }
    marks
}

/// Returns the least index of a mark from an index on. If there is none, the result is at least 64.
fn next_mark(marks: u64, from: usize) -> usize
    ensures low { from ≤ result }
    ensures none { (k : ℕ) → from ≤ k → k < result → bit_at marks k ≡ 0 }
{
    if from >= 64 {
        return from;
    }
    let above = marks >> from;
    if above == 0 {
        return 64;
    }
    from + above.trailing_zeros() as usize
}

/// Returns the marks from an index on.
fn marks_from(marks: u64, from: usize) -> u64
    ensures { IsRest marks result from }
{
    if from >= 64 {
        return 0;
    }
    marks & !((1 << from) - 1)
}

/// Returns the marks without the least one, if there is one.
fn without_least(marks: u64) -> u64
    ensures { (all at : ℕ) → IsRest all marks at → IsTaken all result at (trailing_zeros w64 marks) }
{
    marks & marks.wrapping_sub(1)
}

/// Removes the least mark and returns its index. If there is no mark, the result is 64.
///
/// A loop that visits marked words takes one mark after the other. That is shorter than to look for the next mark from an index on,
/// and the mark is removed without waiting for its index.
fn take_mark(marks: &mut u64) -> usize
    ensures few { result ≤ 64 }
    ensures taken { (all at : ℕ) → IsRest all marks.old at → IsTaken all marks.new at result }
{
    let least = marks.trailing_zeros() as usize;
    *marks = without_least(*marks);
    least
}

/// Clears the words.
pub fn clear(words: &mut [u64], marks: u64)
    requires few { length words.old ≤ 64 }
    requires marked { AreMarked marks words.old }
    ensures length { length words.new ≡ length words.old }
    ensures empty { (k : ℕ) → slice_index words.new k ≡ 0 }
{
    let mut rest = marks;
    let mut k = take_mark(&mut rest);
    'visits: while k < words.len() {
        words[k] = 0;
        k = take_mark(&mut rest);
    }
}

/// The marks of the words of a set that was cut, and of the words of what was taken from it.
#[derive(Clone, Copy)]
pub struct CutMarks {
    pub left: u64,
    pub taken: u64,
}

/// Clears the bits of a mask in `words` and sets the cleared ones in `taken`, which is empty. Returns the marks of both; a word
/// that has no bit any more is not marked, so that it isn't visited again. `marks` has those of `words`, and `shared` those of
/// the words that may share a bit with the mask. Below the word `from` they share none.
pub fn cut(
    words: &mut [u64],
    mask: &[u64],
    taken: &mut [u64],
    marks: u64,
    shared: u64,
    from: usize,
) -> CutMarks
    requires mask { length mask.now ≡ length words.old }
    requires taken { length taken.old ≡ length words.old }
    requires few { length words.old ≤ 64 }
    requires marked { AreMarked marks words.old }
    requires shared { AreSharedMarks shared words.old mask.now }
    requires none { NoPlace (has_both words.old mask.now) 0 (64 * from) }
    requires empty { (k : ℕ) → slice_index taken.old k ≡ 0 }
    ensures fits { AreWords mask.now }
    ensures taken { (k : ℕ) → k < length words.old → slice_index taken.new k ≡ bit_and (slice_index words.old k) (slice_index mask.now k) }
    ensures left { (k : ℕ) → k < length words.old → slice_index words.new k ≡ and_not (slice_index words.old k) (slice_index mask.now k) }
    ensures marked { AreMarked result.taken taken.new }
    ensures still_marked { AreMarked result.left words.new }
{
    let mut left_marks = marks;
    let mut taken_marks = 0;
    let mut rest = marks_from(shared, from);
    let mut k = take_mark(&mut rest);
    'visits: while k < words.len() {
        let both = words[k] & mask[k];
        let left = words[k] & !mask[k];
        words[k] = left;
        taken[k] = both;
        left_marks = kept_mark(left_marks, k, left);
        taken_marks = with_mark(taken_marks, k, both);
        k = take_mark(&mut rest);
    }
    CutMarks {
        left: left_marks,
        taken: taken_marks,
    }
}

/// Returns the index of the first set bit. Bits are counted from 0 through all words, the least significant bit of each word first.
pub fn first_place(words: &[u64], marks: u64) -> Option<usize>
    requires few { length words.now ≤ 64 }
    requires marked { AreMarked marks words.now }
    ensures { MatchOption result (NoPlace (has_place words.now) 0 (64 * length words.now)) (λ q. IsNextPlace (has_place words.now) 0 (64 * length words.now) q) }
{
    let k = first_word(words, marks);
    if k >= words.len() {
        return None;
    }
    Some(64 * k + words[k].trailing_zeros() as usize)
}

/// Clears the first set bit and returns its index, counted in the same way.
pub fn take_place(words: &mut [u64], marks: &mut u64) -> Option<usize>
    requires few { length words.old ≤ 64 }
    requires marked { AreMarked marks.old words.old }
    ensures length { length words.new ≡ length words.old }
    ensures still_marked { AreMarked marks.new words.new }
    ensures place { MatchOption result (NoPlace (has_place words.old) 0 (64 * length words.old)) (λ q. IsNextPlace (has_place words.old) 0 (64 * length words.old) q) }
    ensures left { MatchOption result (words.new ≡ words.old) (λ q. IsWithoutFirst words.old words.new q) }
{
    let k = first_word(words, *marks);
    if k >= words.len() {
        return None;
    }
    let word = words[k];
    let left = without_least(word);
    words[k] = left;
    *marks = kept_mark(*marks, k, left);
    Some(64 * k + word.trailing_zeros() as usize)
}

/// Returns the index of the first nonzero word. If there is none, the result is at least the length.
fn first_word(words: &[u64], marks: u64) -> usize
    requires few { length words.now ≤ 64 }
    requires marked { AreMarked marks words.now }
    ensures fits { AreWords words.now }
    ensures zero { (k : ℕ) → k < result → slice_index words.now k ≡ 0 }
    ensures found { result < length words.now → 0 < slice_index words.now result }
{
    let mut at = next_mark(marks, 0);
    'zeros: while at < words.len() && words[at] == 0 {
        at = next_mark(marks, at + 1);
    }
    at
}

/// Returns the index of the first bit that is set in both. `shared` has the marks of the words that may share a bit. Below the
/// word `from` they share none.
pub fn first_shared(a: &[u64], b: &[u64], shared: u64, from: usize) -> Option<usize>
    requires few { length a.now ≤ 64 }
    requires same { length b.now ≡ length a.now }
    requires shared { AreSharedMarks shared a.now b.now }
    requires none { NoPlace (has_both a.now b.now) 0 (64 * from) }
    ensures { MatchOption result (NoPlace (has_both a.now b.now) 0 (64 * length a.now)) (λ q. IsNextPlace (has_both a.now b.now) 0 (64 * length a.now) q) }
{
    let mut k = next_mark(shared, from);
    'visits: while k < a.len() {
        let both = a[k] & b[k];
        if both != 0 {
            return Some(64 * k + both.trailing_zeros() as usize);
        }
        k = next_mark(shared, k + 1);
    }
    None
}

/// Returns the number of set bits.
pub fn count(words: &[u64]) -> usize
    requires { length words.now ≤ 64 }
    ensures value { result ≡ length (places_in words.now) }
    ensures bound { result ≤ 64 * length words.now }
{
    let mut count = 0;
    for k in 0..words.len() {
        count += words[k].count_ones() as usize;
    }
    count
}
