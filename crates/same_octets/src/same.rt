//! Whether two lists of octets are equal.
ghost use Rattle.std.specs.Prelude.{◌≡◌, ◌+◌, ◌≤◌, length, true};
ghost use Rattle.std.specs.Simd.Lanes.{chunk};

use std::simd::prelude::*;

/// Returns whether 32 octets from an index on are equal in both lists.
fn are_same_at(a: &[u8], b: &[u8], at: usize) -> bool
    requires a { at + 32 ≤ length a.now }
    requires b { at + 32 ≤ length b.now }
    ensures equal { result ≡ true → chunk at 32 a.now ≡ chunk at 32 b.now }
    ensures only { chunk at 32 a.now ≡ chunk at 32 b.now → result ≡ true }
{
    let ours = Simd::<u8, 32>::from_slice(&a[at..]);
    let theirs = Simd::<u8, 32>::from_slice(&b[at..]);
    ours.simd_ne(theirs).to_bitmask() == 0
}

/// Returns whether two lists of one length are equal, 32 octets at once. The last 32 may have been compared in part before.
fn are_same_chunks(a: &[u8], b: &[u8]) -> bool
    requires same { length a.now ≡ length b.now }
    requires long { 32 ≤ length a.now }
    ensures equal { result ≡ true → a.now ≡ b.now }
    ensures only { a.now ≡ b.now → result ≡ true }
{
    let last = a.len() - 32;
    let mut at = 0;
    'chunks: while at < last {
        if !are_same_at(a, b, at) {
            return false;
        }
        at += 32;
    }
    are_same_at(a, b, last)
}

/// The same, octet by octet.
fn are_same_ones(a: &[u8], b: &[u8]) -> bool
    requires same { length a.now ≡ length b.now }
    ensures equal { result ≡ true → a.now ≡ b.now }
    ensures only { a.now ≡ b.now → result ≡ true }
{
    let mut at = 0;
    'octets: while at < a.len() {
        if a[at] != b[at] {
            return false;
        }
        at += 1;
    }
    true
}

/// Returns whether two lists of octets are equal.
pub fn are_same_octets(a: &[u8], b: &[u8]) -> bool
    ensures equal { result ≡ true → a.now ≡ b.now }
    ensures only { a.now ≡ b.now → result ≡ true }
{
    if a.len() != b.len() {
        return false;
    }
    if a.len() < 32 {
        return are_same_ones(a, b);
    }
    are_same_chunks(a, b)
}
