ghost use Rattle.std.specs.Prelude.{◌≡◌, ◌↔◌, ℕ, ◌+◌, ◌*◌, ◌/◌, ◌%◌, ◌<◌, ◌≤◌, length, sum, slice_index, IsTrue};
ghost use Rattle.std.specs.Simd.Lanes.{chunk};
ghost use Rattle.wire_base.specs.model.Checksum.{weighted, is_right, IsRight, IsCheck, check_sum};

use std::simd::prelude::*;

/// Returns the plain and the weighted sum of sixteen octets from an index on.
fn sixteen_sums(bytes: &[u8], at: usize) -> (u32, u32)
    requires { at + 16 ≤ length bytes.now }
    ensures plain { result.0 ≡ sum (chunk at 16 bytes.now) }
    ensures heavy { result.1 ≡ weighted (chunk at 16 bytes.now) }
    ensures low { result.0 ≤ 4080 }
    ensures small { result.1 ≤ 261120 }
{
    let octets = u8x16::from_slice(&bytes[at..]).cast::<u32>();
    let weights = u32x16::from_array([16, 15, 14, 13, 12, 11, 10, 9, 8, 7, 6, 5, 4, 3, 2, 1]);
    let heavy = octets.strict_mul(weights).strict_reduce_sum();
    (octets.strict_reduce_sum(), heavy)
}

/// Returns the plain and the weighted sum modulo 255, for few enough octets that both sums fit 64 bits:
/// sixteen octets at once, and then the rest.
fn short_sums(bytes: &[u8]) -> (u32, u32)
    requires { length bytes.now ≤ 65535 }
    ensures plain { result.0 ≡ sum bytes.now % 255 }
    ensures heavy { result.1 ≡ weighted bytes.now % 255 }
{
    let mut plain = 0u64;
    let mut heavy = 0u64;
    let mut at = 0;
    'sixteens: while at + 16 <= bytes.len() {
        let (more, weighed) = sixteen_sums(bytes, at);
        heavy += 16 * plain + u64::from(weighed);
        plain += u64::from(more);
        at += 16;
    }
    'ones: while at < bytes.len() {
        plain += u64::from(bytes[at]);
        heavy += plain;
        at += 1;
    }
    ((plain % 255) as u32, (heavy % 255) as u32)
}

/// The same for any number of octets.
fn long_sums(bytes: &[u8]) -> (u32, u32)
    ensures plain { result.0 ≡ sum bytes.now % 255 }
    ensures heavy { result.1 ≡ weighted bytes.now % 255 }
{
    let mut plain = 0u32;
    let mut heavy = 0u32;
    for byte in bytes {
        plain = (plain + u32::from(*byte)) % 255;
        heavy = (heavy + plain) % 255;
    }
    (plain, heavy)
}

/// Returns the plain and the weighted sum of the octets, modulo 255. In the weighted sum the last octet counts once.
fn sums(bytes: &[u8]) -> (u32, u32)
    ensures plain { result.0 ≡ sum bytes.now % 255 }
    ensures heavy { result.1 ≡ weighted bytes.now % 255 }
{
    if bytes.len() <= 65535 {
        return short_sums(bytes);
    }
    long_sums(bytes)
}

/// Returns whether both sums are 0 modulo 255 (ISO/IEC 10589, 7.3.11).
pub fn right_sum(bytes: &[u8]) -> bool
    ensures right { IsTrue result ↔ IsRight bytes.now }
    ensures value { result ≡ is_right bytes.now }
{
    let (plain, heavy) = sums(bytes);
    plain == 0 && heavy == 0
}

fn pair_at(bytes: &[u8], at: usize) -> u16
    requires within { at + 2 ≤ length bytes.now }
    requires short { length bytes.now ≤ 65535 }
    ensures { result ≡ check_sum bytes.now at }
{
    let (plain, heavy) = sums(bytes);
    let after = (bytes.len() - at - 1) as u32;
    let first = 255 - (heavy + (255 - plain) * after) % 255;
    let second = 255 - (plain + first) % 255;
    (first * 256 + second) as u16
}

/// Returns the two checksum octets that make the sums right when written at index `at`, the first one in the high octet. Each
/// is from 1 to 255, since 0 would mean that there is no checksum (ISO/IEC 10589, 7.3.11).
pub fn checksum_at(bytes: &[u8], at: usize) -> u16
    requires within { at + 2 ≤ length bytes.now }
    requires short { length bytes.now ≤ 65535 }
    requires first_zero { slice_index bytes.now at ≡ 0 }
    requires second_zero { slice_index bytes.now (at + 1) ≡ 0 }
    // The pair makes the sums right.
    ensures check { IsCheck bytes.now at (result / 256, result % 256) }
    // No other pair does.
    ensures only { (pair : ℕ × ℕ) → IsCheck bytes.now at pair → result ≡ pair.0 * 256 + pair.1 }
    ensures value { result ≡ check_sum bytes.now at }
{
    pair_at(bytes, at)
}
