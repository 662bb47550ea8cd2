//! The formats of single values: hexadecimal text, addresses and names.
ghost use Rattle.std.specs.Prelude.{◌≡◌, ◌+◌, ◌≤◌, ◌<◌, ◌∷◌, [], length, slice_index, IfOk, IfSome};
ghost use Rattle.std.specs.List.{list_all};
ghost use Rattle.wire_base.specs.model.Configuration as configuration;
ghost use Rattle.domain_conf.specs.Forms as forms;

use crate::cut::cut;
use std::alloc::Global;
use wire_base::{Bsl, Ipv4, Kind, Level, M, Mac, Octets, SystemId};

/// Returns the number if it is within the bounds.
pub fn within(n: i64, low: u32, high: u32) -> Option<u32>
    ensures value { result ≡ forms.nat_within low high n }
    ensures fits { IfSome result (λ n. n ≤ high) }
{
    match u32::try_from(n) {
        Ok(n) if low <= n && n <= high => Some(n),
        _ => None,
    }
}

/// Returns the BitStringLength with that many bits.
pub fn bsl_in(n: i64) -> Option<Bsl>
    ensures { result ≡ forms.bsl_in n }
{
    match u32::try_from(n) {
        Ok(n) if n <= 4096 => Bsl::from_bits(n),
        _ => None,
    }
}

/// Returns the IS-IS level with that number.
pub fn level_in(n: i64) -> Option<Level>
    ensures { result ≡ forms.level_in n }
{
    match n {
        1 => Some(Level::One),
        2 => Some(Level::Two),
        _ => None,
    }
}

/// Returns the encapsulation with that name.
pub fn kind_named(text: &[u8]) -> Option<Kind>
    ensures { result ≡ forms.kind_named text.now }
{
    if text == b"mpls".as_slice() {
        Some(Kind::Mpls)
    } else if text == b"configured".as_slice() {
        Some(Kind::Configured)
    } else {
        None
    }
}

fn is_name_octet(octet: u8) -> bool
    ensures { result ≡ configuration.is_name_octet octet }
{
    octet.is_ascii_alphanumeric() || octet == b'_' || octet == b'-'
}

fn are_name_octets(text: &[u8]) -> bool
    ensures { result ≡ list_all configuration.is_name_octet text.now }
{
    text.iter().all(|octet| is_name_octet(*octet))
}

/// Returns whether the text is a valid router name: a letter, followed by at most 31 letters, digits, `_` and `-`.
pub fn is_name(text: &[u8]) -> bool
    ensures { result ≡ configuration.is_name text.now }
{
    match text {
        [] => false,
        [first, rest @ ..] => {
            first.is_ascii_alphabetic() && are_name_octets(rest) && rest.len() <= 31
        }
    }
}

/// Returns the value of a hexadecimal digit.
#[tactic(auto, unfolding(crate::specs::Forms::hex_digit))]
fn hex_digit(c: u8) -> Option<u8>
    ensures value { result ≡ forms.hex_digit c }
    ensures fits { IfSome result (λ digit. digit < 16) }
{
    match c {
        b'0'..=b'9' => Some(c - b'0'),
        b'A'..=b'F' => Some(c - b'A' + 10),
        b'a'..=b'f' => Some(c - b'a' + 10),
        _ => None,
    }
}

/// Returns the octet that two hexadecimal digits encode.
#[tactic(auto, unfolding(crate::specs::Forms::hex_octet))]
fn hex_octet(high: u8, low: u8) -> Option<u8>
    ensures { result ≡ forms.hex_octet high low }
{
    let high = hex_digit(high)?;
    let low = hex_digit(low)?;
    Some(16 * high + low)
}

/// Returns the octet whose two digits are at an index of a text.
fn octet_at(text: &[u8], at: usize) -> Option<u8>
    requires { at + 2 ≤ length text.now }
    ensures { result ≡ forms.hex_octet (slice_index text.now at) (slice_index text.now (at + 1)) }
{
    hex_octet(text[at], text[at + 1])
}

/// Returns the octets that a text encodes, with two digits each.
pub fn hex_octets(alloc: Global, text: &[u8]) -> M<Option<Octets>>
    ensures { IfOk result (λ read. read ≡ forms.hex_octets text.now) }
{
    let mut octets = Octets::new(alloc);
    let mut rest = text;
    'pairs: while let [high, low, more @ ..] = rest {
        let Some(octet) = hex_octet(*high, *low) else {
            return Ok(None);
        };
        octets.push(octet)?;
        rest = more;
    }
    if rest.is_empty() {
        return Ok(Some(octets));
    }
    Ok(None)
}

/// Parses an area address of 1 to 13 octets (ISO/IEC 10589, 7.1).
#[tactic(auto, unfolding(crate::specs::Forms::area_in))]
pub fn area_in(alloc: Global, text: &[u8]) -> M<Option<Octets>>
    ensures { IfOk result (λ read. read ≡ forms.area_in text.now) }
{
    let Some(octets) = hex_octets(alloc, text)? else {
        return Ok(None);
    };
    Ok(if 1 <= octets.len() && octets.len() <= 13 {
        Some(octets)
    } else {
        None
    })
}

/// Parses a system ID, such as `0000.0000.0001`.
#[tactic(auto, unfolding(crate::specs::Forms::system_octets, crate::specs::Forms::octets_at))]
pub fn system_octets(text: &[u8]) -> Option<[u8; 6]>
    ensures { result ≡ forms.system_octets text.now }
{
    if text.len() != 14 || text[4] != b'.' || text[9] != b'.' {
        return None;
    }
    Some([
        octet_at(text, 0)?,
        octet_at(text, 2)?,
        octet_at(text, 5)?,
        octet_at(text, 7)?,
        octet_at(text, 10)?,
        octet_at(text, 12)?,
    ])
}

/// Returns whether the text has 17 octets, with a colon at the indices 2, 5, 8, 11 and 14.
fn has_colons(text: &[u8]) -> bool
    ensures { result ≡ forms.is_parted 17 58 (2 ∷ 5 ∷ 8 ∷ 11 ∷ 14 ∷ []) text.now }
{
    text.len() == 17
        && text[2] == b':'
        && text[5] == b':'
        && text[8] == b':'
        && text[11] == b':'
        && text[14] == b':'
}

/// Parses a unicast Ethernet address, such as `02:00:00:00:00:01`.
#[tactic(auto, unfolding(crate::specs::Forms::mac_octets, crate::specs::Forms::octets_at))]
pub fn mac_octets(text: &[u8]) -> Option<[u8; 6]>
    ensures { result ≡ forms.mac_octets text.now }
{
    if !has_colons(text) {
        return None;
    }
    let first = octet_at(text, 0)?;
    let octets = [
        first,
        octet_at(text, 3)?,
        octet_at(text, 6)?,
        octet_at(text, 9)?,
        octet_at(text, 12)?,
        octet_at(text, 15)?,
    ];
    if first % 2 == 0 { Some(octets) } else { None }
}

fn digit(c: u8) -> Option<u16>
    ensures value { result ≡ forms.digit_of c }
    ensures fits { IfSome result (λ digit. digit < 10) }
{
    if c.is_ascii_digit() {
        Some(u16::from(c - b'0'))
    } else {
        None
    }
}

fn first_digit(c: u8) -> Option<u16>
    ensures value { result ≡ forms.first_digit_of c }
    ensures fits { IfSome result (λ digit. digit < 10) }
{
    if c == b'0' { None } else { digit(c) }
}

/// Parses a number up to 255 with one to three decimal digits and no leading zero.
#[tactic(auto, unfolding(crate::specs::Forms::small_number))]
fn small_number(text: &[u8]) -> Option<u8>
    ensures { result ≡ forms.small_number text.now }
{
    let number = match text {
        [c] => digit(*c)?,
        [b, c] => 10 * first_digit(*b)? + digit(*c)?,
        [a, b, c] => 100 * first_digit(*a)? + 10 * digit(*b)? + digit(*c)?,
        _ => return None,
    };
    if number < 256 {
        Some(number as u8)
    } else {
        None
    }
}

/// Parses a unicast IPv4 address, such as `10.0.0.1`.
#[tactic(auto, unfolding(crate::specs::Forms::prefix_octets))]
pub fn prefix_octets(text: &[u8]) -> Option<[u8; 4]>
    ensures { result ≡ forms.prefix_octets text.now }
{
    let (a, rest) = cut(text, b'.');
    let (b, rest) = cut(rest?, b'.');
    let (c, rest) = cut(rest?, b'.');
    let (d, rest) = cut(rest?, b'.');
    let None = rest else {
        return None;
    };
    let a = small_number(a)?;
    let octets = [a, small_number(b)?, small_number(c)?, small_number(d)?];
    if 1 <= a && a <= 223 {
        Some(octets)
    } else {
        None
    }
}
