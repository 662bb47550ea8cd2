//! The checksum of an IPv4 header (RFC 791, 3.1; RFC 1071, 1).
ghost use Rattle.std.specs.Prelude.{◌≡◌, ◌<◌, ◌≤◌, ◌-◌, ◌*◌, length};
ghost use Rattle.wire_base.specs.model.Tunnel.{word_sum, ones_sum, is_right_header};

use byteorder::{BigEndian, ByteOrder};

/// Returns whether the checksum of a 20-octet header is right.
pub(crate) fn is_right_header(header: &[u8]) -> bool
    requires { length header.now ≡ 20 }
    ensures { result ≡ is_right_header header.now }
{
    ones_sum(word_sum(header)) == 0xffff
}

/// Returns the checksum of a 20-octet header whose checksum field is 0.
pub(crate) fn checksum_of(header: &[u8]) -> u16
    requires { length header.now ≡ 20 }
    ensures { result ≡ 65535 - ones_sum (word_sum header.now) }
{
    0xffff - ones_sum(word_sum(header)) as u16
}

/// Returns the sum of the 16-bit words.
fn word_sum(header: &[u8]) -> u32
    requires { length header.now ≡ 20 }
    ensures { result ≡ word_sum header.now }
{
    let mut sum = 0;
    let mut rest = header;
    'word: while rest.len() >= 2 {
        sum += u32::from(BigEndian::read_u16(rest));
        rest = &rest[2..];
    }
    sum
}

/// Folds a sum to 16 bits: the carry is added again.
fn ones_sum(sum: u32) -> u32
    ensures value { result ≡ ones_sum sum }
    ensures fits { result ≤ 65535 }
{
    if sum == 0 {
        return 0;
    }
    (sum - 1) % 0xffff + 1
}
