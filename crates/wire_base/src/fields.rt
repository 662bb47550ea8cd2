//! Parsers of fields at the start of a slice. Each returns the value and the rest of the slice, or the given error if the slice
//! is too short.
ghost use Rattle.std.specs.Prelude.{◌≡◌, ◌≤◌, ◌+◌, length, take, drop};
ghost use Rattle.byteorder.specs.Endian.{big_bytes, big_number};
ghost use Rattle.wire_base.specs.model.Fields.{Gives, octet_at, octets_at, number_at, counted_at};

use byteorder::{BigEndian, ByteOrder};

/// Reads the first `n` octets.
pub fn read_octets<E: Copy>(fault: E, n: usize, bytes: &[u8]) -> Result<(&[u8], &[u8]), E>
    ensures { Gives (λ x. (x.0.now, x.1.now)) result (octets_at fault n bytes.now) }
{
    if bytes.len() < n {
        return Err(fault);
    }
    Ok(bytes.split_at(n))
}

/// Reads one octet.
pub fn read_u8<E: Copy>(fault: E, bytes: &[u8]) -> Result<(u8, &[u8]), E>
    ensures { Gives (λ x. (x.0, x.1.now)) result (octet_at fault bytes.now) }
{
    match bytes {
        [] => Err(fault),
        [octet, rest @ ..] => Ok((*octet, rest)),
    }
}

/// Reads a 16-bit number in network byte order.
pub fn read_u16<E: Copy>(fault: E, bytes: &[u8]) -> Result<(u16, &[u8]), E>
    ensures { Gives (λ x. (x.0, x.1.now)) result (number_at fault 2 bytes.now) }
{
    if bytes.len() < 2 {
        return Err(fault);
    }
    Ok((BigEndian::read_u16(bytes), &bytes[2..]))
}

/// Reads a 24-bit number in network byte order.
pub fn read_u24<E: Copy>(fault: E, bytes: &[u8]) -> Result<(u32, &[u8]), E>
    ensures { Gives (λ x. (x.0, x.1.now)) result (number_at fault 3 bytes.now) }
{
    if bytes.len() < 3 {
        return Err(fault);
    }
    Ok((BigEndian::read_u24(bytes), &bytes[3..]))
}

/// Reads a 32-bit number in network byte order.
pub fn read_u32<E: Copy>(fault: E, bytes: &[u8]) -> Result<(u32, &[u8]), E>
    ensures { Gives (λ x. (x.0, x.1.now)) result (number_at fault 4 bytes.now) }
{
    if bytes.len() < 4 {
        return Err(fault);
    }
    Ok((BigEndian::read_u32(bytes), &bytes[4..]))
}

/// Reads six octets, as of a system ID or an Ethernet address.
pub fn read_six<E: Copy>(fault: E, bytes: &[u8]) -> Result<([u8; 6], &[u8]), E>
    ensures { Gives (λ x. (x.0, x.1.now)) result (octets_at fault 6 bytes.now) }
{
    let (front, rest) = read_octets(fault, 6, bytes)?;
    let mut six = [0; 6];
    six.copy_from_slice(front);
    Ok((six, rest))
}

/// Reads one octet as a length, and then that many octets.
pub fn read_counted<E: Copy>(fault: E, bytes: &[u8]) -> Result<(&[u8], &[u8]), E>
    ensures { Gives (λ x. (x.0.now, x.1.now)) result (counted_at fault bytes.now) }
{
    let (n, rest) = read_u8(fault, bytes)?;
    read_octets(fault, usize::from(n), rest)
}

/// Returns the 32-bit number in network byte order at index `at`.
pub fn word_at(bytes: &[u8], at: usize) -> u32
    requires { at + 4 ≤ length bytes.now }
    ensures octets { take 4 (drop at bytes.now) ≡ big_bytes 4 result }
    ensures value { result ≡ big_number 4 (drop at bytes.now) }
{
    BigEndian::read_u32(&bytes[at..])
}
