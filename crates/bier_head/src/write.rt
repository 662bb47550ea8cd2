ghost use Rattle.std.specs.Prelude.{◌≡◌, ◌≤◌, ◌<◌, ◌*◌, ◌^◌, ◌++◌, ℕ, List, length, drop, [], Ok, IsTrue};
ghost use Rattle.byteorder.specs.Endian.{big_bytes};
ghost use Rattle.wire_base.specs.declared.conf.Kind.{Kind};
ghost use Rattle.wire_base.specs.declared.conf.Kind.TheVariants as kinds;
ghost use Rattle.wire_base.specs.model.Place.{bits_of, code_of};
ghost use Rattle.wire_base.specs.model.BierHeader.{BierHeader, FieldsFit, IsHeader, header_length, header_octets, header_at, coded_header_at, first_word, second_word, third_word};
ghost use Rattle.bier_bits.specs.Any.{bsl_of, positions_of};
ghost use Rattle.bier_bits.specs.Sets.{is_width};
ghost use Rattle.bier_head.specs.Views.{fields_with, header_of};

use crate::header::{Header, HeaderFields};
use bier_bits::BitString;
use byteorder::{BigEndian, ByteOrder};

/// Writes a header (RFC 8296, 2.1 and 2.2) over all of `out`, whose length is that of the header: 12 octets and those of the
/// BitString. Precondition: each number fits its field. The result is parsed again, whatever follows it, and no other
/// header has this encoding.
pub fn write_header(h: &Header, out: &mut [u8])
    requires room { length out.old ≡ header_length (bsl_of h.now.bits) }
    requires fits { FieldsFit (header_of h.now) }
    ensures octets { out.new ≡ header_octets (header_of h.now) }
    ensures again { (kind : Kind) (rest : List ℕ) → (kind ≡ kinds.Mpls → h.now.nibble ≡ 5)
        → header_at kind (bsl_of h.now.bits) (out.new ++ rest) ≡ Ok (header_of h.now) }
    ensures again_by_field { (kind : Kind) (rest : List ℕ) → (kind ≡ kinds.Mpls → h.now.nibble ≡ 5)
        → code_of (bsl_of h.now.bits) ≡ h.now.bsl_code
        → coded_header_at kind (out.new ++ rest) ≡ Ok (header_of h.now) }
    ensures only { (other : BierHeader) → IsHeader other → out.new ≡ header_octets other → other ≡ header_of h.now }
{
    let _bsl = h.bits.bsl();
    write_words(h, out);
}

/// Writes the header of a copy over all of `out`: the packet's header with another BIFT-id, TTL and BitString
/// (RFC 8279, 6.5). The length of the BitString is unchanged.
pub fn write_copy<const W: usize>(
    h: &HeaderFields,
    bift: u32,
    ttl: u8,
    set: &BitString<W>,
    out: &mut [u8],
)
    requires width { IsTrue (is_width W) }
    requires bits { bits_of h.now.bsl ≡ 64 * W }
    requires room { length out.old ≡ header_length h.now.bsl }
    requires fits { FieldsFit (fields_with h.now set.now) }
    requires bift { bift < 2 ^ 20 }
    ensures { out.new ≡ header_octets (record (fields_with h.now set.now) { bift = bift; ttl = ttl }) }
{
    write_numbers(h, bift, ttl, out);
    set.to_be_bytes(&mut out[12..]);
}

// Returns the fields of a header.
fn fields_of(h: &Header) -> HeaderFields
    ensures { fields_with result (positions_of h.now.bits) ≡ header_of h.now }
{
    HeaderFields {
        bift: h.bift,
        tc: h.tc,
        s: h.s,
        ttl: h.ttl,
        nibble: h.nibble,
        entropy: h.entropy,
        oam: h.oam,
        rsv: h.rsv,
        dscp: h.dscp,
        proto: h.proto,
        bfir: h.bfir,
        bsl_code: h.bsl_code,
        bsl: h.bits.bsl(),
    }
}

// Writes the three words and the BitString.
fn write_words(h: &Header, out: &mut [u8])
    requires room { length out.old ≡ header_length (bsl_of h.now.bits) }
    requires fits { FieldsFit (header_of h.now) }
    ensures { out.new ≡ header_octets (header_of h.now) }
{
    write_numbers(&fields_of(h), h.bift, h.ttl, out);
    h.bits.to_be_bytes(&mut out[12..]);
}

// Writes the three words, with that BIFT-id and that TTL. No word depends on the positions.
fn write_numbers(h: &HeaderFields, bift: u32, ttl: u8, out: &mut [u8])
    requires room { 12 ≤ length out.old }
    requires fits { FieldsFit (fields_with h.now []) }
    requires bift { bift < 2 ^ 20 }
    ensures { let front = record (fields_with h.now []) { bift = bift; ttl = ttl } in
        out.new ≡ big_bytes 4 (first_word front) ++ (big_bytes 4 (second_word front) ++ (big_bytes 4 (third_word front) ++ drop 12 out.old)) }
{
    BigEndian::write_u32(out, first_number(h, bift, ttl));
    BigEndian::write_u32(&mut out[4..], second_number(h));
    BigEndian::write_u32(&mut out[8..], third_number(h));
}

// Returns the first word: BIFT-id, traffic class, S and TTL.
fn first_number(h: &HeaderFields, bift: u32, ttl: u8) -> u32
    requires fits { FieldsFit (fields_with h.now []) }
    requires bift { bift < 2 ^ 20 }
    ensures { result ≡ first_word (record (fields_with h.now []) { bift = bift; ttl = ttl }) }
{
    bift * 0x1000 + u32::from(h.tc) * 0x200 + u32::from(h.s) * 0x100 + u32::from(ttl)
}

// Returns the second word: nibble, version 0, BSL code, and entropy.
fn second_number(h: &HeaderFields) -> u32
    requires { FieldsFit (fields_with h.now []) }
    ensures { result ≡ second_word (fields_with h.now []) }
{
    u32::from(h.nibble) * 0x1000_0000 + u32::from(h.bsl_code) * 0x10_0000 + h.entropy
}

// Returns the third word: OAM, reserved bits, DSCP, protocol and BFIR-id.
fn third_number(h: &HeaderFields) -> u32
    requires { FieldsFit (fields_with h.now []) }
    ensures { result ≡ third_word (fields_with h.now []) }
{
    u32::from(h.oam) * 0x4000_0000
        + u32::from(h.rsv) * 0x1000_0000
        + u32::from(h.dscp) * 0x40_0000
        + u32::from(h.proto) * 0x1_0000
        + u32::from(h.bfir)
}
