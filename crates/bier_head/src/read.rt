ghost use Rattle.std.specs.Prelude.{◌≡◌, ◌≤◌, ◌++◌, ℕ, List, length, take, Ok, IfOk};
ghost use Rattle.wire_base.specs.declared.conf.Kind.TheVariants as kinds;
ghost use Rattle.wire_base.specs.model.Fields.{Gives};
ghost use Rattle.wire_base.specs.model.Place.{code_of};
ghost use Rattle.wire_base.specs.model.BierHeader.{BierHeader, FieldsFit, IsHeader, header_length, header_octets, header_at, coded_header_at, fields_of, has_wrong_nibble};
ghost use Rattle.bier_bits.specs.Any.{bsl_of};
ghost use Rattle.bier_head.specs.Views.{header_in, header_of};

use crate::header::{Header, HeaderFields};
use bier_bits::AnyBits;
use wire_base::fields::word_at;
use wire_base::{Bsl, HeadFault, Kind};

/// Parses the header at the start of a packet of that encapsulation, whose BIFT-id determines the BSL (RFC 8296,
/// 2.1 and 2.2). Octets after the header are not read, and the header's own BSL code is not tested.
///
/// # Errors
///
/// The first of these that applies: `Short` if there are fewer octets than the 12 and those of the BitString; `Nibble` if
/// the encapsulation is MPLS and the nibble is not 5; `Version` if the version is not 0.
pub fn read_header(kind: Kind, bsl: Bsl, bytes: &[u8]) -> Result<Header, HeadFault>
    ensures exact { Gives header_of result (header_at kind bsl bytes.now) }
    ensures found { IfOk result (λ h. IsHeader (header_of h)
        × (take (header_length bsl) bytes.now ≡ header_octets (header_of h))) }
    ensures length { IfOk result (λ h. bsl_of h.bits ≡ bsl) }
    ensures only { (h : BierHeader) (rest : List ℕ) → IsHeader h → h.bsl ≡ bsl → (kind ≡ kinds.Mpls → h.nibble ≡ 5)
        → bytes.now ≡ header_octets h ++ rest → Gives header_of result (Ok h) }
{
    header_with(kind, bsl, bytes)
}

/// Parses the header at the start of a packet of that encapsulation, and takes the BSL from the header's own code: for a
/// reader without a table of BIFT-ids (RFC 8296, 2.1.2).
///
/// # Errors
///
/// The first of these that applies: `Short` if there are fewer than 12 octets; `Nibble` if the encapsulation is MPLS and
/// the nibble is not 5; `Version` if the version is not 0; `BslCode` if the code is not assigned to a length; and
/// `Short` if the octets end before the BitString does.
pub fn read_by_field(kind: Kind, bytes: &[u8]) -> Result<Header, HeadFault>
    ensures exact { Gives header_of result (coded_header_at kind bytes.now) }
    ensures found { IfOk result (λ h. IsHeader (header_of h)
        × (take (header_length (bsl_of h.bits)) bytes.now ≡ header_octets (header_of h))) }
    ensures code { IfOk result (λ h. code_of (bsl_of h.bits) ≡ h.bsl_code) }
    ensures only { (h : BierHeader) (rest : List ℕ) → IsHeader h → code_of h.bsl ≡ h.bsl_code
        → (kind ≡ kinds.Mpls → h.nibble ≡ 5) → bytes.now ≡ header_octets h ++ rest → Gives header_of result (Ok h) }
{
    header_by_field(kind, bytes)
}

// Returns the length in octets of a header with a BitString of that length.
fn octets_with(bsl: Bsl) -> usize
    ensures { result ≡ header_length bsl }
{
    12 + usize::from(bsl.bits() / 8)
}

// Returns whether the nibble in the second word is invalid for this encapsulation.
fn wrong_nibble(kind: Kind, second: u32) -> bool
    ensures { result ≡ has_wrong_nibble kind second }
{
    match kind {
        Kind::Mpls => second / 0x1000_0000 != 5,
        Kind::Configured => false,
    }
}

fn header_with(kind: Kind, bsl: Bsl, bytes: &[u8]) -> Result<Header, HeadFault>
    ensures { Gives header_of result (header_at kind bsl bytes.now) }
{
    match read_header_fields(kind, bsl, bytes) {
        Ok(fields) => Ok(whole(&fields, bytes)),
        Err(fault) => Err(fault),
    }
}

/// Parses the fields of the header that [`read_header`] returns, and leaves its BitString where it is:
/// [`HeaderFields::bit_string`] returns its octets.
///
/// # Errors
///
/// Those of [`read_header`].
#[tactic(auto, unfolding(wire_base::specs::model::BierHeader::header_at))]
pub fn read_header_fields(kind: Kind, bsl: Bsl, bytes: &[u8]) -> Result<HeaderFields, HeadFault>
    ensures exact { Gives (header_in bytes.now) result (header_at kind bsl bytes.now) }
    ensures room { IfOk result (λ f. header_length f.bsl ≤ length bytes.now) }
    ensures bsl { IfOk result (λ f. f.bsl ≡ bsl) }
    ensures fits { IfOk result (λ f. FieldsFit (header_in bytes.now f)) }
{
    if bytes.len() < octets_with(bsl) {
        return Err(HeadFault::Short);
    }
    let second = word_at(bytes, 4);
    if wrong_nibble(kind, second) {
        return Err(HeadFault::Nibble);
    }
    if second / 0x100_0000 % 16 != 0 {
        return Err(HeadFault::Version);
    }
    Ok(fields(bsl, bytes))
}

/// Parses the fields of the header that [`read_by_field`] returns, and leaves its BitString where it is:
/// [`HeaderFields::bit_string`] returns its octets.
///
/// # Errors
///
/// Those of [`read_by_field`].
#[tactic(auto, unfolding(wire_base::specs::model::BierHeader::coded_header_at))]
pub fn read_fields(kind: Kind, bytes: &[u8]) -> Result<HeaderFields, HeadFault>
    ensures exact { Gives (header_in bytes.now) result (coded_header_at kind bytes.now) }
    ensures room { IfOk result (λ f. header_length f.bsl ≤ length bytes.now) }
{
    if bytes.len() < 12 {
        return Err(HeadFault::Short);
    }
    let second = word_at(bytes, 4);
    if wrong_nibble(kind, second) {
        return Err(HeadFault::Nibble);
    }
    if second / 0x100_0000 % 16 != 0 {
        return Err(HeadFault::Version);
    }
    let Some(bsl) = Bsl::from_code((second / 0x10_0000 % 16) as u8) else {
        return Err(HeadFault::BslCode);
    };
    if bytes.len() < octets_with(bsl) {
        return Err(HeadFault::Short);
    }
    Ok(fields(bsl, bytes))
}

fn header_by_field(kind: Kind, bytes: &[u8]) -> Result<Header, HeadFault>
    ensures { Gives header_of result (coded_header_at kind bytes.now) }
{
    match read_fields(kind, bytes) {
        Ok(fields) => Ok(whole(&fields, bytes)),
        Err(fault) => Err(fault),
    }
}

// Returns the fields of the header at the front, without tests.
fn fields(bsl: Bsl, bytes: &[u8]) -> HeaderFields
    requires { header_length bsl ≤ length bytes.now }
    ensures exact { header_in bytes.now result ≡ fields_of bsl bytes.now }
    ensures bsl { result.bsl ≡ bsl }
{
    let first = word_at(bytes, 0);
    let second = word_at(bytes, 4);
    let third = word_at(bytes, 8);
    HeaderFields {
        bift: first / 0x1000,
        tc: (first / 0x200 % 8) as u8,
        s: first / 0x100 % 2 == 1,
        ttl: (first % 0x100) as u8,
        nibble: (second / 0x1000_0000) as u8,
        entropy: second % 0x10_0000,
        oam: (third / 0x4000_0000) as u8,
        rsv: (third / 0x1000_0000 % 4) as u8,
        dscp: (third / 0x40_0000 % 64) as u8,
        proto: (third / 0x1_0000 % 64) as u8,
        bfir: (third % 0x1_0000) as u16,
        bsl_code: (second / 0x10_0000 % 16) as u8,
        bsl,
    }
}

// Returns the header with those fields and the BitString that follows them.
fn whole(fields: &HeaderFields, bytes: &[u8]) -> Header
    requires { header_length fields.now.bsl ≤ length bytes.now }
    ensures { header_of result ≡ header_in bytes.now fields.now }
{
    Header {
        bift: fields.bift,
        tc: fields.tc,
        s: fields.s,
        ttl: fields.ttl,
        nibble: fields.nibble,
        entropy: fields.entropy,
        oam: fields.oam,
        rsv: fields.rsv,
        dscp: fields.dscp,
        proto: fields.proto,
        bfir: fields.bfir,
        bsl_code: fields.bsl_code,
        bits: AnyBits::read(fields.bsl, fields.bit_string(bytes)),
    }
}
