//! A BIER header, and its fields alone.
ghost use Rattle.std.specs.Prelude.{◌≡◌, ◌≤◌, ◌/◌, length, take, drop};
ghost use Rattle.wire_base.specs.model.BierHeader.{header_length};
ghost use Rattle.wire_base.specs.model.Place.{bits_of};

use bier_bits::AnyBits;
use wire_base::Bsl;

/// A BIER header (RFC 8296, 2.1). Its version is 0.
#[derive(Drop)]
pub struct Header {
    /// The BIFT-id, 20 bits. In MPLS it is the label.
    pub bift: u32,
    /// The traffic class, 3 bits.
    pub tc: u8,
    /// The bottom-of-stack bit of the label, which is set in a BIER packet.
    pub s: bool,
    /// The time to live: how many more times the packet may be forwarded.
    pub ttl: u8,
    /// The first nibble after the label, 4 bits; it is 5.
    pub nibble: u8,
    /// The entropy, 20 bits, which selects among equal-cost paths.
    pub entropy: u32,
    /// The OAM field, 2 bits.
    pub oam: u8,
    /// Reserved, 2 bits.
    pub rsv: u8,
    /// The Differentiated Services code point (DSCP), 6 bits.
    pub dscp: u8,
    /// The protocol of the payload, 6 bits.
    pub proto: u8,
    /// The BFR-id of the ingress router (BFIR).
    pub bfir: u16,
    /// The BSL code, 4 bits. A router ignores it when it forwards.
    pub bsl_code: u8,
    /// The BitString.
    pub bits: AnyBits,
}

/// The fields of a BIER header other than its BitString, and the length of the BitString (RFC 8296, 2.1). Its version is 0.
///
/// A [`Header`] has room for the longest BitString. Where a header is only looked at, its fields are read alone, and the
/// BitString stays where it is.
#[derive(Clone, Copy)]
pub struct HeaderFields {
    /// The BIFT-id, 20 bits. In MPLS it is the label.
    pub bift: u32,
    /// The traffic class, 3 bits.
    pub tc: u8,
    /// The bottom-of-stack bit of the label.
    pub s: bool,
    /// The time to live.
    pub ttl: u8,
    /// The first nibble after the label, 4 bits.
    pub nibble: u8,
    /// The entropy, 20 bits.
    pub entropy: u32,
    /// The OAM field, 2 bits.
    pub oam: u8,
    /// Reserved, 2 bits.
    pub rsv: u8,
    /// The Differentiated Services code point (DSCP), 6 bits.
    pub dscp: u8,
    /// The protocol of the payload, 6 bits.
    pub proto: u8,
    /// The BFR-id of the ingress router (BFIR).
    pub bfir: u16,
    /// The BSL code, 4 bits.
    pub bsl_code: u8,
    /// The length of the BitString.
    pub bsl: Bsl,
}

impl HeaderFields {
    /// Returns the octets of the BitString of the header at the start of a packet, which has these fields.
    pub fn bit_string<'a>(&self, bytes: &'a [u8]) -> &'a [u8]
        requires { header_length self.now.bsl ≤ length bytes.now }
        ensures { result.now ≡ take (bits_of self.now.bsl / 8) (drop 12 bytes.now) }
    {
        &bytes[12..12 + usize::from(self.bsl.bits() / 8)]
    }
}
