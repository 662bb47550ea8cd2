ghost use Rattle.std.specs.Prelude.{◌≡◌, ◌≢◌, ◌≤◌, ◌*◌, ◌/◌, ◌==◌, true, false, length, [], ◌∷◌, ◌+◌, IfSome, IsTrue};
ghost use Rattle.wire_base.specs.model.Place.{bits_of};
ghost use Rattle.wire_base.specs.model.BitSet.{has_member, first_member, with_member, IsWithin, intersection, difference, union, set_of, octets_of};
ghost use Rattle.bier_bits.specs.Sets.{is_width};
ghost use Rattle.bier_bits.specs.Any.{bsl_of, positions_of, any_of};

use crate::bit_string::BitString;
use wire_base::Bsl;

/// A BitString of one of the seven lengths that a BIER header can carry (RFC 8296, 2.1.2). It is modeled as its length and the
/// set of its bit positions.
///
/// Contracts use the length, `bsl_of`, and the ascending list of positions, `positions_of`.
#[derive(Drop)]
pub enum AnyBits {
    B64(BitString<1>),
    B128(BitString<2>),
    B256(BitString<4>),
    B512(BitString<8>),
    B1024(BitString<16>),
    B2048(BitString<32>),
    B4096(BitString<64>),
}

impl AnyBits {
    /// Creates the empty BitString of a length.
    pub fn zero(bsl: Bsl) -> Self
        ensures positions { positions_of result ≡ [] }
        ensures bsl { bsl_of result ≡ bsl }
    {
        match bsl {
            Bsl::B64 => AnyBits::B64(BitString::zero()),
            Bsl::B128 => AnyBits::B128(BitString::zero()),
            Bsl::B256 => AnyBits::B256(BitString::zero()),
            Bsl::B512 => AnyBits::B512(BitString::zero()),
            Bsl::B1024 => AnyBits::B1024(BitString::zero()),
            Bsl::B2048 => AnyBits::B2048(BitString::zero()),
            Bsl::B4096 => AnyBits::B4096(BitString::zero()),
        }
    }

    /// Converts a BitString of that length.
    pub fn from_set<const W: usize>(bsl: Bsl, set: &BitString<W>) -> Self
        requires width { IsTrue (is_width W) }
        requires bits { bits_of bsl ≡ 64 * W }
        ensures positions { positions_of result ≡ set.now }
        ensures bsl { bsl_of result ≡ bsl }
    {
        match bsl {
            Bsl::B64 => AnyBits::B64(set.as_wide()),
            Bsl::B128 => AnyBits::B128(set.as_wide()),
            Bsl::B256 => AnyBits::B256(set.as_wide()),
            Bsl::B512 => AnyBits::B512(set.as_wide()),
            Bsl::B1024 => AnyBits::B1024(set.as_wide()),
            Bsl::B2048 => AnyBits::B2048(set.as_wide()),
            Bsl::B4096 => AnyBits::B4096(set.as_wide()),
        }
    }

    /// Returns an equal BitString.
    pub fn copy(&self) -> Self
        ensures { result ≡ self.now }
    {
        match self {
            AnyBits::B64(bits) => AnyBits::B64(bits.copy()),
            AnyBits::B128(bits) => AnyBits::B128(bits.copy()),
            AnyBits::B256(bits) => AnyBits::B256(bits.copy()),
            AnyBits::B512(bits) => AnyBits::B512(bits.copy()),
            AnyBits::B1024(bits) => AnyBits::B1024(bits.copy()),
            AnyBits::B2048(bits) => AnyBits::B2048(bits.copy()),
            AnyBits::B4096(bits) => AnyBits::B4096(bits.copy()),
        }
    }

    /// Returns the length. The set is an ascending list of positions from 1 to the length in bits, and the length and the set
    /// together determine the value.
    pub fn bsl(&self) -> Bsl
        ensures value { result ≡ bsl_of self.now }
        ensures ordered { IsWithin 0 (bits_of (bsl_of self.now)) (positions_of self.now) }
        ensures whole { any_of (bsl_of self.now) (positions_of self.now) ≡ self.now }
    {
        match self {
            AnyBits::B64(bits) => {
                let _width = bits.width();
                Bsl::B64
            }
            AnyBits::B128(bits) => {
                let _width = bits.width();
                Bsl::B128
            }
            AnyBits::B256(bits) => {
                let _width = bits.width();
                Bsl::B256
            }
            AnyBits::B512(bits) => {
                let _width = bits.width();
                Bsl::B512
            }
            AnyBits::B1024(bits) => {
                let _width = bits.width();
                Bsl::B1024
            }
            AnyBits::B2048(bits) => {
                let _width = bits.width();
                Bsl::B2048
            }
            AnyBits::B4096(bits) => {
                let _width = bits.width();
                Bsl::B4096
            }
        }
    }

    /// Sets the bit at position `bp`, from 1 to the length in bits.
    pub fn set(&mut self, bp: u16)
        requires low { 1 ≤ bp }
        requires high { bp ≤ bits_of (bsl_of self.old) }
        ensures positions { positions_of self.new ≡ with_member bp (positions_of self.old) }
        ensures bsl { bsl_of self.new ≡ bsl_of self.old }
    {
        match self {
            AnyBits::B64(bits) => bits.set(bp),
            AnyBits::B128(bits) => bits.set(bp),
            AnyBits::B256(bits) => bits.set(bp),
            AnyBits::B512(bits) => bits.set(bp),
            AnyBits::B1024(bits) => bits.set(bp),
            AnyBits::B2048(bits) => bits.set(bp),
            AnyBits::B4096(bits) => bits.set(bp),
        }
    }

    /// Returns whether the bit at position `bp` is set. False outside 1 to the length in bits.
    pub fn has(&self, bp: u16) -> bool
        ensures { result ≡ has_member bp (positions_of self.now) }
    {
        match self {
            AnyBits::B64(bits) => bits.has(bp),
            AnyBits::B128(bits) => bits.has(bp),
            AnyBits::B256(bits) => bits.has(bp),
            AnyBits::B512(bits) => bits.has(bp),
            AnyBits::B1024(bits) => bits.has(bp),
            AnyBits::B2048(bits) => bits.has(bp),
            AnyBits::B4096(bits) => bits.has(bp),
        }
    }

    /// Returns the intersection of two BitStrings of one length.
    pub fn and(&self, other: &Self) -> Self
        requires { bsl_of other.now ≡ bsl_of self.now }
        ensures positions { positions_of result ≡ intersection (positions_of self.now) (positions_of other.now) }
        ensures bsl { bsl_of result ≡ bsl_of self.now }
    {
        match (self, other) {
            (AnyBits::B64(a), AnyBits::B64(b)) => AnyBits::B64(a.and(b)),
            (AnyBits::B128(a), AnyBits::B128(b)) => AnyBits::B128(a.and(b)),
            (AnyBits::B256(a), AnyBits::B256(b)) => AnyBits::B256(a.and(b)),
            (AnyBits::B512(a), AnyBits::B512(b)) => AnyBits::B512(a.and(b)),
            (AnyBits::B1024(a), AnyBits::B1024(b)) => AnyBits::B1024(a.and(b)),
            (AnyBits::B2048(a), AnyBits::B2048(b)) => AnyBits::B2048(a.and(b)),
            (AnyBits::B4096(a), AnyBits::B4096(b)) => AnyBits::B4096(a.and(b)),
            _ => unreachable!(),
        }
    }

    /// Returns the positions of `self` that are not in `other`, for two BitStrings of one length.
    pub fn and_not(&self, other: &Self) -> Self
        requires { bsl_of other.now ≡ bsl_of self.now }
        ensures positions { positions_of result ≡ difference (positions_of self.now) (positions_of other.now) }
        ensures bsl { bsl_of result ≡ bsl_of self.now }
    {
        match (self, other) {
            (AnyBits::B64(a), AnyBits::B64(b)) => AnyBits::B64(a.and_not(b)),
            (AnyBits::B128(a), AnyBits::B128(b)) => AnyBits::B128(a.and_not(b)),
            (AnyBits::B256(a), AnyBits::B256(b)) => AnyBits::B256(a.and_not(b)),
            (AnyBits::B512(a), AnyBits::B512(b)) => AnyBits::B512(a.and_not(b)),
            (AnyBits::B1024(a), AnyBits::B1024(b)) => AnyBits::B1024(a.and_not(b)),
            (AnyBits::B2048(a), AnyBits::B2048(b)) => AnyBits::B2048(a.and_not(b)),
            (AnyBits::B4096(a), AnyBits::B4096(b)) => AnyBits::B4096(a.and_not(b)),
            _ => unreachable!(),
        }
    }

    /// Returns the union of two BitStrings of one length.
    pub fn or(&self, other: &Self) -> Self
        requires { bsl_of other.now ≡ bsl_of self.now }
        ensures positions { positions_of result ≡ union (positions_of self.now) (positions_of other.now) }
        ensures bsl { bsl_of result ≡ bsl_of self.now }
    {
        match (self, other) {
            (AnyBits::B64(a), AnyBits::B64(b)) => AnyBits::B64(a.or(b)),
            (AnyBits::B128(a), AnyBits::B128(b)) => AnyBits::B128(a.or(b)),
            (AnyBits::B256(a), AnyBits::B256(b)) => AnyBits::B256(a.or(b)),
            (AnyBits::B512(a), AnyBits::B512(b)) => AnyBits::B512(a.or(b)),
            (AnyBits::B1024(a), AnyBits::B1024(b)) => AnyBits::B1024(a.or(b)),
            (AnyBits::B2048(a), AnyBits::B2048(b)) => AnyBits::B2048(a.or(b)),
            (AnyBits::B4096(a), AnyBits::B4096(b)) => AnyBits::B4096(a.or(b)),
            _ => unreachable!(),
        }
    }

    /// Returns whether no bit is set.
    pub fn is_empty(&self) -> bool
        ensures { result ≡ (length (positions_of self.now) == 0) }
    {
        match self {
            AnyBits::B64(bits) => bits.is_empty(),
            AnyBits::B128(bits) => bits.is_empty(),
            AnyBits::B256(bits) => bits.is_empty(),
            AnyBits::B512(bits) => bits.is_empty(),
            AnyBits::B1024(bits) => bits.is_empty(),
            AnyBits::B2048(bits) => bits.is_empty(),
            AnyBits::B4096(bits) => bits.is_empty(),
        }
    }

    /// Returns whether two BitStrings of one length are equal.
    pub fn is_same(&self, other: &Self) -> bool
        requires { bsl_of other.now ≡ bsl_of self.now }
        ensures same { result ≡ true → positions_of self.now ≡ positions_of other.now }
        ensures differ { result ≡ false → positions_of self.now ≢ positions_of other.now }
    {
        match (self, other) {
            (AnyBits::B64(a), AnyBits::B64(b)) => a.is_same(b),
            (AnyBits::B128(a), AnyBits::B128(b)) => a.is_same(b),
            (AnyBits::B256(a), AnyBits::B256(b)) => a.is_same(b),
            (AnyBits::B512(a), AnyBits::B512(b)) => a.is_same(b),
            (AnyBits::B1024(a), AnyBits::B1024(b)) => a.is_same(b),
            (AnyBits::B2048(a), AnyBits::B2048(b)) => a.is_same(b),
            (AnyBits::B4096(a), AnyBits::B4096(b)) => a.is_same(b),
            _ => unreachable!(),
        }
    }

    /// Returns the number of set bits.
    pub fn count(&self) -> u16
        ensures { result ≡ length (positions_of self.now) }
    {
        match self {
            AnyBits::B64(bits) => bits.count(),
            AnyBits::B128(bits) => bits.count(),
            AnyBits::B256(bits) => bits.count(),
            AnyBits::B512(bits) => bits.count(),
            AnyBits::B1024(bits) => bits.count(),
            AnyBits::B2048(bits) => bits.count(),
            AnyBits::B4096(bits) => bits.count(),
        }
    }

    /// Returns the least position that is set. None exactly where no bit is set.
    pub fn first(&self) -> Option<u16>
        ensures { result ≡ first_member (positions_of self.now) }
    {
        match self {
            AnyBits::B64(bits) => bits.first(),
            AnyBits::B128(bits) => bits.first(),
            AnyBits::B256(bits) => bits.first(),
            AnyBits::B512(bits) => bits.first(),
            AnyBits::B1024(bits) => bits.first(),
            AnyBits::B2048(bits) => bits.first(),
            AnyBits::B4096(bits) => bits.first(),
        }
    }

    /// Writes the BitString in network order as one octet for each eight bits: the highest position first, and position 1 as
    /// the least significant bit of the last octet (RFC 8296, 2.1.2). The octets encode the set.
    pub fn to_be_bytes(&self, out: &mut [u8])
        requires { 8 * length out.old ≡ bits_of (bsl_of self.now) }
        ensures octets { out.new ≡ octets_of (bits_of (bsl_of self.now) / 8) (positions_of self.now) }
        ensures again { set_of out.new ≡ positions_of self.now }
    {
        match self {
            AnyBits::B64(bits) => bits.to_be_bytes(out),
            AnyBits::B128(bits) => bits.to_be_bytes(out),
            AnyBits::B256(bits) => bits.to_be_bytes(out),
            AnyBits::B512(bits) => bits.to_be_bytes(out),
            AnyBits::B1024(bits) => bits.to_be_bytes(out),
            AnyBits::B2048(bits) => bits.to_be_bytes(out),
            AnyBits::B4096(bits) => bits.to_be_bytes(out),
        }
    }

    /// Reads a BitString of a length from its octets in network order, one for each eight bits. Writing the result gives the same
    /// octets.
    pub fn read(bsl: Bsl, bytes: &[u8]) -> Self
        requires { 8 * length bytes.now ≡ bits_of bsl }
        ensures positions { positions_of result ≡ set_of bytes.now }
        ensures bsl { bsl_of result ≡ bsl }
        ensures again { octets_of (bits_of bsl / 8) (positions_of result) ≡ bytes.now }
    {
        match bsl {
            Bsl::B64 => AnyBits::B64(BitString::read(bytes)),
            Bsl::B128 => AnyBits::B128(BitString::read(bytes)),
            Bsl::B256 => AnyBits::B256(BitString::read(bytes)),
            Bsl::B512 => AnyBits::B512(BitString::read(bytes)),
            Bsl::B1024 => AnyBits::B1024(BitString::read(bytes)),
            Bsl::B2048 => AnyBits::B2048(BitString::read(bytes)),
            Bsl::B4096 => AnyBits::B4096(BitString::read(bytes)),
        }
    }
}
