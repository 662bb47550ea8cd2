ghost use Rattle.std.specs.Prelude.{◌≡◌, ℕ, IfSome, IfNone};
ghost use Rattle.wire_base.specs.model.Place.{bits_of, bsl_with, code_of, bsl_coded, place};

/// A BitStringLength (BSL): one of the seven lengths that a BIER header can carry (RFC 8296, 2.1.2).
#[derive(Clone, Copy, Debug, Default, PartialEq, Eq)]
pub enum Bsl {
    #[default]
    B64,
    B128,
    B256,
    B512,
    B1024,
    B2048,
    B4096,
}

impl Bsl {
    /// Returns the length in bits.
    pub fn bits(self) -> u16
        ensures { result ≡ bits_of self }
    {
        match self {
            Bsl::B64 => 64,
            Bsl::B128 => 128,
            Bsl::B256 => 256,
            Bsl::B512 => 512,
            Bsl::B1024 => 1024,
            Bsl::B2048 => 2048,
            Bsl::B4096 => 4096,
        }
    }

    /// Returns the code of this length, 1 to 7, as the BSL field of a BIER header and the BS Len field of an advertisement
    /// carry it (RFC 8296, 2.1.2; RFC 8401, 6.2).
    pub fn code(self) -> u8
        ensures { result ≡ code_of self }
    {
        match self {
            Bsl::B64 => 1,
            Bsl::B128 => 2,
            Bsl::B256 => 3,
            Bsl::B512 => 4,
            Bsl::B1024 => 5,
            Bsl::B2048 => 6,
            Bsl::B4096 => 7,
        }
    }

    /// Returns the BSL of that many bits. None exactly where no BSL has that many bits.
    pub fn from_bits(bits: u32) -> Option<Bsl>
        ensures value { result ≡ bsl_with bits }
        ensures found { IfSome result (λ bsl. bits_of bsl ≡ bits) }
        ensures none { IfNone result ((bsl : _) → bits_of bsl ≡ bits → ⊥) }
    {
        match bits {
            64 => Some(Bsl::B64),
            128 => Some(Bsl::B128),
            256 => Some(Bsl::B256),
            512 => Some(Bsl::B512),
            1024 => Some(Bsl::B1024),
            2048 => Some(Bsl::B2048),
            4096 => Some(Bsl::B4096),
            _ => None,
        }
    }

    /// Returns the BSL with that code. None exactly where no BSL has it.
    pub fn from_code(code: u8) -> Option<Bsl>
        ensures value { result ≡ bsl_coded code }
        ensures found { IfSome result (λ bsl. code_of bsl ≡ code) }
        ensures none { IfNone result ((bsl : _) → code_of bsl ≡ code → ⊥) }
    {
        match code {
            1 => Some(Bsl::B64),
            2 => Some(Bsl::B128),
            3 => Some(Bsl::B256),
            4 => Some(Bsl::B512),
            5 => Some(Bsl::B1024),
            6 => Some(Bsl::B2048),
            7 => Some(Bsl::B4096),
            _ => None,
        }
    }

    /// Returns the set identifier (SI) and the bit position, from 1, of BFR-id `k` in BitStrings of this length
    /// (RFC 8279, 3). None exactly where the BFR-id is 0.
    pub fn place(self, k: u16) -> Option<(u16, u16)>
        ensures { result ≡ place (bits_of self) k }
    {
        if k == 0 {
            return None;
        }
        let bits = self.bits();
        Some(((k - 1) / bits, (k - 1) % bits + 1))
    }
}
