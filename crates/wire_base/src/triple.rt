ghost use Rattle.std.specs.Prelude.{◌≡◌};
ghost use Rattle.wire_base.specs.model.Flooding.{is_live_summary};
ghost use Rattle.wire_base.specs.model.Place.{position_in};

use crate::addresses::LspId;
use crate::bsl::Bsl;

/// The meaning of a BIFT-id: a sub-domain, a BitStringLength and a set identifier (RFC 8279, 6.4).
#[derive(Clone, Copy, Debug, Default, PartialEq, Eq)]
pub struct Triple {
    pub sd: u8,
    pub bsl: Bsl,
    pub si: u8,
}

impl Triple {
    /// Returns the bit position, from 1, of BFR-id `k` in packets of this triple (RFC 8279, 3). None exactly where the BFR-id
    /// is 0 or is in another set.
    pub fn place(self, k: u16) -> Option<u16>
        ensures { result ≡ position_in self k }
    {
        match self.bsl.place(k) {
            Some((si, position)) if si == u16::from(self.si) => Some(position),
            _ => None,
        }
    }
}

/// An LSP entry of a CSNP or PSNP: the Remaining Lifetime in seconds (0 for an expired LSP), the LSP ID, the sequence
/// number and the checksum (ISO/IEC 10589, 9.10).
#[derive(Clone, Copy, Debug, Default, PartialEq, Eq)]
pub struct Summary {
    pub life: u16,
    pub id: LspId,
    pub seq: u32,
    pub sum: u16,
}

impl Summary {
    /// Returns whether it describes a live LSP: one whose Remaining Lifetime, sequence number and checksum are all above 0
    /// (ISO/IEC 10589, 7.3.15.2).
    pub fn is_live(&self) -> bool
        ensures { result ≡ is_live_summary self.now }
    {
        self.life > 0 && self.seq > 0 && self.sum > 0
    }
}
