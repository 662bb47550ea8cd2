ghost use Rattle.std.specs.Prelude.{◌≡◌};
ghost use Rattle.wire_base.specs.model.Pdu.{head_summary};
ghost use Rattle.isis_pdu.specs.Views.{head_of};

use wire_base::{LspId, Summary, SystemId};

/// The header of an LSP: the Remaining Lifetime in seconds (0 for an expired LSP), the LSP ID, the sequence
/// number, the checksum and the flags octet (ISO/IEC 10589, 9.8).
#[derive(Clone, Copy)]
pub struct LspHead {
    pub id: LspId,
    pub seq: u32,
    pub life: u16,
    pub sum: u16,
    pub flags: u8,
}

impl LspHead {
    /// Returns the summary of the LSP, as a CSNP or PSNP lists it (ISO/IEC 10589, 9.10).
    pub fn summary(&self) -> Summary
        ensures { result ≡ head_summary (head_of self.now) }
    {
        Summary {
            life: self.life,
            id: self.id,
            seq: self.seq,
            sum: self.sum,
        }
    }
}

/// A PDU of the domain's level, with the octets of its TLVs; a hello; or another PDU, with the low five bits of its type
/// octet (ISO/IEC 10589, 9.5 to 9.13).
#[derive(Clone, Copy)]
pub enum Pdu<'a> {
    // In this order, the fields of each variant start at the same multiples of 8 octets, so that a PDU is copied by whole words.
    /// An LSP.
    Lsp {
        tlvs: &'a [u8],
        head: LspHead,
    },
    /// A CSNP: the system ID of its sender, and the first and last LSP ID of its range.
    Csnp {
        tlvs: &'a [u8],
        start: LspId,
        last: LspId,
        source: SystemId,
    },
    /// A PSNP: the system ID of its sender.
    Psnp {
        tlvs: &'a [u8],
        source: SystemId,
    },
    Hello,
    Other(u8),
}
