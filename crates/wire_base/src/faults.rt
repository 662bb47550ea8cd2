//! The errors of the parsers. The variants of each type are its rules, in the order of their numbers from 1.
ghost use Rattle.std.specs.Prelude.{◌≡◌};

use crate::memory::Memory;

/// Why octets are not a valid BIER header.
#[derive(Clone, Copy, Debug, PartialEq, Eq)]
pub enum HeadFault {
    /// The octets end before the header does.
    Short,
    /// After an MPLS label, the first nibble is not 5.
    Nibble,
    /// The version is not 0.
    Version,
    /// The code in the BSL field is not assigned to a length.
    BslCode,
}

/// Why octets are not a valid Ethernet frame.
#[derive(Clone, Copy, Debug, PartialEq, Eq)]
pub enum FrameFault {
    /// There are fewer than 14 octets.
    Short,
    /// The length field exceeds the number of octets after it.
    Length,
}

/// Why octets are not a valid label stack.
#[derive(Clone, Copy, Debug, PartialEq, Eq)]
pub enum StackFault {
    /// The octets end before a label with the bottom-of-stack bit.
    NoBottom,
    /// None of the first eight labels has the bottom-of-stack bit.
    Deep,
}

/// Why octets are not a valid tunnel packet.
#[derive(Clone, Copy, Debug, PartialEq, Eq)]
pub enum IpFault {
    /// There are fewer than 20 octets.
    Short,
    /// The IP version is not 4.
    Version,
    /// The IP header has options.
    Options,
    /// The total length is below 20 or exceeds the octets received.
    Length,
    /// The IP header checksum is wrong.
    Checksum,
    /// The packet is a fragment.
    Fragment,
    /// The protocol is not GRE.
    NotGre,
    /// The total length leaves no room for a GRE header.
    GreShort,
    /// The GRE header has a flag set or a version other than 0.
    GreFlags,
    /// The GRE protocol type is neither MPLS nor BIER.
    GreType,
}

/// Why octets are not a valid capture file, or out of memory.
#[derive(Clone, Copy, Debug, PartialEq, Eq)]
pub enum CaptureFault {
    /// The first four octets are not a known magic number.
    Magic,
    /// The version is not 2.4.
    Version,
    /// The link type is not Ethernet.
    LinkType,
    /// The capture ends within its header.
    CutHeader,
    /// The capture ends within a record.
    CutRecord,
    /// A record has more than 262,144 octets.
    LongRecord,
    /// An allocation failed.
    Memory,
}

impl From<Memory> for CaptureFault {
    ghost use Rattle.wire_base.specs.declared.faults.CaptureFault.TheVariants as captures;

    ghost from_gives = { λ _ e. e ≡ captures.Memory };

    fn from(_: Memory) -> Self {
        CaptureFault::Memory
    }
}

/// Why octets are not a valid list of TLVs, or not a valid entry of a TLV.
#[derive(Clone, Copy, Debug, PartialEq, Eq)]
pub enum TlvFault {
    /// Only one octet is left, or the length of the TLV exceeds the octets after it.
    Overrun,
    /// The octets end before the entry does.
    EntryShort,
    /// A prefix has more than 32 bits.
    PrefixLen,
}

/// Why octets are not a valid BIER Info sub-TLV.
#[derive(Clone, Copy, Debug, PartialEq, Eq)]
pub enum InfoFault {
    /// The octets end before a field does, or a label range is not four octets long.
    Short,
    /// Two label ranges have the same BSL.
    RepeatedLength,
    /// The algorithm is not SPF.
    Algorithm,
}

/// Why octets are not a valid IS-IS PDU.
#[derive(Clone, Copy, Debug, PartialEq, Eq)]
pub enum PduFault {
    /// There are fewer than 8 octets.
    Short,
    /// The first octet is not 0x83.
    Discriminator,
    /// One of the two version fields is not 1.
    Version,
    /// The ID length is not six octets.
    IdLength,
    /// The header length is not the one of the PDU type.
    HeaderLength,
    /// The PDU length is below the header length or exceeds the octets received.
    PduLength,
    /// The checksum of a live LSP is wrong.
    Checksum,
    /// A TLV exceeds the PDU, or the LSP entries of a CSNP or PSNP are incomplete.
    Tlv,
}

/// Why an LSDB rejects an entry.
#[derive(Clone, Copy, Debug, PartialEq, Eq)]
pub enum PutFault {
    /// The LSP ID is new and the LSDB is full. The value is its number of entries, the maximum.
    Full(usize),
    /// An allocation failed.
    Memory,
}

impl From<Memory> for PutFault {
    ghost use Rattle.wire_base.specs.declared.faults.PutFault.TheVariants as puts;

    ghost from_gives = { λ _ e. e ≡ puts.Memory };

    fn from(_: Memory) -> Self {
        PutFault::Memory
    }
}

/// Why a router cannot send a packet to a list of BFR-ids.
#[derive(Clone, Copy, Debug, PartialEq, Eq)]
pub enum EdgeFault {
    /// The list is empty.
    NoEgress,
    /// The list contains the BFR-id 0.
    IdZero,
    /// The set identifier of this BFR-id, the first such in the list, exceeds 255.
    SiLarge(u16),
    /// The router has no BFR-id in the sub-domain.
    NotBfr,
    /// The router supports no triple with this sub-domain and BSL.
    BslUnknown,
    /// An allocation failed.
    Memory,
}

impl From<Memory> for EdgeFault {
    ghost use Rattle.wire_base.specs.declared.faults.EdgeFault.TheVariants as edges;

    ghost from_gives = { λ _ e. e ≡ edges.Memory };

    fn from(_: Memory) -> Self {
        EdgeFault::Memory
    }
}
