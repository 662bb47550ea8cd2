//! Numbers and names of the parsers' rules, as reports print them.
ghost use Rattle.std.specs.Prelude.{◌≡◌};
ghost use Rattle.wire_base.specs.model.Faults.{head_number, head_name, frame_number, frame_name, stack_number, stack_name, ip_number, ip_name, capture_number, capture_name, tlv_number, tlv_name, info_number, info_name, pdu_number, pdu_name, edge_number, edge_name};

use crate::faults::{
    CaptureFault, EdgeFault, FrameFault, HeadFault, InfoFault, IpFault, PduFault, StackFault,
    TlvFault,
};

impl HeadFault {
    /// Returns the number of the broken rule, from 1 in the order of the variants.
    pub fn number(self) -> u8
        ensures { result ≡ head_number self }
    {
        match self {
            HeadFault::Short => 1,
            HeadFault::Nibble => 2,
            HeadFault::Version => 3,
            HeadFault::BslCode => 4,
        }
    }

    /// Returns the name of the rule, as reports print it.
    pub fn name(self) -> &'static [u8]
        ensures { result.now ≡ head_name self }
    {
        match self {
            HeadFault::Short => b"Short",
            HeadFault::Nibble => b"Nibble",
            HeadFault::Version => b"Version",
            HeadFault::BslCode => b"BslCode",
        }
    }
}

impl FrameFault {
    /// Returns the number of the broken rule, from 1 in the order of the variants.
    pub fn number(self) -> u8
        ensures { result ≡ frame_number self }
    {
        match self {
            FrameFault::Short => 1,
            FrameFault::Length => 2,
        }
    }

    /// Returns the name of the rule, as reports print it.
    pub fn name(self) -> &'static [u8]
        ensures { result.now ≡ frame_name self }
    {
        match self {
            FrameFault::Short => b"Short",
            FrameFault::Length => b"Length",
        }
    }
}

impl StackFault {
    /// Returns the number of the broken rule, from 1 in the order of the variants.
    pub fn number(self) -> u8
        ensures { result ≡ stack_number self }
    {
        match self {
            StackFault::NoBottom => 1,
            StackFault::Deep => 2,
        }
    }

    /// Returns the name of the rule, as reports print it.
    pub fn name(self) -> &'static [u8]
        ensures { result.now ≡ stack_name self }
    {
        match self {
            StackFault::NoBottom => b"NoBottom",
            StackFault::Deep => b"Deep",
        }
    }
}

impl IpFault {
    /// Returns the number of the broken rule, from 1 in the order of the variants.
    pub fn number(self) -> u8
        ensures { result ≡ ip_number self }
    {
        match self {
            IpFault::Short => 1,
            IpFault::Version => 2,
            IpFault::Options => 3,
            IpFault::Length => 4,
            IpFault::Checksum => 5,
            IpFault::Fragment => 6,
            IpFault::NotGre => 7,
            IpFault::GreShort => 8,
            IpFault::GreFlags => 9,
            IpFault::GreType => 10,
        }
    }

    /// Returns the name of the rule, as reports print it.
    pub fn name(self) -> &'static [u8]
        ensures { result.now ≡ ip_name self }
    {
        match self {
            IpFault::Short => b"Short",
            IpFault::Version => b"Version",
            IpFault::Options => b"Options",
            IpFault::Length => b"Length",
            IpFault::Checksum => b"Checksum",
            IpFault::Fragment => b"Fragment",
            IpFault::NotGre => b"NotGre",
            IpFault::GreShort => b"GreShort",
            IpFault::GreFlags => b"GreFlags",
            IpFault::GreType => b"GreType",
        }
    }
}

impl CaptureFault {
    /// Returns the number of the broken rule, from 1 in the order of the variants; 0 for out of memory, which is not a rule.
    pub fn number(self) -> u8
        ensures { result ≡ capture_number self }
    {
        match self {
            CaptureFault::Magic => 1,
            CaptureFault::Version => 2,
            CaptureFault::LinkType => 3,
            CaptureFault::CutHeader => 4,
            CaptureFault::CutRecord => 5,
            CaptureFault::LongRecord => 6,
            CaptureFault::Memory => 0,
        }
    }

    /// Returns the name of the rule, as reports print it.
    pub fn name(self) -> &'static [u8]
        ensures { result.now ≡ capture_name self }
    {
        match self {
            CaptureFault::Magic => b"Magic",
            CaptureFault::Version => b"Version",
            CaptureFault::LinkType => b"LinkType",
            CaptureFault::CutHeader => b"CutHeader",
            CaptureFault::CutRecord => b"CutRecord",
            CaptureFault::LongRecord => b"LongRecord",
            CaptureFault::Memory => b"Memory",
        }
    }
}

impl TlvFault {
    /// Returns the number of the broken rule, from 1 in the order of the variants.
    pub fn number(self) -> u8
        ensures { result ≡ tlv_number self }
    {
        match self {
            TlvFault::Overrun => 1,
            TlvFault::EntryShort => 2,
            TlvFault::PrefixLen => 3,
        }
    }

    /// Returns the name of the rule, as reports print it.
    pub fn name(self) -> &'static [u8]
        ensures { result.now ≡ tlv_name self }
    {
        match self {
            TlvFault::Overrun => b"Overrun",
            TlvFault::EntryShort => b"EntryShort",
            TlvFault::PrefixLen => b"PrefixLen",
        }
    }
}

impl InfoFault {
    /// Returns the number of the broken rule, from 1 in the order of the variants.
    pub fn number(self) -> u8
        ensures { result ≡ info_number self }
    {
        match self {
            InfoFault::Short => 1,
            InfoFault::RepeatedLength => 2,
            InfoFault::Algorithm => 3,
        }
    }

    /// Returns the name of the rule, as reports print it.
    pub fn name(self) -> &'static [u8]
        ensures { result.now ≡ info_name self }
    {
        match self {
            InfoFault::Short => b"Short",
            InfoFault::RepeatedLength => b"RepeatedLength",
            InfoFault::Algorithm => b"Algorithm",
        }
    }
}

impl PduFault {
    /// Returns the number of the broken rule, from 1 in the order of the variants.
    pub fn number(self) -> u8
        ensures { result ≡ pdu_number self }
    {
        match self {
            PduFault::Short => 1,
            PduFault::Discriminator => 2,
            PduFault::Version => 3,
            PduFault::IdLength => 4,
            PduFault::HeaderLength => 5,
            PduFault::PduLength => 6,
            PduFault::Checksum => 7,
            PduFault::Tlv => 8,
        }
    }

    /// Returns the name of the rule, as reports print it.
    pub fn name(self) -> &'static [u8]
        ensures { result.now ≡ pdu_name self }
    {
        match self {
            PduFault::Short => b"Short",
            PduFault::Discriminator => b"Discriminator",
            PduFault::Version => b"Version",
            PduFault::IdLength => b"IdLength",
            PduFault::HeaderLength => b"HeaderLength",
            PduFault::PduLength => b"PduLength",
            PduFault::Checksum => b"Checksum",
            PduFault::Tlv => b"Tlv",
        }
    }
}

impl EdgeFault {
    /// Returns the number of the broken rule, from 1 in the order of the variants; 0 for out of memory, which is not a rule.
    pub fn number(self) -> u8
        ensures { result ≡ edge_number self }
    {
        match self {
            EdgeFault::NoEgress => 1,
            EdgeFault::IdZero => 2,
            EdgeFault::SiLarge(_) => 3,
            EdgeFault::NotBfr => 4,
            EdgeFault::BslUnknown => 5,
            EdgeFault::Memory => 0,
        }
    }

    /// Returns the name of the rule, as reports print it.
    pub fn name(self) -> &'static [u8]
        ensures { result.now ≡ edge_name self }
    {
        match self {
            EdgeFault::NoEgress => b"NoEgress",
            EdgeFault::IdZero => b"IdZero",
            EdgeFault::SiLarge(_) => b"SiLarge",
            EdgeFault::NotBfr => b"NotBfr",
            EdgeFault::BslUnknown => b"BslUnknown",
            EdgeFault::Memory => b"Memory",
        }
    }
}
