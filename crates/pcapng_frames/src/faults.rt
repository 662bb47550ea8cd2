//! The errors of a pcapng reader.
ghost use Rattle.std.specs.Prelude.{◌≡◌};
ghost use Rattle.pcapng_frames.specs.Words.{ng_number, ng_name};

use wire_base::Memory;

/// Why octets are not a valid pcapng capture, or out of memory.
#[derive(Clone, Copy, Debug, PartialEq, Eq)]
pub enum NgFault {
    /// The first block is not a section header.
    NgMagic,
    /// The byte-order magic of a section header is neither way round.
    NgOrder,
    /// The major version of a section is not 1.
    NgVersion,
    /// The total length of a block is below the least of its type, not a multiple of 4, above 16,777,216, or not the same at its
    /// two places.
    NgLength,
    /// A packet is on an interface that its section does not have.
    NgInterface,
    /// The data of a packet exceed its block or 262,144 octets.
    NgPacket,
    /// The resolution of an interface is none, or the time of a packet does not fit 32 bits of seconds.
    NgTime,
    /// The capture ends within a block.
    NgCut,
    /// An allocation failed.
    Memory,
}

impl From<Memory> for NgFault {
    ghost use Rattle.pcapng_frames.specs.declared.faults.NgFault.TheVariants as faults;

    ghost from_gives = { λ _ e. e ≡ faults.Memory };

    fn from(_: Memory) -> Self {
        NgFault::Memory
    }
}

impl NgFault {
    /// Returns the number of the broken rule, from 11 in the order of the variants; 0 for out of memory, which is not a rule.
    pub fn number(self) -> u8
        ensures { result ≡ ng_number self }
    {
        match self {
            NgFault::NgMagic => 11,
            NgFault::NgOrder => 12,
            NgFault::NgVersion => 13,
            NgFault::NgLength => 14,
            NgFault::NgInterface => 15,
            NgFault::NgPacket => 16,
            NgFault::NgTime => 17,
            NgFault::NgCut => 18,
            NgFault::Memory => 0,
        }
    }

    /// Returns the name of the rule, as reports print it.
    pub fn name(self) -> &'static [u8]
        ensures { result.now ≡ ng_name self }
    {
        match self {
            NgFault::NgMagic => b"NgMagic",
            NgFault::NgOrder => b"NgOrder",
            NgFault::NgVersion => b"NgVersion",
            NgFault::NgLength => b"NgLength",
            NgFault::NgInterface => b"NgInterface",
            NgFault::NgPacket => b"NgPacket",
            NgFault::NgTime => b"NgTime",
            NgFault::NgCut => b"NgCut",
            NgFault::Memory => b"Memory",
        }
    }
}
