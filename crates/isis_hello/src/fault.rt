//! The errors of the hello parser and of circuits. The variants of each type are its rules, in the order of their numbers
//! from 1.
ghost use Rattle.std.specs.Prelude.{◌≡◌};
ghost use Rattle.isis_hello.specs.Faults.{hello_number, hello_name, circuit_number, circuit_name};

use wire_base::Memory;

/// Why octets are not a valid point-to-point hello.
#[derive(Clone, Copy, Debug, PartialEq, Eq)]
pub enum HelloFault {
    /// There are fewer than 20 octets.
    Short,
    /// The first octet is not 0x83.
    Discriminator,
    /// One of the two version fields is not 1.
    Version,
    /// The ID length is not six octets.
    IdLength,
    /// The PDU type is not 17.
    Type17,
    /// The header length is not 20.
    HeaderLength,
    /// The PDU length is below the header length or exceeds the octets received.
    PduLength,
    /// A TLV exceeds the PDU.
    Tlv,
    /// There is no three-way adjacency TLV, or the first one is invalid.
    ThreeWay,
}

impl HelloFault {
    /// Returns the number of the broken rule, from 1 in the order of the variants.
    pub fn number(self) -> u8
        ensures { result ≡ hello_number self }
    {
        match self {
            HelloFault::Short => 1,
            HelloFault::Discriminator => 2,
            HelloFault::Version => 3,
            HelloFault::IdLength => 4,
            HelloFault::Type17 => 5,
            HelloFault::HeaderLength => 6,
            HelloFault::PduLength => 7,
            HelloFault::Tlv => 8,
            HelloFault::ThreeWay => 9,
        }
    }

    /// Returns the name of the rule.
    pub fn name(self) -> &'static [u8]
        ensures { result.now ≡ hello_name self }
    {
        match self {
            HelloFault::Short => b"Short",
            HelloFault::Discriminator => b"Discriminator",
            HelloFault::Version => b"Version",
            HelloFault::IdLength => b"IdLength",
            HelloFault::Type17 => b"Type",
            HelloFault::HeaderLength => b"HeaderLength",
            HelloFault::PduLength => b"PduLength",
            HelloFault::Tlv => b"Tlv",
            HelloFault::ThreeWay => b"ThreeWay",
        }
    }
}

/// Why a hello event is not allowed. If several reasons apply, the first is reported.
#[derive(Clone, Copy, Debug, PartialEq, Eq)]
pub enum CircuitFault {
    /// 16,000,000 hello events have occurred.
    Events,
    /// No link joins the two routers.
    NoLink,
    /// A circuit that is to fail or to send a hello is broken, or one that is to work again works.
    EndState,
    /// 100,000 hellos or more are in flight, and the event sends one.
    InFlight,
    /// The index is not below the number of hellos in flight there, which is the second number.
    NoFrame(u32, usize),
    /// An allocation failed.
    Memory,
}

impl From<Memory> for CircuitFault {
    ghost use Rattle.isis_hello.specs.declared.fault.CircuitFault.TheVariants as circuits;

    ghost from_gives = { λ _ e. e ≡ circuits.Memory };

    fn from(_: Memory) -> Self {
        CircuitFault::Memory
    }
}

impl CircuitFault {
    /// Returns the number of the reason, from 1 in the order of the variants; 0 for out of memory, which is no reason.
    pub fn number(self) -> u8
        ensures { result ≡ circuit_number self }
    {
        match self {
            CircuitFault::Events => 1,
            CircuitFault::NoLink => 2,
            CircuitFault::EndState => 3,
            CircuitFault::InFlight => 4,
            CircuitFault::NoFrame(_, _) => 5,
            CircuitFault::Memory => 0,
        }
    }

    /// Returns the name of the reason, as reports print it.
    pub fn name(self) -> &'static [u8]
        ensures { result.now ≡ circuit_name self }
    {
        match self {
            CircuitFault::Events => b"Events",
            CircuitFault::NoLink => b"NoLink",
            CircuitFault::EndState => b"EndState",
            CircuitFault::InFlight => b"InFlight",
            CircuitFault::NoFrame(_, _) => b"NoFrame",
            CircuitFault::Memory => b"Memory",
        }
    }
}
