ghost use Rattle.std.specs.Prelude.{◌≡◌, ◌++◌, OnOk};
ghost use Rattle.replay_text.specs.declared.fault.TextFault.TheVariants as faults;
ghost use Rattle.replay_text.specs.Fault.{number_of, name_of, rule_text};

use thiserror::Error;
use wire_base::{M, Octets};

/// Why a line is rejected. The rules are numbered in this order, from 1.
#[derive(Clone, Copy, Debug, PartialEq, Eq, Error)]
pub enum TextFault {
    /// The first word is unknown, is not allowed here, or is followed by the wrong number of words.
    #[error("unknown or misplaced word, or a wrong count of words")]
    Word,
    /// A number is malformed or out of range.
    #[error("a number that is malformed or out of range")]
    Number,
    /// A router name is malformed or unknown.
    #[error("a malformed or unknown router name")]
    Name,
    /// A payload is malformed.
    #[error("a malformed payload")]
    Hex,
    /// The line has more than 16,384 octets.
    #[error("a line of more than 16384 octets")]
    LineLong,
    /// An allocation failed.
    #[error("out of memory")]
    Memory,
}

impl From<wire_base::Memory> for TextFault {
    ghost from_gives = { λ _ e. e ≡ faults.Memory };

    fn from(_: wire_base::Memory) -> Self {
        TextFault::Memory
    }
}

impl TextFault {
    /// Returns the number of the rule, from 1. Out of memory is not a rule and returns 0.
    pub fn number(self) -> u8
        ensures { result ≡ number_of self }
    {
        match self {
            TextFault::Word => 1,
            TextFault::Number => 2,
            TextFault::Name => 3,
            TextFault::Hex => 4,
            TextFault::LineLong => 5,
            TextFault::Memory => 0,
        }
    }

    /// Returns the name of the rule, as reports have it.
    pub fn name(self) -> &'static [u8]
        ensures { result.now ≡ name_of self }
    {
        match self {
            TextFault::Word => b"Word",
            TextFault::Number => b"Number",
            TextFault::Name => b"Name",
            TextFault::Hex => b"Hex",
            TextFault::LineLong => b"LineLong",
            TextFault::Memory => b"Memory",
        }
    }
}

/// Appends the number and the name of a rule, separated by a space, as reports have it.
pub fn push_rule(out: &mut Octets, number: u8, name: &[u8]) -> M<()>
    ensures { OnOk result (out.new ≡ out.old ++ rule_text number name.now) }
{
    out.append_number(u64::from(number))?;
    out.push(b' ')?;
    out.append(name)
}
