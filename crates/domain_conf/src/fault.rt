//! The errors of a domain file.
ghost use Rattle.std.specs.Prelude.{◌≡◌};
ghost use Rattle.domain_conf.specs.declared.fault.ConfFault.TheVariants as faults;
ghost use Rattle.domain_conf.specs.Fault.{number_of, name_of, path_of};

use thiserror::Error;
use wire_base::Octets;

/// Why a domain file is rejected: the first rule that it breaks. The rules are numbered in this order, from 1. Each
/// rule but the first reports the location in the file, such as `router[2].prefix`, or `-` for the whole file.
#[derive(Drop, Error)]
pub enum ConfFault {
    /// The file is not a TOML document.
    #[error("not a TOML document")]
    Toml,
    /// A key is unknown or missing, or its value is of the wrong kind.
    #[error("a missing or unknown key, or a value of the wrong kind")]
    Field(Octets),
    /// The value occurred before.
    #[error("a value that stood before")]
    Duplicate(Octets),
    /// The value is out of range or malformed.
    #[error("a value out of range or malformed")]
    Range(Octets),
    /// A label range exceeds the last label, or shares a label with another range of its router.
    #[error("labels that pass the last one or overlap")]
    Labels(Octets),
    /// The value refers to something that does not exist.
    #[error("a reference to what isn't there")]
    Reference(Octets),
    /// There are too many octets, entries, links or sub-domains, or no router.
    #[error("too many entries, or none")]
    Limit(Octets),
    /// An allocation failed.
    #[error("out of memory")]
    Memory,
}

impl std::fmt::Debug for ConfFault {
    fn fmt<W: std::fmt::Write>(&self, f: &mut std::fmt::Formatter<W>) -> std::fmt::Result {
        write!(f, "{}", self.number())
    }
}

impl From<wire_base::Memory> for ConfFault {
    ghost from_gives = { λ _ e. e ≡ faults.Memory };

    fn from(_: wire_base::Memory) -> Self {
        ConfFault::Memory
    }
}

impl ConfFault {
    /// Returns the number of the rule, from 1. Out of memory is not a rule and returns 0.
    pub fn number(&self) -> u8
        ensures { result ≡ number_of self.now }
    {
        match self {
            ConfFault::Toml => 1,
            ConfFault::Field(_) => 2,
            ConfFault::Duplicate(_) => 3,
            ConfFault::Range(_) => 4,
            ConfFault::Labels(_) => 5,
            ConfFault::Reference(_) => 6,
            ConfFault::Limit(_) => 7,
            ConfFault::Memory => 0,
        }
    }

    /// Returns the name of the rule, as reports have it.
    pub fn name(&self) -> &'static [u8]
        ensures { result.now ≡ name_of self.now }
    {
        match self {
            ConfFault::Toml => b"Toml",
            ConfFault::Field(_) => b"Field",
            ConfFault::Duplicate(_) => b"Duplicate",
            ConfFault::Range(_) => b"Range",
            ConfFault::Labels(_) => b"Labels",
            ConfFault::Reference(_) => b"Reference",
            ConfFault::Limit(_) => b"Limit",
            ConfFault::Memory => b"Memory",
        }
    }

    /// Returns the location in the file, such as `router[2].prefix`, or `-` for the whole file.
    pub fn path(&self) -> &[u8]
        ensures { result.now ≡ path_of self.now }
    {
        match self {
            ConfFault::Toml | ConfFault::Memory => b"-",
            ConfFault::Field(path)
            | ConfFault::Duplicate(path)
            | ConfFault::Range(path)
            | ConfFault::Labels(path)
            | ConfFault::Reference(path)
            | ConfFault::Limit(path) => path.as_slice(),
        }
    }
}
