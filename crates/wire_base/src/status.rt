ghost use Rattle.std.specs.Prelude.{◌≡◌};
ghost use Rattle.wire_base.specs.Status.{number_of};

use crate::memory::Memory;

/// The result of a run of the program.
#[derive(Clone, Copy, Debug, PartialEq, Eq)]
pub enum Status {
    /// The input was read to its end, and every line or record was processed.
    Done,
    /// Invalid arguments: unknown command line.
    Usage,
    /// The domain file is invalid.
    ConfRefused,
    /// The input is invalid: a line is not in the grammar or not allowed, or the input is too long.
    InputRefused,
    /// A read error: a source failed.
    ReadFault,
    /// A write error: a sink failed, or wrote no octet.
    WriteFault,
    /// Out of memory.
    Memory,
    /// The capture is invalid or too long.
    CaptureRefused,
}

impl From<Memory> for Status {
    ghost use Rattle.std.specs.Prelude.{◌≡◌};
    ghost use Rattle.wire_base.specs.declared.status.Status.TheVariants as statuses;

    ghost from_gives = { λ _ e. e ≡ statuses.Memory };

    fn from(_: Memory) -> Self {
        Status::Memory
    }
}

impl Status {
    /// Returns the exit status of the program.
    pub fn number(self) -> u8
        ensures { result ≡ number_of self }
    {
        match self {
            Status::Done => 0,
            Status::Usage => 2,
            Status::ConfRefused => 3,
            Status::InputRefused => 4,
            Status::ReadFault => 5,
            Status::WriteFault => 6,
            Status::Memory => 7,
            Status::CaptureRefused => 8,
        }
    }
}
