use std::io;
use wire_base::Memory;

/// Why a measurement stopped.
#[derive(Clone, Copy, Debug)]
pub enum Stop {
    Memory,
    /// The clock, the arguments or standard output failed.
    System,
}

impl From<Memory> for Stop {
    fn from(_memory: Memory) -> Stop {
        Stop::Memory
    }
}

impl From<io::Error> for Stop {
    fn from(_error: io::Error) -> Stop {
        Stop::System
    }
}
