//! A source without octets and a sink that discards them: for a command that reads no input or writes no frames.
ghost use Rattle.std.specs.Prelude.{◌≡◌, [], Some, None, false};

use wire_base::{Failed, Sink, Source};

/// A source at its end.
#[derive(Drop)]
pub struct NoSource;

impl Source for NoSource {
    ghost left = { λ _. Some [] };

    ghost faults = { λ _. 0 };

    fn read(&mut self, _into: &mut [u8]) -> Result<usize, Failed> {
        Ok(0)
    }
}

/// A sink that discards what is written to it.
#[derive(Drop)]
pub struct NoSink {
    unfinished: bool,
}

impl NoSink {
    /// Returns a sink to which nothing was written.
    pub fn new() -> Self
        ensures { result.unfinished ≡ false }
    {
        NoSink { unfinished: false }
    }
}

impl Sink for NoSink {
    ghost written = { λ _. None };

    ghost faults = { λ _. 0 };

    ghost zeros = { λ _. 0 };

    ghost unfinished = { λ s. s.unfinished };

    fn write(&mut self, piece: &[u8]) -> Result<usize, Failed> {
        if !piece.is_empty() {
            self.unfinished = true;
        }
        Ok(piece.len())
    }

    fn finish(&mut self) -> Result<(), Failed> {
        self.unfinished = false;
        Ok(())
    }
}
