//! A disk with one file, whose calls return the results of a list.
ghost use Rattle.std.specs.Prelude.{None};
ghost use Rattle.std.specs.Io.{ReadsAtMost, WritesAtMost};

use std::io::{Error, ErrorKind, Read, Result, Write};
use tool_host::FileSystem;

/// The result of a call of a file.
#[derive(Clone, Copy)]
pub enum Call {
    /// A read returns these octets, or a write accepts them.
    Moves(&'static [u8]),
    /// A flush succeeds.
    Flushes,
    /// The call fails with that kind of error.
    Fails(ErrorKind),
}

/// The one file of a disk, and whether it is opened for reading, or created or truncated for writing. There are no
/// other files.
#[derive(Clone, Copy)]
pub struct Disk {
    pub path: &'static str,
    pub written: bool,
    pub calls: &'static [Call],
}

/// That file, open.
#[derive(Drop)]
pub struct OpenCalls {
    calls: &'static [Call],
    at: usize,
}

impl OpenCalls {
    pub fn new(calls: &'static [Call]) -> Self {
        OpenCalls { calls, at: 0 }
    }

    /// Returns the result of the next call; after the last one each fails.
    fn next(&mut self) -> Call {
        match self.calls.get(self.at) {
            Some(call) => {
                self.at = self.at.saturating_add(1);
                *call
            }
            None => Call::Fails(ErrorKind::Other),
        }
    }
}

fn missing() -> Error {
    Error::from(ErrorKind::NotFound)
}

/// Returns how many octets of a chunk are accepted, if these are the expected ones.
fn taken(octets: &[u8], piece: &[u8]) -> Result<usize>
    ensures { WritesAtMost result piece.now }
{
    if octets.len() > piece.len() || &piece[..octets.len()] != octets {
        return Err(missing());
    }
    Ok(octets.len())
}

/// Returns octets, if there is room for them.
fn given(octets: &[u8], into: &mut [u8]) -> Result<usize>
    ensures { ReadsAtMost result into.new }
{
    if octets.len() > into.len() {
        return Err(missing());
    }
    into[..octets.len()].copy_from_slice(octets);
    Ok(octets.len())
}

impl Read for OpenCalls {
    fn read(&mut self, into: &mut [u8]) -> Result<usize> {
        match self.next() {
            Call::Moves(octets) => given(octets, into),
            Call::Fails(kind) => Err(Error::from(kind)),
            Call::Flushes => Err(missing()),
        }
    }
}

impl Write for OpenCalls {
    fn write(&mut self, piece: &[u8]) -> Result<usize> {
        match self.next() {
            Call::Moves(octets) => taken(octets, piece),
            Call::Fails(kind) => Err(Error::from(kind)),
            Call::Flushes => Err(missing()),
        }
    }

    fn flush(&mut self) -> Result<()> {
        match self.next() {
            Call::Flushes => Ok(()),
            Call::Fails(kind) => Err(Error::from(kind)),
            Call::Moves(_) => Err(missing()),
        }
    }
}

impl Disk {
    /// Returns the file, if it is at that path and is opened as it should be.
    fn opened(&self, path: &str, written: bool) -> Result<OpenCalls> {
        if path == self.path && written == self.written {
            Ok(OpenCalls::new(self.calls))
        } else {
            Err(missing())
        }
    }
}

impl FileSystem for Disk {
    type File = OpenCalls;

    ghost at = { λ _ _. None };

    ghost made = { λ _. None };

    fn open(&self, path: &str) -> Result<OpenCalls> {
        self.opened(path, false)
    }

    fn create(&self, path: &str) -> Result<OpenCalls> {
        self.opened(path, true)
    }
}
