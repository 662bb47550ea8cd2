//! The files that the program uses.
ghost use Rattle.std.specs.Prelude.{ℕ, List, Option, None, IfOk};
ghost use Rattle.tool_host.specs.Opened.{Tells};

use std::io::{Read, Write};
use std::rt::Files;
use std::{fs, io};

/// Opens files by their paths.
pub trait FileSystem {
    type File: Read + Write + Drop;

    /// The octets of the file at a path, if the file system specifies them.
    ghost at: { Self → List ℕ → Option (List ℕ) };

    /// The octets of a file that was just created, if the file system specifies them.
    ghost made: { Self → Option (List ℕ) };

    /// Opens the file at that path for reading from its beginning.
    fn open(&self, path: &str) -> io::Result<Self::File>
        ensures { IfOk result (λ file. Tells (at self.now path.now) (Self.File.remaining file)) };

    /// Creates a file at that path, or truncates an existing one, for writing from its beginning.
    fn create(&self, path: &str) -> io::Result<Self::File>
        ensures { IfOk result (λ file. Tells (made self.now) (Self.File.contents file)) };
}

/// The files of the runtime. Nothing is specified of their content.
#[derive(Drop)]
pub struct SystemFiles<R: Files> {
    rt: R,
}

impl<R: Files> SystemFiles<R> {
    pub fn new(rt: R) -> Self {
        SystemFiles { rt }
    }
}

impl<R: Files> FileSystem for SystemFiles<R> {
    type File = R::File;

    ghost at = { λ _ _. None };

    ghost made = { λ _. None };

    fn open(&self, path: &str) -> io::Result<R::File> {
        fs::open(&self.rt, path)
    }

    fn create(&self, path: &str) -> io::Result<R::File> {
        fs::create(&self.rt, path)
    }
}
