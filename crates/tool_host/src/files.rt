//! Sources and sinks that use the files of a file system, and a sink that uses the writer of standard output. Each
//! specifies of its octets what that file system or writer specifies.
ghost use Rattle.std.specs.Prelude.{◌≡◌, ℕ, List, Option, None, false};
ghost use Rattle.std.specs.Io.{ReadsAtMost, WritesAtMost};
ghost use Rattle.std.specs.Io.KnownBytes.{ReadConsumes, WriteAppends, Keeps};
ghost use Rattle.tool_host.specs.Fresh.{IsFresh};
ghost use Rattle.tool_host.specs.Opened.{told};

use crate::counts::{Tally, count_read};
use crate::file_system::FileSystem;
use std::io;
use std::io::{Read, Write};
use wire_base::{Failed, Sink, Source};

/// A file that is read from its beginning. It is opened at the first read. If it cannot be opened, that read and each
/// later one fails.
#[derive(Drop)]
pub struct FileSource<'a, F: FileSystem> {
    files: &'a F,
    path: &'a str,
    file: Option<F::File>,
    faults: u64,
}

impl<'a, F: FileSystem> FileSource<'a, F> {
    /// Returns the file at that path, without opening it.
    pub fn new(files: &'a F, path: &'a str) -> Self
        ensures files { result.files ≡ files.entry }
        ensures path { result.path ≡ path.entry }
        ensures closed { result.file ≡ None }
        ensures faults { result.faults ≡ 0 }
    {
        FileSource {
            files,
            path,
            file: None,
            faults: 0,
        }
    }
}

/// Reads once from the file at that path, which is opened if it is not open yet.
fn read_at<F: FileSystem>(
    files: &F,
    path: &str,
    file: &mut Option<F::File>,
    into: &mut [u8],
) -> io::Result<usize>
    ensures bound { ReadsAtMost result into.new }
    ensures bytes { ReadConsumes (told F.File.remaining (F.at files.now path.now) file.old) (told F.File.remaining (F.at files.now path.now) file.new) result into.new }
{
    match file {
        Some(file) => file.read(into),
        None => {
            let mut opened = files.open(path)?;
            let answer = opened.read(into);
            *file = Some(opened);
            answer
        }
    }
}

impl<'a, F: FileSystem> Source for FileSource<'a, F> {
    ghost left = { λ s. told F.File.remaining (F.at s.files.now s.path.now) s.file };

    ghost faults = { λ s. s.faults };

    fn read(&mut self, into: &mut [u8]) -> Result<usize, Failed> {
        let answer = read_at(self.files, self.path, &mut self.file, into);
        count_read(&mut self.faults, answer)
    }
}

/// A file that is written from its beginning. At the first write it is created, or truncated if it exists. If it cannot
/// be opened, that write and each later one fails.
#[derive(Drop)]
pub struct FileSink<'a, F: FileSystem> {
    files: &'a F,
    path: &'a str,
    file: Option<F::File>,
    tally: Tally,
}

impl<'a, F: FileSystem> FileSink<'a, F> {
    /// Returns the file at that path, without creating it.
    pub fn new(files: &'a F, path: &'a str) -> Self
        ensures files { result.files ≡ files.entry }
        ensures path { result.path ≡ path.entry }
        ensures closed { result.file ≡ None }
        ensures tally { result.tally ≡ record { faults = 0; zeros = 0; unfinished = false } }
    {
        FileSink {
            files,
            path,
            file: None,
            tally: Tally::new(),
        }
    }
}

/// Writes once to the file at that path, which is created or truncated if it is not open yet.
fn write_at<F: FileSystem>(
    files: &F,
    path: &str,
    file: &mut Option<F::File>,
    piece: &[u8],
) -> io::Result<usize>
    ensures bound { WritesAtMost result piece.now }
    ensures bytes { WriteAppends (told F.File.contents (F.made files.now) file.old) (told F.File.contents (F.made files.now) file.new) result piece.now }
{
    match file {
        Some(file) => file.write(piece),
        None => {
            let mut made = files.create(path)?;
            let answer = made.write(piece);
            *file = Some(made);
            answer
        }
    }
}

/// Flushes a file, if it is open.
fn flush_open<W: Write>(file: &mut Option<W>) -> io::Result<()>
    ensures { (before : Option (List ℕ)) → Keeps (told W.contents before file.old) (told W.contents before file.new) }
{
    match file {
        Some(file) => file.flush(),
        None => Ok(()),
    }
}

impl<'a, F: FileSystem> Sink for FileSink<'a, F> {
    ghost written = { λ s. told F.File.contents (F.made s.files.now) s.file };

    ghost faults = { λ s. s.tally.faults };

    ghost zeros = { λ s. s.tally.zeros };

    ghost unfinished = { λ s. s.tally.unfinished };

    fn write(&mut self, piece: &[u8]) -> Result<usize, Failed> {
        let answer = write_at(self.files, self.path, &mut self.file, piece);
        self.tally.count_write(piece, answer)
    }

    fn finish(&mut self) -> Result<(), Failed> {
        let answer = flush_open(&mut self.file);
        self.tally.count_flush(answer)
    }
}

/// Standard output as a sink: the writer that the runtime has for it.
#[derive(Drop)]
pub struct StdoutSink<W: Write> {
    out: W,
    tally: Tally,
}

impl<W: Write> StdoutSink<W> {
    /// Returns a sink for that writer, to which it has written nothing yet.
    pub fn new(out: W) -> Self
        ensures out { result.out ≡ out }
        ensures fresh { IsFresh result }
    {
        StdoutSink {
            out,
            tally: Tally::new(),
        }
    }
}

impl<W: Write> Sink for StdoutSink<W> {
    ghost written = { λ s. W.contents s.out };

    ghost faults = { λ s. s.tally.faults };

    ghost zeros = { λ s. s.tally.zeros };

    ghost unfinished = { λ s. s.tally.unfinished };

    fn write(&mut self, piece: &[u8]) -> Result<usize, Failed> {
        let answer = self.out.write(piece);
        self.tally.count_write(piece, answer)
    }

    fn finish(&mut self) -> Result<(), Failed> {
        let answer = self.out.flush();
        self.tally.count_flush(answer)
    }
}
