//! The files that a command line names.
ghost use Rattle.std.specs.Prelude.{◌≡◌};
ghost use Rattle.command_line.specs.Words.{meaning};
ghost use Rattle.tool_host.specs.Fresh.{AreFresh};
ghost use Rattle.tool_host.specs.Named.{AreNamed};

use crate::file_system::FileSystem;
use crate::files::{FileSink, FileSource};
use command_line::Arguments;

/// The files that a run reads and writes: the domain file, the schedule, capture or other input, and the frames.
#[derive(Drop)]
pub struct Objects<'a, F: FileSystem> {
    pub conf: FileSource<'a, F>,
    pub input: FileSource<'a, F>,
    pub frames: FileSink<'a, F>,
}

impl<'a, F: FileSystem> Objects<'a, F> {
    /// Returns the files at those paths, without opening them.
    fn at(files: &'a F, conf: &'a str, input: &'a str, frames: &'a str) -> Self
        ensures conf { result.conf.path ≡ conf.entry }
        ensures input { result.input.path ≡ input.entry }
        ensures frames { result.frames.path ≡ frames.entry }
        ensures conf_files { result.conf.files ≡ files.entry }
        ensures input_files { result.input.files ≡ files.entry }
        ensures frames_files { result.frames.files ≡ files.entry }
        ensures fresh { AreFresh result }
    {
        Objects {
            conf: FileSource::new(files, conf),
            input: FileSource::new(files, input),
            frames: FileSink::new(files, frames),
        }
    }

    /// Returns the files that the arguments name. One that they do not name has an empty path, and must not be used.
    pub fn named(files: &'a F, arguments: &Arguments<'a>) -> Self
        ensures named { AreNamed (meaning arguments.now) result }
        ensures conf_files { result.conf.files ≡ files.entry }
        ensures input_files { result.input.files ≡ files.entry }
        ensures frames_files { result.frames.files ≡ files.entry }
        ensures fresh { AreFresh result }
    {
        match *arguments {
            Arguments::Replay {
                conf,
                schedule,
                frames,
                ..
            } => Objects::at(files, conf, schedule, frames),
            Arguments::Node {
                conf,
                capture,
                frames,
                ..
            } => Objects::at(files, conf, capture, frames),
            Arguments::Hop { input } => Objects::at(files, "", input, ""),
            Arguments::Headers { capture } => Objects::at(files, "", capture, ""),
            Arguments::Topo { capture, .. } => Objects::at(files, "", capture, ""),
            Arguments::Grow { .. } | Arguments::Unknown => Objects::at(files, "", "", ""),
        }
    }
}
