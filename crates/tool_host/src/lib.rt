//! The layer between the program and the system: the files that a command line names and standard output as sources and
//! sinks, the arguments, and the exit status.
//!
//! It promises that each object is the file at its own path, that octets are neither invented nor lost, that an I/O
//! error is counted where the file's call failed, and that the status is the exit number. For `SystemFiles` only safety
//! is proved: no contract states what the system's files contain, and at which paths.
#![tactic(auto)]

mod counts;
mod file_system;
mod files;
mod objects;
mod words;

pub use file_system::{FileSystem, SystemFiles};
pub use files::{FileSink, FileSource, StdoutSink};
pub use objects::Objects;
pub use words::{exit_code, is_no_text, words_of};
