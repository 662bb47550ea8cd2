//! What all commands share: one loop that reads the items of an input, has a command process each, and writes its
//! frames and its report.
//!
//! `Items` is where items come from (lines, records of a capture, or generated items), `Command` is what is done with
//! them, and `drive` is the loop. Its contract, `Drives`, states what any command's run does with its source and its
//! sinks.
#![tactic(auto)]

mod capture_reader;
mod captured;
mod command;
mod driving;
mod items;
mod line_reader;
mod nowhere;
mod outputs;
mod record_reader;
mod whole;

pub use capture_reader::{CaptureReader, RecordFault};
pub use captured::{push_refused, refuse_by, refuse_length};
pub use command::{Command, Flow};
pub use driving::drive;
pub use items::{Close, Found, Items};
pub use line_reader::LineReader;
pub use nowhere::{NoSink, NoSource};
pub use record_reader::RecordReader;
pub use run_texts::Texts;
pub use whole::{buffer, deliver};
