//! Reads a capture from standard input, and writes its IS-IS frames as text to standard output: each PDU with its TLVs and
//! their entries, or the first rule that it breaks.
//!
//! It depends only on the codecs and their text form, reads in chunks, and never stores more of a capture than a record and a chunk.
#![tactic(auto)]

mod dump;
mod frames;

use dump::dump;
use std::alloc::Global;
use std::io::Write;
use std::process::ExitCode;
use std::{env, io};
use wire_base::Status;

const USAGE: &str = "usage: isis_dump < CAPTURE\n";

/// Returns whether the program has an argument. An argument that is not valid text counts.
fn has_words(rt: &HostRuntime) -> Result<bool, Status> {
    match env::args(rt) {
        Ok(words) => Ok(words.skip(1).next().is_some()),
        Err(error) if error.kind() == io::ErrorKind::OutOfMemory => Err(Status::Memory),
        Err(_) => Ok(true),
    }
}

fn run(rt: &HostRuntime) -> Result<Status, Status> {
    let mut output = io::writer(rt);
    if has_words(rt)? {
        return match output.write_all(USAGE.as_bytes()) {
            Ok(()) => Ok(Status::Usage),
            Err(_) => Err(Status::WriteFault),
        };
    }
    let alloc: Global = rt.alloc();
    dump(alloc, &mut rt.reader(), &mut output)
}

fn main(rt: HostRuntime) -> ExitCode {
    let status = match run(&rt) {
        Ok(status) => status,
        Err(status) => status,
    };
    ExitCode::from(status.number())
}
