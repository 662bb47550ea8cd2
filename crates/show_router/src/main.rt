//! Looks into a router: prints what it holds after a line of a schedule or a record of a capture, as a table.
//!
//! It runs the domain or the router by the proved crates, up to that line or record, and prints a table of `show_tables`. It
//! promises that it returns for every input, and that each status has its cause: `Done` with a table; otherwise one line that says
//! why there is none.
#![tactic(auto)]

mod answer;
mod arguments;
mod ending;
mod events;
mod files;
mod follow;
mod lines;
mod records;
mod refusal;

use answer::answer;
use arguments::{Request, USAGE, parse};
use ending::NoAnswer;
use follow::follow;
use std::alloc::AllocError;
use std::io::Write;
use std::process::ExitCode;
use std::{env, io};
use tool_host::{exit_code, is_no_text, words_of};
use wire_base::Status;

/// Writes a text, and returns the status, or that of a write error.
fn write_text(rt: &HostRuntime, text: &[u8], status: Status) -> Status {
    let mut output = io::writer(rt);
    match output.write_all(text) {
        Ok(()) => status,
        Err(_) => Status::WriteFault,
    }
}

/// Answers the words after the program's name.
fn answer_words(rt: &HostRuntime, words: &[&str]) -> Status {
    let answered = match parse(words) {
        None => return write_text(rt, USAGE.as_bytes(), Status::Usage),
        Some(Request::Look(look)) => answer(rt, &look),
        Some(Request::Follow { conf, schedule }) => follow(rt, conf, schedule),
    };
    match answered {
        Ok(text) => write_text(rt, text.as_bytes(), Status::Done),
        Err(NoAnswer::Refused(status, line)) => write_text(rt, line.as_slice(), status),
        Err(NoAnswer::Stopped(status)) => status,
    }
}

fn run(rt: &HostRuntime) -> Result<Status, AllocError> {
    match env::args(rt) {
        Ok(args) => {
            let args: Vec<String> = args.collect(rt.alloc())?;
            let words = words_of(rt.alloc(), &args)?;
            Ok(answer_words(rt, &words))
        }
        Err(error) if is_no_text(&error) => Ok(answer_words(rt, &[])),
        Err(_) => Err(AllocError),
    }
}

fn main(rt: HostRuntime) -> ExitCode {
    exit_code(run(&rt))
}
