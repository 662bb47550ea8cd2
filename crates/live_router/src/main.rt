//! The program `live_router CONF ROUTER STREAM FRAMES`: one router of a domain on a live stream; and with `hello` before these
//! words its hellos. The domain file, the stream and the frames are at those paths, and the report is written to standard output.
#![tactic(auto)]

use live_stream::{refuse_words, run_hello, run_live};
use std::alloc::AllocError;
use std::process::ExitCode;
use std::{env, io};
use tool_host::{FileSink, FileSource, StdoutSink, SystemFiles, exit_code, is_no_text, words_of};
use wire_base::Status;

/// Runs the program on the arguments after its name.
fn run_words(rt: &HostRuntime, words: &[&str]) -> Status {
    let files = SystemFiles::new(rt);
    let mut report = StdoutSink::new(io::writer(rt));
    match words {
        [conf, router, stream, frames] => run_live(
            rt.alloc(),
            router.as_bytes(),
            &mut FileSource::new(&files, conf),
            &mut FileSource::new(&files, stream),
            &mut FileSink::new(&files, frames),
            &mut report,
        ),
        [mode, conf, router, stream, frames] if mode.as_bytes() == b"hello".as_slice() => run_hello(
            rt.alloc(),
            router.as_bytes(),
            &mut FileSource::new(&files, conf),
            &mut FileSource::new(&files, stream),
            &mut FileSink::new(&files, frames),
            &mut report,
        ),
        _ => refuse_words(&mut report),
    }
}

/// Runs the program on the arguments of the system. An argument that is not text makes the command line an unknown one.
fn run_command_line(rt: &HostRuntime) -> Result<Status, AllocError> {
    match env::args(rt) {
        Ok(args) => {
            let args: Vec<String> = args.collect(rt.alloc())?;
            let words = words_of(rt.alloc(), &args)?;
            Ok(run_words(rt, &words))
        }
        Err(error) if is_no_text(&error) => Ok(run_words(rt, &[])),
        Err(_) => Err(AllocError),
    }
}

fn main(rt: HostRuntime) -> ExitCode {
    exit_code(run_command_line(&rt))
}
