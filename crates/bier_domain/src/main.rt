//! The program: `replay_run` with the arguments, the files and the standard output of the system. Nothing is written to
//! standard error.
#![tactic(auto)]

use replay_run::{run_arguments, run_words};
use std::alloc::AllocError;
use std::process::ExitCode;
use std::{env, io};
use tool_host::{StdoutSink, SystemFiles, exit_code, is_no_text};
use wire_base::Status;

/// Runs the program on the arguments of the system.
fn run_command_line(rt: &HostRuntime) -> Result<Status, AllocError> {
    let files = SystemFiles::new(rt);
    let mut report = StdoutSink::new(io::writer(rt));
    match env::args(rt) {
        Ok(args) => {
            let args: Vec<String> = args.collect(rt.alloc())?;
            run_arguments(rt.alloc(), &args, &files, &mut report)
        }
        Err(error) if is_no_text(&error) => Ok(run_words(rt.alloc(), &[], &files, &mut report)),
        Err(_) => Err(AllocError),
    }
}

fn main(rt: HostRuntime) -> ExitCode {
    exit_code(run_command_line(&rt))
}
