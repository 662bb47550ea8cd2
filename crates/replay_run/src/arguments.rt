//! A run on the arguments of the program.
ghost use Rattle.std.specs.Prelude.{◌≡◌, IfOk, OnErr, drop, map, string_bytes};
ghost use Rattle.command_line.specs.Words.{command_line, command_line_in};
ghost use Rattle.tool_host.specs.Fresh.{IsFresh};
ghost use Rattle.replay_run.specs.Ran.{Ran};

use crate::files::run_over;
use command_line::parse;
use std::alloc::{AllocError, Global};
use std::io::Write;
use tool_host::{FileSystem, Objects, StdoutSink, words_of};
use wire_base::Status;

/// Runs the program on the arguments after its name.
pub fn run_words<F: FileSystem, W: Write>(
    alloc: Global,
    words: &[&str],
    files: &F,
    report: &mut StdoutSink<W>,
) -> Status
    requires { IsFresh report.old }
    ensures { Ran (F.at files.now) W.contents (command_line_in words.now) result report.old report.new }
{
    let mut objects = Objects::named(files, &parse(words));
    run_over(alloc, words, &mut objects, report)
}

/// Runs the program on its arguments, the first of which is its name. If it is out of memory before the run, it writes
/// nothing.
pub fn run_arguments<F: FileSystem, W: Write>(
    alloc: Global,
    args: &[String],
    files: &F,
    report: &mut StdoutSink<W>,
) -> Result<Status, AllocError>
    requires { IsFresh report.old }
    ensures ran { IfOk result (λ ended. Ran (F.at files.now) W.contents (command_line (map string_bytes (drop 1 args.now))) ended report.old report.new) }
    ensures none { OnErr result (report.new ≡ report.old) }
{
    let words = words_of(alloc, args)?;
    Ok(run_words(alloc, &words, files, report))
}
