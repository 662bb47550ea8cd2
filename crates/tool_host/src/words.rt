//! The arguments of the program, and its exit status.
ghost use Rattle.std.specs.Prelude.{◌≡◌, ◌↔◌, MatchResult, IfOk, map, drop, string_bytes, false};
ghost use Rattle.std.specs.IoError.{error_kind};
ghost use Rattle.std.specs.Process.{exit_status};
ghost use Rattle.wire_base.specs.Status.{number_of};
ghost use Rattle.wire_base.specs.declared.status.Status.TheVariants as statuses;

use std::alloc::{AllocError, Global};
use std::io;
use std::io::ErrorKind;
use std::process::ExitCode;
use wire_base::Status;

fn after_name(args: &[String]) -> &[String]
    ensures { result.now ≡ drop 1 args.now }
{
    match args {
        [] => args,
        [_, rest @ ..] => rest,
    }
}

/// Returns the arguments that follow the program's name.
pub fn words_of<'a>(alloc: Global, args: &'a [String]) -> Result<Vec<&'a str>, AllocError>
    ensures { IfOk result (λ words. map (λ word. word.now) words.items ≡ map string_bytes (drop 1 args.now)) }
{
    let behind = after_name(args);
    let mut words = Vec::new(alloc);
    for word in behind {
        words.push(word.as_str())?;
    }
    Ok(words)
}

/// Returns whether the error is an argument that is not UTF-8, which makes the command line an unknown one. Otherwise
/// the program was out of memory.
pub fn is_no_text(error: &io::Error) -> bool
    ensures { result ≡ false ↔ error_kind error.now ≡ ErrorKind.OutOfMemory }
{
    error.kind() != ErrorKind::OutOfMemory
}

/// Returns the exit status of the program: the number of the run's status, or that of `Status::Memory` if the program
/// was out of memory before the run.
pub fn exit_code(ended: Result<Status, AllocError>) -> ExitCode
    ensures { MatchResult ended (λ status. exit_status result ≡ number_of status) (λ e. exit_status result ≡ number_of statuses.Memory) }
{
    let status = ended.unwrap_or(Status::Memory);
    ExitCode::from(status.number())
}
