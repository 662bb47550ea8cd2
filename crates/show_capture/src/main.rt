//! Writes a capture of IS-IS frames to standard output: the hellos by which an adjacency comes up, the first LSPs of a ring of
//! three routers, a purge, a CSNP and a PSNP. `tools/check-capture` dissects it with another program.
#![tactic(auto)]

mod sample;

use sample::capture;
use std::io;
use std::io::Write;
use std::process::ExitCode;

fn main(rt: HostRuntime) -> ExitCode {
    let Ok(octets) = capture(rt.alloc()) else {
        return ExitCode::from(7);
    };
    match io::writer(&rt).write_all(octets.as_slice()) {
        Ok(()) => ExitCode::from(0),
        Err(_) => ExitCode::from(6),
    }
}
