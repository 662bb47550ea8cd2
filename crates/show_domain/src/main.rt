//! Reads a domain file from standard input. Reports how many routers and links it has, or the first rule that it breaks
//! and where. `bench/domain` times it on a large file.
#![tactic(auto)]

use domain_conf::{ConfFault, read_domain};
use std::io::{self, Read};
use std::process::ExitCode;

/// Returns octets of an error report as text.
fn text(octets: &[u8]) -> &str {
    std::str::from_utf8(octets).unwrap_or("?")
}

fn show_fault(rt: &HostRuntime, fault: &ConfFault) -> io::Result<()> {
    let number = fault.number();
    let name = text(fault.name());
    let path = text(fault.path());
    println!(rt; "refused conf {number} {name} {path}")
}

/// Prints what the file describes.
fn show(rt: &HostRuntime, bytes: &[u8]) -> io::Result<()> {
    match read_domain(rt.alloc(), bytes) {
        Ok(domain) => {
            let (routers, links) = (domain.routers.len(), domain.links.len());
            println!(rt; "{routers} routers, {links} links")
        }
        Err(fault) => show_fault(rt, &fault),
    }
}

fn run(rt: &HostRuntime) -> io::Result<()> {
    let mut bytes = Vec::new(rt.alloc());
    rt.reader().read_to_end(&mut bytes)?;
    show(rt, bytes.as_slice())
}

fn main(rt: HostRuntime) -> ExitCode {
    match run(&rt) {
        Ok(()) => ExitCode::from(0),
        Err(_) => ExitCode::from(6),
    }
}
