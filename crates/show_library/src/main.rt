//! Reads an IS-IS capture from standard input, builds the LSDB and the topology that a router derives from it, and prints
//! the distance of each router and the next hops of each bit position. `docs/library.md` quotes it.
//!
//! This program depends on the codecs, the LSDB, the topology and the routes.
#![tactic(auto)]

mod database;
mod routes;

use database::database;
use examples_model::ring_router_a;
use routes::{show_distances, show_rows};
use std::alloc::Global;
use std::io;
use std::io::{Read, Write};
use std::process::ExitCode;
use view_graph::view;
use wire_base::Status;

/// Returns the output of the program for a capture.
fn report(alloc: Global, capture: &[u8]) -> Result<String, Status> {
    let conf = ring_router_a(alloc)?;
    let store = database(alloc, conf.level, capture)?;
    let seen = view(alloc, &conf, &[true, true], &store)?;
    let mut text = String::new(alloc);
    show_distances(alloc, &mut text, &seen)?;
    show_rows(alloc, &mut text, &seen, &conf)?;
    Ok(text)
}

fn run(rt: &HostRuntime) -> Result<(), Status> {
    let mut capture = Vec::new(rt.alloc());
    if rt.reader().read_to_end(&mut capture).is_err() {
        return Err(Status::ReadFault);
    }
    let text = report(rt.alloc(), capture.as_slice())?;
    match io::writer(rt).write_all(text.as_bytes()) {
        Ok(()) => Ok(()),
        Err(_) => Err(Status::WriteFault),
    }
}

fn main(rt: HostRuntime) -> ExitCode {
    let status = match run(&rt) {
        Ok(()) => Status::Done,
        Err(status) => status,
    };
    ExitCode::from(status.number())
}
