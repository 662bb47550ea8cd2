//! Forwards packets with 20 BFR-ids at 4,096 bits through one hop over 512 neighbors, from octets to octets, and reports the
//! number of copies and drops and the sum of what is sent. It forwards a thousand packets. With the argument `time` it forwards
//! a million, and also reports how long they took; `bench/hop` runs it that way.
//!
//! It depends on `bier_bits`, `bift_table` and `bier_hop`.
#![tactic(auto)]

mod measure;
mod stop;
mod ways;

use measure::measure;
use std::env;
use std::process::ExitCode;
use stop::Stop;

/// Returns whether the first argument asks for times.
fn asks_for_times(rt: &HostRuntime) -> Result<bool, Stop> {
    Ok(match env::args(rt)?.nth(1) {
        Some(word) => word.as_str() == "time",
        None => false,
    })
}

fn run(rt: &HostRuntime) -> Result<(), Stop> {
    let with_times = asks_for_times(rt)?;
    let packets = if with_times { 1_000_000 } else { 1_000 };
    let (sent, times) = measure(rt, packets)?;
    println!(rt;
        "{packets} packets: {} copies, {} drops, sum {}",
        sent.copies, sent.drops, sent.sum
    )?;
    if with_times {
        println!(rt; "  table {} us, packets {} us", times.table, times.packets)?;
    }
    Ok(())
}

fn main(rt: HostRuntime) -> ExitCode {
    match run(&rt) {
        Ok(()) => ExitCode::from(0),
        Err(Stop::System) => ExitCode::from(6),
        Err(Stop::Memory) => ExitCode::from(7),
    }
}
