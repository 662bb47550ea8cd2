//! Measures rings with chords of 40, 250 and 1,000 routers, from the view of one of them: the number of edges, the cost to the
//! farthest router, the sum of all costs, and the number of bits that have a row. With the argument `time` it also reports how
//! long each part took; `bench/routes` runs it that way.
#![tactic(auto)]

mod measure;
mod ring;
mod stop;

ghost use Rattle.std.specs.Prelude.{◌≤◌, ◌<◌};

use measure::measure;
use std::env;
use std::process::ExitCode;
use stop::Stop;

/// Returns whether the first argument asks for times.
fn asks_for_times(rt: &HostRuntime) -> Result<bool, Stop> {
    Ok(match env::args(rt)?.nth(1) {
        Some(word) => word.as_str() == "time",
        None => false,
    })
}

fn show(rt: &HostRuntime, nodes: u16, with_times: bool) -> Result<(), Stop>
    requires few { nodes ≤ 1000 }
    requires some { 0 < nodes }
{
    let (ring, times) = measure(rt, nodes)?;
    println!(rt;
        "{nodes} routers: {} edges, farthest {}, together {}, rows {}",
        ring.edges, ring.farthest, ring.together, ring.rows
    )?;
    if with_times {
        println!(rt;
            "  view {} us, renewal {} us, of two {} us, distances to each {} us, rows {} us",
            times.view, times.renewal, times.parting, times.distances, times.rows
        )?;
    }
    Ok(())
}

fn run(rt: &HostRuntime) -> Result<(), Stop> {
    let with_times = asks_for_times(rt)?;
    show(rt, 40, with_times)?;
    show(rt, 250, with_times)?;
    show(rt, 1000, with_times)
}

fn main(rt: HostRuntime) -> ExitCode {
    match run(&rt) {
        Ok(()) => ExitCode::from(0),
        Err(Stop::System) => ExitCode::from(6),
        Err(Stop::Memory) => ExitCode::from(7),
    }
}
