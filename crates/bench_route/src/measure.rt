//! The properties of a ring, and the time of each part.
ghost use Rattle.std.specs.Prelude.{◌≡◌, ◌≤◌, ◌<◌, length};
ghost use Rattle.wire_base.specs.model.Configuration.{IsSound};

use crate::ring::{changed_entry, database, parted_entries};
use crate::stop::Stop;
use birt_rows::rows;
use examples_model::ring_router_a;
use lsp_store::Store;
use path_tree::distances_to;
use std::alloc::Global;
use std::time::{Duration, Instant};
use view_graph::{ViewKeep, view};
use wire_base::{Bsl, Entry, M, RouterConf, Triple, View};

/// The number of edges of a ring, the cost from router 1 to the farthest router, the sum of its costs, and the number of bits
/// of the first set of 256 that have a row at router 1.
#[derive(Clone, Copy)]
pub struct Ring {
    pub edges: usize,
    pub farthest: u64,
    pub together: u64,
    pub rows: usize,
}

/// The times in microseconds: of the topology, of its update after a metric has changed and after both sides have lost a
/// link, of the costs to each router, and of the rows of one set.
#[derive(Clone, Copy)]
pub struct Times {
    pub view: u128,
    pub renewal: u128,
    pub parting: u128,
    pub distances: u128,
    pub rows: u128,
}

pub fn measure(rt: &HostRuntime, nodes: u16) -> Result<(Ring, Times), Stop>
    requires few { nodes ≤ 1000 }
    requires some { 0 < nodes }
{
    let alloc = rt.alloc();
    let conf = ring_router_a(alloc)?;
    let mut store = database(alloc, nodes)?;
    measured(rt, nodes, &conf, &mut store)
}

/// Measures each part over an LSDB. The values that are large are lent from function to function: each exit of the function that
/// owns one costs a proof of how it is dropped there.
fn measured(
    rt: &HostRuntime,
    nodes: u16,
    conf: &RouterConf,
    store: &mut Store,
) -> Result<(Ring, Times), Stop>
    requires few { nodes ≤ 1000 }
    requires some { 0 < nodes }
    requires sound { IsSound conf.now }
    requires ends { length conf.now.ends ≡ 2 }
{
    let alloc = rt.alloc();
    let (ring, viewed, searched, routed) = viewed(rt, conf, store)?;
    let renewal = renewed(rt, conf, store, changed_entry(alloc, nodes)?)?;
    let (first, second) = parted_entries(alloc, nodes)?;
    let parting = parted(rt, conf, store, first, second)?;
    let times = Times {
        view: viewed.as_micros(),
        renewal: renewal.as_micros(),
        parting: parting.as_micros(),
        distances: searched.as_micros(),
        rows: routed.as_micros(),
    };
    Ok((ring, times))
}

/// Measures the topology of an LSDB, the costs to each router, and the rows of one set.
fn viewed(
    rt: &HostRuntime,
    conf: &RouterConf,
    store: &Store,
) -> Result<(Ring, Duration, Duration, Duration), Stop>
    requires sound { IsSound conf.now }
    requires ends { length conf.now.ends ≡ 2 }
{
    let start = Instant::now(rt)?;
    let seen = view(rt.alloc(), conf, &[true, true], store)?;
    let viewed = start.elapsed(rt)?;
    let (ring, searched, routed) = searched(rt, conf, &seen)?;
    Ok((ring, viewed, searched, routed))
}

/// Measures the costs to each router and the rows of one set in a topology.
fn searched(
    rt: &HostRuntime,
    conf: &RouterConf,
    seen: &View,
) -> Result<(Ring, Duration, Duration), Stop>
    requires { length conf.now.ends ≡ 2 }
{
    let start = Instant::now(rt)?;
    let (farthest, together) = distances(rt.alloc(), seen)?;
    let searched = start.elapsed(rt)?;
    let start = Instant::now(rt)?;
    let rows = routed(rt.alloc(), seen, conf)?;
    let routed = start.elapsed(rt)?;
    let ring = Ring {
        edges: seen
            .as_slice()
            .iter()
            .map(|node| node.edges.len())
            .fold(0, usize::saturating_add),
        farthest,
        together,
        rows,
    };
    Ok((ring, searched, routed))
}

/// Measures an update of the topology after one entry has changed.
fn renewed(
    rt: &HostRuntime,
    conf: &RouterConf,
    store: &mut Store,
    entry: Entry,
) -> Result<Duration, Stop>
    requires sound { IsSound conf.now }
    requires ends { length conf.now.ends ≡ 2 }
{
    let system = entry.id.system;
    let mut keep = ViewKeep::new(rt.alloc(), conf, &[true, true], store)?;
    match store.put(entry) {
        Ok(()) => (),
        Err(_) => return Err(Stop::Memory),
    }
    let start = Instant::now(rt)?;
    let _is_new = keep.renew(conf, &[true, true], store, &[system])?;
    Ok(start.elapsed(rt)?)
}

/// Measures an update after two entries have changed.
fn parted(
    rt: &HostRuntime,
    conf: &RouterConf,
    store: &mut Store,
    first: Entry,
    second: Entry,
) -> Result<Duration, Stop>
    requires sound { IsSound conf.now }
    requires ends { length conf.now.ends ≡ 2 }
{
    let systems = [first.id.system, second.id.system];
    let mut keep = ViewKeep::new(rt.alloc(), conf, &[true, true], store)?;
    match store.put(first) {
        Ok(()) => (),
        Err(_) => return Err(Stop::Memory),
    }
    match store.put(second) {
        Ok(()) => (),
        Err(_) => return Err(Stop::Memory),
    }
    let start = Instant::now(rt)?;
    let _is_new = keep.renew(conf, &[true, true], store, &systems)?;
    Ok(start.elapsed(rt)?)
}

/// Returns the cost from router 1 to the farthest router, and the sum of its costs, from the costs to each router in turn.
fn distances(alloc: Global, seen: &View) -> M<(u64, u64)> {
    let mut farthest = 0;
    let mut together: u64 = 0;
    for d in 0..seen.as_slice().len() {
        let found = distances_to(alloc, seen, d as u16)?;
        if let Some(Some(length)) = found.as_slice().first() {
            farthest = farthest.max(*length);
            together = together.saturating_add(*length);
        }
    }
    Ok((farthest, together))
}

/// Returns the number of bits of the first set that have a row at router 1.
fn routed(alloc: Global, seen: &View, conf: &RouterConf) -> M<usize>
    requires { length conf.now.ends ≤ 65536 }
{
    let triple = Triple {
        sd: 0,
        bsl: Bsl::B256,
        si: 0,
    };
    if seen.as_slice().is_empty() {
        return Ok(0);
    }
    let set = rows(alloc, seen, conf, 0, triple)?;
    let lists = set.bits.stored();
    Ok(
        (0..lists.len())
            .filter(|place| lists.at(*place).len() > 0)
            .count(),
    )
}
