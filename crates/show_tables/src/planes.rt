//! Where a router stands in its topology, the sub-domains and BitStringLengths of its tables, and the sets of BFR-ids in them.

use crate::sets::{IdSet, push_sets};
use crate::systems::Names;
use std::alloc::Global;
use wire_base::{Bsl, Kind, M, OwnSub, RouterConf, TableRow, View, ViewNode, kind_of};

/// A router in its topology: its configuration, its topology, the index of its own node there, and the names of systems.
#[derive(Clone, Copy)]
pub(crate) struct Ground<'a> {
    pub alloc: Global,
    pub conf: &'a RouterConf,
    pub view: &'a View,
    pub own: u16,
    pub names: Names<'a>,
}

/// A sub-domain, and a BitStringLength in it.
#[derive(Clone, Copy, PartialEq)]
struct Plane {
    sd: u8,
    bsl: Bsl,
}

/// Returns an index of an interface as routers have it; a router has at most 64.
pub(crate) fn link_at(place: usize) -> u16 {
    u16::try_from(place).unwrap_or(u16::MAX)
}

/// Returns the sets of a router's tables, by sub-domain and length: the BFR-ids in its topology.
pub(crate) fn sets_at(ground: Ground<'_>) -> M<Vec<IdSet>> {
    let mut sets = Vec::new(ground.alloc);
    for plane in planes(ground.alloc, ground.conf)?.as_slice() {
        let ids = ids_in(ground.alloc, ground.view.as_slice(), plane.sd)?;
        push_sets(ground.alloc, &mut sets, plane.sd, plane.bsl, ids.as_slice())?;
    }
    Ok(sets)
}

/// Returns the sub-domains of a router with their lengths: those of its label ranges, or of the configured table.
fn planes(alloc: Global, conf: &RouterConf) -> M<Vec<Plane>> {
    let mut planes = Vec::new(alloc);
    for sub in conf.subs.as_slice() {
        match kind_of(conf.kinds.as_slice(), sub.sd) {
            Some(Kind::Mpls) => push_ranges(&mut planes, sub)?,
            Some(Kind::Configured) => push_rows(&mut planes, sub.sd, conf.table.as_slice())?,
            None => {}
        }
    }
    Ok(planes)
}

fn push_ranges(planes: &mut Vec<Plane>, sub: &OwnSub) -> M<()> {
    for range in sub.ranges.as_slice() {
        planes.push(Plane {
            sd: sub.sd,
            bsl: range.bsl,
        })?;
    }
    Ok(())
}

/// Appends the lengths that the configured table has for a sub-domain, each once.
fn push_rows(planes: &mut Vec<Plane>, sd: u8, table: &[TableRow]) -> M<()> {
    for row in table {
        let plane = Plane {
            sd,
            bsl: row.triple.bsl,
        };
        if row.triple.sd == sd && !has_plane(planes.as_slice(), plane) {
            planes.push(plane)?;
        }
    }
    Ok(())
}

fn has_plane(planes: &[Plane], other: Plane) -> bool {
    planes.iter().any(|plane| *plane == other)
}

/// Returns the BFR-ids that the nodes of a topology have in a sub-domain, ascending and each once.
fn ids_in(alloc: Global, nodes: &[ViewNode], sd: u8) -> M<Vec<u16>> {
    let mut ids = Vec::new(alloc);
    for node in nodes {
        if let Some(sub) = node.place_in(sd) {
            if sub.id > 0 {
                ids.push(sub.id)?;
            }
        }
    }
    distinct(alloc, ids)
}

/// Returns numbers in ascending order, each once.
pub(crate) fn distinct(alloc: Global, numbers: Vec<u16>) -> M<Vec<u16>> {
    let mut sorted = numbers;
    sorted.sort_unstable();
    let mut kept: Vec<u16> = Vec::new(alloc);
    for number in sorted.as_slice() {
        if kept.as_slice().last() != Some(number) {
            kept.push(*number)?;
        }
    }
    Ok(kept)
}
