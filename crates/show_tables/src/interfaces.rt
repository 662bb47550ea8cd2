//! The interfaces of a router: `show isis interface`.
use crate::cells::{Cell, Column, Row, Table};
use crate::planes::link_at;
use crate::systems::Names;
use router_core::Router;
use std::alloc::Global;
use wire_base::{End, M};

static COLUMNS: [Column; 8] = [
    Column("Interface", "interface"),
    Column("Peer", "peer"),
    Column("State", "state"),
    Column("Metric", "metric"),
    Column("Out", "out"),
    Column("In", "in"),
    Column("CSNP", "csnp_due"),
    Column("Owed", "owed"),
];

/// How many frames are in flight over an interface, in each direction.
#[derive(Clone, Copy)]
pub struct Flight {
    /// From the router to its peer.
    pub out: usize,
    /// From the peer to the router.
    pub back: usize,
}

/// Returns a row for each interface of a router, in the order of `Router::conf`: its index, its peer and its metric; whether it is
/// up, by `Router::is_up`; the frames in flight, as given, where they are known; whether a CSNP is due, by `Router::flood`; and how
/// many frames the router would send now, by `Router::pending`.
pub fn interface_table(
    alloc: Global,
    router: &Router,
    names: Names<'_>,
    flights: &[Flight],
) -> M<Table> {
    let conf = router.conf();
    let mut table = Table::new(alloc, "IS-IS interfaces of", conf.system, names, &COLUMNS)?;
    for (place, end) in conf.ends.as_slice().iter().enumerate() {
        let flight = flights.get(place).copied();
        let link = link_at(place);
        table.push(interface_row(alloc, router, names, link, end, flight)?)?;
    }
    Ok(table)
}

fn interface_row(
    alloc: Global,
    router: &Router,
    names: Names<'_>,
    link: u16,
    end: &End,
    flight: Option<Flight>,
) -> M<Row> {
    let is_up = router.is_up(link);
    let mut row = Row::new(alloc);
    row.number(u64::from(link))?;
    row.text(names.of(alloc, end.peer)?)?;
    row.put(Cell::Word(if is_up { "Up" } else { "Down" }))?;
    row.number(u64::from(end.metric))?;
    push_flight(&mut row, flight)?;
    row.put(Cell::Answer(router.flood().due(link)))?;
    row.number(owed(router, link))?;
    Ok(row)
}

fn push_flight(row: &mut Row, flight: Option<Flight>) -> M<()> {
    match flight {
        Some(Flight { out, back }) => {
            row.number(out as u64)?;
            row.number(back as u64)
        }
        None => row.nothing(2),
    }
}

/// Returns how many frames the router would send now on a link; none on one that is down.
fn owed(router: &Router, link: u16) -> u64 {
    if router.is_up(link) {
        router.pending(link) as u64
    } else {
        0
    }
}
