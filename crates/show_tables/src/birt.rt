//! The BIRT of a router (RFC 8279, 6.3).
ghost use Rattle.std.specs.Prelude.{◌<◌, ◌≤◌, length};

use crate::cells::{Cell, Column, Row, Table};
use crate::planes::{Ground, sets_at};
use crate::reasons::{Owner, owner_of, reason_for};
use crate::sets::IdSet;
use crate::systems::Names;
use bier_forward::own_place;
use birt_rows::rows;
use router_core::Router;
use std::alloc::Global;
use wire_base::{First, M, RowSet, Triple, ViewSub};

static COLUMNS: [Column; 7] = [
    Column("SD", "sd"),
    Column("BSL", "bsl"),
    Column("BFR-id", "id"),
    Column("BFR-prefix", "prefix"),
    Column("Router", "router"),
    Column("BFR-NBR", "nbr"),
    Column("Way", "way"),
];

/// Returns the rows of a router's BIRT, by sub-domain, length and BFR-id: for each BFR-id of the topology its BFR-prefix and its
/// router, by `Router::current_view`, and a row for each BFR-NBR, by `birt_rows::rows`, which is reached directly or by
/// a tunnel. The BFR-id of the router itself is `local`; of an id without a BFR-NBR the way is the reason.
pub fn birt_table(alloc: Global, router: &Router, names: Names<'_>) -> M<Table> {
    let conf = router.conf();
    let mut table = Table::new(alloc, "BIRT of", conf.system, names, &COLUMNS)?;
    let view = router.current_view()?;
    let Some(own) = own_place(view.as_slice(), conf.system) else {
        return Ok(table);
    };
    let ground = Ground {
        alloc,
        conf,
        view: &view,
        own,
        names,
    };
    let sets = sets_at(ground)?;
    for set in sets.as_slice() {
        push_set(&mut table, ground, set)?;
    }
    Ok(table)
}

/// Appends the rows of a set.
fn push_set(table: &mut Table, ground: Ground<'_>, set: &IdSet) -> M<()>
    requires own { ground.own < length ground.view.now.nodes }
    requires ends { length ground.conf.now.ends ≤ 65536 }
{
    let view = ground.view;
    let found = rows(ground.alloc, view, ground.conf, ground.own, set.triple)?;
    for id in set.ids.as_slice() {
        push_id(table, ground, &found, set.triple, *id)?;
    }
    Ok(())
}

/// Appends the rows of a BFR-id.
fn push_id(
    table: &mut Table,
    ground: Ground<'_>,
    found: &RowSet,
    triple: Triple,
    id: u16,
) -> M<()> {
    let routers = routers_at(found, triple, id);
    if routers.is_empty() {
        return table.push(row_without(ground, triple, id)?);
    }
    for first in routers {
        table.push(row_toward(ground, triple, id, *first)?)?;
    }
    Ok(())
}

/// Returns the BFR-NBRs of a BFR-id of the triple's set.
fn routers_at(found: &RowSet, triple: Triple, id: u16) -> &[First] {
    let Some(place) = triple.place(id) else {
        return &[];
    };
    let before = usize::from(place.saturating_sub(1));
    found.bits.at(before)
}

/// Returns the row of a BFR-id and a BFR-NBR.
fn row_toward(ground: Ground<'_>, triple: Triple, id: u16, first: First) -> M<Row> {
    let mut row = head_of(ground, triple, id)?;
    row.text(ground.names.of(ground.alloc, first.system)?)?;
    row.put(Cell::Word(match first.direct {
        Some(_) => "direct",
        None => "tunnel",
    }))?;
    Ok(row)
}

/// Returns the row of a BFR-id without a BFR-NBR.
fn row_without(ground: Ground<'_>, triple: Triple, id: u16) -> M<Row> {
    let mut row = head_of(ground, triple, id)?;
    row.nothing(1)?;
    row.put(Cell::Word(match owner_of(ground.view.as_slice(), triple.sd, id) {
        Owner::One(place) if place == ground.own => "local",
        _ => reason_for(ground, triple, id).words(),
    }))?;
    Ok(row)
}

/// Returns the first cells of a row: the sub-domain, the length, the BFR-id, and its BFR-prefix and its router if one router alone
/// has it.
fn head_of(ground: Ground<'_>, triple: Triple, id: u16) -> M<Row> {
    let nodes = ground.view.as_slice();
    let mut row = Row::new(ground.alloc);
    row.number(u64::from(triple.sd))?;
    row.number(u64::from(triple.bsl.bits()))?;
    row.number(u64::from(id))?;
    let owner = match owner_of(nodes, triple.sd, id) {
        Owner::One(place) => nodes.get(usize::from(place)),
        Owner::Nobody | Owner::Several => None,
    };
    match owner {
        Some(node) => {
            row.put(prefix_cell(ground, node.place_in(triple.sd))?)?;
            row.text(ground.names.of(ground.alloc, node.system)?)?;
        }
        None => row.nothing(2)?,
    }
    Ok(row)
}

/// Returns the BFR-prefix of a membership.
fn prefix_cell(ground: Ground<'_>, sub: Option<&ViewSub>) -> M<Cell> {
    let Some(sub) = sub else {
        return Ok(Cell::Nothing);
    };
    let prefix = sub.prefix;
    Ok(Cell::Text(format!(in ground.alloc; "{prefix}")?))
}
