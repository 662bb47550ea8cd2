//! The BIFTs of a router (RFC 8279, 6.4 and 6.7).
ghost use Rattle.std.specs.Prelude.{◌<◌, length};
ghost use Rattle.wire_base.specs.model.Configuration.{IsSound};
ghost use Rattle.bier_forward.specs.Packets.{LeadsToEnds};

use crate::cells::{Cell, Column, Row, Table};
use crate::copies::{Copied, copies_of, push_way};
use crate::hops::hop;
use crate::planes::{Ground, sets_at};
use crate::systems::Names;
use bier_forward::own_place;
use router_core::Router;
use std::alloc::Global;
use view_graph::supports;
use wire_base::{M, Triple};

static COLUMNS: [Column; 9] = [
    Column("SD", "sd"),
    Column("BSL", "bsl"),
    Column("SI", "si"),
    Column("Classes", "classes"),
    Column("F-BM", "f_bm"),
    Column("BFR-NBR", "nbr"),
    Column("Way", "way"),
    Column("Interface", "interface"),
    Column("BIFT-id", "bift_id"),
];

/// The number of entropy classes: an entropy is in the class that is its remainder by this number.
const CLASSES: u16 = 16;

/// The copies of a packet for all BFR-ids of a set, and the entropy classes in which they are sent.
#[derive(Drop)]
struct Group {
    classes: Vec<u16>,
    copies: Vec<Copied>,
}

/// Returns the rows of a router's BIFTs, by sub-domain, length, set and entropy class: each BFR-NBR with its F-BM as BFR-ids, the
/// interface to it, and its BIFT-id. They are the copies that the router's hop, `enter_packets`, makes of a packet for all BFR-ids of
/// the set. Classes with equal tables share their rows. A set that the router does not support, by `supports`, has no table.
pub fn bift_tables(alloc: Global, router: &Router, names: Names<'_>) -> M<Table> {
    let conf = router.conf();
    let mut table = Table::new(alloc, "BIFTs of", conf.system, names, &COLUMNS)?;
    let view = router.current_view()?;
    let Some(own) = own_place(view.as_slice(), conf.system) else {
        return Ok(table);
    };
    let ground = Ground {
        alloc,
        conf,
        view: &view,
        own,
        names,
    };
    let sets = sets_at(ground)?;
    for set in sets.as_slice() {
        if is_supported(ground, set.triple) {
            push_set(&mut table, ground, set.triple, set.ids.as_slice())?;
        }
    }
    Ok(table)
}

/// Returns whether the router has a BIFT-id for a triple.
pub(crate) fn is_supported(ground: Ground<'_>, triple: Triple) -> bool {
    match ground.view.as_slice().get(usize::from(ground.own)) {
        Some(node) => supports(ground.conf, node, triple),
        None => false,
    }
}

/// Appends the rows of a set, whose BFR-ids are given.
fn push_set(table: &mut Table, ground: Ground<'_>, triple: Triple, ids: &[u16]) -> M<()>
    requires sound { IsSound ground.conf.now }
    requires leads { LeadsToEnds ground.conf.now ground.view.now.nodes }
{
    let mut groups = Vec::new(ground.alloc);
    for class in 0..CLASSES {
        let copies = copies_in_class(ground, triple, ids, class)?;
        add_class(ground.alloc, &mut groups, class, copies)?;
    }
    for group in groups.as_slice() {
        for copy in group.copies.as_slice() {
            table.push(copy_row(ground, triple, group, copy)?)?;
        }
    }
    Ok(())
}

fn copies_in_class(ground: Ground<'_>, triple: Triple, ids: &[u16], class: u16) -> M<Vec<Copied>>
    requires sound { IsSound ground.conf.now }
    requires leads { LeadsToEnds ground.conf.now ground.view.now.nodes }
{
    let effects = hop(ground, triple, ids, u8::MAX, u32::from(class))?;
    copies_of(ground.alloc, triple, &effects.sent)
}

/// Adds a class to the group with the same copies, or to a new one.
fn add_class(alloc: Global, groups: &mut Vec<Group>, class: u16, copies: Vec<Copied>) -> M<()> {
    for group in groups.iter_mut() {
        if are_same(group.copies.as_slice(), copies.as_slice()) {
            group.classes.push(class)?;
            return Ok(());
        }
    }
    let mut classes = Vec::new(alloc);
    classes.push(class)?;
    groups.push(Group { classes, copies })?;
    Ok(())
}

fn are_same(some: &[Copied], others: &[Copied]) -> bool {
    some.len() == others.len()
        && some
            .iter()
            .zip(others)
            .all(|(one, other)| one.is_same(other))
}

fn copy_row(ground: Ground<'_>, triple: Triple, group: &Group, copy: &Copied) -> M<Row> {
    let mut row = Row::new(ground.alloc);
    row.number(u64::from(triple.sd))?;
    row.number(u64::from(triple.bsl.bits()))?;
    row.number(u64::from(triple.si))?;
    row.put(Cell::Numbers(group.classes.clone()?))?;
    row.put(Cell::Numbers(copy.ids.clone()?))?;
    push_way(&mut row, ground, copy)?;
    Ok(row)
}
