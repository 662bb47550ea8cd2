//! What a router would do with a packet (RFC 8279, 6.5).
ghost use Rattle.std.specs.Prelude.{◌<◌, ◌^◌};
ghost use Rattle.wire_base.specs.model.Configuration.{IsSound};
ghost use Rattle.bier_forward.specs.Packets.{LeadsToEnds};

use crate::bift::is_supported;
use crate::cells::{Cell, Column, Row, Table};
use crate::copies::{Copied, copies_of, push_way};
use crate::hops::hop;
use crate::planes::{Ground, distinct};
use crate::reasons::{Reason, reason_for};
use crate::sets::{IdSet, ids_of_bits, push_sets};
use crate::systems::Names;
use bier_forward::{DropNote, Effects, own_place};
use router_core::Router;
use std::alloc::Global;
use wire_base::{Bsl, Cause, M, Triple};

static COLUMNS: [Column; 9] = [
    Column("SI", "si"),
    Column("Outcome", "outcome"),
    Column("BFR-ids", "ids"),
    Column("BFR-NBR", "nbr"),
    Column("Way", "way"),
    Column("Interface", "interface"),
    Column("BIFT-id", "bift_id"),
    Column("TTL", "ttl"),
    Column("Reason", "reason"),
];

/// The reasons for which a BFR-id has no BIFT entry.
const REASONS: [Reason; 4] = [
    Reason::Nobody,
    Reason::Several,
    Reason::Unsupported,
    Reason::NoPath,
];

/// A packet that arrives: its sub-domain and its length, the BFR-ids that it is for, its TTL and its entropy.
#[derive(Clone, Copy)]
pub struct Query<'a> {
    pub sd: u8,
    pub bsl: Bsl,
    pub ids: &'a [u16],
    pub ttl: u8,
    pub entropy: u32,
}

/// Returns what a router would do with a packet, which is one for each set of its BFR-ids: deliveries, copies and drops, as its
/// own hop, `enter_packets`, makes them by `Router::conf` and `Router::current_view`. A copy has what its frame has. For BFR-ids
/// that are dropped there is the reason in words. BFR-ids that are in no set have no row.
pub fn packet_table(alloc: Global, router: &Router, names: Names<'_>, query: Query<'_>) -> M<Table>
    requires { query.entropy < 2 ^ 20 }
{
    let conf = router.conf();
    let mut table = Table::new(alloc, "A packet at", conf.system, names, &COLUMNS)?;
    let view = router.current_view()?;
    let Some(own) = own_place(view.as_slice(), conf.system) else {
        return Ok(table);
    };
    let ground = Ground {
        alloc,
        conf,
        view: &view,
        own,
        names,
    };
    push_packet(&mut table, ground, query)?;
    Ok(table)
}

/// Appends the rows of all sets of a packet's BFR-ids.
fn push_packet(table: &mut Table, ground: Ground<'_>, query: Query<'_>) -> M<()>
    requires sound { IsSound ground.conf.now }
    requires leads { LeadsToEnds ground.conf.now ground.view.now.nodes }
    requires entropy { query.entropy < 2 ^ 20 }
{
    let alloc = ground.alloc;
    let ids = distinct(alloc, query.ids.to_vec(alloc)?)?;
    let mut sets = Vec::new(alloc);
    push_sets(alloc, &mut sets, query.sd, query.bsl, ids.as_slice())?;
    for set in sets.as_slice() {
        push_set(table, ground, set, query)?;
    }
    Ok(())
}

fn push_set(table: &mut Table, ground: Ground<'_>, set: &IdSet, query: Query<'_>) -> M<()>
    requires sound { IsSound ground.conf.now }
    requires leads { LeadsToEnds ground.conf.now ground.view.now.nodes }
    requires entropy { query.entropy < 2 ^ 20 }
{
    let (triple, ids) = (set.triple, set.ids.as_slice());
    if !is_supported(ground, triple) {
        return table.push(drop_row(ground, triple, set.ids.clone()?, Reason::Unknown)?);
    }
    let effects = hop(ground, triple, ids, query.ttl, query.entropy)?;
    push_effects(table, ground, triple, &effects)
}

fn push_effects(table: &mut Table, ground: Ground<'_>, triple: Triple, effects: &Effects) -> M<()> {
    for got in effects.got.as_slice() {
        table.push(deliver_row(ground, triple, got.id)?)?;
    }
    let copies = copies_of(ground.alloc, triple, &effects.sent)?;
    for copy in copies.as_slice() {
        table.push(copy_row(ground, triple, copy)?)?;
    }
    for note in effects.drops.as_slice() {
        push_drop(table, ground, triple, note)?;
    }
    Ok(())
}

/// Returns the first cells of a row.
fn head_of(ground: Ground<'_>, triple: Triple, outcome: &'static str, ids: Vec<u16>) -> M<Row> {
    let mut row = Row::new(ground.alloc);
    row.number(u64::from(triple.si))?;
    row.put(Cell::Word(outcome))?;
    row.put(Cell::Numbers(ids))?;
    Ok(row)
}

fn deliver_row(ground: Ground<'_>, triple: Triple, id: u16) -> M<Row> {
    let mut ids = Vec::new(ground.alloc);
    ids.push(id)?;
    let mut row = head_of(ground, triple, "deliver", ids)?;
    row.nothing(6)?;
    Ok(row)
}

fn copy_row(ground: Ground<'_>, triple: Triple, copy: &Copied) -> M<Row> {
    let mut row = head_of(ground, triple, "copy", copy.ids.clone()?)?;
    push_way(&mut row, ground, copy)?;
    row.number(u64::from(copy.ttl))?;
    row.put(Cell::Nothing)?;
    Ok(row)
}

fn drop_row(ground: Ground<'_>, triple: Triple, ids: Vec<u16>, reason: Reason) -> M<Row> {
    let mut row = head_of(ground, triple, "drop", ids)?;
    row.nothing(5)?;
    row.put(Cell::Word(reason.words()))?;
    Ok(row)
}

/// Appends the rows of a drop: one for each reason.
fn push_drop(table: &mut Table, ground: Ground<'_>, triple: Triple, note: &DropNote) -> M<()> {
    let Some(packet) = &note.sets else {
        return Ok(());
    };
    let ids = ids_of_bits(ground.alloc, triple, &packet.bits)?;
    if note.cause == Cause::Ttl {
        return table.push(drop_row(ground, triple, ids, Reason::Expired)?);
    }
    for reason in REASONS {
        let own = ids_because(ground, triple, ids.as_slice(), reason)?;
        if !own.as_slice().is_empty() {
            table.push(drop_row(ground, triple, own, reason)?)?;
        }
    }
    Ok(())
}

/// Returns those of the BFR-ids that are dropped for a reason.
fn ids_because(ground: Ground<'_>, triple: Triple, ids: &[u16], reason: Reason) -> M<Vec<u16>> {
    let mut own = Vec::new(ground.alloc);
    for id in ids {
        if reason_for(ground, triple, *id) == reason {
            own.push(*id)?;
        }
    }
    Ok(own)
}
