//! The LSDB of a router (ISO/IEC 10589, 7.3.15): `show isis database`.
use crate::cells::{Cell, Column, Row, Table};
use crate::planes::link_at;
use crate::systems::Names;
use isis_flood::Flood;
use isis_text::show_tlvs;
use router_core::Router;
use std::alloc::Global;
use wire_base::{Entry, LspId, M, RouterConf};

static COLUMNS: [Column; 10] = [
    Column("LSP ID", "lsp"),
    Column("", "own"),
    Column("Router", "router"),
    Column("PduLen", "pdu_length"),
    Column("SeqNumber", "sequence"),
    Column("Chksum", "checksum"),
    Column("Holdtime", "lifetime"),
    Column("ATT/P/OL", "flags"),
    Column("SRM", "srm"),
    Column("SSN", "ssn"),
];

/// The length of an LSP without its TLVs (ISO/IEC 10589, 9.8).
const LSP_HEAD: usize = 27;

/// Whether the TLVs of each LSP are printed.
#[derive(Clone, Copy)]
pub enum Detail {
    Heads,
    Tlvs,
}

/// Returns a row for each LSP of a router's LSDB, in the order of the LSP IDs: the entries of `Router::store`, with the name of
/// their system; whether they are the router's own, by `Router::conf`; and the interfaces, by the names of their peers, on which
/// they are to be sent (SRM) or acknowledged (SSN), by `Router::flood`. After them come the LSPs that the router requests: those
/// with a flag and no entry. TLVs are printed as `isis_dump` does.
pub fn database_table(
    alloc: Global,
    router: &Router,
    names: Names<'_>,
    detail: Detail,
) -> M<Table> {
    let conf = router.conf();
    let mut table = Table::new(
        alloc,
        "IS-IS link-state database of",
        conf.system,
        names,
        &COLUMNS,
    )?;
    let store = router.store();
    for place in 0..store.len() {
        let entry = store.at(place);
        let mut row = entry_row(alloc, conf, router.flood(), names, entry)?;
        if let Detail::Tlvs = detail {
            show_tlvs(&mut row.below, entry.content.as_slice())?;
        }
        table.push(row)?;
    }
    push_requests(alloc, &mut table, router, names)?;
    Ok(table)
}

fn entry_row(
    alloc: Global,
    conf: &RouterConf,
    flood: &Flood,
    names: Names<'_>,
    entry: &Entry,
) -> M<Row> {
    let mut row = Row::new(alloc);
    push_id(alloc, &mut row, conf, names, entry.id)?;
    row.number(entry.content.len().saturating_add(LSP_HEAD) as u64)?;
    row.put(Cell::Sequence(entry.seq))?;
    row.put(Cell::Sum(entry.sum))?;
    row.number(u64::from(entry.life))?;
    row.text(flags_text(alloc, entry.flags)?)?;
    push_flood(alloc, &mut row, conf, flood, names, entry.id)?;
    Ok(row)
}

/// Appends the LSP ID, whether it is of the router itself, and the name of its system.
fn push_id(alloc: Global, row: &mut Row, conf: &RouterConf, names: Names<'_>, id: LspId) -> M<()> {
    row.text(format!(in alloc; "{id}")?)?;
    row.put(Cell::Mark(id.system == conf.system))?;
    row.text(names.of(alloc, id.system)?)
}

/// Appends the interfaces on which an LSP is to be sent, and those on which it is to be acknowledged or requested.
fn push_flood(
    alloc: Global,
    row: &mut Row,
    conf: &RouterConf,
    flood: &Flood,
    names: Names<'_>,
    id: LspId,
) -> M<()> {
    let mut sent = Vec::new(alloc);
    let mut asked = Vec::new(alloc);
    for (place, end) in conf.ends.as_slice().iter().enumerate() {
        let link = link_at(place);
        if flood.srm(id, link) {
            sent.push(names.of(alloc, end.peer)?)?;
        }
        if flood.ssn(id, link) {
            asked.push(names.of(alloc, end.peer)?)?;
        }
    }
    row.put(Cell::Texts(sent))?;
    row.put(Cell::Texts(asked))
}

/// Returns the attached bits, the partition bit and the overload bit of an LSP (ISO/IEC 10589, 9.8), as in `0/0/1`.
fn flags_text(alloc: Global, flags: u8) -> M<String> {
    let (attached, partition, overload) = (flags / 8 % 16, flags / 128, flags / 4 % 2);
    Ok(format!(in alloc; "{attached}/{partition}/{overload}")?)
}

/// Appends a row for each LSP that has flags and no entry: it is to be requested.
fn push_requests(alloc: Global, table: &mut Table, router: &Router, names: Names<'_>) -> M<()> {
    let flood = router.flood();
    for place in 0..flood.rows() {
        let id = flood.id_at(place);
        if router.store().get(&id).is_none() {
            table.push(request_row(alloc, router, names, id)?)?;
        }
    }
    Ok(())
}

fn request_row(alloc: Global, router: &Router, names: Names<'_>, id: LspId) -> M<Row> {
    let mut row = Row::new(alloc);
    push_id(alloc, &mut row, router.conf(), names, id)?;
    row.nothing(5)?;
    push_flood(alloc, &mut row, router.conf(), router.flood(), names, id)?;
    Ok(row)
}
