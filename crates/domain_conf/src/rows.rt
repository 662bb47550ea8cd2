//! The entries of `row`.
ghost use Rattle.std.specs.Prelude.{◌≡◌, ℕ, ◌==◌, true, [], ◌∷◌, ◌++◌, map, IfOk, OnOk, if◌then◌else◌};
ghost use Rattle.std.specs.BTreeSet.{contains};
ghost use Rattle.std.specs.List.{list_any};
ghost use Rattle.std.specs.Ordering.{nat_cmp};
ghost use Rattle.toml.specs.View.{view};
ghost use Rattle.wire_base.specs.model.Configuration.{same_row, same_bift};
ghost use Rattle.wire_base.specs.model.Place as place_of;
ghost use Rattle.domain_conf.specs.Reading.{Gives};
ghost use Rattle.domain_conf.specs.Fields.{entry_path};
ghost use Rattle.domain_conf.specs.Arrays.{entries_from};
ghost use Rattle.domain_conf.specs.Rows as spec;
ghost use Rattle.domain_conf.specs.TableIndex.{has_key, same_key, key_of};
ghost use Rattle.domain_conf.specs.declared.rows.TripleKey.{TripleKey};

use crate::entry::Entry;
use crate::fault::ConfFault;
use crate::subdomains::known_sd;
use std::alloc::Global;
use std::collections::BTreeSet;
use std::marker::Model;
use toml::Value;
use wire_base::limits::LAST_LABEL;
use wire_base::{Kind, M, Rows, SubKind, TableRow, Triple, kind_of};

/// A triple as an ordered key. The BitStringLength is stored as its code.
#[derive(Clone, Copy, PartialEq, Eq, PartialOrd, Ord)]
struct TripleKey {
    sd: u8,
    bsl: u8,
    si: u8,
}

/// Rows in the order of the file, with their triples and their BIFT-ids, so that a look-up does not scan the rows.
#[derive(Drop)]
pub struct WrittenTable {
    rows: Rows<TableRow>,
    triples: BTreeSet<TripleKey>,
    bifts: BTreeSet<u32>,
}

impl Model for WrittenTable {
    ghost use Rattle.std.specs.Prelude.{List};
    ghost use Rattle.wire_base.specs.declared.conf.TableRow.{TableRow as Row};
    ghost use Rattle.domain_conf.specs.TableIndex.{IsIndexed};

    ghost Value = { List Row };

    ghost view = { λ t. t.rows };

    ghost invariant = { λ t. IsIndexed t.rows t.triples t.bifts };
}

fn key_of(triple: Triple) -> TripleKey
    ensures { result ≡ key_of triple }
{
    TripleKey {
        sd: triple.sd,
        bsl: triple.bsl.code(),
        si: triple.si,
    }
}

fn put_triple(triples: &mut BTreeSet<TripleKey>, key: TripleKey) -> M<()>
    ensures { OnOk result ((q : TripleKey) → has_key triples.new q ≡ (if same_key q key then true else has_key triples.old q)) }
{
    triples.insert(key)?;
    Ok(())
}

fn put_bift(bifts: &mut BTreeSet<u32>, bift: u32) -> M<()>
    ensures { OnOk result ((b : ℕ) → contains nat_cmp bifts.new b ≡ (if b == bift then true else contains nat_cmp bifts.old b)) }
{
    bifts.insert(bift)?;
    Ok(())
}

impl WrittenTable {
    /// Returns an empty table.
    pub fn new(alloc: Global) -> Self
        ensures { result ≡ [] }
    {
        WrittenTable {
            rows: Rows::new(alloc),
            triples: BTreeSet::new(alloc),
            bifts: BTreeSet::new(alloc),
        }
    }

    /// Returns the rows.
    pub fn into_rows(self) -> Rows<TableRow>
        ensures { result ≡ self }
    {
        let WrittenTable {
            rows,
            triples: _,
            bifts: _,
        } = self;
        rows
    }

    fn has_triple_of(&self, row: TableRow) -> bool
        ensures { result ≡ list_any (same_row row) self.now }
    {
        self.triples.contains(&key_of(row.triple))
    }

    fn has_bift_of(&self, row: TableRow) -> bool
        ensures { result ≡ list_any (same_bift row) self.now }
    {
        self.bifts.contains(&row.bift)
    }

    /// Returns the table with one more row.
    pub fn with(self, row: TableRow) -> M<Self>
        ensures { IfOk result (λ grown. grown ≡ self ++ row ∷ []) }
    {
        let WrittenTable {
            mut rows,
            mut triples,
            mut bifts,
        } = self;
        put_triple(&mut triples, key_of(row.triple))?;
        put_bift(&mut bifts, row.bift)?;
        rows.push(row)?;
        Ok(WrittenTable {
            rows,
            triples,
            bifts,
        })
    }
}

fn is_configured(kind: Option<Kind>) -> bool
    ensures { result ≡ place_of.is_configured kind }
{
    kind == Some(Kind::Configured)
}

fn new_row(
    entry: &Entry,
    kinds: &[SubKind],
    earlier: &WrittenTable,
    row: TableRow,
) -> Result<TableRow, ConfFault>
    ensures { Gives (λ r. r) result (spec.new_row (entry_path entry.now.array.now entry.now.place) kinds.now earlier.now row) }
{
    if !is_configured(kind_of(kinds, row.triple.sd)) {
        return Err(ConfFault::Reference(entry.path("sd")?));
    }
    if earlier.has_triple_of(row) {
        return Err(ConfFault::Duplicate(entry.path("si")?));
    }
    if earlier.has_bift_of(row) {
        return Err(ConfFault::Duplicate(entry.path("bift")?));
    }
    Ok(row)
}

fn row_in(entry: &Entry, kinds: &[SubKind], earlier: &WrittenTable) -> Result<TableRow, ConfFault>
    ensures { Gives (λ r. r) result (spec.row_in (entry_path entry.now.array.now entry.now.place) kinds.now earlier.now (view entry.now.value.now)) }
{
    entry.has_only(&["sd", "bsl", "si", "bift"])?;
    let sd = known_sd(entry, kinds)?;
    let bsl = entry.bsl()?;
    let si = entry.number("si", 0, 255)? as u8;
    let bift = entry.number("bift", 1, LAST_LABEL)?;
    let triple = Triple { sd, bsl, si };
    new_row(entry, kinds, earlier, TableRow { triple, bift })
}

#[tactic(auto, unfolding(crate::specs::Rows::row_at))]
fn row_at(
    alloc: Global,
    kinds: &[SubKind],
    earlier: &WrittenTable,
    place: usize,
    value: &Value,
) -> Result<TableRow, ConfFault>
    ensures { Gives (λ r. r) result (spec.row_at kinds.now earlier.now place (view value.now)) }
{
    let entry = Entry {
        alloc,
        array: "row",
        place,
        value,
    };
    row_in(&entry, kinds, earlier)
}

/// Reads the BIFT-id table of a file.
pub fn read_table(
    alloc: Global,
    kinds: &[SubKind],
    values: &[Value],
) -> Result<WrittenTable, ConfFault>
    ensures { Gives (λ rows. rows) result (entries_from (spec.row_at kinds.now) [] 0 (map view values.now)) }
{
    let mut earlier = WrittenTable::new(alloc);
    for (place, value) in values.iter().enumerate() {
        let next = row_at(alloc, kinds, &earlier, place, value)?;
        earlier = earlier.with(next)?;
    }
    Ok(earlier)
}
