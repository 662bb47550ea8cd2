//! How a router builds what it caches: rows, tables and the routes of tunnels, each on first use.
ghost use Rattle.std.specs.Prelude.{◌≡◌, ◌<◌, ◌≤◌, ◌%◌, Some, IfOk, IfSome, OnOk, List, length, slice_get};
ghost use Rattle.std.specs.List.{AllByRecursion};
ghost use Rattle.wire_base.specs.declared.conf.RouterConf.{RouterConf as Conf};
ghost use Rattle.wire_base.specs.declared.view.ViewNode.{ViewNode as Node};
ghost use Rattle.wire_base.specs.model.Place.{same_triple};
ghost use Rattle.bier_forward.specs.declared.cache.TheConstants.{MOST_ROWS};
ghost use Rattle.bier_forward.specs.Kept.{AreRoutes, FitsSize, HasRows, HasTable, IsKeptRows, IsKeptTable, IsPeriod, number_of};
ghost use Rattle.bier_forward.specs.Tunnels.{IsBuilt};

use crate::cache::{MOST_ROWS, MOST_TABLES, Routes};
use crate::table_rows::table_rows;
use bift_table::AnyTable;
use std::alloc::Global;
use wire_base::{M, PositionRows, RouterConf, RowSet, Triple, View};

/// The rows of a triple.
#[derive(Drop)]
pub struct TripleRows {
    triple: Triple,
    rows: RowSet,
}

/// The period of the tables of a triple: classes that are equal modulo it have the same table.
#[derive(Clone, Copy)]
pub enum Period {
    One,
    Two,
    Four,
    Eight,
    Sixteen,
}

/// The table of a triple for packets of all classes that equal `class` modulo the period.
#[derive(Drop)]
pub struct ClassTable {
    triple: Triple,
    period: Period,
    class: u8,
    pub(crate) table: AnyTable,
}

impl Period {
    /// Returns the number of classes in the period.
    fn number(self) -> u8
        ensures value { result ≡ number_of self }
        ensures low { 1 ≤ result }
    {
        match self {
            Period::One => 1,
            Period::Two => 2,
            Period::Four => 4,
            Period::Eight => 8,
            Period::Sixteen => 16,
        }
    }

    /// Returns the least period that is a multiple of a list's size, or sixteen if there is none, since there are no more classes.
    fn of_size(size: usize) -> Period
        ensures { FitsSize result size }
    {
        match size {
            0 | 1 => Period::One,
            2 => Period::Two,
            4 => Period::Four,
            8 => Period::Eight,
            _ => Period::Sixteen,
        }
    }

    /// Returns the larger of two periods, one of which divides the other.
    fn larger(self, other: Period) -> Period
        ensures one { number_of result % number_of self ≡ 0 }
        ensures other { number_of result % number_of other ≡ 0 }
    {
        if self.number() < other.number() {
            return other;
        }
        self
    }
}

/// Returns a period that fits the lists of all positions: the largest of theirs. Every period fits those that are not stored.
fn period_of(lists: &PositionRows) -> Period
    ensures { IsPeriod result lists.now }
{
    let mut period = Period::One;
    let stored = lists.stored();
    for place in 0..stored.len() {
        let size = stored.at(place).len();
        // Every period fits a list of at most one router, and most lists are as short.
        if 1 < size {
            period = period.larger(Period::of_size(size));
        }
    }
    period
}

fn is_same(a: Triple, b: Triple) -> bool
    ensures { result ≡ same_triple a b }
{
    a.sd == b.sd && a.bsl.code() == b.bsl.code() && a.si == b.si
}

/// Returns the index of the rows of a triple.
fn rows_place(rows: &[TripleRows], triple: Triple) -> Option<usize>
    ensures rows { (r : Conf) (g : List Node) → AllByRecursion (IsKeptRows r g) rows.now → IfSome result (λ i. IfSome (slice_get rows.now i) (λ k. HasRows r g triple k.rows.bits)) }
    ensures within { IfSome result (λ i. i < length rows.now) }
{
    for place in 0..rows.len() {
        if is_same(rows[place].triple, triple) {
            return Some(place);
        }
    }
    None
}

/// Returns the index of the table of a triple for packets of a class.
fn table_place(tables: &[ClassTable], triple: Triple, class: u8) -> Option<usize>
    requires class { class < 16 }
    ensures table { (r : Conf) (g : List Node) → AllByRecursion (IsKeptTable r g) tables.now → IfSome result (λ i. IfSome (slice_get tables.now i) (λ k. HasTable r g triple class k.table)) }
    ensures within { IfSome result (λ i. i < length tables.now) }
{
    for place in 0..tables.len() {
        let kept = &tables[place];
        if is_same(kept.triple, triple) && class % kept.period.number() == kept.class {
            return Some(place);
        }
    }
    None
}

/// Returns the index of a triple's rows, which are built if they are not cached.
fn keep_rows(kept: &mut Vec<TripleRows>, conf: &RouterConf, view: &View, triple: Triple) -> M<usize>
    requires ends { length conf.now.ends ≤ 65536 }
    requires kept { AllByRecursion (IsKeptRows conf.now view.now.nodes) kept.old.items }
    requires few { length kept.old.items ≤ MOST_ROWS }
    ensures few { length kept.new.items ≤ MOST_ROWS }
    ensures kept { OnOk result (AllByRecursion (IsKeptRows conf.now view.now.nodes) kept.new.items) }
    ensures rows { IfOk result (λ i. IfSome (slice_get kept.new.items i) (λ k. HasRows conf.now view.now.nodes triple k.rows.bits)) }
    ensures within { IfOk result (λ i. i < length kept.new.items) }
{
    if let Some(place) = rows_place(kept.as_slice(), triple) {
        return Ok(place);
    }
    let rows = table_rows(*kept.allocator(), conf, view, triple)?;
    kept.truncate(MOST_ROWS - 1);
    kept.insert(0, TripleRows { triple, rows })?;
    Ok(0)
}

impl Routes {
    /// Creates an empty cache, for any topology.
    pub fn new(alloc: Global) -> Routes
        ensures { (r : Conf) (g : List Node) → AreRoutes r g result }
    {
        Routes {
            rows: Vec::new(alloc),
            tables: Vec::new(alloc),
            fib: None,
        }
    }

    /// Returns the index of the table of a triple for packets of a class, which is built if it is not cached.
    pub(crate) fn keep_table(
        &mut self,
        conf: &RouterConf,
        view: &View,
        triple: Triple,
        class: u8,
    ) -> M<usize>
        requires class { class < 16 }
        requires ends { length conf.now.ends ≤ 65536 }
        requires kept { AreRoutes conf.now view.now.nodes self.old }
        ensures kept { OnOk result (AreRoutes conf.now view.now.nodes self.new) }
        ensures table { IfOk result (λ i. IfSome (slice_get self.new.tables.items i) (λ k. HasTable conf.now view.now.nodes triple class k.table)) }
        ensures within { IfOk result (λ i. i < length self.new.tables.items) }
    {
        if let Some(place) = table_place(self.tables.as_slice(), triple, class) {
            return Ok(place);
        }
        let place = keep_rows(&mut self.rows, conf, view, triple)?;
        self.tables.truncate(MOST_TABLES - 1);
        self.tables.reserve_exact(1)?;
        let alloc = *self.tables.allocator();
        let rows = &self.rows[place].rows;
        let period = period_of(&rows.bits);
        let least = class % period.number();
        let table = AnyTable::build(alloc, triple.bsl, rows, least)?;
        self.tables.insert(
            0,
            ClassTable {
                triple,
                period,
                class: least,
                table,
            },
        )?;
        Ok(0)
    }
}
