//! A table: columns, and rows of cells.
use crate::systems::Names;
use std::alloc::Global;
use wire_base::{M, SystemId};

/// A column: its title in text, and its key in JSON.
pub struct Column(pub &'static str, pub &'static str);

/// A value of a row.
#[derive(Drop)]
pub enum Cell {
    /// There is no value: `-`, or null.
    Nothing,
    /// A mark `*` where it holds, or a truth value.
    Mark(bool),
    /// `yes` or `no`, or a truth value.
    Answer(bool),
    /// A number: decimal digits.
    Number(u64),
    /// A checksum: four hexadecimal digits, and in JSON a decimal number.
    Sum(u16),
    /// A sequence number: eight hexadecimal digits, and in JSON a decimal number.
    Sequence(u32),
    /// A word.
    Word(&'static str),
    /// A text.
    Text(String),
    /// A list of texts.
    Texts(Vec<String>),
    /// An ascending list of numbers: runs such as `1-4,7`, or a list.
    Numbers(Vec<u16>),
}

/// A row: a cell for each column, and the lines below it, each of which ends in LF.
#[derive(Drop)]
pub struct Row {
    pub cells: Vec<Cell>,
    pub below: String,
}

impl Row {
    /// Returns a row without cells.
    pub fn new(alloc: Global) -> Row {
        Row {
            cells: Vec::new(alloc),
            below: String::new(alloc),
        }
    }

    /// Appends a cell.
    pub fn put(&mut self, cell: Cell) -> M<()> {
        self.cells.push(cell)?;
        Ok(())
    }

    /// Appends a number.
    pub fn number(&mut self, number: u64) -> M<()> {
        self.put(Cell::Number(number))
    }

    /// Appends a text.
    pub fn text(&mut self, text: String) -> M<()> {
        self.put(Cell::Text(text))
    }

    /// Appends that many cells without a value.
    pub fn nothing(&mut self, count: u8) -> M<()> {
        for _ in 0..count {
            self.put(Cell::Nothing)?;
        }
        Ok(())
    }
}

/// A table: a heading, which JSON omits, its columns, and its rows.
#[derive(Drop)]
pub struct Table {
    pub heading: String,
    pub columns: &'static [Column],
    pub rows: Vec<Row>,
}

impl Table {
    /// Returns a table without rows, whose heading ends with the name of a system.
    pub(crate) fn new(
        alloc: Global,
        what: &str,
        system: SystemId,
        names: Names<'_>,
        columns: &'static [Column],
    ) -> M<Table> {
        let name = names.of(alloc, system)?;
        Ok(Table {
            heading: format!(in alloc; "{what} {name}")?,
            columns,
            rows: Vec::new(alloc),
        })
    }

    /// Appends a row.
    pub(crate) fn push(&mut self, row: Row) -> M<()> {
        self.rows.push(row)?;
        Ok(())
    }
}
