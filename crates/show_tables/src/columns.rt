//! A table in columns, for people.
use crate::cells::{Cell, Column, Row, Table};
use std::alloc::Global;
use std::fmt::Write;
use wire_base::M;

/// Appends a table: its heading, its titles and its rows, in columns that are two spaces apart. Numbers are at the right of their
/// column. Below a row are its further lines.
pub fn show_columns(alloc: Global, text: &mut String, table: &Table) -> M<()> {
    let columns = table.columns;
    let mut cells = Vec::new(alloc);
    for row in table.rows.as_slice() {
        cells.push(row_texts(alloc, row)?)?;
    }
    let widths = widths(alloc, columns, cells.as_slice())?;
    text.push_str(table.heading.as_str())?;
    text.push('\n')?;
    show_titles(alloc, text, columns, widths.as_slice())?;
    for (row, texts) in table.rows.iter().zip(cells.as_slice()) {
        show_row(text, row, texts.as_slice(), widths.as_slice())?;
    }
    Ok(())
}

fn show_titles(alloc: Global, text: &mut String, columns: &[Column], widths: &[usize]) -> M<()> {
    let mut line = String::new(alloc);
    for (column, width) in columns.iter().zip(widths) {
        push_cell(&mut line, column.0, *width, false)?;
    }
    push_line(text, &line)
}

fn show_row(text: &mut String, row: &Row, texts: &[String], widths: &[usize]) -> M<()> {
    let mut line = String::new(*row.cells.allocator());
    for (place, cell) in texts.iter().enumerate() {
        let width = widths.get(place).copied().unwrap_or(0);
        push_cell(&mut line, cell.as_str(), width, is_number(row, place))?;
    }
    push_line(text, &line)?;
    text.push_str(row.below.as_str())?;
    Ok(())
}

fn is_number(row: &Row, place: usize) -> bool {
    matches!(row.cells.as_slice().get(place), Some(Cell::Number(_)))
}

/// Appends a line without the spaces at its end.
fn push_line(text: &mut String, line: &String) -> M<()> {
    text.push_str(line.as_str().trim_end())?;
    text.push('\n')?;
    Ok(())
}

/// Appends a cell of that width, and two spaces.
fn push_cell(line: &mut String, cell: &str, width: usize, right: bool) -> M<()> {
    let missing = width.saturating_sub(cell.len());
    if right {
        push_spaces(line, missing)?;
        line.push_str(cell)?;
    } else {
        line.push_str(cell)?;
        push_spaces(line, missing)?;
    }
    line.push_str("  ")?;
    Ok(())
}

fn push_spaces(line: &mut String, count: usize) -> M<()> {
    for _ in 0..count {
        line.push(' ')?;
    }
    Ok(())
}

/// Returns the width of each column: that of its longest text.
fn widths(alloc: Global, columns: &[Column], rows: &[Vec<String>]) -> M<Vec<usize>> {
    let mut widths = Vec::new(alloc);
    for (place, column) in columns.iter().enumerate() {
        widths.push(column_width(column.0.len(), rows, place))?;
    }
    Ok(widths)
}

fn column_width(title: usize, rows: &[Vec<String>], place: usize) -> usize {
    let mut width = title;
    for row in rows {
        if let Some(text) = row.as_slice().get(place) {
            width = width.max(text.len());
        }
    }
    width
}

/// Returns the texts of a row's cells.
fn row_texts(alloc: Global, row: &Row) -> M<Vec<String>> {
    let mut texts = Vec::new(alloc);
    for cell in row.cells.as_slice() {
        let mut text = String::new(alloc);
        push_value(&mut text, cell)?;
        texts.push(text)?;
    }
    Ok(texts)
}

fn push_value(text: &mut String, cell: &Cell) -> M<()> {
    match cell {
        Cell::Nothing => text.push('-')?,
        Cell::Mark(true) => text.push('*')?,
        Cell::Mark(false) => {}
        Cell::Answer(true) => text.push_str("yes")?,
        Cell::Answer(false) => text.push_str("no")?,
        Cell::Number(number) => write!(text, "{number}")?,
        Cell::Sum(sum) => write!(text, "0x{sum:04x}")?,
        Cell::Sequence(seq) => write!(text, "0x{seq:08x}")?,
        Cell::Word(word) => text.push_str(*word)?,
        Cell::Text(own) => text.push_str(own.as_str())?,
        Cell::Texts(list) => push_texts(text, list.as_slice())?,
        Cell::Numbers(list) => push_runs(text, list.as_slice())?,
    }
    Ok(())
}

/// Appends texts with commas between them, or `-` for none.
fn push_texts(text: &mut String, list: &[String]) -> M<()> {
    let Some((first, rest)) = list.split_first() else {
        text.push('-')?;
        return Ok(());
    };
    text.push_str(first.as_str())?;
    for next in rest {
        text.push(',')?;
        text.push_str(next.as_str())?;
    }
    Ok(())
}

/// Appends ascending numbers, of which three or more in a row are a run such as `1-4`, or `-` for none.
fn push_runs(text: &mut String, list: &[u16]) -> M<()> {
    let Some((first, rest)) = list.split_first() else {
        text.push('-')?;
        return Ok(());
    };
    let (mut from, mut to) = (*first, *first);
    for next in rest {
        if next.saturating_sub(to) != 1 {
            push_run(text, from, to)?;
            text.push(',')?;
            from = *next;
        }
        to = *next;
    }
    push_run(text, from, to)
}

/// Appends the numbers from one to another.
fn push_run(text: &mut String, from: u16, to: u16) -> M<()> {
    let more = to.saturating_sub(from);
    match more {
        0 => write!(text, "{from}")?,
        1 => write!(text, "{from},{to}")?,
        _ => write!(text, "{from}-{to}")?,
    }
    Ok(())
}
