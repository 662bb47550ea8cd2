//! A table as JSON, for programs (RFC 8259).
use crate::cells::{Cell, Column, Row, Table};
use std::fmt::Write;
use wire_base::M;

/// Appends a JSON object for each row, a line each. Its members are the row's cells under the keys of their columns, and under
/// `details` the lines below it, if there are any.
pub fn show_json(text: &mut String, table: &Table) -> M<()> {
    for row in table.rows.as_slice() {
        push_object(text, table.columns, row)?;
    }
    Ok(())
}

fn push_object(text: &mut String, columns: &[Column], row: &Row) -> M<()> {
    text.push('{')?;
    for (place, (column, cell)) in columns.iter().zip(row.cells.as_slice()).enumerate() {
        if place > 0 {
            text.push(',')?;
        }
        push_string(text, column.1)?;
        text.push(':')?;
        push_value(text, cell)?;
    }
    if !row.below.as_str().is_empty() {
        push_details(text, row.below.as_str())?;
    }
    text.push_str("}\n")?;
    Ok(())
}

fn push_value(text: &mut String, cell: &Cell) -> M<()> {
    match cell {
        Cell::Nothing => text.push_str("null")?,
        Cell::Mark(is) | Cell::Answer(is) => push_truth(text, *is)?,
        Cell::Number(number) => write!(text, "{number}")?,
        Cell::Sum(sum) => write!(text, "{sum}")?,
        Cell::Sequence(seq) => write!(text, "{seq}")?,
        Cell::Word(word) => push_string(text, *word)?,
        Cell::Text(own) => push_string(text, own.as_str())?,
        Cell::Texts(list) => push_texts(text, list.as_slice())?,
        Cell::Numbers(list) => push_numbers(text, list.as_slice())?,
    }
    Ok(())
}

fn push_truth(text: &mut String, is: bool) -> M<()> {
    text.push_str(if is { "true" } else { "false" })?;
    Ok(())
}

/// Appends the member `details`: a list of the lines, without the two spaces that each begins with in text.
fn push_details(text: &mut String, below: &str) -> M<()> {
    text.push_str(",\"details\":[")?;
    for (place, line) in below.lines().enumerate() {
        if place > 0 {
            text.push(',')?;
        }
        push_string(text, line.strip_prefix("  ").unwrap_or(line))?;
    }
    text.push(']')?;
    Ok(())
}

fn push_texts(text: &mut String, list: &[String]) -> M<()> {
    text.push('[')?;
    for (place, next) in list.iter().enumerate() {
        if place > 0 {
            text.push(',')?;
        }
        push_string(text, next.as_str())?;
    }
    text.push(']')?;
    Ok(())
}

fn push_numbers(text: &mut String, list: &[u16]) -> M<()> {
    text.push('[')?;
    for (place, next) in list.iter().enumerate() {
        if place > 0 {
            text.push(',')?;
        }
        write!(text, "{next}")?;
    }
    text.push(']')?;
    Ok(())
}

/// Appends a JSON string: quotes, backslashes and control characters are escaped (RFC 8259, 7).
pub fn push_string(text: &mut String, own: &str) -> M<()> {
    text.push('"')?;
    for character in own.chars() {
        push_character(text, character)?;
    }
    text.push('"')?;
    Ok(())
}

fn push_character(text: &mut String, character: char) -> M<()> {
    match character {
        '"' => text.push_str("\\\"")?,
        '\\' => text.push_str("\\\\")?,
        '\u{0}'..='\u{1f}' => push_escape(text, u32::from(character))?,
        _ => text.push(character)?,
    }
    Ok(())
}

fn push_escape(text: &mut String, code: u32) -> M<()> {
    write!(text, "\\u{code:04x}")?;
    Ok(())
}
