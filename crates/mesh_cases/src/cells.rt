// Cells and types on one line.
use crate::escapes::shown;
use crate::report::put_number;
use crate::trouble::Trouble;
use crate::words::{front_word, number_of};
use mesh_base_values::{Cell, ColType};
use mesh_list::Duplicate;
use std::alloc::Global;

fn put_text(report: &mut Vec<u8>, text: &[u8]) -> Result<(), Trouble> {
    report.push(b'\'')?;
    shown(report, text)?;
    report.push(b'\'')?;
    Ok(())
}

fn put_day(alloc: Global, report: &mut Vec<u8>, day: i32) -> Result<(), Trouble> {
    report.extend_from_slice(b"day ")?;
    put_number(alloc, report, i64::from(day))
}

fn truth_word(truth: bool) -> &'static [u8] {
    if truth { b"true" } else { b"false" }
}

/// Adds a cell: `NULL`, digits, a text in single quotes, `day` and its number, or `true` or `false`.
pub fn put_cell(alloc: Global, report: &mut Vec<u8>, cell: &Cell) -> Result<(), Trouble> {
    match cell {
        Cell::Null => report.extend_from_slice(b"NULL")?,
        Cell::Int(n) => put_number(alloc, report, *n)?,
        Cell::Text(text) => put_text(report, text.as_slice())?,
        Cell::Date(day) => put_day(alloc, report, *day)?,
        Cell::Bool(truth) => report.extend_from_slice(truth_word(*truth))?,
    }
    Ok(())
}

fn day_of(word: &[u8]) -> Result<i32, Trouble> {
    match i32::try_from(number_of(word)?) {
        Ok(day) => Ok(day),
        Err(_) => Err(Trouble::Case),
    }
}

/// The cell that a text says, as `put_cell` writes it but without escapes.
pub fn cell_of(alloc: Global, text: &[u8]) -> Result<Cell, Trouble> {
    if let [b'\'', inner @ .., b'\''] = text {
        return Ok(Cell::Text(u8::copy_items(alloc, inner)?));
    }
    let (word, rest) = front_word(text);
    if word == b"NULL".as_slice() {
        Ok(Cell::Null)
    } else if word == b"true".as_slice() {
        Ok(Cell::Bool(true))
    } else if word == b"false".as_slice() {
        Ok(Cell::Bool(false))
    } else if word == b"day".as_slice() {
        Ok(Cell::Date(day_of(rest)?))
    } else {
        Ok(Cell::Int(number_of(word)?))
    }
}

/// The word of a type.
pub fn kind_word(kind: ColType) -> &'static [u8] {
    match kind {
        ColType::Int => b"int",
        ColType::Text => b"text",
        ColType::Date => b"date",
        ColType::Bool => b"bool",
    }
}

/// The type of a word.
pub fn kind_of(word: &[u8]) -> Result<ColType, Trouble> {
    for kind in [ColType::Int, ColType::Text, ColType::Date, ColType::Bool] {
        if word == kind_word(kind) {
            return Ok(kind);
        }
    }
    Err(Trouble::Case)
}
