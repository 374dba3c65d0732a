// Cells, rows, columns and names, read.
ghost use Rattle.std.specs.Prelude.{◌≡◌, codes};
ghost use Rattle.mesh_canon_words.specs.Words.{Gives, text_at, then_at};
ghost use Rattle.mesh_canon_reading.specs.Reading.{cell_at, cell_parts_at, column_at, date_at, int_at, name_at, row_at, text_cell_at};

use crate::read::{Readable, list, shut};
use mesh_base_values::{Cell, Column, Name, Row, Str};
use mesh_canon_words::{
    CanonFault, CellHead, cell_head, day, expect, signed, text, text_then, type_then,
};
use std::alloc::Global;

const MOST_INT: u64 = 0x7fff_ffff_ffff_ffff;

impl Readable for Str {
    ghost reading = { text_at };

    fn read(alloc: Global, bytes: &[u8]) -> Result<(Str, &[u8]), CanonFault> {
        text(alloc, bytes)
    }
}

/// A cell behind its head.
#[tactic(auto, unfolding(crate::specs::Reading::cell_parts_at))]
pub(crate) fn cell_parts(
    alloc: Global,
    head: CellHead,
    bytes: &[u8],
) -> Result<(Cell, &[u8]), CanonFault>
    ensures { Gives (λ x. (x.0, x.1.now)) result (cell_parts_at head bytes.now) }
{
    match head {
        CellHead::Null => Ok((Cell::Null, bytes)),
        CellHead::True => Ok((Cell::Bool(true), bytes)),
        CellHead::False => Ok((Cell::Bool(false), bytes)),
        CellHead::Int => int_cell(bytes),
        CellHead::Text => text_cell(alloc, bytes),
        CellHead::Date => date_cell(bytes),
    }
}

fn int_cell(bytes: &[u8]) -> Result<(Cell, &[u8]), CanonFault>
    ensures { Gives (λ x. (x.0, x.1.now)) result (int_at bytes.now) }
{
    let (number, rest) = signed(bytes, MOST_INT)?;
    shut(Cell::Int(number), rest, b")")
}

fn text_cell(alloc: Global, bytes: &[u8]) -> Result<(Cell, &[u8]), CanonFault>
    ensures { Gives (λ x. (x.0, x.1.now)) result (text_cell_at bytes.now) }
{
    let (text, rest) = text(alloc, bytes)?;
    shut(Cell::Text(text), rest, b")")
}

fn date_cell(bytes: &[u8]) -> Result<(Cell, &[u8]), CanonFault>
    ensures { Gives (λ x. (x.0, x.1.now)) result (date_at bytes.now) }
{
    let (day, rest) = day(bytes)?;
    shut(Cell::Date(day), rest, b")")
}

impl Readable for Cell {
    ghost reading = { cell_at };

    #[tactic(auto, unfolding(crate::specs::Reading::cell_at))]
    fn read(alloc: Global, bytes: &[u8]) -> Result<(Cell, &[u8]), CanonFault> {
        match cell_head(bytes) {
            Some((head, rest)) => cell_parts(alloc, head, rest),
            None => Err(CanonFault::NotCanonical),
        }
    }
}

impl Readable for Row {
    ghost reading = { row_at };

    #[tactic(auto, unfolding(crate::specs::Reading::row_at))]
    fn read(alloc: Global, bytes: &[u8]) -> Result<(Row, &[u8]), CanonFault> {
        list(alloc, bytes)
    }
}

impl Readable for Column {
    ghost reading = { column_at };

    #[tactic(auto, unfolding(crate::specs::Reading::column_at))]
    fn read(alloc: Global, bytes: &[u8]) -> Result<(Column, &[u8]), CanonFault> {
        let rest = expect(bytes, b"(column ")?;
        let (name, rest) = text_then(alloc, rest, b" ")?;
        let (kind, rest) = type_then(rest, b")")?;
        Ok((Column { name, kind }, rest))
    }
}

/// A schema and a model.
#[tactic(auto, unfolding(crate::specs::Reading::name_at))]
pub(crate) fn name(alloc: Global, bytes: &[u8]) -> Result<(Name, &[u8]), CanonFault>
    ensures { Gives (λ x. (x.0, x.1.now)) result (name_at bytes.now) }
{
    let (schema, rest) = text_then(alloc, bytes, b" ")?;
    let (model, rest) = text(alloc, rest)?;
    Ok((Name { schema, model }, rest))
}

/// A schema, a model and a space.
#[tactic(auto, unfolding(mesh_canon_words::specs::Words::then_at))]
pub(crate) fn name_then_space(alloc: Global, bytes: &[u8]) -> Result<(Name, &[u8]), CanonFault>
    ensures { Gives (λ x. (x.0, x.1.now)) result (then_at (codes " ") name_at bytes.now) }
{
    let (name, rest) = name(alloc, bytes)?;
    shut(name, rest, b" ")
}
