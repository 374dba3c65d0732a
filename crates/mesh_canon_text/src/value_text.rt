// Cells, rows, columns and names, written.
ghost use Rattle.std.specs.Prelude.{◌≡◌, ◌++◌, codes, IfOk, OnOk};
ghost use Rattle.mesh_canon_text.specs.Text.{◌·◌, cell_text, column_text, row_text, text_of, type_word};

use crate::number_text::{
    put, put_between, put_signed_between, put_text, put_text_behind, put_text_between,
};
use crate::written::{Written, put_list};
use mesh_base_values::{Cell, ColType, Column, Name, Row, Str};
use mesh_list::{Memory, Seq};
use std::alloc::Global;

impl Written for Str {
    ghost text = { text_of };

    fn put(&self, out: &mut Vec<u8>) -> Result<(), Memory> {
        put_text(out, self.as_slice())
    }
}

/// The word of a type.
pub(crate) fn type_word(kind: ColType) -> &'static [u8]
    ensures { result.now ≡ type_word kind }
{
    match kind {
        ColType::Int => b"int",
        ColType::Text => b"text",
        ColType::Date => b"date",
        ColType::Bool => b"bool",
    }
}

impl Written for Column {
    ghost text = { column_text };

    #[tactic(auto, unfolding(crate::specs::Text::column_text))]
    fn put(&self, out: &mut Vec<u8>) -> Result<(), Memory> {
        put_text_behind(out, b"(column ", self.name.as_slice())?;
        put_between(out, b" ", type_word(self.kind), b")")
    }
}

impl Written for Cell {
    ghost text = { cell_text };

    fn put(&self, out: &mut Vec<u8>) -> Result<(), Memory> {
        put_cell(out, self)
    }
}

/// A cell of a row, or a literal of an expression.
#[tactic(auto, unfolding(crate::specs::Text::cell_text))]
pub(crate) fn put_cell(out: &mut Vec<u8>, cell: &Cell) -> Result<(), Memory>
    ensures { OnOk result (out.new.items ≡ out.old.items ++ cell_text cell.now) }
{
    match cell {
        Cell::Null => put(out, b"null"),
        Cell::Int(number) => put_signed_between(out, b"(int ", *number, b")"),
        Cell::Text(text) => put_text_between(out, b"(text ", text.as_slice(), b")"),
        Cell::Date(day) => put_signed_between(out, b"(date ", i64::from(*day), b")"),
        Cell::Bool(true) => put(out, b"true"),
        Cell::Bool(false) => put(out, b"false"),
    }
}

/// The text of a cell on its own.
pub fn cell_text(alloc: Global, cell: &Cell) -> Result<Str, Memory>
    ensures { IfOk result (λ text. text ≡ cell_text cell.now) }
{
    let mut out = Vec::new(alloc);
    put_cell(&mut out, cell)?;
    Ok(Seq::from_vec(out))
}

/// The text of a column type on its own: its word.
pub fn type_text(alloc: Global, kind: ColType) -> Result<Str, Memory>
    ensures { IfOk result (λ text. text ≡ type_word kind) }
{
    let mut out = Vec::new(alloc);
    put(&mut out, type_word(kind))?;
    Ok(Seq::from_vec(out))
}

impl Written for Row {
    ghost text = { row_text };

    #[tactic(auto, unfolding(crate::specs::Text::row_text))]
    fn put(&self, out: &mut Vec<u8>) -> Result<(), Memory> {
        put_list(out, self.as_slice())
    }
}

/// A schema and a model between these bytes.
pub(crate) fn put_name_between(
    out: &mut Vec<u8>,
    before: &[u8],
    name: &Name,
    behind: &[u8],
) -> Result<(), Memory>
    ensures { OnOk result (out.new.items ≡ out.old.items ++ (before.now · text_of name.now.schema · codes " " · text_of name.now.model · behind.now)) }
{
    put_text_behind(out, before, name.schema.as_slice())?;
    put_text_between(out, b" ", name.model.as_slice(), behind)
}
