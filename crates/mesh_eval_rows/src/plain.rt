// A cell that owns no memory.
ghost use Rattle.std.specs.Prelude.{◌≡◌, IfOk};
ghost use Rattle.mesh_spec_query.specs.Cells.{is_null, is_true};
ghost use Rattle.mesh_eval_rows.specs.Plain.{cell_of};

use mesh_base_values::{Cell, Str};
use mesh_list::{Duplicate, Memory};

/// A cell that owns no memory, since its text lies elsewhere.
#[derive(Clone, Copy)]
pub enum Plain<'a> {
    Null,
    Int(i64),
    Text(&'a Str),
    Date(i32),
    Bool(bool),
}

impl<'a> Plain<'a> {
    /// A cell, whose text stays where it lies.
    pub fn of(cell: &'a Cell) -> Plain<'a>
        ensures { cell_of result ≡ cell.now }
    {
        match cell {
            Cell::Null => Plain::Null,
            Cell::Int(n) => Plain::Int(*n),
            Cell::Text(t) => Plain::Text(t),
            Cell::Date(d) => Plain::Date(*d),
            Cell::Bool(b) => Plain::Bool(*b),
        }
    }

    /// The cell for itself, with a copy of a text.
    pub fn into_cell(self) -> Result<Cell, Memory>
        ensures { IfOk result (λ cell. cell ≡ cell_of self.entry) }
    {
        match self {
            Plain::Null => Ok(Cell::Null),
            Plain::Int(n) => Ok(Cell::Int(n)),
            Plain::Text(t) => Ok(Cell::Text(t.copy()?)),
            Plain::Date(d) => Ok(Cell::Date(d)),
            Plain::Bool(b) => Ok(Cell::Bool(b)),
        }
    }

    /// Whether it is NULL.
    pub fn is_null(self) -> bool
        ensures { result ≡ is_null (cell_of self.entry) }
    {
        matches!(self, Plain::Null)
    }

    /// Whether it is true, and neither false nor NULL.
    pub fn is_true(self) -> bool
        ensures { result ≡ is_true (cell_of self.entry) }
    {
        match self {
            Plain::Bool(b) => b,
            _ => false,
        }
    }
}
