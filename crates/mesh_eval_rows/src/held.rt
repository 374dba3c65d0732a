// A cell that an expression has for its value.
ghost use Rattle.std.specs.Prelude.{◌≡◌, IfOk, Ok};

use mesh_base_values::Cell;
use mesh_list::{Duplicate, Memory, Seq};
use std::marker::Model;

/// Cells, each where it lies or made.
pub type Helds<'a> = Seq<Held<'a>>;

/// A cell that lies in a row or in an expression and is read there, or one that was made. Contracts see the cell.
pub struct Held<'a> {
    lent: Option<&'a Cell>,
    made: Cell,
}

impl Drop for Held<'_> {
    fn drop(self) {
        let Held { lent: _, made: _ } = self;
    }
}

impl<'a> Model for Held<'a> {
    ghost use Rattle.mesh_base_values.specs.declared.values.Cell.{Cell as Shown};
    ghost use Rattle.mesh_eval_rows.specs.Held.{held};

    ghost Value = { Shown };

    ghost view = { λ h. held h.lent h.made };
}

impl<'a> Held<'a> {
    /// A cell that stays where it lies.
    pub fn lent(cell: &'a Cell) -> Held<'a>
        ensures { result ≡ cell.now }
    {
        Held {
            lent: Some(cell),
            made: Cell::Null,
        }
    }

    /// A cell that was made.
    pub fn made(cell: Cell) -> Held<'a>
        ensures { result ≡ cell }
    {
        Held {
            lent: None,
            made: cell,
        }
    }

    /// The cell, to be read.
    pub fn get(&self) -> &Cell
        ensures { result.now ≡ self.now }
    {
        match self.lent {
            Some(cell) => cell,
            None => &self.made,
        }
    }

    /// The cell for itself: a copy of one that stays where it lies.
    pub fn into_cell(self) -> Result<Cell, Memory>
        ensures { IfOk result (λ cell. cell ≡ self.entry) }
    {
        let Held { lent, made } = self;
        match lent {
            Some(cell) => cell.copy(),
            None => Ok(made),
        }
    }
}

/// The cell of an answer for itself.
pub fn kept(value: Result<Held, Memory>) -> Result<Cell, Memory>
    ensures { IfOk result (λ v. value.entry ≡ Ok v) }
{
    match value {
        Ok(value) => value.into_cell(),
        Err(Memory) => Err(Memory),
    }
}

/// The answer of a call that makes a cell.
pub fn made_of<'a>(value: Result<Cell, Memory>) -> Result<Held<'a>, Memory>
    ensures { IfOk result (λ v. value ≡ Ok v) }
{
    match value {
        Ok(cell) => Ok(Held::made(cell)),
        Err(Memory) => Err(Memory),
    }
}
