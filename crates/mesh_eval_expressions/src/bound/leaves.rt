// Expressions that have no parts.
ghost use Rattle.std.specs.Prelude.{◌≡◌, IfOk};
ghost use Rattle.mesh_base_values.specs.declared.values.Cell.{Cell as Shown};
ghost use Rattle.mesh_eval_rows.specs.joins.joined.Spots.{cell_at};
ghost use Rattle.mesh_spec_query.specs.Macros.{macro_value};
ghost use Rattle.mesh_eval_expressions.specs.bound.Meaning.{Means};

use crate::bound::forms::Bound;
use mesh_base::Var;
use mesh_base_values::{Bounds, Cell};
use mesh_eval_rows::bound;
use mesh_eval_rows::joins::joined::Spot;
use mesh_list::{Duplicate, Memory};
use std::alloc::Global;

/// What is known of it: its cell.
fn known(cell: Result<Cell, Memory>) -> Result<Bound, Memory>
    ensures { (x : Shown) → IfOk cell (λ c. c ≡ x) → IfOk result (Means (λ g. x)) }
{
    match cell {
        Ok(cell) => Ok(Bound::Known(cell)),
        Err(Memory) => Err(Memory),
    }
}

pub(crate) fn literal(cell: &Cell) -> Result<Bound, Memory>
    ensures { IfOk result (Means (λ g. cell.now)) }
{
    known(cell.copy())
}

pub(crate) fn macro_cell(alloc: Global, var: Var, u: Bounds) -> Result<Bound, Memory>
    ensures { IfOk result (Means (λ g. macro_value var u)) }
{
    known(bound(alloc, var, u))
}

pub(crate) fn column(spot: Option<Spot>) -> Bound
    ensures { Means (λ g. cell_at spot g.row) result }
{
    Bound::Lies(spot)
}
