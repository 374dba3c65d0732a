// The macros for the ends of an interval.
ghost use Rattle.std.specs.Prelude.{◌≡◌, IfOk};
ghost use Rattle.mesh_spec_query.specs.Cells.{number};
ghost use Rattle.mesh_spec_query.specs.Macros.{macro_value, day_of_second, last_second};
ghost use Rattle.mesh_eval_rows.specs.Plain.{cell_of};

use crate::cells::day_of;
use crate::plain::Plain;
use mesh_base::Var;
use mesh_base_values::{Bounds, Cell, ColType};
use mesh_list::Memory;
use mesh_time_days::casts::cast;
use std::alloc::Global;

fn day_of_second<'v>(t: i64) -> Plain<'v>
    ensures { cell_of result ≡ day_of_second t }
{
    day_of(t.div_euclid(86_400))
}

fn last_second<'v>(u: Bounds) -> Plain<'v>
    ensures { cell_of result ≡ number (last_second u) }
{
    match u.end.checked_sub(1) {
        Some(t) => Plain::Int(t),
        None => Plain::Null,
    }
}

fn last_day<'v>(u: Bounds) -> Plain<'v>
    ensures { cell_of result ≡ day_of_second (last_second u) }
{
    match u.end.checked_sub(1) {
        Some(t) => day_of_second(t),
        None => Plain::Null,
    }
}

/// The value of a macro for an interval.
pub fn bound(alloc: Global, var: Var, u: Bounds) -> Result<Cell, Memory>
    ensures { IfOk result (λ v. v ≡ macro_value var u) }
{
    match var {
        Var::StartDate => day_of_second(u.start).into_cell(),
        Var::EndDate => last_day(u).into_cell(),
        Var::StartDs => cast(alloc, ColType::Text, day_of_second(u.start).into_cell()?),
        Var::EndDs => cast(alloc, ColType::Text, last_day(u).into_cell()?),
        Var::StartEpoch => Ok(Cell::Int(u.start)),
        Var::EndEpoch => last_second(u).into_cell(),
    }
}
