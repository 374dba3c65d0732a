// The values of functions, of which two make texts.
ghost use Rattle.std.specs.Prelude.{◌≡◌, pos, unsigned_abs, ◌∷◌, [], map, IfOk, IfSome, count_by};
ghost use Rattle.std.specs.Char.{to_ascii_uppercase};
ghost use Rattle.mesh_spec_query.specs.Cells.{number, starts_character, func_value, coalesce};
ghost use Rattle.mesh_eval_rows.specs.Plain.{cell_of};

use crate::cells::{equal, is_null};
use crate::plain::Plain;
use mesh_base::Func;
use mesh_base_values::{Cell, Row, Str};
use mesh_list::{Duplicate, Memory};
use mesh_time_days::casts::lower_case;

fn absolute<'v>(n: i64) -> Plain<'v>
    ensures { cell_of result ≡ number (pos (unsigned_abs n)) }
{
    match n.checked_abs() {
        Some(m) => Plain::Int(m),
        None => Plain::Null,
    }
}

fn length_of<'v>(text: &Str) -> Plain<'v>
    ensures { cell_of result ≡ Cell.Int (pos (count_by starts_character text.now)) }
{
    let characters = text
        .as_slice()
        .iter()
        .filter(|byte| **byte < 128 || 191 < **byte)
        .count();
    Plain::Int(characters as i64)
}

/// The value of a function of one argument that makes no text, as all but UPPER and LOWER do.
pub fn call_plain<'v>(func: Func, x: Plain<'v>) -> Option<Plain<'v>>
    ensures { IfSome result (λ v. cell_of v ≡ func_value func (cell_of x.entry ∷ [])) }
{
    match func {
        Func::Abs => match x {
            Plain::Int(n) => Some(absolute(n)),
            _ => Some(Plain::Null),
        },
        Func::Length => match x {
            Plain::Text(t) => Some(length_of(t)),
            _ => Some(Plain::Null),
        },
        Func::Nullif => Some(Plain::Null),
        Func::Coalesce => Some(x),
        Func::Upper | Func::Lower => None,
    }
}

/// The value of a function of one argument.
pub fn call_one(func: Func, x: &Cell) -> Result<Cell, Memory>
    ensures { IfOk result (λ v. v ≡ func_value func (x.now ∷ [])) }
{
    match func {
        Func::Upper => match x {
            Cell::Text(t) => Ok(Cell::Text(upper_case(t)?)),
            _ => Ok(Cell::Null),
        },
        Func::Lower => match x {
            Cell::Text(t) => Ok(Cell::Text(lower_case(t.alloc(), t.as_slice())?)),
            _ => Ok(Cell::Null),
        },
        Func::Abs => match x {
            Cell::Int(n) => absolute(*n).into_cell(),
            _ => Ok(Cell::Null),
        },
        Func::Length => match x {
            Cell::Text(t) => length_of(t).into_cell(),
            _ => Ok(Cell::Null),
        },
        Func::Nullif => Ok(Cell::Null),
        Func::Coalesce => x.copy(),
    }
}

/// The value of a function.
pub fn call(func: Func, args: Row) -> Result<Cell, Memory>
    ensures { IfOk result (λ v. v ≡ func_value func args) }
{
    match func {
        Func::Coalesce => first_known(&args),
        Func::Nullif => null_if(args),
        _ => match args.as_slice() {
            [x] => call_one(func, x),
            _ => Ok(Cell::Null),
        },
    }
}

fn null_if(args: Row) -> Result<Cell, Memory>
    ensures { IfOk result (λ v. v ≡ func_value Func.Nullif args) }
{
    match args.as_slice() {
        [x, y] => if equal(Plain::of(x), Plain::of(y)).is_true() {
            Ok(Cell::Null)
        } else {
            x.copy()
        },
        _ => Ok(Cell::Null),
    }
}

fn first_known(args: &Row) -> Result<Cell, Memory>
    ensures { IfOk result (λ v. v ≡ coalesce args.now) }
{
    let mut first = Cell::Null;
    for x in args.as_slice() {
        if is_null(&first) {
            drop(first);
            first = x.copy()?;
        }
    }
    Ok(first)
}

fn upper_case(text: &Str) -> Result<Str, Memory>
    ensures { IfOk result (λ t. t ≡ map to_ascii_uppercase text.now) }
{
    Ok(Str::from_vec(text.as_slice().to_ascii_uppercase(text.alloc())?))
}
