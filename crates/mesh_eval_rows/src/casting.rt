// Casts that make no text.
ghost use Rattle.std.specs.Prelude.{◌≡◌, IfSome};
ghost use Rattle.mesh_time_days.specs.casts.Casts.{cast_to_date, cast_to_int, cast_value};
ghost use Rattle.mesh_eval_rows.specs.Plain.{cell_of};

use crate::plain::Plain;
use mesh_base_values::ColType;
use mesh_time_days::casts::{day_named, number_named};

fn to_int<'v>(x: Plain) -> Plain<'v>
    ensures { cell_of result ≡ cast_to_int (cell_of x.entry) }
{
    match x {
        Plain::Int(n) => Plain::Int(n),
        Plain::Text(t) => match number_named(t.as_slice()) {
            Some(n) => Plain::Int(n),
            None => Plain::Null,
        },
        Plain::Bool(b) => Plain::Int(if b { 1 } else { 0 }),
        _ => Plain::Null,
    }
}

fn to_date<'v>(x: Plain) -> Plain<'v>
    ensures { cell_of result ≡ cast_to_date (cell_of x.entry) }
{
    match x {
        Plain::Text(t) => match day_named(t.as_slice()) {
            Some(d) => Plain::Date(d),
            None => Plain::Null,
        },
        Plain::Date(d) => Plain::Date(d),
        _ => Plain::Null,
    }
}

/// The cell as a number or a day, which takes no memory.
pub fn cast_plain<'v>(to: ColType, x: Plain) -> Option<Plain<'v>>
    ensures { IfSome result (λ v. cell_of v ≡ cast_value to (cell_of x.entry)) }
{
    match to {
        ColType::Int => Some(to_int(x)),
        ColType::Date => Some(to_date(x)),
        ColType::Text | ColType::Bool => None,
    }
}
