// Dates, and texts that are days beside them.
ghost use Rattle.std.specs.Prelude.{◌≡◌, map, IfOk};
ghost use Rattle.mesh_resolve_types.specs.Kinds.{is_date, as_date, dated};

use crate::typed::{Typed, Typeds, with_parts};
use mesh_base::{Expr, Var};
use mesh_base_values::{Cell, ColType};
use mesh_list::{Memory, Seq};
use mesh_time_days::casts::day_named;

pub(crate) fn is_date(t: &Typed) -> bool
    ensures { result ≡ is_date t.now }
{
    match t.kind {
        None => false,
        Some(kind) => ColType::Date == kind,
    }
}

/// A text literal of a real day, and the days that are given as text, as dates.
pub(crate) fn as_date(t: Typed) -> Result<Typed, Memory>
    ensures { IfOk result (λ made. made ≡ as_date t) }
{
    let date = match t.expr.get() {
        Expr::Literal(Cell::Text(text)) => match day_named(text.as_slice()) {
            None => return Ok(t),
            Some(day) => Expr::Literal(Cell::Date(day)),
        },
        Expr::Macro(Var::StartDs) => Expr::Macro(Var::StartDate),
        Expr::Macro(Var::EndDs) => Expr::Macro(Var::EndDate),
        _ => return Ok(t),
    };
    let Typed {
        at,
        expr,
        marks,
        ..
    } = t;
    with_parts(expr.alloc(), at, Some(ColType::Date), date, marks)
}

/// The same, where a date stands beside it.
pub(crate) fn dated(turn: bool, t: Typed) -> Result<Typed, Memory>
    ensures { IfOk result (λ made. made ≡ dated turn t) }
{
    if turn { as_date(t) } else { Ok(t) }
}

pub(crate) fn dated_all(turn: bool, ts: Typeds) -> Result<Typeds, Memory>
    ensures { IfOk result (λ made. made ≡ map (dated turn) ts) }
{
    let mut made = Seq::new(ts.alloc());
    for t in ts.into_vec() {
        made.push(dated(turn, t)?)?;
    }
    Ok(made)
}
