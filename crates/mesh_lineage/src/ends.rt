// The conjunct that binds a column to the unit.
ghost use Rattle.std.specs.Prelude.{◌≡◌};
ghost use Rattle.mesh_base.specs.declared.expressions.Expr.{out-Expr};
ghost use Rattle.mesh_spec_changes.specs.steady.Steady.{are_ends, are_ends_by, is_and, is_column, is_end_of};

use mesh_base::{Expr, Op, Var};
use mesh_base_values::{Str, same_text};

pub(crate) fn is_and(op: Op) -> bool
    ensures { result ≡ is_and op }
{
    match op {
        Op::And => true,
        _ => false,
    }
}

/// An expression is this column of a FROM item.
pub(crate) fn is_column(e: &Expr, item: usize, name: &Str) -> bool
    ensures { result ≡ is_column item name.now e.now }
{
    match e {
        Expr::Col { item: i, name: n } => {
            *i as usize == item && same_text(n.as_slice(), name.as_slice())
        }
        _ => false,
    }
}

fn are_ends_by(start: Var, end: Var) -> bool
    ensures { result ≡ are_ends_by start end }
{
    match start {
        Var::StartDate => match end {
            Var::EndDate => true,
            _ => false,
        },
        Var::StartDs => match end {
            Var::EndDs => true,
            _ => false,
        },
        Var::StartEpoch => match end {
            Var::EndEpoch => true,
            _ => false,
        },
        _ => false,
    }
}

fn is_end_of(start: Var, high: &Expr) -> bool
    ensures { result ≡ is_end_of start (out-Expr high.now) }
{
    match high {
        Expr::Macro(end) => are_ends_by(start, *end),
        _ => false,
    }
}

/// Two expressions are the start and the end of the unit, both in one form.
pub(crate) fn are_ends(low: &Expr, high: &Expr) -> bool
    ensures { result ≡ are_ends low.now high.now }
{
    match low {
        Expr::Macro(start) => is_end_of(*start, high),
        _ => false,
    }
}
