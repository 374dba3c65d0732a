// Whether a condition is true.
ghost use Rattle.std.specs.Prelude.{◌≡◌, IsTrue, IfOk};
ghost use Rattle.mesh_spec_query.specs.Cells.{is_true};
ghost use Rattle.mesh_eval_expressions.specs.bound.Meaning.{bound_value};
ghost use Rattle.mesh_eval_expressions.specs.Frames.{given_of};

use crate::bound::Bound;
use crate::frames::Frame;
use crate::plain::plain_of;
use crate::values::{is_met, value_of};
use mesh_base::Op;
use mesh_list::Memory;
use std::alloc::Global;

fn is_and(op: Op) -> bool
    ensures { IsTrue result → op ≡ Op.And }
{
    matches!(op, Op::And)
}

fn plain_holds<'v>(alloc: Global, b: &'v Bound, f: &Frame<'v, 'v>) -> Result<bool, Memory>
    ensures { IfOk result (λ t. t ≡ is_true (bound_value b.now (given_of f.now))) }
{
    match plain_of(b, f) {
        Some(p) => Ok(p.is_true()),
        None => is_met(value_of(alloc, b, f)),
    }
}

/// Whether the value of a condition is true: of an AND the right side is looked at only where the left one is true.
pub fn holds<'v>(alloc: Global, b: &'v Bound, f: &Frame<'v, 'v>) -> Result<bool, Memory>
    ensures { IfOk result (λ t. t ≡ is_true (bound_value b.now (given_of f.now))) }
{
    match b {
        Bound::Plain(value) => plain_holds(alloc, value.get(), f),
        Bound::Binary { op, left, right } => {
            if is_and(*op) {
                return Ok(holds(alloc, left.get(), f)? && holds(alloc, right.get(), f)?);
            }
            is_met(value_of(alloc, b, f))
        }
        _ => is_met(value_of(alloc, b, f)),
    }
}
