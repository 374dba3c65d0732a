// Operators over one operand and over two.
ghost use Rattle.std.specs.Prelude.{◌≡◌, IfOk};
ghost use Rattle.mesh_query_tokens.specs.Gives.{Gives};
ghost use Rattle.mesh_resolve_types.specs.Forms.{over_two, uniform, multiplied, sum_op, added, negated, denied, null_test, turned, compare_op, compared_as_they_are, compared, cast};

use crate::dates::{dated, is_date};
use crate::faults::mismatch;
use crate::lists::with_marks;
use crate::rules::{are_alike, may_be, may_cast, sum_kind};
use crate::typed::{Typed, judged, with_made, with_parts};
use mesh_base::{Expr, Op};
use mesh_base_values::ColType;
use mesh_list::{Memory, together};
use mesh_query_grammar::surface::{AddSign, Cmp, MulSign};
use mesh_query_tokens::ReadFault;
use std::alloc::Global;

fn over_two(
    alloc: Global,
    at: u64,
    kind: ColType,
    op: Op,
    left: Typed,
    right: Typed,
) -> Result<Typed, Memory>
    ensures { IfOk result (λ made. made ≡ over_two at kind op left right) }
{
    let Typed {
        expr: left,
        marks: before,
        ..
    } = left;
    let Typed {
        expr: right,
        marks: behind,
        ..
    } = right;
    with_made(
        alloc,
        at,
        Some(kind),
        Expr::Binary { op, left, right },
        with_marks(before, &behind),
    )
}

/// An operator whose operands are of one type, which is also that of the whole: AND, OR and `||`.
#[tactic(auto, unfolding(crate::specs::Forms::uniform))]
pub fn uniform(
    alloc: Global,
    kind: ColType,
    op: Op,
    at: u64,
    left: Typed,
    right: Typed,
) -> Result<Typed, ReadFault>
    ensures { Gives result (uniform kind op at left right) }
{
    let fits = may_be(kind, left.kind) && may_be(kind, right.kind);
    judged(fits, at, over_two(alloc, at, kind, op, left, right))
}

/// `*`, `/` and `%`.
pub fn multiplied(
    alloc: Global,
    sign: MulSign,
    at: u64,
    left: Typed,
    right: Typed,
) -> Result<Typed, ReadFault>
    ensures { Gives result (multiplied sign at left right) }
{
    let op = match sign {
        MulSign::Times => Op::Mul,
        MulSign::Over => Op::Div,
        MulSign::Modulo => Op::Rem,
    };
    uniform(alloc, ColType::Int, op, at, left, right)
}

fn sum_op(sign: AddSign) -> Op
    ensures { result ≡ sum_op sign }
{
    match sign {
        AddSign::Plus => Op::Add,
        AddSign::Minus => Op::Sub,
    }
}

/// `+` and `-` between two operands, of which one or both may be dates.
#[tactic(auto, unfolding(crate::specs::Forms::added))]
pub fn added(
    alloc: Global,
    sign: AddSign,
    at: u64,
    left: Typed,
    right: Typed,
) -> Result<Typed, ReadFault>
    ensures { Gives result (added sign at left right) }
{
    match sum_kind(sign, left.kind, right.kind) {
        Some(kind) => Ok(over_two(alloc, at, kind, sum_op(sign), left, right)?),
        None => Err(mismatch(at)),
    }
}

/// A minus before its operand.
#[tactic(auto, unfolding(crate::specs::Forms::negated))]
pub fn negated(alloc: Global, at: u64, t: Typed) -> Result<Typed, ReadFault>
    ensures { Gives result (negated at t) }
{
    let Typed {
        kind,
        expr,
        marks,
        ..
    } = t;
    let made = with_parts(alloc, at, Some(ColType::Int), Expr::Neg(expr), marks);
    judged(may_be(ColType::Int, kind), at, made)
}

/// NOT before its operand.
#[tactic(auto, unfolding(crate::specs::Forms::denied))]
pub fn denied(alloc: Global, at: u64, t: Typed) -> Result<Typed, ReadFault>
    ensures { Gives result (denied at t) }
{
    let Typed {
        kind,
        expr,
        marks,
        ..
    } = t;
    let made = with_parts(alloc, at, Some(ColType::Bool), Expr::Not(expr), marks);
    judged(may_be(ColType::Bool, kind), at, made)
}

/// IS NULL, which asks for no type.
pub fn null_test(alloc: Global, at: u64, t: Typed) -> Result<Typed, Memory>
    ensures { IfOk result (λ made. made ≡ null_test at t) }
{
    let Typed { expr, marks, .. } = t;
    with_parts(alloc, at, Some(ColType::Bool), Expr::IsNull(expr), marks)
}

/// The negation of a form whose word NOT stands inside it, as IS NOT NULL; it keeps place and type.
pub fn turned(alloc: Global, negated: bool, t: Typed) -> Result<Typed, Memory>
    ensures { IfOk result (λ made. made ≡ turned negated t) }
{
    if negated {
        let Typed {
            at,
            kind,
            expr,
            marks,
        } = t;
        with_parts(alloc, at, kind, Expr::Not(expr), marks)
    } else {
        Ok(t)
    }
}

/// The operator that a sign of comparison is.
pub fn compare_op(cmp: Cmp) -> Op
    ensures { result ≡ compare_op cmp }
{
    match cmp {
        Cmp::Eq => Op::Eq,
        Cmp::Ne => Op::Ne,
        Cmp::Lt => Op::Lt,
        Cmp::Le => Op::Le,
        Cmp::Gt => Op::Gt,
        Cmp::Ge => Op::Ge,
    }
}

fn compared_as_they_are(
    alloc: Global,
    op: Op,
    at: u64,
    left: Typed,
    right: Typed,
) -> Result<Typed, ReadFault>
    ensures { Gives result (compared_as_they_are op at left right) }
{
    let fits = are_alike(left.kind, right.kind);
    judged(
        fits,
        at,
        over_two(alloc, at, ColType::Bool, op, left, right),
    )
}

/// A comparison. Beside a date, a text literal of a day is that date.
#[tactic(auto, unfolding(crate::specs::Forms::compared))]
pub fn compared(
    alloc: Global,
    op: Op,
    at: u64,
    left: Typed,
    right: Typed,
) -> Result<Typed, ReadFault>
    ensures { Gives result (compared op at left right) }
{
    let turn_right = is_date(&left);
    let turn_left = !turn_right && is_date(&right);
    let (left, right) = together(dated(turn_left, left), dated(turn_right, right))?;
    compared_as_they_are(alloc, op, at, left, right)
}

/// CAST, and `::`.
#[tactic(auto, unfolding(crate::specs::Forms::cast))]
pub fn cast(alloc: Global, at: u64, to: ColType, t: Typed) -> Result<Typed, ReadFault>
    ensures { Gives result (cast at to t) }
{
    let Typed {
        kind,
        expr: value,
        marks,
        ..
    } = t;
    let made = with_parts(alloc, at, Some(to), Expr::Cast { to, value }, marks);
    judged(may_cast(to, kind), at, made)
}
