// The steps of the walk, over the answers for their operands: the fault of an operand comes before that of the form.
ghost use Rattle.std.specs.Prelude.{◌≡◌, Ok};
ghost use Rattle.std.specs.declared.option.Option.TheVariants.{Some};
ghost use Rattle.mesh_base_values.specs.declared.values.ColType.TheVariants.{Text};
ghost use Rattle.mesh_base_values.specs.declared.values.Cell.TheVariants as cell;
ghost use Rattle.mesh_base.specs.declared.expressions.Expr as expr;
ghost use Rattle.mesh_query_tokens.specs.Gives.{Gives};
ghost use Rattle.mesh_resolve_types.specs.Forms.{leaf, uniform, added, multiplied, null_test, turned};
ghost use Rattle.mesh_resolve_scope.specs.Expressions.{number};
ghost use Rattle.mesh_resolve_scope.specs.Steps.{after, of_both, with_last, next_part, whole, all_cast, compared_with, between_both, among_all, cast_value, in_turn, case_over};

use mesh_base::{Expr, Op};
use mesh_base_values::{Cell, ColType, LARGEST_NUMBER, Str};
use mesh_list::{Duplicate, Seq};
use mesh_query_grammar::surface::{AddSign, MulSign};
use mesh_query_tokens::ReadFault;
use mesh_resolve_types::{
    Arms, Typed, Typeds, added, between, cased, cast, compared, leaf, multiplied, null_test,
    one_of, too_large_number, turned, uniform, unwritten,
};
use std::alloc::Global;

// One more part of a chain of this operator, over operands of this type.
pub(crate) fn next_part(
    alloc: Global,
    kind: ColType,
    op: Op,
    at: u64,
    left: Result<Option<Typed>, ReadFault>,
    right: Result<Typed, ReadFault>,
) -> Result<Option<Typed>, ReadFault>
    ensures { Gives result (of_both (next_part (uniform kind op at)) left right) }
{
    let (left, right) = in_turn(left, right)?;
    match left {
        None => Ok(Some(right)),
        Some(left) => Ok(Some(uniform(alloc, kind, op, at, left, right)?)),
    }
}

// The chain, which begins at this place.
pub(crate) fn whole(at: u64, chain: Result<Option<Typed>, ReadFault>) -> Result<Typed, ReadFault>
    ensures { Gives result (after (whole at) chain) }
{
    match chain? {
        None => Err(unwritten(at)),
        Some(t) => Ok(t),
    }
}

pub(crate) fn next_term(
    alloc: Global,
    sign: AddSign,
    at: u64,
    left: Result<Typed, ReadFault>,
    right: Result<Typed, ReadFault>,
) -> Result<Typed, ReadFault>
    ensures { Gives result (of_both (added sign at) left right) }
{
    let (left, right) = in_turn(left, right)?;
    added(alloc, sign, at, left, right)
}

pub(crate) fn next_factor(
    alloc: Global,
    sign: MulSign,
    at: u64,
    left: Result<Typed, ReadFault>,
    right: Result<Typed, ReadFault>,
) -> Result<Typed, ReadFault>
    ensures { Gives result (of_both (multiplied sign at) left right) }
{
    let (left, right) = in_turn(left, right)?;
    multiplied(alloc, sign, at, left, right)
}

pub(crate) fn compared_with(
    alloc: Global,
    op: Op,
    at: u64,
    left: Typed,
    right: Result<Typed, ReadFault>,
) -> Result<Typed, ReadFault>
    ensures { Gives result (compared_with op at left right) }
{
    compared(alloc, op, at, left, right?)
}

// Whether there is no value, or there is one.
pub(crate) fn without_value(
    alloc: Global,
    negated: bool,
    at: u64,
    value: Typed,
) -> Result<Typed, ReadFault>
    ensures { Gives result (Ok (turned negated (null_test at value))) }
{
    let t = null_test(alloc, at, value)?;
    Ok(turned(alloc, negated, t)?)
}

pub(crate) fn between_both(
    alloc: Global,
    negated: bool,
    at: u64,
    value: Typed,
    ends: Result<(Typed, Typed), ReadFault>,
) -> Result<Typed, ReadFault>
    ensures { Gives result (between_both negated at value ends) }
{
    let (low, high) = ends?;
    let t = between(alloc, at, value, low, high)?;
    Ok(turned(alloc, negated, t)?)
}

pub(crate) fn among_all(
    alloc: Global,
    negated: bool,
    at: u64,
    value: Typed,
    of: Result<Typeds, ReadFault>,
) -> Result<Typed, ReadFault>
    ensures { Gives result (among_all negated at value of) }
{
    let t = one_of(alloc, at, value, of?)?;
    Ok(turned(alloc, negated, t)?)
}

pub(crate) fn cast_value(
    alloc: Global,
    at: u64,
    to: ColType,
    value: Result<Typed, ReadFault>,
) -> Result<Typed, ReadFault>
    ensures { Gives result (cast_value at to value) }
{
    cast(alloc, at, to, value?)
}

// The value as the first of these types, that as the second, and so on.
pub(crate) fn all_cast(
    alloc: Global,
    at: u64,
    value: Result<Typed, ReadFault>,
    casts: &[ColType],
) -> Result<Typed, ReadFault>
    ensures { Gives result (all_cast at value casts.now) }
{
    let mut t = value?;
    for to in casts {
        t = cast(alloc, at, *to, t)?;
    }
    Ok(t)
}

// One more item, where there is one.
pub(crate) fn pushed<T: Drop>(
    made: Result<Seq<T>, ReadFault>,
    item: Result<T, ReadFault>,
) -> Result<Seq<T>, ReadFault>
    ensures { Gives result (of_both with_last made item) }
{
    let (mut made, item) = in_turn(made, item)?;
    made.push(item)?;
    Ok(made)
}

// Both, or the fault of the first, or that of the second.
pub(crate) fn in_turn<A: Drop, B: Drop>(
    a: Result<A, ReadFault>,
    b: Result<B, ReadFault>,
) -> Result<(A, B), ReadFault>
    ensures { Gives result (in_turn a b) }
{
    match a {
        Ok(x) => Ok((x, b?)),
        Err(fault) => {
            drop(b);
            Err(fault)
        }
    }
}

pub(crate) fn case_over(
    alloc: Global,
    at: u64,
    operand: Result<Option<Typed>, ReadFault>,
    arms: Result<Arms, ReadFault>,
    otherwise: Result<Option<Typed>, ReadFault>,
) -> Result<Typed, ReadFault>
    ensures { Gives result (case_over at operand arms otherwise) }
{
    let ((operand, arms), otherwise) = in_turn(in_turn(operand, arms), otherwise)?;
    cased(alloc, at, operand, arms, otherwise)
}

pub(crate) fn number(alloc: Global, at: u64, value: u64) -> Result<Typed, ReadFault>
    ensures { Gives result (number at value) }
{
    if value > LARGEST_NUMBER {
        return Err(too_large_number(alloc, at));
    }
    literal(alloc, at, Some(ColType::Int), Cell::Int(value as i64))
}

pub(crate) fn text(alloc: Global, at: u64, text: &Str) -> Result<Typed, ReadFault>
    ensures { Gives result (Ok (leaf at (Some Text) (expr.Literal (cell.Text text.now)))) }
{
    literal(alloc, at, Some(ColType::Text), Cell::Text(text.copy()?))
}

pub(crate) fn literal(
    alloc: Global,
    at: u64,
    kind: Option<ColType>,
    value: Cell,
) -> Result<Typed, ReadFault>
    ensures { Gives result (Ok (leaf at kind (expr.Literal value))) }
{
    Ok(leaf(alloc, at, kind, Expr::Literal(value))?)
}
