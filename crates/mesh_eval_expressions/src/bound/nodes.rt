// Nodes that are bound, from their parts.
ghost use Rattle.std.specs.Prelude.{◌≡◌, List, IfOk, Ok, map};
ghost use Rattle.mesh_base_values.specs.declared.values.Cell.{Cell as Shown};
ghost use Rattle.mesh_time_days.specs.casts.Casts.{cast_value};
ghost use Rattle.mesh_spec_query.specs.Aggregates.{agg_value};
ghost use Rattle.mesh_spec_query.specs.Cells.{is_null, op_value, negative, opposite, between, one_of, case_value, func_value};
ghost use Rattle.mesh_eval_expressions.specs.bound.Meaning.{Given, Means, EachMeans, WhenMeans, WhensMean, row_alone, over_rows};

use crate::bound::forms::{Bound, BoundWhen, BoundWhens, Bounded};
use mesh_base::{AggKind, Func, Op};
use mesh_base_values::{Cell, ColType};
use mesh_list::{Boxed, Memory, together};
use std::alloc::Global;

fn boxed(alloc: Global, value: Result<Bound, Memory>) -> Result<Boxed<Bound>, Memory>
    ensures { IfOk result (λ made. value ≡ Ok made) }
{
    Boxed::new(alloc, value?)
}

pub(crate) fn binary(
    alloc: Global,
    op: Op,
    left: Result<Bound, Memory>,
    right: Result<Bound, Memory>,
) -> Result<Bound, Memory>
    ensures { (f h : Given → Shown) → IfOk left (Means f) → IfOk right (Means h) → IfOk result (Means (λ g. op_value op (f g) (h g))) }
{
    let (left, right) = together(boxed(alloc, left), boxed(alloc, right))?;
    Ok(Bound::Binary { op, left, right })
}

pub(crate) fn neg(alloc: Global, value: Result<Bound, Memory>) -> Result<Bound, Memory>
    ensures { (f : Given → Shown) → IfOk value (Means f) → IfOk result (Means (λ g. negative (f g))) }
{
    Ok(Bound::Neg(boxed(alloc, value)?))
}

pub(crate) fn not(alloc: Global, value: Result<Bound, Memory>) -> Result<Bound, Memory>
    ensures { (f : Given → Shown) → IfOk value (Means f) → IfOk result (Means (λ g. opposite (f g))) }
{
    Ok(Bound::Not(boxed(alloc, value)?))
}

pub(crate) fn null_test(alloc: Global, value: Result<Bound, Memory>) -> Result<Bound, Memory>
    ensures { (f : Given → Shown) → IfOk value (Means f) → IfOk result (Means (λ g. Cell.Bool (is_null (f g)))) }
{
    Ok(Bound::IsNull(boxed(alloc, value)?))
}

pub(crate) fn placed(
    alloc: Global,
    value: Result<Bound, Memory>,
    low: Result<Bound, Memory>,
    high: Result<Bound, Memory>,
) -> Result<Bound, Memory>
    ensures { (f h k : Given → Shown) → IfOk value (Means f) → IfOk low (Means h) → IfOk high (Means k) → IfOk result (Means (λ g. between (f g) (h g) (k g))) }
{
    let ends = together(boxed(alloc, low), boxed(alloc, high));
    let (value, (low, high)) = together(boxed(alloc, value), ends)?;
    Ok(Bound::Between { value, low, high })
}

pub(crate) fn listed(
    alloc: Global,
    value: Result<Bound, Memory>,
    of: Result<Bounded, Memory>,
) -> Result<Bound, Memory>
    ensures { (f : Given → Shown) (h : Given → List Shown) → IfOk value (Means f) → IfOk of (EachMeans h) → IfOk result (Means (λ g. one_of (f g) (h g))) }
{
    let (value, of) = together(boxed(alloc, value), of)?;
    Ok(Bound::OneOf { value, of })
}

pub(crate) fn cast(
    alloc: Global,
    to: ColType,
    value: Result<Bound, Memory>,
) -> Result<Bound, Memory>
    ensures { (f : Given → Shown) → IfOk value (Means f) → IfOk result (Means (λ g. cast_value to (f g))) }
{
    let value = boxed(alloc, value)?;
    Ok(Bound::Cast { to, value })
}

pub(crate) fn call(func: Func, args: Result<Bounded, Memory>) -> Result<Bound, Memory>
    ensures { (h : Given → List Shown) → IfOk args (EachMeans h) → IfOk result (Means (λ g. func_value func (h g))) }
{
    let args = args?;
    Ok(Bound::Call { func, args })
}

pub(crate) fn case(
    alloc: Global,
    whens: Result<BoundWhens, Memory>,
    otherwise: Result<Bound, Memory>,
) -> Result<Bound, Memory>
    ensures { (h : Given → List (Shown × Shown)) (f : Given → Shown) → IfOk whens (WhensMean h) → IfOk otherwise (Means f) → IfOk result (Means (λ g. case_value (h g) (f g))) }
{
    let (whens, otherwise) = together(whens, boxed(alloc, otherwise))?;
    Ok(Bound::Case { whens, otherwise })
}

pub(crate) fn when(
    test: Result<Bound, Memory>,
    value: Result<Bound, Memory>,
) -> Result<BoundWhen, Memory>
    ensures { (f h : Given → Shown) → IfOk test (Means f) → IfOk value (Means h) → IfOk result (WhenMeans (λ g. (f g, h g))) }
{
    let (test, value) = together(test, value)?;
    Ok(BoundWhen { test, value })
}

pub(crate) fn aggregate(
    alloc: Global,
    kind: AggKind,
    value: Result<Bound, Memory>,
) -> Result<Bound, Memory>
    ensures { (f : Given → Shown) → IfOk value (Means f) → IfOk result (Means (λ g. over_rows (λ rows. agg_value kind (map (λ row. f (row_alone row)) rows)) g.group)) }
{
    let value = boxed(alloc, value)?;
    Ok(Bound::Agg { kind, value })
}
