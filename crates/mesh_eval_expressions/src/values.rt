// The value of a bound expression.
ghost use Rattle.std.specs.Prelude.{◌≡◌, [], ◌∷◌, List, IfOk, map, pos, length};
ghost use Rattle.std.specs.List.{fold};
ghost use Rattle.std.specs.Ordering.{is_eq};
ghost use Rattle.mesh_spec_query.specs.Cells.{is_null, is_true, compared, either, negative, opposite, op_value, between, chosen, one_of, func_value, coalesce};
ghost use Rattle.mesh_time_days.specs.casts.Casts.{cast_value};
ghost use Rattle.mesh_spec_query.specs.Aggregates.{agg_value, count_of};
ghost use Rattle.mesh_eval_expressions.specs.bound.Meaning.{bound_value, bound_each, bound_when, bound_whens, row_alone, over_rows};
ghost use Rattle.mesh_eval_expressions.specs.Frames.{given_of, members};
ghost use Rattle.mesh_eval_rows.specs.joins.joined.Joined.{shown};
ghost use Rattle.mesh_eval_rows.specs.Plain.{cell_of};

use crate::aggregates::aggregate;
use crate::bound::{Bound, BoundWhen};
use crate::frames::{Frame, Members, key_value, lent_at, lent_rows, row_frame};
use crate::plain::plain_of;
use mesh_base::{AggKind, Func, Op};
use mesh_base_values::{Cell, ColType, Row};
use mesh_eval_rows::{
    Held, Helds, Plain, call, call_one, equal, is_null, kept, lies_between, made_of, negate, not,
    operate_cells, or,
};
use mesh_list::{Memory, push_made, together};
use mesh_time_days::casts::cast;
use std::alloc::Global;

/// The value of a bound expression, where it lies if it is a cell of a row, of a key or of the expression. A function
/// pays at its entry for all that its arms hold, so what is asked for most stands in short ones.
#[cycle(values)]
pub fn value_of<'v>(alloc: Global, b: &'v Bound, f: &Frame<'v, 'v>) -> Result<Held<'v>, Memory>
    ensures { IfOk result (λ v. v ≡ bound_value b.now (given_of f.now)) }
{
    match b {
        Bound::Lies(spot) => Ok(lent_at(f.row, *spot)),
        Bound::Known(cell) => Ok(Held::lent(cell)),
        Bound::Key(k) => Ok(key_value(f.key_values, *k)),
        Bound::Plain(value) => marked_value(alloc, value.get(), f),
        _ => operator_value(alloc, b, f),
    }
}

/// The value of an expression that is marked as one that takes no memory.
#[cycle(values)]
fn marked_value<'v>(alloc: Global, b: &'v Bound, f: &Frame<'v, 'v>) -> Result<Held<'v>, Memory>
    ensures { IfOk result (λ v. v ≡ bound_value b.now (given_of f.now)) }
{
    match plain_of(b, f) {
        Some(p) => made_of(p.into_cell()),
        None => value_of(alloc, b, f),
    }
}

#[cycle(values)]
fn operator_value<'v>(alloc: Global, b: &'v Bound, f: &Frame<'v, 'v>) -> Result<Held<'v>, Memory>
    ensures { IfOk result (λ v. v ≡ bound_value b.now (given_of f.now)) }
{
    match b {
        Bound::Binary { op, left, right } => operated(
            *op,
            value_of(alloc, left.get(), f),
            value_of(alloc, right.get(), f),
        ),
        _ => node_value(alloc, b, f),
    }
}

#[cycle(values)]
#[inline(never)]
fn node_value<'v>(alloc: Global, b: &'v Bound, f: &Frame<'v, 'v>) -> Result<Held<'v>, Memory>
    ensures { IfOk result (λ v. v ≡ bound_value b.now (given_of f.now)) }
{
    match b {
        Bound::Lies(spot) => Ok(lent_at(f.row, *spot)),
        Bound::Known(cell) => Ok(Held::lent(cell)),
        Bound::Key(k) => Ok(key_value(f.key_values, *k)),
        Bound::Binary { op, left, right } => operated(
            *op,
            value_of(alloc, left.get(), f),
            value_of(alloc, right.get(), f),
        ),
        Bound::Neg(value) => negated(value_of(alloc, value.get(), f)),
        Bound::Not(value) => opposed(value_of(alloc, value.get(), f)),
        Bound::IsNull(value) => null_test(value_of(alloc, value.get(), f)),
        Bound::Between { value, low, high } => placed(
            value_of(alloc, value.get(), f),
            value_of(alloc, low.get(), f),
            value_of(alloc, high.get(), f),
        ),
        Bound::OneOf { value, of } => {
            let x = value_of(alloc, value.get(), f)?;
            let found = one_equals(alloc, &x, of.as_slice(), f);
            drop(x);
            found
        }
        Bound::Cast { to, value } => converted(alloc, *to, value_of(alloc, value.get(), f)),
        Bound::Call { func, args } => over_args(alloc, *func, args.as_slice(), f),
        Bound::Case { whens, otherwise } => {
            // ELSE has its value only where no WHEN is true.
            let found = first_true(alloc, whens.as_slice(), f)?;
            match found {
                Some(v) => Ok(v),
                None => value_of(alloc, otherwise.get(), f),
            }
        }
        Bound::CountAll => Ok(Held::made(count_group(f))),
        Bound::Agg { kind, value } => over_group(alloc, *kind, value.get(), f),
        Bound::Plain(value) => value_of(alloc, value.get(), f),
    }
}

// The value of a node where each operand has its own, outside the recursion.

fn operated<'v>(
    op: Op,
    left: Result<Held, Memory>,
    right: Result<Held, Memory>,
) -> Result<Held<'v>, Memory>
    ensures { (x y : Cell) → IfOk left.entry (λ v. v ≡ x) → IfOk right.entry (λ v. v ≡ y) → IfOk result (λ v. v ≡ op_value op x y) }
{
    match (&left, &right) {
        (Ok(x), Ok(y)) => made_of(operate_cells(op, x.get(), y.get())),
        _ => Err(Memory),
    }
}

fn negated<'v>(value: Result<Held, Memory>) -> Result<Held<'v>, Memory>
    ensures { (x : Cell) → IfOk value.entry (λ v. v ≡ x) → IfOk result (λ v. v ≡ negative x) }
{
    made_of(negate(Plain::of(value?.get())).into_cell())
}

fn opposed<'v>(value: Result<Held, Memory>) -> Result<Held<'v>, Memory>
    ensures { (x : Cell) → IfOk value.entry (λ v. v ≡ x) → IfOk result (λ v. v ≡ opposite x) }
{
    made_of(not(Plain::of(value?.get())).into_cell())
}

fn null_test<'v>(value: Result<Held, Memory>) -> Result<Held<'v>, Memory>
    ensures { (x : Cell) → IfOk value.entry (λ v. v ≡ x) → IfOk result (λ v. v ≡ Cell.Bool (is_null x)) }
{
    Ok(Held::made(Cell::Bool(is_null(value?.get()))))
}

fn placed<'v>(
    value: Result<Held, Memory>,
    low: Result<Held, Memory>,
    high: Result<Held, Memory>,
) -> Result<Held<'v>, Memory>
    ensures { (x a b : Cell) → IfOk value.entry (λ v. v ≡ x) → IfOk low.entry (λ v. v ≡ a) → IfOk high.entry (λ v. v ≡ b) → IfOk result (λ v. v ≡ between x a b) }
{
    let (x, (a, b)) = together(value, together(low, high))?;
    made_of(lies_between(Plain::of(x.get()), Plain::of(a.get()), Plain::of(b.get())).into_cell())
}

fn converted<'v>(
    alloc: Global,
    to: ColType,
    value: Result<Held, Memory>,
) -> Result<Held<'v>, Memory>
    ensures { (x : Cell) → IfOk value.entry (λ v. v ≡ x) → IfOk result (λ v. v ≡ cast_value to x) }
{
    made_of(cast(alloc, to, kept(value)?))
}

fn called<'v>(func: Func, args: Result<Row, Memory>) -> Result<Held<'v>, Memory>
    ensures { (xs : List Cell) → IfOk args (λ v. v ≡ xs) → IfOk result (λ v. v ≡ func_value func xs) }
{
    made_of(call(func, args?))
}

fn called_one<'v>(func: Func, value: Result<Held, Memory>) -> Result<Held<'v>, Memory>
    ensures { (x : Cell) → IfOk value.entry (λ v. v ≡ x) → IfOk result (λ v. v ≡ func_value func (x ∷ [])) }
{
    made_of(call_one(func, value?.get()))
}

fn null_if<'v>(
    left: Result<Held<'v>, Memory>,
    right: Result<Held, Memory>,
) -> Result<Held<'v>, Memory>
    ensures { (x y : Cell) → IfOk left.entry (λ v. v ≡ x) → IfOk right.entry (λ v. v ≡ y) → IfOk result (λ v. v ≡ func_value Func.Nullif (x ∷ y ∷ [])) }
{
    let (x, y) = together(left, right)?;
    let same = equal(Plain::of(x.get()), Plain::of(y.get())).is_true();
    drop(y);
    if same {
        drop(x);
        Ok(Held::made(Cell::Null))
    } else {
        Ok(x)
    }
}

// Whether one was found before, or x equals one more value.
fn or_equal<'v>(found: Plain, x: &Held, value: Result<Held, Memory>) -> Result<Plain<'v>, Memory>
    ensures { (y : Cell) → IfOk value.entry (λ v. v ≡ y) → IfOk result (λ v. cell_of v ≡ either (cell_of found.entry) (compared is_eq x.now y)) }
{
    match value {
        Ok(y) => Ok(or(found, equal(Plain::of(x.get()), Plain::of(y.get())))),
        Err(Memory) => Err(Memory),
    }
}

/// Whether the value of a condition is true.
pub(crate) fn is_met(value: Result<Held, Memory>) -> Result<bool, Memory>
    ensures { (x : Cell) → IfOk value.entry (λ v. v ≡ x) → IfOk result (λ b. b ≡ is_true x) }
{
    let value = value?;
    let met = Plain::of(value.get()).is_true();
    drop(value);
    Ok(met)
}

#[cycle(values)]
fn over_group<'v>(
    alloc: Global,
    kind: AggKind,
    value: &'v Bound,
    f: &Frame<'v, 'v>,
) -> Result<Held<'v>, Memory>
    ensures { IfOk result (λ v. v ≡ over_rows (λ rows. agg_value kind (map (λ row. bound_value value.now (row_alone row)) rows)) (given_of f.now).group) }
{
    match &f.group {
        None => Ok(Held::made(Cell::Null)),
        Some(group) => {
            let cells = value_cells(alloc, value, group)?;
            made_of(aggregate(alloc, kind, cells.as_slice()))
        }
    }
}

fn count_group(f: &Frame) -> Cell
    ensures { result ≡ over_rows count_of (given_of f.now).group }
{
    match &f.group {
        None => Cell::Null,
        Some(group) => count_rows(group),
    }
}

/// The values of bound expressions, each for itself.
#[cycle(values)]
pub fn values_of<'v>(alloc: Global, all: &'v [Bound], f: &Frame<'v, 'v>) -> Result<Row, Memory>
    ensures { IfOk result (λ v. v ≡ bound_each all.now (given_of f.now)) }
{
    let mut made = Row::from_vec(Vec::with_capacity(alloc, all.len())?);
    for b in all {
        push_made(&mut made, kept(value_of(alloc, b, f)))?;
    }
    Ok(made)
}

/// The value of a function, which takes no memory for one argument, for two, or for the first that isn't NULL.
#[cycle(values)]
fn over_args<'v>(
    alloc: Global,
    func: Func,
    args: &'v [Bound],
    f: &Frame<'v, 'v>,
) -> Result<Held<'v>, Memory>
    ensures { IfOk result (λ v. v ≡ func_value func (bound_each args.now (given_of f.now))) }
{
    match func {
        Func::Coalesce => first_known(alloc, args, f),
        Func::Nullif => match args {
            [x, y] => null_if(value_of(alloc, x, f), value_of(alloc, y, f)),
            _ => called(func, values_of(alloc, args, f)),
        },
        _ => match args {
            [x] => called_one(func, value_of(alloc, x, f)),
            _ => called(func, values_of(alloc, args, f)),
        },
    }
}

/// The value of the first that isn't NULL, behind which none is looked at.
#[cycle(values)]
fn first_known<'v>(alloc: Global, all: &'v [Bound], f: &Frame<'v, 'v>) -> Result<Held<'v>, Memory>
    ensures { IfOk result (λ v. v ≡ coalesce (bound_each all.now (given_of f.now))) }
{
    let mut first = Held::made(Cell::Null);
    for b in all {
        if is_null(first.get()) {
            drop(first);
            first = value_of(alloc, b, f)?;
        }
    }
    Ok(first)
}

/// Whether x equals one of them, of which none is looked at behind the first that it equals.
#[cycle(values)]
fn one_equals<'v>(
    alloc: Global,
    x: &Held,
    all: &'v [Bound],
    f: &Frame<'v, 'v>,
) -> Result<Held<'v>, Memory>
    ensures { IfOk result (λ v. v ≡ one_of x.now (bound_each all.now (given_of f.now))) }
{
    let mut found = Plain::Bool(false);
    for b in all {
        if !found.is_true() {
            found = or_equal(found, x, value_of(alloc, b, f))?;
        }
    }
    made_of(found.into_cell())
}

/// The value of the first WHEN that is true.
#[cycle(values)]
fn first_true<'v>(
    alloc: Global,
    whens: &'v [BoundWhen],
    f: &Frame<'v, 'v>,
) -> Result<Option<Held<'v>>, Memory>
    ensures { IfOk result (λ v. v ≡ fold chosen None (bound_whens whens.now (given_of f.now))) }
{
    let mut found = None;
    for w in whens {
        if found.is_none() {
            drop(found);
            found = if_true(alloc, w, f)?;
        }
    }
    Ok(found)
}

#[tactic(auto, using(crate::proofs::Nodes::when_is))]
#[cycle(values)]
fn if_true<'v>(
    alloc: Global,
    w: &'v BoundWhen,
    f: &Frame<'v, 'v>,
) -> Result<Option<Held<'v>>, Memory>
    ensures { IfOk result (λ v. v ≡ chosen None (bound_when w.now (given_of f.now))) }
{
    if is_met(value_of(alloc, &w.test, f))? {
        let value = value_of(alloc, &w.value, f)?;
        Ok(Some(value))
    } else {
        Ok(None)
    }
}

fn count_rows(group: &Members) -> Cell
    ensures { result ≡ Cell.Int (pos (length (members group.now))) }
{
    Cell::Int(group.places.len() as i64)
}

/// The values at each row of a group, of a column where they lie.
#[cycle(values)]
fn value_cells<'v>(
    alloc: Global,
    value: &'v Bound,
    group: &Members<'v, 'v>,
) -> Result<Helds<'v>, Memory>
    ensures { IfOk result (λ v. v ≡ map (λ row. bound_value value.now (row_alone row)) (members group.now)) }
{
    match value {
        Bound::Lies(spot) => lent_rows(alloc, *spot, group),
        _ => value_rows(alloc, value, group),
    }
}

/// The values at each row of a group.
#[cycle(values)]
fn value_rows<'v>(
    alloc: Global,
    value: &'v Bound,
    group: &Members<'v, 'v>,
) -> Result<Helds<'v>, Memory>
    ensures { IfOk result (λ v. v ≡ map (λ row. bound_value value.now (row_alone row)) (members group.now)) }
{
    let mut made = Helds::new(alloc);
    for at in group.places {
        let f = row_frame(group.rows.get(*at));
        push_made(&mut made, value_of(alloc, value, &f))?;
    }
    Ok(made)
}

/// The cell of an expression that is marked as one that takes no memory.
fn marked_cell<'v>(alloc: Global, b: &'v Bound, f: &Frame<'v, 'v>) -> Result<Cell, Memory>
    ensures { IfOk result (λ v. v ≡ bound_value b.now (given_of f.now)) }
{
    match plain_of(b, f) {
        Some(p) => p.into_cell(),
        None => kept(value_of(alloc, b, f)),
    }
}

/// The value at a row by itself.
pub fn value_alone<'v>(
    alloc: Global,
    value: &'v Bound,
    row: &'v [&'v [Cell]],
) -> Result<Cell, Memory>
    ensures { IfOk result (λ v. v ≡ bound_value value.now (row_alone (shown row.now))) }
{
    let f = row_frame(row);
    match value {
        Bound::Plain(b) => marked_cell(alloc, b.get(), &f),
        _ => kept(value_of(alloc, value, &f)),
    }
}
