// Values that take no memory.
ghost use Rattle.std.specs.Prelude.{◌≡◌, [], ◌∷◌, slice_index_or, IfSome};
ghost use Rattle.std.specs.List.{fold};
ghost use Rattle.std.specs.Option.{option_map};
ghost use Rattle.mesh_time_days.specs.casts.Casts.{cast_value};
ghost use Rattle.mesh_spec_query.specs.Cells.{is_null, op_value, negative, opposite, between, one_of, chosen, func_value, coalesce};
ghost use Rattle.mesh_eval_expressions.specs.bound.Meaning.{bound_value, bound_each, bound_whens};
ghost use Rattle.mesh_eval_expressions.specs.Frames.{given_of};
ghost use Rattle.mesh_eval_rows.specs.joins.joined.Joined.{shown};
ghost use Rattle.mesh_eval_rows.specs.joins.joined.Spots.{cell_at};
ghost use Rattle.mesh_eval_rows.specs.Plain.{cell_of};

use crate::bound::{Bound, BoundWhen};
use crate::frames::Frame;
use mesh_base::{Func, Op};
use mesh_base_values::{Cell, ColType};
use mesh_eval_rows::joins::joined::{Spot, cell_at};
use mesh_eval_rows::{
    Plain, call_plain, cast_plain, equal, lies_between, negate, not, operate, or,
};

/// The cell of a row that lies at a spot.
fn plain_at<'x>(row: &[&'x [Cell]], spot: Option<Spot>) -> Plain<'x>
    ensures { cell_of result ≡ cell_at spot (shown row.now) }
{
    match cell_at(row, spot) {
        Some(cell) => Plain::of(cell),
        None => Plain::Null,
    }
}

/// The value of the key at a place, where there is one.
fn plain_key(cells: &[Cell], k: usize) -> Plain
    ensures { cell_of result ≡ slice_index_or cells.now k Cell.Null }
{
    match cells.get(k) {
        Some(cell) => Plain::of(cell),
        None => Plain::Null,
    }
}

/// The value of a bound expression, where it takes no memory. What is asked for most stands in front, and the rest
/// isn't inlined, since a function pays at its entry for all that its arms hold.
#[cycle(plain)]
pub(crate) fn plain_of<'v>(b: &'v Bound, f: &Frame<'v, 'v>) -> Option<Plain<'v>>
    ensures { IfSome result (λ p. cell_of p ≡ bound_value b.now (given_of f.now)) }
{
    match b {
        Bound::Lies(spot) => Some(plain_at(f.row, *spot)),
        Bound::Known(cell) => Some(Plain::of(cell)),
        Bound::Key(k) => Some(plain_key(f.key_values, *k)),
        Bound::Binary { op, left, right } => {
            operated(*op, plain_of(left.get(), f), plain_of(right.get(), f))
        }
        _ => plain_node(b, f),
    }
}

#[cycle(plain)]
#[inline(never)]
fn plain_node<'v>(b: &'v Bound, f: &Frame<'v, 'v>) -> Option<Plain<'v>>
    ensures { IfSome result (λ p. cell_of p ≡ bound_value b.now (given_of f.now)) }
{
    match b {
        Bound::Plain(value) => plain_of(value.get(), f),
        Bound::Neg(value) => negated(plain_of(value.get(), f)),
        Bound::Not(value) => opposed(plain_of(value.get(), f)),
        Bound::IsNull(value) => null_test(plain_of(value.get(), f)),
        Bound::Between { value, low, high } => placed(
            plain_of(value.get(), f),
            plain_of(low.get(), f),
            plain_of(high.get(), f),
        ),
        Bound::OneOf { value, of } => match plain_of(value.get(), f) {
            Some(x) => one_equals(x, of.as_slice(), f),
            None => None,
        },
        Bound::Cast { to, value } => converted(*to, plain_of(value.get(), f)),
        Bound::Call { func, args } => called(*func, args.as_slice(), f),
        // ELSE has its value only where no WHEN is true.
        Bound::Case { whens, otherwise } => match first_true(whens.as_slice(), f) {
            None => None,
            Some(Some(v)) => Some(v),
            Some(None) => plain_of(otherwise.get(), f),
        },
        _ => None,
    }
}

// The value of a node where each operand has its own, outside the recursion.

fn operated<'v>(op: Op, left: Option<Plain>, right: Option<Plain>) -> Option<Plain<'v>>
    ensures { (x y : Cell) → IfSome left.entry (λ p. cell_of p ≡ x) → IfSome right.entry (λ p. cell_of p ≡ y) → IfSome result (λ p. cell_of p ≡ op_value op x y) }
{
    match (left, right) {
        (Some(x), Some(y)) => operate(op, x, y),
        _ => None,
    }
}

fn negated<'v>(value: Option<Plain>) -> Option<Plain<'v>>
    ensures { (x : Cell) → IfSome value.entry (λ p. cell_of p ≡ x) → IfSome result (λ p. cell_of p ≡ negative x) }
{
    match value {
        Some(x) => Some(negate(x)),
        None => None,
    }
}

fn opposed<'v>(value: Option<Plain>) -> Option<Plain<'v>>
    ensures { (x : Cell) → IfSome value.entry (λ p. cell_of p ≡ x) → IfSome result (λ p. cell_of p ≡ opposite x) }
{
    match value {
        Some(x) => Some(not(x)),
        None => None,
    }
}

fn null_test<'v>(value: Option<Plain>) -> Option<Plain<'v>>
    ensures { (x : Cell) → IfSome value.entry (λ p. cell_of p ≡ x) → IfSome result (λ p. cell_of p ≡ Cell.Bool (is_null x)) }
{
    match value {
        Some(x) => Some(Plain::Bool(x.is_null())),
        None => None,
    }
}

fn placed<'v>(value: Option<Plain>, low: Option<Plain>, high: Option<Plain>) -> Option<Plain<'v>>
    ensures { (x a b : Cell) → IfSome value.entry (λ p. cell_of p ≡ x) → IfSome low.entry (λ p. cell_of p ≡ a) → IfSome high.entry (λ p. cell_of p ≡ b) → IfSome result (λ p. cell_of p ≡ between x a b) }
{
    match (value, low, high) {
        (Some(x), Some(a), Some(b)) => Some(lies_between(x, a, b)),
        _ => None,
    }
}

fn converted<'v>(to: ColType, value: Option<Plain>) -> Option<Plain<'v>>
    ensures { (x : Cell) → IfSome value.entry (λ p. cell_of p ≡ x) → IfSome result (λ p. cell_of p ≡ cast_value to x) }
{
    match value {
        Some(x) => cast_plain(to, x),
        None => None,
    }
}

fn called_one<'v>(func: Func, value: Option<Plain<'v>>) -> Option<Plain<'v>>
    ensures { (x : Cell) → IfSome value.entry (λ p. cell_of p ≡ x) → IfSome result (λ p. cell_of p ≡ func_value func (x ∷ [])) }
{
    match value {
        Some(x) => call_plain(func, x),
        None => None,
    }
}

fn null_if<'v>(left: Option<Plain<'v>>, right: Option<Plain>) -> Option<Plain<'v>>
    ensures { (x y : Cell) → IfSome left.entry (λ p. cell_of p ≡ x) → IfSome right.entry (λ p. cell_of p ≡ y) → IfSome result (λ p. cell_of p ≡ func_value Func.Nullif (x ∷ y ∷ [])) }
{
    match (left, right) {
        (Some(x), Some(y)) => {
            if equal(x, y).is_true() {
                Some(Plain::Null)
            } else {
                Some(x)
            }
        }
        _ => None,
    }
}

fn taken<'v>(value: Option<Plain<'v>>) -> Option<Option<Plain<'v>>>
    ensures { (x : Cell) → IfSome value.entry (λ p. cell_of p ≡ x) → IfSome result (λ found. option_map cell_of found ≡ Some x) }
{
    match value {
        Some(v) => Some(Some(v)),
        None => None,
    }
}

/// The value of a function of one argument, of two, or of the first argument that isn't NULL.
#[cycle(plain)]
#[inline(never)]
fn called<'v>(func: Func, args: &'v [Bound], f: &Frame<'v, 'v>) -> Option<Plain<'v>>
    ensures { IfSome result (λ p. cell_of p ≡ func_value func (bound_each args.now (given_of f.now))) }
{
    match func {
        Func::Coalesce => first_known(args, f),
        Func::Nullif => match args {
            [x, y] => null_if(plain_of(x, f), plain_of(y, f)),
            _ => None,
        },
        _ => match args {
            [x] => called_one(func, plain_of(x, f)),
            _ => None,
        },
    }
}

/// The value of the first that isn't NULL, behind which none is looked at.
#[cycle(plain)]
#[inline(never)]
fn first_known<'v>(all: &'v [Bound], f: &Frame<'v, 'v>) -> Option<Plain<'v>>
    ensures { IfSome result (λ p. cell_of p ≡ coalesce (bound_each all.now (given_of f.now))) }
{
    let mut first = Plain::Null;
    for b in all {
        if first.is_null() {
            match plain_of(b, f) {
                Some(x) => first = x,
                None => return None,
            }
        }
    }
    Some(first)
}

/// Whether x equals one of them, of which none is looked at behind the first that it equals.
#[cycle(plain)]
#[inline(never)]
fn one_equals<'v>(x: Plain, all: &'v [Bound], f: &Frame<'v, 'v>) -> Option<Plain<'v>>
    ensures { IfSome result (λ p. cell_of p ≡ one_of (cell_of x.entry) (bound_each all.now (given_of f.now))) }
{
    let mut found = Plain::Bool(false);
    for b in all {
        if !found.is_true() {
            match plain_of(b, f) {
                Some(y) => found = or(found, equal(x, y)),
                None => return None,
            }
        }
    }
    Some(found)
}

/// The value of the first WHEN that is true, if one is, behind which none is looked at.
#[cycle(plain)]
#[inline(never)]
fn first_true<'v>(whens: &'v [BoundWhen], f: &Frame<'v, 'v>) -> Option<Option<Plain<'v>>>
    ensures { IfSome result (λ found. option_map cell_of found ≡ fold chosen None (bound_whens whens.now (given_of f.now))) }
{
    for w in whens {
        match plain_of(&w.test, f) {
            None => return None,
            Some(test) => if test.is_true() {
                return taken(plain_of(&w.value, f));
            },
        }
    }
    Some(None)
}
