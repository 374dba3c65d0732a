// Expressions bound to the columns of a FROM, to keys and to an interval.
ghost use Rattle.std.specs.Prelude.{◌≡◌, IfOk};
ghost use Rattle.std.specs.List.{position};
ghost use Rattle.mesh_spec_query.specs.Ev.{same_expr};
ghost use Rattle.mesh_eval_expressions.specs.bound.Meaning.{IsBound, IsBoundNode, AreBound, IsBoundWhen, AreBoundWhens};

use crate::bound::forms::{Bound, BoundWhen, BoundWhens, Bounded};
use crate::bound::leaves::{column, literal, macro_cell};
use crate::bound::nodes::{
    aggregate, binary, call, case, cast, listed, neg, not, null_test, placed, when,
};
use crate::bound::settled::settled;
use mesh_base::{Expr, Op, When};
use mesh_base_values::{Bounds, Columns};
use mesh_eval_rows::joins::joined::spot_of;
use mesh_list::{Memory, push_made};
use std::alloc::Global;

/// An expression, bound to these columns, to these keys and to an interval, and marked where its value takes no memory.
#[cycle(binding)]
pub fn bind(
    alloc: Global,
    e: &Expr,
    columns: &[Columns],
    keys: &[Expr],
    u: Bounds,
) -> Result<Bound, Memory>
    ensures { IfOk result (IsBound u columns.now keys.now e.now) }
{
    settled(alloc, bind_part(alloc, e, columns, keys, u))
}

/// A part of an expression.
#[tactic(auto, using(mesh_spec_query::proofs::Nodes::Ev_out))]
#[cycle(binding)]
fn bind_part(
    alloc: Global,
    e: &Expr,
    columns: &[Columns],
    keys: &[Expr],
    u: Bounds,
) -> Result<Bound, Memory>
    ensures { IfOk result (IsBound u columns.now keys.now e.now) }
{
    match key_of(e, keys) {
        Some(k) => Ok(Bound::Key(k)),
        None => bind_node(alloc, e, columns, keys, u),
    }
}

/// The place of the first key that it equals.
fn key_of(e: &Expr, keys: &[Expr]) -> Option<usize>
    ensures { result ≡ position (λ key. same_expr key e.now) keys.now }
{
    keys.iter().position(|key| key == e)
}

/// A side of an operator, which is looked at for itself where it is one of an AND's.
#[cycle(binding)]
fn bind_side(
    alloc: Global,
    op: Op,
    e: &Expr,
    columns: &[Columns],
    keys: &[Expr],
    u: Bounds,
) -> Result<Bound, Memory>
    ensures { IfOk result (IsBound u columns.now keys.now e.now) }
{
    match op {
        Op::And => bind(alloc, e, columns, keys, u),
        _ => bind_part(alloc, e, columns, keys, u),
    }
}

#[cycle(binding)]
fn bind_node(
    alloc: Global,
    e: &Expr,
    columns: &[Columns],
    keys: &[Expr],
    u: Bounds,
) -> Result<Bound, Memory>
    ensures { IfOk result (IsBoundNode u columns.now keys.now e.now) }
{
    match e {
        Expr::Literal(cell) => literal(cell),
        Expr::Col { item, name } => Ok(column(spot_of(columns, *item, name))),
        Expr::Macro(var) => macro_cell(alloc, *var, u),
        Expr::Binary { op, left, right } => binary(
            alloc,
            *op,
            bind_side(alloc, *op, left.get(), columns, keys, u),
            bind_side(alloc, *op, right.get(), columns, keys, u),
        ),
        Expr::Neg(value) => neg(alloc, bind_part(alloc, value.get(), columns, keys, u)),
        Expr::Not(value) => not(alloc, bind_part(alloc, value.get(), columns, keys, u)),
        Expr::IsNull(value) => null_test(alloc, bind_part(alloc, value.get(), columns, keys, u)),
        Expr::Between { value, low, high } => placed(
            alloc,
            bind_part(alloc, value.get(), columns, keys, u),
            bind_part(alloc, low.get(), columns, keys, u),
            bind_part(alloc, high.get(), columns, keys, u),
        ),
        Expr::OneOf { value, of } => listed(
            alloc,
            bind_part(alloc, value.get(), columns, keys, u),
            bind_each(alloc, of.as_slice(), columns, keys, u),
        ),
        Expr::Cast { to, value } => cast(
            alloc,
            *to,
            bind_part(alloc, value.get(), columns, keys, u),
        ),
        Expr::Call { func, args } => call(
            *func,
            bind_each(alloc, args.as_slice(), columns, keys, u),
        ),
        Expr::Case { whens, otherwise } => case(
            alloc,
            bind_whens(alloc, whens.as_slice(), columns, keys, u),
            bind(alloc, otherwise.get(), columns, keys, u),
        ),
        Expr::CountAll => Ok(Bound::CountAll),
        // An aggregate's argument sees a row by itself, and no key.
        Expr::Agg { kind, value } => aggregate(
            alloc,
            *kind,
            bind(alloc, value.get(), columns, &[], u),
        ),
    }
}

/// Several expressions, each of them bound.
#[cycle(binding)]
pub fn bind_each(
    alloc: Global,
    all: &[Expr],
    columns: &[Columns],
    keys: &[Expr],
    u: Bounds,
) -> Result<Bounded, Memory>
    ensures { IfOk result (AreBound u columns.now keys.now all.now) }
{
    let mut made = Bounded::new(alloc);
    for e in all {
        push_made(&mut made, bind(alloc, e, columns, keys, u))?;
    }
    Ok(made)
}

#[cycle(binding)]
fn bind_whens(
    alloc: Global,
    whens: &[When],
    columns: &[Columns],
    keys: &[Expr],
    u: Bounds,
) -> Result<BoundWhens, Memory>
    ensures { IfOk result (AreBoundWhens u columns.now keys.now whens.now) }
{
    let mut made = BoundWhens::new(alloc);
    for w in whens {
        push_made(&mut made, bind_when(alloc, w, columns, keys, u))?;
    }
    Ok(made)
}

#[cycle(binding)]
fn bind_when(
    alloc: Global,
    w: &When,
    columns: &[Columns],
    keys: &[Expr],
    u: Bounds,
) -> Result<BoundWhen, Memory>
    ensures { IfOk result (IsBoundWhen u columns.now keys.now w.now) }
{
    when(
        bind(alloc, &w.test, columns, keys, u),
        bind(alloc, &w.value, columns, keys, u),
    )
}
