// Expressions bound before the first row, and their values at rows.
ghost use Rattle.std.specs.Prelude.{◌≡◌, [], ◌∷◌, ◌++◌, length, map, IfOk, OnOk};
ghost use Rattle.mesh_base_values.specs.declared.values.Cell.{Cell as Shown};
ghost use Rattle.mesh_eval_rows.specs.joins.joined.Joined.{shown};
ghost use Rattle.mesh_spec_query.specs.Cells.{is_true};
ghost use Rattle.mesh_eval_expressions.specs.bound.Meaning.{Given, Means, bound_value, row_alone};
ghost use Rattle.mesh_eval.specs.Placed.{AreItems, IsCondition, bound_holds, row_test, values_at};

use mesh_base::{Expr, Item};
use mesh_base_values::{Bounds, Cell, Columns, Row, Rows};
use mesh_eval_expressions::bound::{Bound, Bounded, bind};
use mesh_eval_expressions::{Frame, holds, lent_at, value_alone};
use mesh_eval_rows::joins::index::FlatRows;
use mesh_eval_rows::joins::joined::JoinedRows;
use mesh_list::{Duplicate, Memory, push_made};
use std::alloc::Global;

/// Items over the columns of a FROM, under keys and for an interval.
pub(crate) fn bind_items(
    alloc: Global,
    items: &[Item],
    columns: &[Columns],
    keys: &[Expr],
    u: Bounds,
) -> Result<Bounded, Memory>
    ensures { IfOk result (AreItems u columns.now keys.now items.now) }
{
    let mut made = Bounded::new(alloc);
    for item in items {
        push_made(&mut made, bind(alloc, &item.expr, columns, keys, u))?;
    }
    Ok(made)
}

/// A condition over the columns of a FROM, under keys and for an interval.
pub(crate) fn bind_condition(
    alloc: Global,
    condition: &Option<Expr>,
    columns: &[Columns],
    keys: &[Expr],
    u: Bounds,
) -> Result<Option<Bound>, Memory>
    ensures { IfOk result (IsCondition u columns.now keys.now condition.now) }
{
    match condition {
        None => Ok(None),
        Some(e) => some(bind(alloc, e, columns, keys, u)),
    }
}

fn some(bound: Result<Bound, Memory>) -> Result<Option<Bound>, Memory>
    ensures { (f : Given → Shown) → IfOk bound (Means f) → IfOk result (λ made. (g : Given) → bound_holds made g ≡ is_true (f g)) }
{
    match bound {
        Ok(b) => Ok(Some(b)),
        Err(Memory) => Err(Memory),
    }
}

/// Whether a condition is true at a row, where there is one.
pub(crate) fn row_met<'a, 'x>(
    alloc: Global,
    condition: &Option<Bound>,
    row: &'a [&'x [Cell]],
) -> Result<bool, Memory>
    ensures { IfOk result (λ met. met ≡ row_test condition.now (shown row.now)) }
{
    match condition {
        None => Ok(true),
        Some(b) => holds_alone(alloc, b, row),
    }
}

fn holds_alone<'a, 'x>(alloc: Global, b: &Bound, row: &'a [&'x [Cell]]) -> Result<bool, Memory>
    ensures { IfOk result (λ met. met ≡ is_true (bound_value b.now (row_alone (shown row.now)))) }
{
    let f = Frame {
        row,
        key_values: &[],
        group: None,
    };
    holds(alloc, b, &f)
}

/// The value of a bound expression at a row.
fn value_at<'a, 'x>(alloc: Global, b: &Bound, row: &'a [&'x [Cell]]) -> Result<Cell, Memory>
    ensures { IfOk result (λ v. v ≡ bound_value b.now (row_alone (shown row.now))) }
{
    match b {
        Bound::Lies(spot) => lent_at(row, *spot).into_cell(),
        Bound::Known(cell) => cell.copy(),
        _ => value_alone(alloc, b, row),
    }
}

/// Puts the values of bound expressions at a row into a list, instead of what was there.
pub(crate) fn values_into<'a, 'x>(
    alloc: Global,
    all: &[Bound],
    row: &'a [&'x [Cell]],
    made: &mut Vec<Cell>,
) -> Result<(), Memory>
    ensures { OnOk result (made.new.items ≡ values_at all.now (shown row.now)) }
{
    made.clear();
    for b in all {
        made.push(value_at(alloc, b, row)?)?;
    }
    Ok(())
}

/// Puts the values of bound expressions at a row behind those at others. `own` is for them before they lie there.
pub(crate) fn add_values<'a, 'x>(
    alloc: Global,
    all: &[Bound],
    row: &'a [&'x [Cell]],
    own: &mut Vec<Cell>,
    made: &mut FlatRows,
) -> Result<(), Memory>
    requires { made.old.width ≡ length all.now }
    ensures rows { OnOk result (made.new.rows ≡ made.old.rows ++ values_at all.now (shown row.now) ∷ []) }
    ensures width { OnOk result (made.new.width ≡ made.old.width) }
{
    values_into(alloc, all, row, own)?;
    made.push(own)
}

/// The values of bound expressions at each row, in one list of cells.
pub(crate) fn flat_values(
    alloc: Global,
    all: &[Bound],
    rows: &JoinedRows,
) -> Result<FlatRows, Memory>
    ensures { IfOk result (λ made. made.rows ≡ map (values_at all.now) rows.now.rows) }
{
    let mut own = Vec::new(alloc);
    let mut made = FlatRows::with_capacity(alloc, all.len(), rows.len())?;
    for at in 0..rows.len() {
        add_values(alloc, all, rows.at(at), &mut own, &mut made)?;
    }
    Ok(made)
}

/// The values of bound expressions at a row.
fn values_at<'a, 'x>(alloc: Global, all: &[Bound], row: &'a [&'x [Cell]]) -> Result<Row, Memory>
    ensures { IfOk result (λ made. made ≡ values_at all.now (shown row.now)) }
{
    let mut made = Vec::with_capacity(alloc, all.len())?;
    values_into(alloc, all, row, &mut made)?;
    Ok(Row::from_vec(made))
}

/// The values of bound expressions at each row.
pub(crate) fn value_rows(alloc: Global, all: &[Bound], rows: &JoinedRows) -> Result<Rows, Memory>
    ensures { IfOk result (λ made. made ≡ map (values_at all.now) rows.now.rows) }
{
    let mut made = Rows::from_vec(Vec::with_capacity(alloc, rows.len())?);
    for at in 0..rows.len() {
        push_made(&mut made, values_at(alloc, all, rows.at(at)))?;
    }
    Ok(made)
}
