// Groups of rows, each as the places of its rows.
ghost use Rattle.std.specs.Prelude.{◌≡◌, [], ◌++◌, map, IfOk, OnOk};
ghost use Rattle.std.specs.List.{flat_map};
ghost use Rattle.mesh_spec_query.specs.Aggregates.{distinct};
ghost use Rattle.mesh_eval_rows.specs.joins.index.Places.{places};
ghost use Rattle.mesh_eval_expressions.specs.Frames.{all_places, given_of, picked};
ghost use Rattle.mesh_spec_query.specs.Sel.{same_row, key_list, group_of, groups, grouped_rows};
ghost use Rattle.mesh_eval.specs.Placed.{IsOutput, bound_holds, output_row};

use crate::placing::{bind_condition, bind_items, flat_values};
use mesh_base::{Expr, Select};
use mesh_base_values::{Bounds, Cell, Columns, Rows};
use mesh_eval_expressions::bound::{Bound, Bounded, bind_each};
use mesh_eval_expressions::{Frame, Members, holds, values_of};
use mesh_eval_rows::joins::index::{FlatRows, Index, Listed};
use mesh_eval_rows::joins::joined::JoinedRows;
use mesh_list::{Memory, push_made, together};
use std::alloc::Global;

/// The HAVING and the items of a SELECT, bound.
pub(crate) struct Output {
    having: Option<Bound>,
    items: Bounded,
}

impl Drop for Output {
    fn drop(self) {
        let Output {
            having: _,
            items: _,
        } = self;
    }
}

/// Whether a condition is true, where there is one.
fn is_met<'v>(
    alloc: Global,
    condition: &'v Option<Bound>,
    f: &Frame<'v, 'v>,
) -> Result<bool, Memory>
    ensures { IfOk result (λ b. b ≡ bound_holds condition.now (given_of f.now)) }
{
    match condition {
        None => Ok(true),
        Some(b) => holds(alloc, b, f),
    }
}

fn output_of(alloc: Global, q: &Select, columns: &[Columns], u: Bounds) -> Result<Output, Memory>
    ensures { IfOk result (IsOutput u columns.now q.now) }
{
    let keys = q.keys.as_slice();
    let (having, items) = together(
        bind_condition(alloc, &q.having, columns, keys, u),
        bind_items(alloc, q.items.as_slice(), columns, keys, u),
    )?;
    Ok(Output { having, items })
}

/// The keys of each row.
fn key_lists(
    alloc: Global,
    keys: &[Expr],
    columns: &[Columns],
    rows: &JoinedRows,
    u: Bounds,
) -> Result<FlatRows, Memory>
    ensures { IfOk result (λ made. made.rows ≡ map (key_list u columns.now keys.now) rows.now.rows) }
{
    let keys = bind_each(alloc, keys, columns, &[], u)?;
    flat_values(alloc, keys.as_slice(), rows)
}

/// Adds the row of a group, where HAVING is true.
fn add_row<'v>(
    alloc: Global,
    o: &'v Output,
    key_values: &'v [Cell],
    rows: &'v JoinedRows<'v>,
    places: &'v [usize],
    made: &mut Rows,
) -> Result<(), Memory>
    ensures { OnOk result (made.new ≡ made.old ++ output_row o.now (record { key_values = key_values.now; rows = picked rows.now.rows places.now })) }
{
    let f = Frame {
        row: &[],
        key_values,
        group: Some(Members { rows, places }),
    };
    if is_met(alloc, &o.having, &f)? {
        push_made(made, values_of(alloc, o.items.as_slice(), &f))?;
    }
    Ok(())
}

fn all_places(alloc: Global, count: usize) -> Result<Vec<usize>, Memory>
    ensures { IfOk result (λ made. made.items ≡ all_places count) }
{
    let mut made = Vec::new(alloc);
    for at in 0..count {
        made.push(at)?;
    }
    Ok(made)
}

/// The row of the one group of all rows.
fn row_of_all(alloc: Global, o: &Output, rows: &JoinedRows) -> Result<Rows, Memory>
    ensures { IfOk result (λ made. made ≡ output_row o.now (record { key_values = []; rows = rows.now.rows })) }
{
    let all = all_places(alloc, rows.len())?;
    let mut made = Rows::new(alloc);
    add_row(alloc, o, &[], rows, all.as_slice(), &mut made)?;
    Ok(made)
}

/// Adds the row of the group of a key. `found` is for the places of its rows.
fn add_group(
    alloc: Global,
    o: &Output,
    rows: &JoinedRows,
    key: &[Cell],
    index: &Index,
    found: &mut Vec<usize>,
    made: &mut Rows,
) -> Result<(), Memory>
    ensures { OnOk result (made.new ≡ made.old ++ output_row o.now (record { key_values = key.now; rows = picked rows.now.rows (places (same_row key.now) index.now) })) }
{
    index.find(key, found)?;
    add_row(alloc, o, key, rows, found.as_slice(), made)
}

/// The rows of the groups of equal keys, by the index of these.
fn indexed_groups(
    alloc: Global,
    o: &Output,
    rows: &JoinedRows,
    keys: &FlatRows,
    index: &Index,
) -> Result<Rows, Memory>
    requires { index.now ≡ keys.now.rows }
    ensures { IfOk result (λ made. made ≡ flat_map (output_row o.now) (map (λ key. record { key_values = key; rows = picked rows.now.rows (places (same_row key) index.now) }) (distinct same_row keys.now.rows))) }
{
    let mut found = Vec::new(alloc);
    let mut made = Rows::new(alloc);
    for at in 0..keys.len() {
        if index.is_first(at) {
            let key = keys.at(at);
            add_group(alloc, o, rows, key, index, &mut found, &mut made)?;
        }
    }
    Ok(made)
}

/// The rows of the groups of equal keys.
fn rows_by_key(
    alloc: Global,
    q: &Select,
    o: &Output,
    columns: &[Columns],
    rows: &JoinedRows,
    u: Bounds,
) -> Result<Rows, Memory>
    ensures { IfOk result (λ made. made ≡ flat_map (output_row o.now) (map (group_of u columns.now q.now.keys rows.now.rows) (distinct same_row (map (key_list u columns.now q.now.keys) rows.now.rows)))) }
{
    let keys = key_lists(alloc, q.keys.as_slice(), columns, rows, u)?;
    let index = Index::new(alloc, Listed::Flat(&keys))?;
    indexed_groups(alloc, o, rows, &keys, &index)
}

/// The rows of the groups.
fn rows_of_groups(
    alloc: Global,
    q: &Select,
    o: &Output,
    columns: &[Columns],
    rows: &JoinedRows,
    u: Bounds,
) -> Result<Rows, Memory>
    ensures { IfOk result (λ made. made ≡ flat_map (output_row o.now) (groups u columns.now q.now.keys rows.now.rows)) }
{
    if q.keys.is_empty() {
        row_of_all(alloc, o, rows)
    } else {
        rows_by_key(alloc, q, o, columns, rows, u)
    }
}

pub(crate) fn grouped_rows(
    alloc: Global,
    q: &Select,
    columns: &[Columns],
    rows: &JoinedRows,
    u: Bounds,
) -> Result<Rows, Memory>
    ensures { IfOk result (λ made. made ≡ grouped_rows u columns.now q.now rows.now.rows) }
{
    let o = output_of(alloc, q, columns, u)?;
    rows_of_groups(alloc, q, &o, columns, rows, u)
}
