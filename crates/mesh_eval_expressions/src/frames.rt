// What a bound expression is given.
ghost use Rattle.std.specs.Prelude.{◌≡◌, map, slice_index_or, IfOk};
ghost use Rattle.mesh_eval_expressions.specs.bound.Meaning.{row_alone};
ghost use Rattle.mesh_eval_expressions.specs.Frames.{given_of, members};
ghost use Rattle.mesh_eval_rows.specs.joins.joined.Joined.{shown};
ghost use Rattle.mesh_eval_rows.specs.joins.joined.Spots.{cell_at};

use mesh_base_values::Cell;
use mesh_eval_rows::joins::joined::{JoinedRows, Spot, cell_at};
use mesh_eval_rows::{Held, Helds};
use mesh_list::Memory;
use std::alloc::Global;

/// The rows of a group, by their places among all.
#[derive(Clone, Copy)]
pub struct Members<'a, 'x> {
    pub rows: &'a JoinedRows<'x>,
    pub places: &'a [usize],
}

/// The row of each item of a FROM, the values of the keys, and the rows of the group.
pub struct Frame<'a, 'x> {
    pub row: &'a [&'x [Cell]],
    pub key_values: &'a [Cell],
    pub group: Option<Members<'a, 'x>>,
}

impl Drop for Frame<'_, '_> {
    fn drop(self) {
        let Frame {
            row: _,
            key_values: _,
            group: _,
        } = self;
    }
}

/// A row by itself.
pub(crate) fn row_frame<'a, 'x>(row: &'a [&'x [Cell]]) -> Frame<'a, 'x>
    ensures { given_of result ≡ row_alone (shown row.now) }
{
    Frame {
        row,
        key_values: &[],
        group: None,
    }
}

/// The value of the key at a place, where there is one.
pub(crate) fn key_value(cells: &[Cell], k: usize) -> Held<'_>
    ensures { result ≡ slice_index_or cells.now k Cell.Null }
{
    match cells.get(k) {
        Some(cell) => Held::lent(cell),
        None => Held::made(Cell::Null),
    }
}

/// The cell of a row that lies at a spot.
pub fn lent_at<'x>(row: &[&'x [Cell]], spot: Option<Spot>) -> Held<'x>
    ensures { result ≡ cell_at spot (shown row.now) }
{
    match cell_at(row, spot) {
        Some(cell) => Held::lent(cell),
        None => Held::made(Cell::Null),
    }
}

/// The cells of a group's rows that lie at a spot.
pub(crate) fn lent_rows<'v>(
    alloc: Global,
    spot: Option<Spot>,
    group: &Members<'v, 'v>,
) -> Result<Helds<'v>, Memory>
    ensures { IfOk result (λ made. made ≡ map (cell_at spot) (members group.now)) }
{
    let mut made = Helds::new(alloc);
    for at in group.places {
        made.push(lent_at(group.rows.get(*at), spot))?;
    }
    Ok(made)
}
