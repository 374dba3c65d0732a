// The values of aggregates over a list of cells.
ghost use Rattle.std.specs.Prelude.{◌≡◌, ◌<◌, ◌≤◌, ◌^◌, map, length, pos, IfOk};
ghost use Rattle.std.specs.List.{fold, list_any};
ghost use Rattle.mesh_spec_query.specs.Aggregates.{distinct, same_cell, known, is_number, addend, total, smaller, larger, agg_value};

use mesh_base::AggKind;
use mesh_base_values::{Cell, cell_cmp};
use mesh_eval_rows::{Held, is_null};
use mesh_list::{Duplicate, Memory};
use std::alloc::Global;
use std::collections::BTreeSet;

pub(crate) fn aggregate(alloc: Global, kind: AggKind, cells: &[Held]) -> Result<Cell, Memory>
    ensures { IfOk result (λ v. v ≡ agg_value kind cells.now) }
{
    match kind {
        AggKind::Count => Ok(Cell::Int(counted(cells))),
        AggKind::Countd => Ok(Cell::Int(count_distinct(alloc, cells)? as i64)),
        AggKind::Sum => Ok(total_of(cells)),
        AggKind::Min => smallest(cells),
        AggKind::Max => largest(cells),
    }
}

fn count_known(cells: &[Held]) -> usize
    ensures known { result ≡ length (known cells.now) }
    ensures most { result ≤ length cells.now }
{
    let mut count = 0usize;
    for cell in cells {
        if !is_null(cell.get()) {
            count += 1;
        }
    }
    count
}

fn counted(cells: &[Held]) -> i64
    ensures { result ≡ pos (length (known cells.now)) }
{
    let all = cells.len();
    let count = count_known(cells);
    if count <= all {
        count as i64
    } else {
        all as i64
    }
}

/// The cells that aren't NULL, where they lie.
fn known_cells<'c>(alloc: Global, cells: &'c [Held]) -> Result<Vec<&'c Cell>, Memory>
    ensures { IfOk result (λ made. map (λ cell. cell.now) made.items ≡ known cells.now) }
{
    let mut made = Vec::new(alloc);
    for cell in cells {
        if !is_null(cell.get()) {
            made.push(cell.get())?;
        }
    }
    Ok(made)
}

/// How many different cells there are that aren't NULL.
fn count_distinct(alloc: Global, cells: &[Held]) -> Result<usize, Memory>
    ensures value { IfOk result (λ count. count ≡ length (distinct same_cell (known cells.now))) }
    ensures small { IfOk result (λ count. count < 2 ^ 63) }
{
    let all = known_cells(alloc, cells)?;
    let set: BTreeSet<&Cell> = all.into_iter().collect(alloc)?;
    Ok(set.len())
}

fn is_number(c: &Cell) -> bool
    ensures { result ≡ is_number c.now }
{
    matches!(c, Cell::Int(_))
}

fn addend(c: &Cell) -> i64
    ensures { result ≡ addend c.now }
{
    match c {
        Cell::Int(n) => *n,
        _ => 0,
    }
}

fn has_number(cells: &[Held]) -> bool
    ensures { result ≡ list_any is_number cells.now }
{
    cells.iter().any(|c| is_number(c.get()))
}

fn total_of(cells: &[Held]) -> Cell
    ensures { result ≡ total cells.now }
{
    if !has_number(cells) {
        return Cell::Null;
    }
    let mut sum: i128 = 0;
    for c in cells {
        sum += addend(c.get()) as i128;
    }
    match i64::try_from(sum) {
        Ok(n) => Cell::Int(n),
        Err(_) => Cell::Null,
    }
}

fn smallest(cells: &[Held]) -> Result<Cell, Memory>
    ensures { IfOk result (λ v. v ≡ fold smaller Cell.Null cells.now) }
{
    let mut best = Cell::Null;
    for c in cells {
        let cell = c.get();
        if is_null(&best) || !is_null(cell) && cell_cmp(cell, &best).is_lt() {
            drop(best);
            best = cell.copy()?;
        }
    }
    Ok(best)
}

fn largest(cells: &[Held]) -> Result<Cell, Memory>
    ensures { IfOk result (λ v. v ≡ fold larger Cell.Null cells.now) }
{
    let mut best = Cell::Null;
    for c in cells {
        let cell = c.get();
        if cell_cmp(&best, cell).is_lt() {
            drop(best);
            best = cell.copy()?;
        }
    }
    Ok(best)
}
