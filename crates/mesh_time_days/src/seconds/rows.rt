// The second of a row by its time column, and the rows of a table that lie in a range of seconds.
ghost use Rattle.std.specs.Prelude.{◌≡◌, ◌++◌, true, OnOk, OnErr, slice_get};
ghost use Rattle.mesh_base_values.specs.Picked.{cell_of};
ghost use Rattle.mesh_time_days.specs.seconds.Times.{time_of, is_within, lies_in};
ghost use Rattle.mesh_time_days.specs.seconds.Rows.{are_before, are_by, cell_at, column_at, is_before, or_null, rewritten};

use crate::time_value;
use mesh_base_values::{Bounds, Cell, Column, Row, Rows, Str, same_text};
use mesh_list::{Memory, Seq};
use std::mem;

// The second that a cell stands for.
fn second_of(cell: &Cell) -> Option<i64>
    ensures { result ≡ time_of cell.now }
{
    time_value(cell)
}

// The second of the cell at a place, none where there is no cell.
fn second_at(row: &Row, at: usize) -> Option<i64>
    ensures { result ≡ time_of (or_null (slice_get row.now at)) }
{
    match row.get(at) {
        None => None,
        Some(cell) => second_of(cell),
    }
}

// Where the column of that name stands, the first where there are two.
fn column_at(columns: &[Column], time: &Str) -> Option<usize>
    ensures { result ≡ column_at columns.now time.now }
{
    for (i, column) in columns.iter().enumerate() {
        if same_text(column.name.as_slice(), time.as_slice()) {
            return Some(i);
        }
    }
    None
}

// The second of a row's cell at a place, where there is one.
fn second_by(place: Option<usize>, row: &Row) -> Option<i64>
    ensures { result ≡ time_of (cell_at place row.now) }
{
    match place {
        None => None,
        Some(at) => second_at(row, at),
    }
}

/// The second of a row by the column of that name, where it has one. Of two columns of one name the first counts.
pub fn second_in(columns: &[Column], time: &Str, row: &Row) -> Option<i64>
    ensures { result ≡ time_of (cell_of columns.now row.now time.now) }
{
    second_by(column_at(columns, time), row)
}

/// Whether there is a second, and it is one of the interval's.
pub fn is_within(u: Bounds, second: Option<i64>) -> bool
    ensures { result ≡ is_within u second }
{
    match second {
        None => false,
        Some(t) => u.start <= t && t < u.end,
    }
}

/// Whether a row lies in an interval, by its time column.
pub fn lies_in(columns: &[Column], time: &Str, u: Bounds, row: &Row) -> bool
    ensures { result ≡ lies_in columns.now time.now u row.now }
{
    is_within(u, second_in(columns, time, row))
}

// Takes the rows that lie in the seconds out, and puts others at the end. At `Err` nothing has changed.
fn write(
    rows: &mut Vec<Row>,
    mut more: Vec<Row>,
    columns: &[Column],
    time: &Str,
    start: i64,
    end: i64,
) -> Result<(), Memory>
    ensures ok { OnOk result (rows.new.items ≡ rewritten columns.now time.now start end more.items rows.old.items) }
    ensures err { OnErr result (rows.new.items ≡ rows.old.items) }
{
    let u = Bounds { start, end };
    let place = column_at(columns, time);
    rows.reserve(more.len())?;
    rows.retain(|row| !is_within(u, second_by(place, row)));
    rows.append(&mut more)?;
    Ok(())
}

// Puts rows behind others. At `Err` nothing has changed.
fn join(rows: &mut Vec<Row>, mut more: Vec<Row>) -> Result<(), Memory>
    ensures ok { OnOk result (rows.new.items ≡ rows.old.items ++ more.items) }
    ensures err { OnErr result (rows.new.items ≡ rows.old.items) }
{
    rows.reserve(more.len())?;
    rows.append(&mut more)?;
    Ok(())
}

/// Takes the rows that lie in the seconds out, and puts others at the end. At `Err` nothing has changed. The rows that
/// stay are not copied.
pub fn rewrite(
    rows: &mut Rows,
    more: Rows,
    columns: &[Column],
    time: &Str,
    start: i64,
    end: i64,
) -> Result<(), Memory>
    ensures ok { OnOk result (rows.new ≡ rewritten columns.now time.now start end more rows.old) }
    ensures err { OnErr result (rows.new ≡ rows.old) }
{
    let nothing = Seq::new(rows.alloc());
    let mut list = mem::replace(rows, nothing).into_vec();
    let done = write(&mut list, more.into_vec(), columns, time, start, end);
    *rows = Seq::from_vec(list);
    done
}

// Whether there is no second, or it is before this one.
fn is_before(end: i64, second: Option<i64>) -> bool
    ensures { result ≡ is_before end second }
{
    match second {
        None => true,
        Some(t) => t < end,
    }
}

// Whether no second of a row's cell at a place is at or after this one.
fn are_by(place: Option<usize>, end: i64, rows: &[Row]) -> bool
    ensures { result ≡ are_by place end rows.now }
{
    for row in rows {
        if !is_before(end, second_by(place, row)) {
            return false;
        }
    }
    true
}

/// Whether no row's second by the column of that name is at or after this one.
pub fn are_before(columns: &[Column], time: &Str, end: i64, rows: &[Row]) -> bool
    ensures { result ≡ are_before columns.now time.now end rows.now }
{
    are_by(column_at(columns, time), end, rows)
}

/// Does what `rewrite` does where no row's second is at or after `start`: the rows that are there stay as they lie, and
/// none of them is looked at.
pub fn add(
    rows: &mut Rows,
    more: Rows,
    columns: &[Column],
    time: &Str,
    start: i64,
    end: i64,
) -> Result<(), Memory>
    requires { are_before columns.now time.now start rows.old ≡ true }
    ensures ok { OnOk result (rows.new ≡ rewritten columns.now time.now start end more rows.old) }
    ensures err { OnErr result (rows.new ≡ rows.old) }
{
    let nothing = Seq::new(rows.alloc());
    let mut list = mem::replace(rows, nothing).into_vec();
    let done = join(&mut list, more.into_vec());
    *rows = Seq::from_vec(list);
    done
}
