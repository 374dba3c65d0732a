// The rows of a run, cut to its due parts.
ghost use Rattle.std.specs.Prelude.{◌≡◌, IfOk, map};
ghost use Rattle.mesh_exec_works.specs.Cuts.{cut_to, rows_in, second_in, seconds_of};

use mesh_base::{Due, Own};
use mesh_base_columns::columns_of;
use mesh_base_values::{Bounds, Column, Kind, Row, Rows, Str};
use mesh_list::{Duplicate, Memory, Seq};
use mesh_time_days::seconds::{is_within, second_in};
use std::alloc::Global;

/// The second of each of some rows, where it has one.
pub type Seconds = Seq<Option<i64>>;

fn seconds_by(
    alloc: Global,
    columns: &[Column],
    time: &Str,
    rows: &[Row],
) -> Result<Seconds, Memory>
    ensures { IfOk result (λ made. made ≡ map (second_in columns.now time.now) rows.now) }
{
    let mut made = Seq::new(alloc);
    for row in rows {
        made.push(second_in(columns, time, row))?;
    }
    Ok(made)
}

/// The second of each row of a model, where it has a time column.
pub fn seconds_of(alloc: Global, own: &Own, rows: &[Row]) -> Result<Seconds, Memory>
    ensures { IfOk result (λ made. made ≡ seconds_of own.now rows.now) }
{
    match &own.kind {
        Kind::Incremental { time, .. } => {
            let columns = columns_of(own)?;
            seconds_by(alloc, columns.as_slice(), time, rows)
        }
        Kind::Full | Kind::View | Kind::Seed => Ok(Seq::new(alloc)),
    }
}

/// The rows whose second lies in a unit, in their order.
fn rows_in(alloc: Global, u: Bounds, rows: &[Row], seconds: &[Option<i64>]) -> Result<Rows, Memory>
    ensures { IfOk result (λ made. made ≡ rows_in u rows.now seconds.now) }
{
    let mut made = Seq::new(alloc);
    for (i, row) in rows.iter().enumerate() {
        let Some(second) = seconds.get(i) else {
            return Ok(made);
        };
        if is_within(u, *second) {
            made.push(row.copy()?)?;
        }
    }
    Ok(made)
}

/// The rows of a due part among those of its run.
pub fn cut_to(
    alloc: Global,
    due: &Due,
    rows: &Rows,
    seconds: &[Option<i64>],
) -> Result<Rows, Memory>
    ensures { IfOk result (λ made. made ≡ cut_to due.now rows.now seconds.now) }
{
    match due {
        Due::Unit { start, end, .. } => {
            let u = Bounds {
                start: *start,
                end: *end,
            };
            rows_in(alloc, u, rows.as_slice(), seconds)
        }
        Due::Whole { .. } => rows.copy(),
    }
}
