// Rows that are put in order, and rows that are picked by their time.
ghost use Rattle.std.specs.Prelude.{◌≡◌, IfOk};
ghost use Rattle.std.specs.List.{filter};
ghost use Rattle.mesh_time_days.specs.seconds.Times.{lies_in};
ghost use Rattle.mesh_spec_changes.specs.Changes.{ascending};
ghost use Rattle.mesh_exec_wave.specs.wave.Waves.{counts};

use crate::wave::times::counts;
use mesh_base_values::{Bounds, Column, Row, Rows, Str, sort_rows};
use mesh_list::{Duplicate, Memory, Seq};
use mesh_time_days::seconds::lies_in;
use std::alloc::Global;

/// The rows in ascending order.
pub fn ascending_rows(rows: Rows) -> Result<Rows, Memory>
    ensures { IfOk result (λ made. made ≡ ascending rows) }
{
    sort_rows(rows)
}

/// Copies of the rows that lie in an interval by a time column, in their order.
pub fn rows_within(
    alloc: Global,
    rows: &[Row],
    columns: &[Column],
    time: &Str,
    u: Bounds,
) -> Result<Rows, Memory>
    ensures { IfOk result (λ made. made ≡ filter (lies_in columns.now time.now u) rows.now) }
{
    let mut made = Seq::new(alloc);
    for row in rows {
        if lies_in(columns, time, u, row) {
            made.push(row.copy()?)?;
        }
    }
    Ok(made)
}

/// The rows that count for a job.
pub(crate) fn counted(
    alloc: Global,
    rows: Rows,
    time: &Option<Str>,
    columns: &[Column],
    u: Bounds,
) -> Result<Rows, Memory>
    ensures { IfOk result (λ made. made ≡ filter (counts time.now columns.now u) rows) }
{
    let mut made = Seq::new(alloc);
    for row in rows.into_vec() {
        if counts(time, columns, u, &row) {
            made.push(row)?;
        }
    }
    Ok(made)
}
