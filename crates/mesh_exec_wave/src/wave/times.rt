// Whether a row counts for a job.
ghost use Rattle.std.specs.Prelude.{◌≡◌};
ghost use Rattle.mesh_exec_wave.specs.wave.Waves.{counts};

use mesh_base_values::{Bounds, Column, Row, Str};
use mesh_time_days::seconds::lies_in;

/// Whether a row counts: each one where there is no time column, and otherwise one that lies in the bounds by it.
pub(crate) fn counts(time: &Option<Str>, columns: &[Column], u: Bounds, row: &Row) -> bool
    ensures { result ≡ counts time.now columns.now u row.now }
{
    match time {
        None => true,
        Some(time) => lies_in(columns, time, u, row),
    }
}
