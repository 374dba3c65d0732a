// The rows of a job.
ghost use Rattle.std.specs.Prelude.{◌≡◌, ◌<◌, length, IfOk};
ghost use Rattle.mesh_exec_wave.specs.wave.Waves.{job_rows};

use crate::wave::rows::{ascending_rows, counted};
use mesh_base::{Inputs, Job};
use mesh_base_columns::select_columns;
use mesh_base_values::Rows;
use mesh_eval::exact_rows;
use mesh_list::Memory;
use std::alloc::Global;

/// The rows of a job over its pool, in ascending order.
#[tactic(auto, unfolding(crate::specs::wave::Waves::job_rows))]
pub(crate) fn job_rows(alloc: Global, pools: &[Inputs], job: &Job) -> Result<Rows, Memory>
    requires { job.now.pool < length pools.now }
    ensures { IfOk result (λ rows. rows ≡ job_rows pools.now job.now) }
{
    let inputs = &pools[job.pool as usize];
    let columns = select_columns(alloc, job.query.selects.as_slice())?;
    let rows = exact_rows(alloc, &job.query, inputs.as_slice(), job.bounds)?;
    let kept = counted(alloc, rows, &job.time, columns.as_slice(), job.bounds)?;
    ascending_rows(kept)
}
