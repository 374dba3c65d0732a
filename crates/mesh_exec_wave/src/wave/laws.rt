// What a job's rows are.
ghost use Rattle.std.specs.Prelude.{◌≡◌, ℕ, List, Some, None};
ghost use Rattle.mesh_base_values.specs.Kinds.{time_column};
ghost use Rattle.mesh_base.specs.declared.definitions.Defn.TheVariants.{Sql};
ghost use Rattle.mesh_base.specs.declared.definitions.Own.{Own};
ghost use Rattle.mesh_base.specs.declared.jobs.Input.{Input};
ghost use Rattle.mesh_base.specs.declared.jobs.Job.{Job};
ghost use Rattle.mesh_spec_model.specs.Scratch.{defn_rows, piece_over};
ghost use Rattle.mesh_spec_changes.specs.Changes.{ascending};
ghost use Rattle.mesh_exec_wave.specs.wave.Waves.{job_rows, pool_of};

use mesh_base::{Jobs, Pools};
use mesh_base_values::RowsList;

/// A job that has a model's query and its time column gives the rows of the model for the job's bounds: those that are
/// written for a unit. One that has no time column gives all rows of its query.
pub fn jobs_are_of_models()
    ensures unit { (pools : List (List Input)) (job : Job) (own : Own) (time : List ℕ) → own.defn ≡ Sql job.query → time_column own.kind ≡ Some time → job.time ≡ Some time →
        job_rows pools job ≡ ascending (piece_over own (pool_of pools job) job.bounds) }
    ensures whole { (pools : List (List Input)) (job : Job) (own : Own) → own.defn ≡ Sql job.query → job.time ≡ None →
        job_rows pools job ≡ ascending (defn_rows own.defn (pool_of pools job) job.bounds) }
{}

fn crosses<T: Send + Sync>() {}

/// Pools, jobs and lists of rows may be sent to other threads and shared with them.
pub fn jobs_cross_threads() {
    crosses::<Pools>();
    crosses::<Jobs>();
    crosses::<RowsList>();
}
