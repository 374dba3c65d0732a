// The queries by which the rows of runs are computed.
ghost use Rattle.std.specs.Prelude.{◌≡◌, ◌++◌, ◌∷◌, [], IfOk, OnOk, Some, None, Ok};
ghost use Rattle.std.specs.Option.{option_to_list};
ghost use Rattle.mesh_base.specs.declared.jobs.Job.{Job};
ghost use Rattle.mesh_spec_model.specs.Scratch.{no_bounds};
ghost use Rattle.mesh_exec.specs.Jobs.{due_job, jobs_of, span_job};
ghost use Rattle.mesh_exec.specs.Runs.{up_to};

use crate::runs::{Run, last_end};
use mesh_base::{Defn, Due, Job, Jobs, Node, Query};
use mesh_base_values::{Bounds, Kind, Str};
use mesh_list::{Duplicate, Memory, Seq, both, push_made};
use std::alloc::Global;

fn unit_job(pool: u32, q: &Query, time: &Str, start: i64, end: i64) -> Result<Job, Memory>
    ensures { IfOk result (λ job. job ≡ record { query = q.now; pool = pool; bounds = record { start = start; end = end }; time = Some time.now }) }
{
    let (query, time) = both(q, time)?;
    Ok(Job {
        query,
        pool,
        bounds: Bounds { start, end },
        time: Some(time),
    })
}

fn whole_job(pool: u32, q: &Query) -> Result<Job, Memory>
    ensures { IfOk result (λ job. job ≡ record { query = q.now; pool = pool; bounds = no_bounds; time = None }) }
{
    Ok(Job {
        query: q.copy()?,
        pool,
        bounds: Bounds { start: 0, end: 0 },
        time: None,
    })
}

/// The job of a due part, or of those from it up to an end, where their rows are computed.
fn push_job(jobs: &mut Jobs, pool: u32, node: &Node, due: &Due, end: i64) -> Result<(), Memory>
    ensures { OnOk result (jobs.new ≡ jobs.old ++ option_to_list (due_job pool node.now.own.kind node.now.own.defn (up_to end due.now))) }
{
    match &node.own.defn {
        Defn::Seed { .. } => Ok(()),
        Defn::Sql(q) => match &node.own.kind {
            Kind::Incremental { time, .. } => match due {
                Due::Unit { start, .. } => push_made(jobs, unit_job(pool, q, time, *start, end)),
                Due::Whole { .. } => Ok(()),
            },
            Kind::Full => match due {
                Due::Whole { .. } => push_made(jobs, whole_job(pool, q)),
                Due::Unit { .. } => Ok(()),
            },
            Kind::View | Kind::Seed => Ok(()),
        },
    }
}

/// The job of a run, where its rows are computed.
fn push_run(jobs: &mut Jobs, pool: u32, node: &Node, run: &Run) -> Result<(), Memory>
    ensures { OnOk result (jobs.new ≡ jobs.old ++ span_job pool node.now.own.kind node.now.own.defn run.now.dues.now) }
{
    match run.dues.get(0) {
        None => Ok(()),
        Some(first) => push_job(jobs, pool, node, first, last_end(0, run.dues)),
    }
}

/// The jobs of some runs, all over one pool.
pub(crate) fn push_jobs(jobs: &mut Jobs, pool: u32, node: &Node, runs: &[Run]) -> Result<(), Memory>
    ensures { OnOk result (jobs.new ≡ jobs.old ++ jobs_of pool node.now.own.kind node.now.own.defn runs.now) }
{
    for run in runs {
        push_run(jobs, pool, node, run)?;
    }
    Ok(())
}

/// The jobs of some runs, all over the first pool.
pub(crate) fn jobs_of(alloc: Global, node: &Node, runs: &[Run]) -> Result<Jobs, Memory>
    ensures { IfOk result (λ jobs. jobs ≡ jobs_of 0 node.now.own.kind node.now.own.defn runs.now) }
{
    let mut jobs = Seq::new(alloc);
    push_jobs(&mut jobs, 0, node, runs)?;
    Ok(jobs)
}
