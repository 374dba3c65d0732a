// Waves of jobs.
ghost use Rattle.std.specs.Prelude.{◌≤◌, ◌<◌, length, IsTrue};
ghost use Rattle.std.specs.List.{All};
ghost use Rattle.mesh_base.specs.declared.jobs.Job.{Job};

use crate::gates::Holding;
use crate::jobs::{jobs, pools, query};
use mesh_base::{Jobs, Pools, Query};
use mesh_base_values::{Cell, RowsList};
use mesh_cases::{Pen, Trouble};
use mesh_exec_wave::wave::{Gate, OpenGate, wave};
use std::alloc::Global;
use std::thread::Threads;

/// What the jobs of a wave are made of.
#[derive(Drop)]
struct Over<'a> {
    query: &'a Query,
    pools: &'a Pools,
}

/// Whether there are so few jobs as a wave may have, each over a pool that is there.
fn are_fit(pools: &Pools, jobs: &Jobs) -> bool
    ensures { IsTrue result → (length jobs.now ≤ 256) × All (λ job. job.pool < length pools.now) jobs.now }
{
    jobs.len() <= 256
        && jobs
            .as_slice()
            .iter()
            .all(|job| (job.pool as usize) < pools.len())
}

fn lists<R: Threads + Sync, G: Gate>(
    rt: &R,
    alloc: Global,
    pools: &Pools,
    jobs: &Jobs,
    workers: u32,
    gate: &G,
) -> Result<RowsList, Trouble>
    requires { (1 ≤ workers) × (workers ≤ 64) }
{
    if !are_fit(pools, jobs) {
        return Err(Trouble::Case);
    }
    Ok(wave(rt, alloc, pools, jobs, workers, gate)?)
}

/// Whether each list has one row, the number of its place.
fn are_placed(lists: &RowsList) -> bool {
    for (i, rows) in lists.as_slice().iter().enumerate() {
        let is_own = match rows.as_slice() {
            [row] => match row.as_slice() {
                [Cell::Int(number)] => *number == i as i64,
                _ => false,
            },
            _ => false,
        };
        if !is_own {
            return false;
        }
    }
    true
}

fn put_lists(pen: &mut Pen, lists: &RowsList) {
    pen.count(lists.len() as u64);
    pen.put(if are_placed(lists) {
        b" lists, each at its own place\n"
    } else {
        b" lists at other places\n"
    });
}

/// Adds where the lists of a wave of these jobs stand.
fn put_jobs<R: Threads + Sync, G: Gate>(
    rt: &R,
    alloc: Global,
    pen: &mut Pen,
    pools: &Pools,
    jobs: &Jobs,
    workers: u32,
    gate: &G,
) -> Result<(), Trouble>
    requires { (1 ≤ workers) × (workers ≤ 64) }
{
    match lists(rt, alloc, pools, jobs, workers, gate) {
        Ok(lists) => {
            put_lists(pen, &lists);
            Ok(())
        }
        Err(trouble) => Err(trouble),
    }
}

/// The same for the jobs of the numbers below a count.
fn put_wave<R: Threads + Sync, G: Gate>(
    rt: &R,
    alloc: Global,
    pen: &mut Pen,
    over: &Over,
    count: u32,
    workers: u32,
    gate: &G,
) -> Result<(), Trouble>
    requires { (1 ≤ workers) × (workers ≤ 64) }
{
    match jobs(alloc, over.query, count) {
        Ok(jobs) => put_jobs(rt, alloc, pen, over.pools, &jobs, workers, gate),
        Err(trouble) => Err(trouble),
    }
}

/// Two jobs of which one waits for the other.
fn put_held<R: Threads + Sync>(
    rt: &R,
    alloc: Global,
    pen: &mut Pen,
    over: &Over,
) -> Result<(), Trouble> {
    let gate = Holding::new();
    put_wave(rt, alloc, pen, over, 2, 2, &gate)?;
    pen.put_if(gate.is_late(), b"too late\n");
    Ok(())
}

fn put_all<R: Threads + Sync>(
    rt: &R,
    alloc: Global,
    pen: &mut Pen,
    over: &Over,
) -> Result<(), Trouble> {
    put_wave(rt, alloc, pen, over, 0, 64, &OpenGate)?;
    put_held(rt, alloc, pen, over)?;
    put_wave(rt, alloc, pen, over, 256, 1, &OpenGate)?;
    put_wave(rt, alloc, pen, over, 256, 3, &OpenGate)
}

fn put_over<R: Threads + Sync>(
    rt: &R,
    alloc: Global,
    pen: &mut Pen,
    query: &Query,
) -> Result<(), Trouble> {
    match pools(alloc, 256) {
        Ok(pools) => put_all(
            rt,
            alloc,
            pen,
            &Over {
                query,
                pools: &pools,
            },
        ),
        Err(trouble) => Err(trouble),
    }
}

/// Adds what comes of waves without a job, of two of which one waits for the other, and of 256.
pub fn put_waves<R: Threads + Sync>(rt: &R, alloc: Global, pen: &mut Pen) -> Result<(), Trouble> {
    match query(alloc) {
        Ok(query) => put_over(rt, alloc, pen, &query),
        Err(trouble) => Err(trouble),
    }
}
