// Waves of jobs over workers.
ghost use Rattle.std.specs.Prelude.{◌≡◌, ◌<◌, ◌≤◌, map, length, IfOk, None, replicate};
ghost use Rattle.std.specs.List.{All, flat_map};
ghost use Rattle.std.specs.Option.{option_to_list};
ghost use Rattle.mesh_exec_wave.specs.wave.Waves.{job_rows};
ghost use Rattle.mesh_exec_wave.specs.wave.Workers.{placed};

use crate::claims::{drawn_so_far, table};
use crate::wave::gates::Gate;
use crate::wave::parts::{Parts, at_their_numbers};
use crate::wave::units::{Guarded, Units};
use crate::wave::workers::{Done, work_all};
use mesh_base::{Jobs, Pools};
use mesh_base_values::RowsList;
use mesh_list::Memory;
use std::alloc::Global;
use std::thread::Threads;

/// The rows of all units, in the order in which workers came by them.
fn all_parts<R: Threads + Sync, U: Units + Sync>(
    rt: &R,
    alloc: Global,
    units: &U,
    workers: u32,
) -> Result<Parts, Memory>
    requires { (1 ≤ workers) × (workers ≤ 64) }
    ensures within { IfOk result (λ parts. All (λ p. p.number < length (U.wanted units.now)) parts) }
    ensures all { IfOk result (λ parts. flat_map option_to_list (placed (replicate (length (U.wanted units.now)) None) parts) ≡ U.wanted units.now) }
{
    let (claims, first) = match table(alloc) {
        Ok(made) => made,
        Err(_) => return Err(Memory),
    };
    let Done { mut seat, made } = work_all(rt, alloc, units, &claims, first, workers);
    let _drawn = drawn_so_far(&claims, &mut seat);
    made
}

fn rows_of_all<R: Threads + Sync, U: Units + Sync>(
    rt: &R,
    alloc: Global,
    units: &U,
    workers: u32,
) -> Result<RowsList, Memory>
    requires { (1 ≤ workers) × (workers ≤ 64) }
    ensures { IfOk result (λ made. made ≡ U.wanted units.now) }
{
    let parts = all_parts(rt, alloc, units, workers)?;
    at_their_numbers(alloc, parts, units.count())
}

/// The rows of each job at the job's own place. Each unit enters the gate before it is evaluated.
pub fn wave<R: Threads + Sync, G: Gate>(
    rt: &R,
    alloc: Global,
    pools: &Pools,
    jobs: &Jobs,
    workers: u32,
    gate: &G,
) -> Result<RowsList, Memory>
    requires workers { (1 ≤ workers) × (workers ≤ 64) }
    requires few { length jobs.now ≤ 256 }
    requires there { All (λ job. job.pool < length pools.now) jobs.now }
    ensures { IfOk result (λ made. made ≡ map (job_rows pools.now) jobs.now) }
{
    let units = Guarded::of(pools.as_slice(), jobs.as_slice(), gate);
    rows_of_all(rt, alloc, &units, workers)
}
