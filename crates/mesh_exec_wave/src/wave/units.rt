// The units of a wave, by their numbers.
ghost use Rattle.std.specs.Prelude.{◌≡◌, ◌<◌, ◌≤◌, List, map, length, IfOk, Some, slice_get};
ghost use Rattle.std.specs.List.{All};
ghost use Rattle.mesh_base_values.specs.declared.values.Cell.{Cell};
ghost use Rattle.mesh_exec_wave.specs.wave.Waves.{job_rows};

use crate::wave::gates::Gate;
use crate::wave::jobs::job_rows;
use mesh_base::{Inputs, Job};
use mesh_base_values::Rows;
use mesh_list::Memory;
use std::alloc::Global;

/// What workers share: the rows that are wanted of each unit, and how they are made.
pub(crate) trait Units {
    ghost wanted: { Self → List (List (List Cell)) };

    fn count(&self) -> usize
        ensures number { result ≡ length (wanted self.now) }
        ensures few { result ≤ 256 };

    fn rows_of(&self, alloc: Global, number: usize) -> Result<Rows, Memory>
        requires { number < length (wanted self.now) }
        ensures { IfOk result (λ rows. slice_get (wanted self.now) number ≡ Some rows) };
}

/// Jobs over their pools, each of which passes a gate.
#[derive(Drop)]
pub(crate) struct Guarded<'a, G> {
    pools: &'a [Inputs],
    jobs: &'a [Job],
    gate: &'a G,
    ghost few: { length jobs.now ≤ 256 },
    ghost there: { All (λ job. job.pool < length pools.now) jobs.now },
}

impl<'a, G> Guarded<'a, G> {
    pub(crate) fn of(pools: &'a [Inputs], jobs: &'a [Job], gate: &'a G) -> Guarded<'a, G>
        requires few { length jobs.now ≤ 256 }
        requires there { All (λ job. job.pool < length pools.now) jobs.now }
        ensures { (result.pools.now ≡ pools.now) × (result.jobs.now ≡ jobs.now) }
    {
        Guarded { pools, jobs, gate }
    }
}

impl<G: Gate> Units for Guarded<'_, G> {
    ghost wanted = { λ u. map (job_rows u.pools.now) u.jobs.now };

    fn count(&self) -> usize {
        self.jobs.len()
    }

    fn rows_of(&self, alloc: Global, number: usize) -> Result<Rows, Memory> {
        self.gate.enter(number as u32);
        job_rows(alloc, self.pools, &self.jobs[number])
    }
}
