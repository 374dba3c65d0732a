// The demonstration.
ghost use Rattle.std.specs.Prelude.{◌≡◌, ◌≤◌, IfOk};
ghost use Rattle.mesh_cli.specs.demo.Demos.{IsDemo};
ghost use Rattle.mesh_cli.specs.declared.demo.demonstration.DemoFault.TheVariants as fault;

use crate::demo::lines::headed;
use crate::demo::play::loaded;
use crate::demo::shop::shop;
use mesh_base_values::Str;
use mesh_house::MemHouse;
use mesh_io::MemFolder;
use mesh_list::{Memory, Seq};
use std::alloc::Global;
use std::thread::Threads;

/// Why there is no demonstration.
#[derive(Clone, Copy, PartialEq, Eq)]
pub enum DemoFault {
    Memory,
}

impl From<Memory> for DemoFault {
    ghost from_gives = { λ _ e. e ≡ fault.Memory };

    fn from(_: Memory) -> Self {
        DemoFault::Memory
    }
}

fn played<R: Threads + Sync>(rt: &R, alloc: Global, n: u32, workers: u32) -> Result<Str, Memory>
    requires workers { (1 ≤ workers) × (workers ≤ 64) }
    ensures { IfOk result (IsDemo n) }
{
    let mut folder = MemFolder::new(shop(alloc, n)?, Seq::new(alloc));
    let mut house = MemHouse::new(alloc);
    let rest = loaded(rt, alloc, workers, &mut folder, &mut house)?;
    headed(alloc, n, rest)
}

/// Makes the shop project with so many orders in memory, applies it to production, adds a column and applies that to
/// `dev`, runs both some days later, and tells the units of each, the number of rows of production's totals and their
/// sum.
pub fn demo<R: Threads + Sync>(
    rt: &R,
    alloc: Global,
    n: u32,
    workers: u32,
) -> Result<Str, DemoFault>
    requires workers { (1 ≤ workers) × (workers ≤ 64) }
    ensures { IfOk result (IsDemo n) }
{
    let text = played(rt, alloc, n, workers)?;
    Ok(text)
}
