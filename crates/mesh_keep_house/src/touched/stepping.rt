// A change is made in memory, and its writes are listed.
ghost use Rattle.std.specs.Prelude.{IfOk};
ghost use Rattle.mesh_keep_house.specs.touched.Touched.{Follows};

use crate::touched::listing::{about, noted};
use crate::touched::writing::writes_of;
use mesh_house::{Change, World};
use mesh_keep::Writes;
use mesh_list::Memory;
use std::alloc::Global;

/// Makes the change, and lists the writes by which records follow it. At `Err` the world may have changed or not.
#[tactic(auto, using(crate::proofs::touched::Listed::follows))]
pub fn stepped(alloc: Global, world: &mut World, change: &Change) -> Result<Writes, Memory>
    ensures { IfOk result (λ ws. Follows world.old change.now world.new ws) }
{
    let mut things = noted(alloc, world, change)?;
    world.step(alloc, change)?;
    things.append(about(alloc, world, change)?)?;
    writes_of(alloc, world, things.as_slice())
}
