// A change of a world, and of the records that say it.
ghost use Rattle.std.specs.Prelude.{OnOk};
ghost use Rattle.mesh_keep_house.specs.kept.Kept.{Steps};
ghost use Rattle.mesh_keep_house.specs.stored.Loads.{AreSaid};

use crate::touched::stepped;
use mesh_house::{Change, WhFail, World};
use mesh_keep::{KeepFail, Keeper};
use std::alloc::Global;

/// Makes a change of a world in memory, and then by one write.
pub(crate) fn written<K: Keeper>(
    alloc: Global,
    keeper: &mut K,
    world: &mut World,
    change: &Change,
) -> Result<(), WhFail>
    requires { AreSaid (K.told keeper.old).records world.old }
    ensures steps { Steps change.now (K.told keeper.old) (K.told keeper.new) result }
    ensures said { OnOk result (AreSaid (K.told keeper.new).records world.new) }
{
    let writes = stepped(alloc, world, change)?;
    match keeper.write(alloc, &writes) {
        Ok(()) => Ok(()),
        Err(KeepFail::Failed) => Err(WhFail::Failed),
        Err(KeepFail::Memory) => Err(WhFail::Memory),
    }
}
