// Calls that make changes, one or several.
ghost use Rattle.std.specs.Prelude.{[], ◌∷◌};
ghost use Rattle.mesh_house.specs.Runs.{Makes};

use crate::house::{Warehouse, WhFail};
use crate::world::Change;
use std::alloc::Global;

/// Makes one change.
pub fn make<W: Warehouse>(house: &mut W, alloc: Global, change: &Change) -> Result<(), WhFail>
    ensures { Makes (λ w. change.now ∷ []) (W.told house.old) (W.told house.new) result }
{
    house.change(alloc, change)
}

/// Makes the changes of a list, each once and in its order, up to the first that fails.
pub fn make_all<W: Warehouse>(house: &mut W, alloc: Global, list: &[Change]) -> Result<(), WhFail>
    ensures { Makes (λ w. list.now) (W.told house.old) (W.told house.new) result }
{
    for change in list {
        make(house, alloc, change)?;
    }
    Ok(())
}
