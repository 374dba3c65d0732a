//! Lists of changes are made. Its contract: `make_counted` makes a list, one call for each change, and answers how
//! many there were, or stops after a part of it.

// The changes of a list are made one by one, and counted.
ghost use Rattle.std.specs.Prelude.{◌≡◌, length, IfOk};
ghost use Rattle.mesh_list.specs.Counts.{risen};
ghost use Rattle.mesh_house.specs.Runs.{Makes};

use mesh_house::{Change, Warehouse, WhFail};
use std::alloc::Global;

/// Makes the changes of a list, each once and in its order, up to the first that fails, and answers their number.
pub fn make_counted<W: Warehouse>(
    alloc: Global,
    house: &mut W,
    list: &[Change],
) -> Result<u64, WhFail>
    ensures makes { Makes (λ w. list.now) (W.told house.old) (W.told house.new) result }
    ensures number { IfOk result (λ made. made ≡ length list.now) }
    ensures calls { IfOk result (λ made. (W.told house.new).calls ≡ risen made (W.told house.old).calls) }
{
    for change in list {
        house.change(alloc, change)?;
    }
    Ok(list.len() as u64)
}
