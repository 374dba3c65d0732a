// What is read of a view.
ghost use Rattle.std.specs.Prelude.{◌≡◌, IfOk};
ghost use Rattle.mesh_house.specs.World.{view};

use mesh_base_values::Name;
use mesh_house::World;
use mesh_list::{Duplicate, Memory};

/// The object that the view of that name points at.
pub(crate) fn view_of(world: &World, name: &Name) -> Result<Option<Name>, Memory>
    ensures { IfOk result (λ target. target ≡ view world.now name.now) }
{
    match world.views.find(name) {
        Some(view) => Ok(Some(view.target.copy()?)),
        None => Ok(None),
    }
}
