// A thing of a world, by its record.
ghost use Rattle.std.specs.Prelude.{◌≡◌, true, IfOk};
ghost use Rattle.mesh_keep.specs.Said.{thing_in};
ghost use Rattle.mesh_keep_house.specs.stored.Loads.{Takes};

use crate::stored::fault::LoadFail;
use crate::stored::thing::Thing;
use mesh_base_values::same_text;
use mesh_keep::Record;
use std::alloc::Global;

/// What a record says, where it stands under the name of that and a world may have it.
pub(crate) fn taken<T: Thing>(alloc: Global, found: &Record) -> Result<T, LoadFail>
    ensures said { Takes (thing_in T.said T.name T.may found.now) result }
    ensures allowed { IfOk result (λ thing. T.may thing ≡ true) }
{
    let thing = T::read(alloc, found.body.as_slice())?;
    let name = thing.record_name(alloc)?;
    if same_text(found.name.as_slice(), name.as_slice()) && thing.is_allowed() {
        Ok(thing)
    } else {
        drop(thing);
        Err(LoadFail::Unread)
    }
}
