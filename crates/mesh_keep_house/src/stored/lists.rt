// The things of each kind, by their records.
ghost use Rattle.std.specs.Prelude.{[]};
ghost use Rattle.mesh_base_values.specs.Names.{name_cmp};
ghost use Rattle.mesh_base.specs.Keys.{input_name};
ghost use Rattle.mesh_house.specs.Objects.{object_name};
ghost use Rattle.mesh_house.specs.World.{view_name};
ghost use Rattle.mesh_keep.specs.Said.{object_said, source_said, thing_in, things_in, view_said};
ghost use Rattle.mesh_keep_house.specs.stored.Loads.{Takes};

use crate::stored::fault::LoadFail;
use crate::stored::taking::taken;
use crate::stored::thing::Thing;
use mesh_house::{Objects, SourceTables, ViewOf};
use mesh_keep::Record;
use mesh_list::{Keyed, Register, Sorted};
use std::alloc::Global;

/// The things that records say.
pub(crate) fn take_all<T: Thing + Keyed>(
    alloc: Global,
    records: &[Record],
) -> Result<Register<T>, LoadFail>
    ensures { Takes (things_in T.order T.key (thing_in T.said T.name T.may) [] records.now) result }
{
    let mut things = Register::new(alloc);
    for record in records {
        let thing: T = taken(alloc, record)?;
        things.place(thing)?;
    }
    Ok(things)
}

pub(crate) fn take_views(alloc: Global, records: &[Record]) -> Result<Sorted<ViewOf>, LoadFail>
    ensures { Takes (things_in name_cmp view_name view_said [] records.now) result }
{
    let mut views = Sorted::new(alloc);
    for record in records {
        let view: ViewOf = taken(alloc, record)?;
        views.place(view)?;
    }
    Ok(views)
}

pub(crate) fn take_objects(alloc: Global, records: &[Record]) -> Result<Objects, LoadFail>
    ensures { Takes (things_in name_cmp object_name object_said [] records.now) result }
{
    let mut objects = Objects::new(alloc);
    for record in records {
        let object = taken(alloc, record)?;
        objects.place(object)?;
    }
    Ok(objects)
}

pub(crate) fn take_sources(alloc: Global, records: &[Record]) -> Result<SourceTables, LoadFail>
    ensures { Takes (things_in name_cmp input_name source_said [] records.now) result }
{
    let mut sources = SourceTables::new(alloc);
    for record in records {
        let source = taken(alloc, record)?;
        sources.place(source)?;
    }
    Ok(sources)
}
