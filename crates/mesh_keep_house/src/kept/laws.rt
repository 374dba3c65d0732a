// What a warehouse begins with.
ghost use Rattle.std.specs.Prelude.{◌≡◌, [], Some};
ghost use Rattle.mesh_house.specs.World.{empty_world};
ghost use Rattle.mesh_keep.specs.Said.{world_of};
ghost use Rattle.mesh_keep_house.specs.stored.Begun.{begun};

/// Where a keeper had no records, those that a warehouse begins with are of the empty world.
pub fn empty_records_begin_with_the_empty_world()
    ensures { world_of (begun []) ≡ Some empty_world }
{}
