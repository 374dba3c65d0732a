// What holds of all records.
ghost use Rattle.std.specs.Prelude.{◌≡◌, ◌↔◌, true, List, Some};
ghost use Rattle.mesh_list.specs.Keyed.{ascends};
ghost use Rattle.mesh_house.specs.declared.world.World.{World};
ghost use Rattle.mesh_keep.specs.declared.kept.Kept.{Kept};
ghost use Rattle.mesh_keep.specs.Holds.{Holds, Knows};
ghost use Rattle.mesh_keep.specs.Places.{kept_place, place_cmp};
ghost use Rattle.mesh_keep.specs.Said.{known_world, world_of};

/// Records that hold a world hold no other.
pub fn records_hold_one_world()
    ensures { (kept : List Kept) (a b : World) → Holds kept a → Holds kept b → a ≡ b }
{}

/// Records in order hold a world exactly where it is the one that they say.
pub fn records_say_their_world()
    ensures known { (kept : List Kept) (w : World) → ascends place_cmp kept_place kept ≡ true → (known_world kept ≡ Some w) ↔ Knows kept w }
    ensures whole { (kept : List Kept) (w : World) → ascends place_cmp kept_place kept ≡ true → (world_of kept ≡ Some w) ↔ Holds kept w }
{}
