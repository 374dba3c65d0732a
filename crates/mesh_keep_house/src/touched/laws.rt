// What holds of records that follow a change.
ghost use Rattle.std.specs.Prelude.{◌≡◌, true, List};
ghost use Rattle.mesh_list.specs.Keyed.{ascends};
ghost use Rattle.mesh_house.specs.declared.world.Change.{Change};
ghost use Rattle.mesh_house.specs.declared.world.World.{World};
ghost use Rattle.mesh_keep.specs.declared.kept.Kept.{Kept};
ghost use Rattle.mesh_keep.specs.declared.kept.Write.{Write};
ghost use Rattle.mesh_keep.specs.Holds.{Knows, all_known};
ghost use Rattle.mesh_keep.specs.Places.{kept_place, place_cmp, written};
ghost use Rattle.mesh_keep_house.specs.touched.Touched.{Follows};

/// Records in order that know a world know the next one once they follow a change of it, and there is another record
/// among them only where there was one before.
pub fn records_follow_changes()
    ensures known { (kept : List Kept) (w : World) (c : Change) (v : World) (ws : List Write) → ascends place_cmp kept_place kept ≡ true →
        Knows kept w → Follows w c v ws → Knows (written kept ws) v }
    ensures others { (kept : List Kept) (w : World) (c : Change) (v : World) (ws : List Write) → ascends place_cmp kept_place kept ≡ true →
        Follows w c v ws → all_known (written kept ws) ≡ all_known kept }
{}
