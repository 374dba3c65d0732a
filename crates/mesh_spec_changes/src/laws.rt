// What the definitions give.
ghost use Rattle.std.specs.Prelude.{◌≡◌, List, [], Some, map, true, false};
ghost use Rattle.std.specs.List.{All};
ghost use Rattle.mesh_base.specs.declared.forgets.Rename.{Rename};
ghost use Rattle.mesh_base.specs.declared.snapshots.Env.{Env};
ghost use Rattle.mesh_base.specs.declared.snapshots.Ref.{Ref};
ghost use Rattle.mesh_base.specs.declared.snapshots.Snapshot.{Snapshot};
ghost use Rattle.mesh_spec_model.specs.Horizons.{Clock};
ghost use Rattle.mesh_house_book.specs.WellFormed.{is_well_formed_book, snapshot_at};
ghost use Rattle.mesh_house_book.specs.declared.book.Book.{Book};
ghost use Rattle.mesh_house_book.specs.moves.Renames.{has_twins, migrate, renamed, renamed_all};
ghost use Rattle.mesh_house.specs.declared.world.World.{World};
ghost use Rattle.mesh_spec_changes.specs.listed.Closing.{closure_at};
ghost use Rattle.mesh_spec_changes.specs.Commands.{Command, allows, changes};

/// A command that is refused makes no change.
pub fn what_changes_nothing()
    ensures { (clock : Clock) (c : Command) (w : World) → allows w c ≡ false → changes clock c w ≡ [] }
{}

/// A book whose snapshots get other fingerprints keeps the closure of each snapshot, under its new reference, and so
/// those of every environment's list.
pub fn migrating_keeps_closures()
    ensures snapshots { (b : Book) (renames : List Rename) → is_well_formed_book b ≡ true → has_twins (renamed_all renames b.snapshots) ≡ false → (r : Ref) (s : Snapshot) → snapshot_at b.snapshots r ≡ Some s →
        closure_at (migrate b renames).snapshots (renamed renames r) ≡ closure_at b.snapshots r }
    ensures lists { (b : Book) (renames : List Rename) → is_well_formed_book b ≡ true → has_twins (renamed_all renames b.snapshots) ≡ false →
        All (λ (e : Env). map (closure_at (migrate b renames).snapshots) (map (renamed renames) e.list) ≡ map (closure_at b.snapshots) e.list) b.environments }
{}
