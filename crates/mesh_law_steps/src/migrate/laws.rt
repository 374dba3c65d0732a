// What a move to other fingerprints leaves.
ghost use Rattle.std.specs.Prelude.{◌++◌, ◌≡◌, List};
ghost use Rattle.mesh_base_values.specs.declared.values.Name.{Name};
ghost use Rattle.mesh_base.specs.declared.forgets.Rename.{Rename};
ghost use Rattle.mesh_spec_model.specs.Horizons.{Clock};
ghost use Rattle.mesh_house.specs.Step.{run};
ghost use Rattle.mesh_house.specs.declared.world.Change.{Change};
ghost use Rattle.mesh_house.specs.declared.world.World.{World};
ghost use Rattle.mesh_spec_changes.specs.shown.Shown.{view_rows};
ghost use Rattle.mesh_spec_changes.specs.due.Dues.{dues};
ghost use Rattle.mesh_spec_changes.specs.due.Parts.{Parts};
ghost use Rattle.mesh_spec_changes.specs.Changes.{Plan};
ghost use Rattle.mesh_spec_changes.specs.Commands.{MigrateAll, changes};
ghost use Rattle.mesh_spec_changes.specs.Planning.{IsRunPlan};
ghost use Rattle.mesh_spec_promise.specs.Sound.{Sound};

/// Where a book moves to other fingerprints, each view shows at every exit of the command the rows that it showed.
pub fn migrating_leaves_the_rows_of_views()
    ensures { (clock : Clock) (w : World) (renames : List Rename) (made rest : List Change) → changes clock (MigrateAll renames) w ≡ made ++ rest → (name : Name) → view_rows (run w made) name ≡ view_rows w name }
{}

/// So has each environment, whichever parts are in doubt, one list of dues by a run before the command and at every
/// exit of it.
pub fn migrating_leaves_what_is_due()
    ensures { (x : Parts) (w : World) → Sound x w → (clock : Clock) (renames : List Rename) (made rest : List Change) → changes clock (MigrateAll renames) w ≡ made ++ rest →
        (plan later : Plan) → IsRunPlan clock w.book plan → IsRunPlan clock (run w made).book later → later.env ≡ plan.env →
        dues clock (run w made).book later.forgets later.models ≡ dues clock w.book plan.forgets plan.models }
{}
