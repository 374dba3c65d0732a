// What views show.
ghost use Rattle.std.specs.Prelude.{◌≡◌, ◌++◌, IsSome, Some, ℤ, List, [], true, false};
ghost use Rattle.std.specs.List.{Contains};
ghost use Rattle.std.specs.declared.option.Option.{Option};
ghost use Rattle.mesh_base_values.specs.declared.values.Name.{Name};
ghost use Rattle.mesh_base.specs.declared.forgets.Restate.{Restate};
ghost use Rattle.mesh_base.specs.declared.snapshots.Env.{Env};
ghost use Rattle.mesh_base.specs.declared.snapshots.Node.{Node};
ghost use Rattle.mesh_base.specs.declared.snapshots.Ref.{Ref};
ghost use Rattle.mesh_base.specs.rules.Proper.{is_proper};
ghost use Rattle.mesh_spec_model.specs.Horizons.{Clock};
ghost use Rattle.mesh_house.specs.Step.{run};
ghost use Rattle.mesh_house.specs.World.{view};
ghost use Rattle.mesh_house.specs.declared.world.Change.{Change};
ghost use Rattle.mesh_house.specs.declared.world.World.{World};
ghost use Rattle.mesh_spec_changes.specs.shown.Shown.{object_rows, view_rows};
ghost use Rattle.mesh_spec_changes.specs.due.Parts.{Parts};
ghost use Rattle.mesh_spec_changes.specs.due.Plans.{Planned};
ghost use Rattle.mesh_spec_changes.specs.Apart.{IsApart};
ghost use Rattle.mesh_spec_changes.specs.Changes.{Plan, executes, opens};
ghost use Rattle.mesh_spec_changes.specs.Commands.{Apply, allows};
ghost use Rattle.mesh_spec_changes.specs.Environments.{IsEnv, is_over, view_in};
ghost use Rattle.mesh_spec_changes.specs.Kept.{sweeps};
ghost use Rattle.mesh_spec_changes.specs.Planning.{IsPlan, IsRunPlan};
ghost use Rattle.mesh_spec_promise.specs.Histories.{IsMet};
ghost use Rattle.mesh_spec_promise.specs.Sound.{IsEntry, Sound};

/// In a world that is kept well, whatever parts are in doubt, each view shows rows.
pub fn every_view_shows_rows()
    ensures { (x : Parts) (w : World) → Sound x w → (name target : Name) → view w name ≡ Some target → IsSome (view_rows w name) }
{}

/// Whether an apply settles or not, if it isn't refused: once all models of its plan are made and filled, and before
/// its environment gets its list and its views, each of these models shows rows.
pub fn executed_plans_show_rows()
    ensures { (before after : Clock) (x : Parts) (w : World) (plan : Plan) → IsMet before after w (Apply plan) → allows w (Apply plan) ≡ true → Sound x w →
        (p : Planned) → Contains plan.models p → IsSome (object_rows (run w (opens plan ++ executes after w.book plan.forgets plan.models [] plan.models (run w (opens plan)))) p.object) }
{}

/// The models of each plan that an apply or a run has in a world that is kept well have objects of their own, and for
/// the rows of one of them nothing is looked at but its object and those of models before it.
pub fn plans_are_apart()
    ensures { (clock : Clock) (x : Parts) (w : World) → Sound x w →
        ((nodes : List Node) (restate : Option Restate) (plan : Plan) → is_proper nodes ≡ true → IsPlan clock w.book nodes restate plan → IsApart w plan.models)
        × ((plan : Plan) → IsRunPlan clock w.book plan → IsApart w plan.models) }
{}

/// Wherever the janitor stops, at any moment, each view of an environment that isn't over then points where it
/// pointed, and shows the rows that it showed; one that didn't stand doesn't stand.
pub fn sweeps_leave_other_views()
    ensures { (x : Parts) (w : World) (t : ℤ) → Sound x w → (made rest : List Change) → sweeps w.book t ≡ made ++ rest →
        (e : Env) → IsEnv w.book e → is_over t e.expires ≡ false → (r : Ref) → IsEntry e r →
        (view (run w made) (view_in e.name r.name) ≡ view w (view_in e.name r.name)) × (view_rows (run w made) (view_in e.name r.name) ≡ view_rows w (view_in e.name r.name)) }
{}
