// What the definitions give.
ghost use Rattle.std.specs.Prelude.{◌≡◌, true, List, length};
ghost use Rattle.std.specs.declared.option.Option.{Option};
ghost use Rattle.mesh_base.specs.declared.forgets.Restate.{Restate};
ghost use Rattle.mesh_base.specs.declared.snapshots.Node.{Node};
ghost use Rattle.mesh_base.specs.rules.Proper.{is_proper};
ghost use Rattle.mesh_spec_model.specs.Horizons.{Clock};
ghost use Rattle.mesh_house.specs.Step.{run, step};
ghost use Rattle.mesh_house.specs.declared.world.Change.TheVariants.{Moment};
ghost use Rattle.mesh_house.specs.declared.world.World.{World};
ghost use Rattle.mesh_spec_changes.specs.due.Parts.{Parts};
ghost use Rattle.mesh_spec_changes.specs.Changes.{Plan, puts};
ghost use Rattle.mesh_spec_changes.specs.Commands.{is_present};
ghost use Rattle.mesh_spec_changes.specs.Planning.{IsPlan};
ghost use Rattle.mesh_spec_promise.specs.Sound.{Sound};
ghost use Rattle.mesh_law_changes.specs.along.Along.{StaysAlong};
ghost use Rattle.mesh_law_changes.specs.along.Ready.{ArePut};

/// The world stays well kept while the models of a plan are put into its book. Then each of them is a snapshot there,
/// with its parents, its object and its closure, its object has a version, and all else is as before.
pub fn plans_are_put()
    ensures { (clock : Clock) (x y : Parts) (w : World) (nodes : List Node) (restate : Option Restate) (plan : Plan) → Sound x w → is_present w.book ≡ true → is_proper nodes ≡ true →
        IsPlan clock w.book nodes restate plan → Sound y (step w (Moment plan.moment)) →
        StaysAlong y (step w (Moment plan.moment)) (puts plan.moment plan.models)
        × ArePut w.book plan.models (run (step w (Moment plan.moment)) (puts plan.moment plan.models))
        × ((run (step w (Moment plan.moment)) (puts plan.moment plan.models)).book.moment ≡ (step w (Moment plan.moment)).book.moment)
        × ((run (step w (Moment plan.moment)) (puts plan.moment plan.models)).sources ≡ w.sources) }
{}
