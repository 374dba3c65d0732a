// What the definitions give.
ghost use Rattle.std.specs.Prelude.{◌++◌, ◌≡◌, IsTrue, List};
ghost use Rattle.mesh_spec_model.specs.Horizons.{Clock};
ghost use Rattle.mesh_house.specs.Step.{run};
ghost use Rattle.mesh_house.specs.declared.world.Change.{Change};
ghost use Rattle.mesh_house.specs.declared.world.World.{World};
ghost use Rattle.mesh_spec_changes.specs.due.Parts.{Parts};
ghost use Rattle.mesh_spec_changes.specs.Changes.{Plan, executes, opens, run_opens};
ghost use Rattle.mesh_spec_changes.specs.Commands.{Apply, RunAll, allows};
ghost use Rattle.mesh_spec_promise.specs.Histories.{IsMet, StaysFormed};
ghost use Rattle.mesh_spec_promise.specs.Sound.{Sound};

/// At every exit of a command, whether it settles or not, a world stays sound, but for the parts that were in doubt
/// or move by the command, and all parts of the objects that the command plans.
pub fn commands_keep_worlds_formed()
    ensures { StaysFormed }
{}

/// Whatever parts are in doubt, no object dangles that a model of a plan reads: all models of an apply and of a run
/// that aren't refused are made and filled, so that whatever changes are to come behind these do come.
pub fn plans_are_made_whole()
    ensures applies { (x : Parts) (w : World) (plan : Plan) (before after : Clock) → IsMet before after w (Apply plan) → IsTrue (allows w (Apply plan)) → Sound x w →
        (made : List Change) × ((last : List Change) → opens plan ++ executes after w.book plan.forgets plan.models last plan.models (run w (opens plan)) ≡ made ++ last) }
    ensures runs { (x : Parts) (w : World) (plan : Plan) (before after : Clock) → IsMet before after w (RunAll plan) → IsTrue (allows w (RunAll plan)) → Sound x w →
        (made : List Change) × ((last : List Change) → run_opens plan ++ executes after w.book plan.forgets plan.models last plan.models (run w (run_opens plan)) ≡ made ++ last) }
{}
