// What the definitions give.
ghost use Rattle.std.specs.Prelude.{◌≡◌, ◌++◌, []};
ghost use Rattle.mesh_base.specs.declared.rules.plans.Plan.{Plan};
ghost use Rattle.mesh_spec_model.specs.Horizons.{Clock};
ghost use Rattle.mesh_house_book.specs.declared.book.Book.{Book};
ghost use Rattle.mesh_house.specs.declared.world.World.{World};
ghost use Rattle.mesh_house.specs.Step.{run};
ghost use Rattle.mesh_spec_changes.specs.Changes.{executes};
ghost use Rattle.mesh_exec.specs.Executed.{executed};
ghost use Rattle.mesh_exec.specs.Planned.{IsOf, opens_of, planned_models};

/// A plan in which what is due and what is made are what a book says makes the changes that are asked for with that
/// book: those of an apply, or of a run, before an environment gets its views.
pub fn a_plan_of_a_book_makes_what_is_asked()
    ensures { (clock : Clock) (b : Book) (p : Plan) → IsOf clock b p → (w : World) →
        executed p w ≡ opens_of p ++ executes clock b p.forgets (planned_models p) [] (planned_models p) (run w (opens_of p)) }
{}
