// What the definitions give.
ghost use Rattle.std.specs.Prelude.{◌≡◌, IsTrue, true, List, [], length};
ghost use Rattle.std.specs.List.{list_any};
ghost use Rattle.std.specs.declared.option.Option.{Option};
ghost use Rattle.mesh_base.specs.declared.forgets.Forget.{Forget};
ghost use Rattle.mesh_base.specs.declared.forgets.Restate.{Restate};
ghost use Rattle.mesh_base.specs.declared.snapshots.Node.{Node};
ghost use Rattle.mesh_base.specs.rules.Proper.{is_proper};
ghost use Rattle.mesh_house_book.specs.declared.book.Book.{Book};
ghost use Rattle.mesh_spec_model.specs.Horizons.{Clock, Shows};
ghost use Rattle.mesh_house.specs.Step.{run};
ghost use Rattle.mesh_house.specs.declared.world.World.{World};
ghost use Rattle.mesh_spec_changes.specs.due.Dues.{again, due};
ghost use Rattle.mesh_spec_changes.specs.due.Parts.{Parts, is_among, object_of};
ghost use Rattle.mesh_spec_changes.specs.due.Plans.{Planned, is_planned};
ghost use Rattle.mesh_spec_changes.specs.Changes.{Plan, forgetting};
ghost use Rattle.mesh_spec_changes.specs.Planning.{IsPlan, IsRunPlan};
ghost use Rattle.mesh_spec_promise.specs.Histories.{left};
ghost use Rattle.mesh_spec_promise.specs.Sound.{IsBookSound, Sound};
ghost use Rattle.mesh_law_changes.specs.along.Along.{StaysAlong};
ghost use Rattle.mesh_law_changes.specs.along.Ready.{AreApart, AreRanked, ArePut, IsReady};

/// Where the models of a plan stand in the book, and what is in doubt of them is due, a world stays sound while what
/// is computed again is forgotten. Then the plan is ready: what isn't due of its models is recorded and not in doubt.
pub fn opened_plans_are_ready()
    ensures { (clock : Clock) (b : Book) (forgets : List Forget) (all : List Planned) (restate : Option Restate) (y : Parts) (w : World) → IsBookSound b → Sound y w → Shows clock w.book.moment → ArePut b all w →
        forgets ≡ again clock b restate all → AreApart all → AreRanked all [] all →
        ((q : Forget) → y q ≡ true → IsTrue (is_planned all (object_of q)) → IsTrue (list_any (λ (p : Planned). is_among (due clock b forgets p) q) all)) →
        StaysAlong y w (forgetting forgets)
        × IsReady clock b forgets all (left (forgetting forgets) y) (run w (forgetting forgets))
        × ((run w (forgetting forgets)).book.environments ≡ b.environments)
        × ((run w (forgetting forgets)).book.moment ≡ w.book.moment)
        × ((run w (forgetting forgets)).sources ≡ w.sources) }
{}

/// The models of a project's plan have objects of their own, and stand behind their parents.
pub fn models_of_a_plan_are_apart()
    ensures { (clock : Clock) (b : Book) (nodes : List Node) (restate : Option Restate) (plan : Plan) → IsBookSound b → is_proper nodes ≡ true → IsPlan clock b nodes restate plan →
        AreApart plan.models × AreRanked plan.models [] plan.models }
{}

/// So do those of a run. They stand in the book, in any world that has its snapshots, versions and environments.
pub fn runs_are_placed()
    ensures { (clock : Clock) (x : Parts) (w : World) (plan : Plan) → Sound x w → IsRunPlan clock w.book plan → AreApart plan.models × AreRanked plan.models [] plan.models
        × ((w' : World) → w'.book.snapshots ≡ w.book.snapshots → w'.book.versions ≡ w.book.versions → w'.book.environments ≡ w.book.environments → ArePut w.book plan.models w') }
{}
