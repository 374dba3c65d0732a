// What the calls that a command is made of keep, by themselves.
ghost use Rattle.std.specs.Prelude.{◌≡◌, ℕ, ℤ, List, [], ◌∷◌, Err, Ok, Result, true};
ghost use Rattle.std.specs.declared.option.Option.{Option};
ghost use Rattle.mesh_base_values.specs.declared.values.Name.{Name};
ghost use Rattle.mesh_base.specs.declared.forgets.Restate.{Restate};
ghost use Rattle.mesh_base.specs.declared.jobs.Done.{Done};
ghost use Rattle.mesh_base.specs.declared.snapshots.Node.{Node};
ghost use Rattle.mesh_base.specs.declared.snapshots.Ref.{Ref};
ghost use Rattle.mesh_base.specs.declared.rules.plans.Plan.{Plan};
ghost use Rattle.mesh_time_days.specs.Moments.{IsMoment};
ghost use Rattle.mesh_house_book.specs.declared.book.Book.{Book};
ghost use Rattle.mesh_spec_model.specs.Horizons.{Clock, Shows};
ghost use Rattle.mesh_house.specs.House.{Told};
ghost use Rattle.mesh_house.specs.Runs.{Makes};
ghost use Rattle.mesh_house.specs.declared.house.WhFail.{WhFail};
ghost use Rattle.mesh_house.specs.declared.world.Change.TheVariants.{Expire};
ghost use Rattle.mesh_house.specs.declared.world.World.{World};
ghost use Rattle.mesh_spec_changes.specs.Changes.{objects_by_name, refs_by_name};
ghost use Rattle.mesh_spec_changes.specs.Commands.{Apply, Invalidate, Janitor, RunAll, allows};
ghost use Rattle.mesh_spec_changes.specs.Environments.{env_at};
ghost use Rattle.mesh_spec_changes.specs.Kept.{sweeps};
ghost use Rattle.mesh_spec_changes.specs.due.Parts.{Parts};
ghost use Rattle.mesh_layer.specs.Shows.{Tells};
ghost use Rattle.mesh_plan.specs.Plans.{promised};
ghost use Rattle.mesh_janitor.specs.declared.janitor.faults.Swept.{Swept};
ghost use Rattle.mesh_janitor.specs.declared.janitor.faults.SweepFault.{SweepFault};
ghost use Rattle.mesh_janitor.specs.janitor.Sweeping.{Sweeps};
ghost use Rattle.mesh_janitor.specs.promote.Promotion.{paired, promotion};
ghost use Rattle.mesh_exec.specs.Answers.{Executes};
ghost use Rattle.mesh_exec.specs.Planned.{planned_models};
ghost use Rattle.mesh_exec.specs.declared.faults.ExecFault.{ExecFault};
ghost use Rattle.mesh_exec.specs.declared.faults.ExecFault.TheVariants.{Dangling};
ghost use Rattle.mesh_cli_apply.specs.Planning.{IsPlanned, IsRunPlanned};
ghost use Rattle.mesh_spec_promise.specs.Sound.{Sound};
ghost use Rattle.mesh_cli_words.specs.declared.line.Command.{Command};
ghost use Rattle.mesh_cli_print.specs.declared.printed.refusals.Refusal.{Refusal};
ghost use Rattle.mesh_cli.specs.cli.Asked.{Gives};
ghost use Rattle.mesh_cli.specs.cli.Ends.{Commanded};
ghost use Rattle.mesh_cli.specs.cli.Sides.{Sides};
ghost use Rattle.mesh_cli.specs.promise.Stages.{IsBegun, IsUnderWay, tells_of_damage};

/// The call that makes a plan keeps a sound world sound at each of its exits by itself, in an apply and in a run that
/// settle.
pub fn executions_keep_worlds_sound()
    ensures applies { (before after : Clock) (x : Parts) (w : World) → Shows before w.book.moment → (t : ℤ) → IsMoment t → Shows after t → (nodes : List Node) (env : List ℕ) (again : Option Restate) (p : Plan) → IsPlanned w.book nodes env t again p →
        IsBegun before after (Apply (promised p)) x w → (old new : Told) (result : Result Done ExecFault) → Tells old w → Executes p old new result → IsUnderWay before after (Apply (promised p)) x w new }
    ensures runs { (before after : Clock) (x : Parts) (w : World) → Shows before w.book.moment → (t : ℤ) → IsMoment t → Shows after t → (env : List ℕ) (p : Plan) → IsRunPlanned w.book env t p →
        IsBegun before after (RunAll (promised p)) x w → (old new : Told) (result : Result Done ExecFault) → Tells old w → Executes p old new result → IsUnderWay before after (RunAll (promised p)) x w new }
{}

/// So does the call that switches an environment to the list and the objects of a plan that was made whole just
/// before, where the book that it is given has the record of that environment.
pub fn promotions_keep_worlds_sound()
    ensures { (before after : Clock) (x : Parts) (w : World) → Shows before w.book.moment → (t : ℤ) → IsMoment t → Shows after t → (nodes : List Node) (env : List ℕ) (again : Option Restate) (p : Plan) → IsPlanned w.book nodes env t again p →
        IsBegun before after (Apply (promised p)) x w → (old mid new : Told) (done : Done) → Tells old w → Executes p old mid (Ok done) → (b : Book) (list : List Ref) (objects : List Name) → env_at b p.env ≡ env_at w.book p.env →
        list ≡ refs_by_name (planned_models p) → paired list objects ≡ objects_by_name (planned_models p) → (result : Result ℕ WhFail) → Makes (λ v. promotion b p.env list objects p.moment) mid new result →
        IsUnderWay before after (Apply (promised p)) x w new }
{}

/// So do the calls of the janitor, and of an environment that is to go.
pub fn sweeps_keep_worlds_sound()
    ensures sweeps { (before after : Clock) (x : Parts) (w : World) → Shows before w.book.moment → (t : ℤ) → IsMoment t → Shows after t → allows w (Janitor t) ≡ true →
        IsBegun before after (Janitor t) x w → (old new : Told) → Tells old w → (result : Result Swept SweepFault) → Sweeps (sweeps w.book t) old new result → IsUnderWay before after (Janitor t) x w new }
    ensures invalidates { (before after : Clock) (x : Parts) (w : World) → Shows before w.book.moment → (env : List ℕ) → Shows after w.book.moment → allows w (Invalidate env) ≡ true →
        IsBegun before after (Invalidate env) x w → (old new : Told) → Tells old w → (result : Result (Unit {0}) SweepFault) → Sweeps (Expire env ∷ []) old new result → IsUnderWay before after (Invalidate env) x w new }
{}

/// In a sound world, whatever parts are in doubt, the call that makes a plan never answers that an object dangles.
pub fn executions_never_dangle()
    ensures applies { (before after : Clock) (x : Parts) (w : World) → Shows before w.book.moment → (t : ℤ) → IsMoment t → Shows after t → Sound x w → (nodes : List Node) (env : List ℕ) (again : Option Restate) (p : Plan) → IsPlanned w.book nodes env t again p →
        (old new : Told) (object : Name) → Tells old w → Executes p old new (Err (Dangling object)) → ⊥ }
    ensures runs { (before after : Clock) (x : Parts) (w : World) → Shows before w.book.moment → (t : ℤ) → IsMoment t → Shows after t → Sound x w → (env : List ℕ) (p : Plan) → IsRunPlanned w.book env t p →
        (old new : Told) (object : Name) → Tells old w → Executes p old new (Err (Dangling object)) → ⊥ }
{}

/// Nor does any command tell of a sound world that it is damaged, whatever parts are in doubt: its book breaks no
/// rule, the models of an apply or a run show their rows in each world on the way, and so do the views that a
/// question reads.
pub fn commands_never_find_damage()
    ensures gives { (dir : List ℕ) (s : Sides) (c : Command) (x : Parts) (w : World) → Sound x w → (why : Refusal) → tells_of_damage why ≡ true → Gives dir s c w (Err why) → ⊥ }
    ensures answers { (dir : List ℕ) (c : Command) (old new : Sides) (why : Refusal) → tells_of_damage why ≡ true → Commanded dir c old new (Err why) → (x : Parts) (w : World) → Tells old.house w → Sound x w → ⊥ }
{}
