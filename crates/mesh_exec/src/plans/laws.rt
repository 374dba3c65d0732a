// Plans can be made.
ghost use Rattle.std.specs.Prelude.{◌≡◌, ℕ, ℤ, true, List};
ghost use Rattle.std.specs.declared.option.Option.{Option};
ghost use Rattle.mesh_base.specs.declared.forgets.Restate.{Restate};
ghost use Rattle.mesh_base.specs.declared.snapshots.Env.{Env};
ghost use Rattle.mesh_base.specs.declared.snapshots.Node.{Node};
ghost use Rattle.mesh_time_days.specs.Moments.{IsMoment};
ghost use Rattle.mesh_base.specs.rules.Proper.{is_proper};
ghost use Rattle.mesh_base.specs.declared.rules.plans.Plan.{Plan};
ghost use Rattle.mesh_house_book.specs.declared.book.Book.{Book};
ghost use Rattle.mesh_exec_works.specs.Executable.{IsExecutable};
ghost use Rattle.mesh_plan.specs.Plans.{IsPlanOf};
ghost use Rattle.mesh_plan.specs.Running.{IsRunIn};

/// A plan of a proper project can be made, whether it is for an environment or for a run. The day that a model starts
/// at may be any number: that its units lie in the days of the calendar holds since no schedule of a plan is too
/// long.
pub fn plans_can_be_made()
    ensures plan { (b : Book) (nodes : List Node) (env : List ℕ) (t : ℤ) (again : Option Restate) (p : Plan) → IsMoment t → is_proper p.project.nodes ≡ true → IsPlanOf b nodes env t again p → IsExecutable p }
    ensures run { (b : Book) (env : List ℕ) (e : Option Env) (t : ℤ) (p : Plan) → IsMoment t → is_proper p.project.nodes ≡ true → IsRunIn b env e t p → IsExecutable p }
{}
