// What audits find.
ghost use Rattle.std.specs.Prelude.{◌≡◌, ℕ, ℤ, IsTrue, List, None, Some, ◌++◌, false, length, map, true};
ghost use Rattle.std.specs.declared.option.Option.{Option};
ghost use Rattle.mesh_base_values.specs.Bag.{IsSameBag};
ghost use Rattle.mesh_base_values.specs.declared.values.Cell.{Cell};
ghost use Rattle.mesh_base.specs.declared.forgets.Restate.{Restate};
ghost use Rattle.mesh_base.specs.declared.plans.Entry.{Entry};
ghost use Rattle.mesh_base.specs.declared.rules.plans.Plan.{Plan};
ghost use Rattle.mesh_base.specs.declared.snapshots.Env.{Env};
ghost use Rattle.mesh_base.specs.declared.snapshots.Node.{Node};
ghost use Rattle.mesh_spec_model.specs.Horizons.{Clock};
ghost use Rattle.mesh_house.specs.Step.{run};
ghost use Rattle.mesh_house.specs.declared.world.World.{World};
ghost use Rattle.mesh_spec_changes.specs.due.Parts.{Parts};
ghost use Rattle.mesh_spec_changes.specs.Changes.{applies, promotes, runs};
ghost use Rattle.mesh_spec_changes.specs.Commands.{Apply, RunAll, allows};
ghost use Rattle.mesh_spec_promise.specs.Histories.{IsMet};
ghost use Rattle.mesh_spec_promise.specs.Sound.{Sound};
ghost use Rattle.mesh_plan.specs.Plans.{IsPlanOf, promised};
ghost use Rattle.mesh_plan.specs.Running.{IsRunOf};
ghost use Rattle.mesh_layer.specs.Lost.{first_of};
ghost use Rattle.mesh_audit.specs.declared.audits.Audit.{Audit};
ghost use Rattle.mesh_audit.specs.Audited.{audit_rows, finding, found_by, gathered, lost_by, lost_for, placed, scratch_rows};
ghost use Rattle.mesh_exec.specs.Executed.{executed};
ghost use Rattle.mesh_exec.specs.Planned.{IsOf};
ghost use Rattle.mesh_law_audit.specs.Execution.{Begins, execution};
ghost use Rattle.mesh_law_audit.specs.Scratch.{FindFromScratch, scratch_findings};
ghost use Rattle.mesh_law_audit.specs.UpToDate.{AreUpToDate};

/// Where all models of a project are up to date, an audit's rows over what their objects show are those from scratch,
/// perhaps in another order. So it has a finding exactly where it has rows from scratch, with their number, and what
/// audits find is what they find from scratch. No object that an audit reads dangles.
pub fn audits_find_what_they_find_from_scratch()
    ensures rows { (clock : Clock) (x : Parts) (w : World) (nodes : List Node) (entries : List Entry) → AreUpToDate clock x w nodes entries → (a : Audit) →
        (rows : List (List Cell)) × (audit_rows w (placed nodes entries) a ≡ Some rows) × IsSameBag rows (scratch_rows a nodes w.sources clock) }
    ensures finding { (clock : Clock) (x : Parts) (w : World) (nodes : List Node) (entries : List Entry) → AreUpToDate clock x w nodes entries → (a : Audit) →
        found_by w (placed nodes entries) a ≡ Some (finding a (scratch_rows a nodes w.sources clock)) }
    ensures findings { (clock : Clock) (x : Parts) (w : World) (nodes : List Node) (entries : List Entry) → AreUpToDate clock x w nodes entries → (audits : List Audit) →
        gathered (found_by w (placed nodes entries)) audits ≡ Some (scratch_findings audits nodes w.sources clock) }
    ensures objects { (clock : Clock) (x : Parts) (w : World) (nodes : List Node) (entries : List Entry) → AreUpToDate clock x w nodes entries → (audits : List Audit) →
        first_of (map (lost_by w (placed nodes entries)) audits) ≡ None }
{}

/// Once an apply that settles has put, made and filled its models, and before its environment gets them, audits find
/// what they find from scratch at the apply's moment, and miss no object. So they do after a run.
pub fn executed_plans_are_audited_from_scratch()
    ensures applies { (before after : Clock) (x : Parts) (w : World) (p : Plan) → Begins before after x w (Apply (promised p)) → length p.entries ≡ length p.project.nodes →
        FindFromScratch p w.sources after (run w (execution after (promised p) w)) }
    ensures runs { (before after : Clock) (x : Parts) (w : World) (p : Plan) → Begins before after x w (RunAll (promised p)) → length p.entries ≡ length p.project.nodes →
        FindFromScratch p w.sources after (run w (runs after (promised p) w)) }
{}

/// No object that an audit reads dangles then, or after a run, whether it settles or not. So it is once the plan of a
/// project, or that of a run, is executed.
pub fn audits_miss_no_object()
    ensures applies { (before after : Clock) (x : Parts) (w : World) (p : Plan) → IsMet before after w (Apply (promised p)) → IsTrue (allows w (Apply (promised p))) → Sound x w → (audits : List Audit) →
        lost_for p audits (run w (execution after (promised p) w)) ≡ None }
    ensures runs { (before after : Clock) (x : Parts) (w : World) (p : Plan) → IsMet before after w (RunAll (promised p)) → IsTrue (allows w (RunAll (promised p))) → Sound x w → (audits : List Audit) →
        lost_for p audits (run w (runs after (promised p) w)) ≡ None }
    ensures made_applies { (before after : Clock) (x : Parts) (w : World) (p : Plan) → IsMet before after w (Apply (promised p)) → IsTrue (allows w (Apply (promised p))) → Sound x w →
        (nodes : List Node) (env : List ℕ) (t : ℤ) (again : Option Restate) → IsPlanOf w.book nodes env t again p → (audits : List Audit) → lost_for p audits (run w (executed p w)) ≡ None }
    ensures made_runs { (before after : Clock) (x : Parts) (w : World) (p : Plan) → IsMet before after w (RunAll (promised p)) → IsTrue (allows w (RunAll (promised p))) → Sound x w →
        (env : List ℕ) (e : Env) (t : ℤ) → IsRunOf w.book env e t p → (audits : List Audit) → lost_for p audits (run w (executed p w)) ≡ None }
{}

/// The execution is what an apply does first: behind it come the changes of its environment alone. It is what a plan
/// is executed by, where its dues and entries are those of the book, and the changes of a run are so for a run's plan.
pub fn executions_come_before_promotions()
    ensures front { (before after : Clock) (x : Parts) (w : World) (p : Plan) → IsMet before after w (Apply (promised p)) → IsTrue (allows w (Apply (promised p))) → Sound x w →
        applies after (promised p) w ≡ execution after (promised p) w ++ promotes w.book (promised p) }
    ensures applies { (clock : Clock) (w : World) (p : Plan) → IsOf clock w.book p → p.run ≡ false → executed p w ≡ execution clock (promised p) w }
    ensures runs { (clock : Clock) (w : World) (p : Plan) → IsOf clock w.book p → p.run ≡ true → executed p w ≡ runs clock (promised p) w }
{}

/// Once the plan of a project for an environment is executed, and the apply settles, audits find what they find from
/// scratch, and miss no object. So they do once the plan of a run is.
pub fn made_plans_are_audited_from_scratch()
    ensures applies { (before after : Clock) (x : Parts) (w : World) (p : Plan) → Begins before after x w (Apply (promised p)) →
        (nodes : List Node) (env : List ℕ) (t : ℤ) (again : Option Restate) → IsPlanOf w.book nodes env t again p → FindFromScratch p w.sources after (run w (executed p w)) }
    ensures runs { (before after : Clock) (x : Parts) (w : World) (p : Plan) → Begins before after x w (RunAll (promised p)) →
        (env : List ℕ) (e : Env) (t : ℤ) → IsRunOf w.book env e t p → FindFromScratch p w.sources after (run w (executed p w)) }
{}
