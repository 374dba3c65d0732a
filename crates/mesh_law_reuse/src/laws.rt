// When a table may be used again.
ghost use Rattle.std.specs.Prelude.{◌≡◌, ℤ, true, List, Some, length, map};
ghost use Rattle.std.specs.declared.option.Option.{Option};
ghost use Rattle.std.specs.List.{All, Contains, fold};
ghost use Rattle.mesh_base.specs.declared.jobs.Input.{Input};
ghost use Rattle.mesh_base.specs.declared.forgets.Restate.{Restate};
ghost use Rattle.mesh_base.specs.declared.plans.Category.{Category};
ghost use Rattle.mesh_base.specs.declared.snapshots.Node.{Node};
ghost use Rattle.mesh_base.specs.declared.snapshots.Snapshot.{Snapshot};
ghost use Rattle.mesh_base.specs.rules.Proper.{is_proper};
ghost use Rattle.mesh_house_book.specs.declared.book.Book.{Book};
ghost use Rattle.mesh_house_book.specs.Changes.{put_snapshot};
ghost use Rattle.mesh_house_book.specs.WellFormed.{is_well_formed_book};
ghost use Rattle.mesh_spec_changes.specs.listed.Closing.{IsSnapshot, closing};
ghost use Rattle.mesh_base_values.specs.declared.times.Bounds.{Bounds};
ghost use Rattle.mesh_spec_model.specs.Closures.{Closure, closures, own_of};
ghost use Rattle.mesh_spec_model.specs.Horizons.{Clock, horizon, schedule};
ghost use Rattle.mesh_spec_model.specs.Scratch.{from_scratch, piece};
ghost use Rattle.mesh_spec_changes.specs.reuse.Cores.{core, IsTwin};
ghost use Rattle.mesh_spec_changes.specs.reuse.Categories.{HasCategory, Stated};
ghost use Rattle.mesh_spec_changes.specs.reuse.Compatible.{IsCompatible};
ghost use Rattle.mesh_spec_changes.specs.due.Marks.{marks};
ghost use Rattle.mesh_spec_changes.specs.due.Plans.{Planned};
ghost use Rattle.mesh_spec_changes.specs.due.Versions.{stays};
ghost use Rattle.mesh_spec_changes.specs.Changes.{Plan, snapshot_of};
ghost use Rattle.mesh_spec_changes.specs.Planning.{IsPlan, IsRunPlan};
ghost use Rattle.mesh_law_reuse.specs.Shared.{HasPut, SharesWithTwins};
ghost use Rattle.mesh_law_reuse.specs.Well.{AreWell};

/// The core of a model has the model's horizon and the units of its schedule.
#[tactic(auto, using(crate::proofs::Horizons::horizon_core, crate::proofs::Horizons::schedule_core))]
pub fn cores_have_the_same_times()
    ensures horizons { (clock : Clock) (c : Closure) → horizon clock c ≡ horizon clock (core c) }
    ensures schedules { (clock : Clock) (c : Closure) → schedule clock c ≡ schedule clock (core c) }
{}

/// The rows of a model from scratch are those of its core, in the same order, and so are those of each unit.
#[tactic(auto, using(crate::proofs::Cores::scratch_core, crate::proofs::Cores::piece_core))]
pub fn cores_have_the_same_rows()
    ensures rows { (sources : List Input) (clock : Clock) (c : Closure) → from_scratch sources clock c ≡ from_scratch sources clock (core c) }
    ensures pieces { (sources : List Input) (clock : Clock) (c : Closure) (u : Bounds) → piece sources clock c u ≡ piece sources clock (core c) u }
{}

/// The marks of a model are those of its core.
#[tactic(auto, using(crate::proofs::Marking::marks_core))]
pub fn cores_have_the_same_marks()
    ensures { (clock : Clock) (c : Closure) → marks clock c ≡ marks clock (core c) }
{}

/// So twins have the same rows from scratch, those of each unit too, and the same horizon, schedule and marks.
#[tactic(auto, using(crate::proofs::Sharing::same_rows, crate::proofs::Sharing::same_pieces, crate::proofs::Sharing::same_horizons, crate::proofs::Sharing::same_schedules, crate::proofs::Sharing::twin_marks))]
pub fn twins_have_the_same_rows()
    ensures rows { (a b : Closure) → IsTwin a b → (sources : List Input) (clock : Clock) → from_scratch sources clock a ≡ from_scratch sources clock b }
    ensures pieces { (a b : Closure) → IsTwin a b → (sources : List Input) (clock : Clock) (u : Bounds) → piece sources clock a u ≡ piece sources clock b u }
    ensures horizons { (a b : Closure) → IsTwin a b → (clock : Clock) → horizon clock a ≡ horizon clock b }
    ensures schedules { (a b : Closure) → IsTwin a b → (clock : Clock) → schedule clock a ≡ schedule clock b }
    ensures marks { (a b : Closure) → IsTwin a b → (clock : Clock) → marks clock a ≡ marks clock b }
{}

/// The models of a proper project are well formed with their parents, and so are those that they stand on. So are the
/// snapshots of a well-formed book.
#[tactic(auto, using(crate::proofs::Projects::projects_well, crate::proofs::Books::snapshots_well))]
pub fn models_are_well_formed_with_their_ancestors()
    ensures projects { (nodes : List Node) → is_proper nodes ≡ true → All AreWell (closures nodes) }
    ensures snapshots { (b : Book) → is_well_formed_book b ≡ true → (s : Snapshot) → IsSnapshot b.snapshots s → AreWell (closing b.snapshots s) }
{}

/// Where nothing but columns was added above a model, whose own definition is the same, the old model and the new one
/// need the same: they are twins.
#[tactic(auto, using(crate::proofs::Fit::well_twins))]
pub fn additions_above_leave_twins()
    ensures { (old new : Closure) → IsCompatible old new → own_of old ≡ own_of new → AreWell old → AreWell new → IsTwin old new }
{}

/// A table stays only where the model that has it and the new one are twins.
pub fn tables_stay_with_twins()
    ensures { (old new : Stated) (category : Category) → HasCategory (Some old) new category → stays category (own_of new.closure).kind ≡ true →
        AreWell old.closure → AreWell new.closure → IsTwin old.closure new.closure }
{}

/// Where snapshots of a book share a table only as twins, each snapshot whose table a model of a plan is given is of
/// a model of its name, and the two are twins: in a plan of a proper project, and in a run.
pub fn given_tables_are_of_twins()
    ensures plan { (clock : Clock) (b : Book) (nodes : List Node) (restate : Option Restate) (plan : Plan) → is_well_formed_book b ≡ true → is_proper nodes ≡ true → IsPlan clock b nodes restate plan →
        SharesWithTwins b → (p : Planned) → Contains plan.models p → (s : Snapshot) → IsSnapshot b.snapshots s → s.object ≡ p.object →
        (s.name ≡ p.node.own.name) × IsTwin (closing b.snapshots s) p.closure }
    ensures run { (clock : Clock) (b : Book) (plan : Plan) → IsRunPlan clock b plan → SharesWithTwins b → (p : Planned) → Contains plan.models p → (s : Snapshot) → IsSnapshot b.snapshots s → s.object ≡ p.object →
        (s.name ≡ p.node.own.name) × IsTwin (closing b.snapshots s) p.closure }
{}

/// No two models of such a plan are given one table.
pub fn no_table_is_given_twice()
    ensures { (clock : Clock) (b : Book) (nodes : List Node) (restate : Option Restate) (plan : Plan) → is_well_formed_book b ≡ true → is_proper nodes ≡ true → IsPlan clock b nodes restate plan →
        SharesWithTwins b →
        (p q : Planned) → Contains plan.models p → Contains plan.models q → p.object ≡ q.object → p ≡ q }
{}

/// Putting the snapshots of such a plan, or of some of its models, makes a book that has those of the book before,
/// with their definitions, parents and ranks, and beside them only the ones that are put. Where it is well formed,
/// its snapshots too share a table only as twins.
pub fn plans_keep_tables_for_twins()
    ensures put { (clock : Clock) (before : Book) (nodes : List Node) (restate : Option Restate) (plan : Plan) (t : ℤ) → is_well_formed_book before ≡ true → is_proper nodes ≡ true → IsPlan clock before nodes restate plan →
        (some : List Planned) → ((p : Planned) → Contains some p → Contains plan.models p) → HasPut t plan.models before (fold put_snapshot before (map (snapshot_of t plan.models) some)) }
    ensures shared { (clock : Clock) (before after : Book) (nodes : List Node) (restate : Option Restate) (plan : Plan) (t : ℤ) → is_well_formed_book before ≡ true → is_proper nodes ≡ true → IsPlan clock before nodes restate plan →
        SharesWithTwins before → is_well_formed_book after ≡ true → HasPut t plan.models before after → SharesWithTwins after }
{}
