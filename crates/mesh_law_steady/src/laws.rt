// When computed rows stay.
ghost use Rattle.std.specs.Prelude.{◌≡◌, ◌≤ℤ◌, ℕ, ℤ, false, true, List};
ghost use Rattle.std.specs.List.{Contains};
ghost use Rattle.mesh_base_values.specs.Bag.{IsSameBag};
ghost use Rattle.mesh_base_values.specs.Kinds.{is_incremental};
ghost use Rattle.mesh_base_values.specs.declared.kinds.Kind.TheVariants.{Full};
ghost use Rattle.mesh_base_values.specs.declared.times.Bounds.{Bounds};
ghost use Rattle.mesh_base_values.specs.declared.values.Cell.{Cell};
ghost use Rattle.mesh_base.specs.declared.definitions.Decl.{Decl};
ghost use Rattle.mesh_base.specs.declared.definitions.Own.{Own};
ghost use Rattle.mesh_base.specs.declared.forgets.Forget.{Forget};
ghost use Rattle.mesh_base.specs.declared.jobs.Input.{Input};
ghost use Rattle.mesh_base.specs.declared.snapshots.Snapshot.{Snapshot};
ghost use Rattle.mesh_spec_changes.specs.listed.Closing.{IsSnapshot, closing};
ghost use Rattle.mesh_house.specs.declared.world.World.{World};
ghost use Rattle.mesh_spec_model.specs.Closures.{Closure, Closures, Model, own_of};
ghost use Rattle.mesh_spec_model.specs.Horizons.{Clock, Shows, schedule};
ghost use Rattle.mesh_spec_model.specs.Scratch.{from_scratch, inputs_of, piece, piece_over};
ghost use Rattle.mesh_spec_model.specs.Sources.{declared};
ghost use Rattle.mesh_spec_changes.specs.due.Marks.{marks, same_marks};
ghost use Rattle.mesh_spec_changes.specs.due.Parts.{Parts};
ghost use Rattle.mesh_spec_promise.specs.Moved.{moved};
ghost use Rattle.mesh_spec_promise.specs.Sound.{HasEachOnce, Sound};
ghost use Rattle.mesh_spec_changes.specs.steady.Arrives.{Arrives};
ghost use Rattle.mesh_spec_changes.specs.steady.Even.{is_even};
ghost use Rattle.mesh_spec_changes.specs.steady.Steady.{is_steady};
ghost use Rattle.mesh_law_steady.specs.Days.{IsOfDay};
ghost use Rattle.mesh_law_steady.specs.Kept.{AreKept};
ghost use Rattle.mesh_law_steady.specs.Near.{inputs_with, near_model, near_source};
ghost use Rattle.mesh_law_steady.specs.Projects.{IsSteadyBook};

/// The rows of a steady incremental model for a unit are those over the rows near the unit alone: of each timed
/// source and of each incremental parent those whose time lies in the unit, or on its day before it. A unit of a
/// schedule lies within one day, and the tables that a model reads are such.
#[tactic(auto, using(crate::proofs::Reading::near_unit, crate::proofs::Reading::such_inputs))]
pub fn steady_models_read_near_rows()
    ensures near { (own : Own) (parents : Closures) → is_incremental own.kind ≡ true → is_steady (Model own parents) ≡ true → (u : Bounds) → IsOfDay u →
        (sources : Decl → List (List Cell)) (models : Closure → List (List Cell)) →
        piece_over own (inputs_with sources models own parents) u ≡ piece_over own (inputs_with (near_source u sources) (near_model u models) own parents) u }
    ensures units { (clock : Clock) (c : Closure) (u : Bounds) → Contains (schedule clock c) u → IsOfDay u }
    ensures inputs { (sources : List Input) (clock : Clock) (own : Own) (parents : Closures) →
        inputs_of sources clock (Model own parents) ≡ inputs_with (λ d. (declared sources d).rows) (from_scratch sources clock) own parents }
{}

/// So a unit of an even model's schedule has the same rows, each as often, over other sources and at a later moment,
/// where the model and all that it stands on are steady, its static sources stay and its timed ones keep the rows of
/// its units.
pub fn steady_units_keep_their_rows()
    ensures { (before after : List Input) (clock later : Clock) (c : Closure) → AreKept before after clock later c → is_even c ≡ true → is_incremental (own_of c).kind ≡ true →
        (u : Bounds) → Contains (schedule clock c) u → IsSameBag (piece before clock c u) (piece after later c u) }
{}

/// So has a FULL model while its marks are the same, where no two models that it stands on have one name.
pub fn steady_full_models_keep_their_rows()
    ensures { (before after : List Input) (clock later : Clock) (c : Closure) → AreKept before after clock later c → is_even c ≡ true → (own_of c).kind ≡ Full → HasEachOnce c →
        same_marks (marks clock c) (marks later c) ≡ true → IsSameBag (from_scratch before clock c) (from_scratch after later c) }
{}

/// So in a sound world, whatever parts are in doubt, nothing moves where each incremental and each FULL snapshot of
/// the book is steady, each snapshot's closure is even, the moment isn't below the book's, and what changes in the
/// sources is what may arrive.
pub fn nothing_moves_in_steady_projects()
    ensures { (x : Parts) (w : World) → Sound x w → IsSteadyBook w.book → (t : ℤ) → w.book.moment ≤ℤ t → (clock later : Clock) → Shows clock w.book.moment → Shows later t →
        (after : List Input) → Arrives w after → (p : Forget) → moved w clock later after p ≡ false }
{}

/// Without evenness units may move: of three models by hours, by days and by hours, each over the one before, an hour
/// of the last gets a row once its day is computed. So the law of worlds fails too.
#[tactic(auto, using(crate::proofs::Uneven::hours_over_days_over_hours_move, crate::proofs::UnevenWorld::hours_over_days_over_hours_move_a_world))]
pub fn uneven_units_may_move()
    ensures units { ¬ ((before after : List Input) (t u : ℤ) → t ≤ℤ u → (clock later : Clock) → Shows clock t → Shows later u → (c : Closure) → AreKept before after clock later c →
        is_incremental (own_of c).kind ≡ true → (v : Bounds) → Contains (schedule clock c) v → IsSameBag (piece before clock c v) (piece after later c v)) }
    ensures world { ¬ ((x : Parts) (w : World) → Sound x w → ((s : Snapshot) → IsSnapshot w.book.snapshots s → is_steady (closing w.book.snapshots s) ≡ true) → (t : ℤ) → w.book.moment ≤ℤ t →
        (clock later : Clock) → Shows clock w.book.moment → Shows later t → (after : List Input) → Arrives w after → (p : Forget) → moved w clock later after p ≡ false) }
{}
