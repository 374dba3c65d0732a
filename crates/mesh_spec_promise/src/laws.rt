// What the definitions give.
ghost use Rattle.std.specs.Prelude.{◌≡◌, ◌≤ℤ◌, ℤ, Bool, List, map, Some, true, false};
ghost use Rattle.std.specs.List.{AllByRecursion, Contains};
ghost use Rattle.mesh_base_values.specs.Bag.{IsSameBag};
ghost use Rattle.mesh_base_values.specs.declared.values.Cell.{Cell};
ghost use Rattle.mesh_base_values.specs.declared.values.Column.{Column};
ghost use Rattle.mesh_base_values.specs.declared.values.Name.{Name};
ghost use Rattle.mesh_list.specs.Keyed.{exchanged};
ghost use Rattle.mesh_base_values.specs.Names.{name_cmp};
ghost use Rattle.mesh_base_values.specs.declared.kinds.Kind.TheVariants as kind;
ghost use Rattle.mesh_base_values.specs.declared.times.Bounds.{Bounds};
ghost use Rattle.mesh_base.specs.declared.jobs.Input.{Input};
ghost use Rattle.mesh_base.specs.declared.snapshots.Env.{Env};
ghost use Rattle.mesh_base.specs.declared.snapshots.Ref.{Ref};
ghost use Rattle.mesh_base.specs.declared.snapshots.Snapshot.{Snapshot};
ghost use Rattle.mesh_spec_model.specs.Horizons.{Clock, Shows};
ghost use Rattle.mesh_spec_model.specs.Scratch.{defn_rows, from_scratch, no_bounds, piece, piece_over};
ghost use Rattle.mesh_spec_changes.specs.listed.Closing.{closing, IsSnapshot};
ghost use Rattle.mesh_spec_changes.specs.shown.Shown.{object_rows};
ghost use Rattle.mesh_spec_changes.specs.due.Plans.{Planned};
ghost use Rattle.mesh_spec_changes.specs.Changes.{ascending, parents_in, planned_ref, refs_by_name, tables_read};
ghost use Rattle.mesh_spec_changes.specs.Environments.{IsEnv, view_in};
ghost use Rattle.mesh_spec_promise.specs.Current.{AllCurrent, AreDone, IsReadable};
ghost use Rattle.mesh_spec_promise.specs.Final.{Final};
ghost use Rattle.mesh_spec_promise.specs.Moved.{moved};
ghost use Rattle.mesh_base.specs.declared.forgets.Forget.{Forget};
ghost use Rattle.mesh_house_book.specs.Changes.{version_object};
ghost use Rattle.mesh_house_book.specs.WellFormed.{is_moment, snapshot_at};
ghost use Rattle.mesh_house_book.specs.declared.book.Book.{Book};
ghost use Rattle.mesh_house_book.specs.declared.versions.Version.{Version};
ghost use Rattle.mesh_house.specs.declared.world.Change.{Change};
ghost use Rattle.mesh_house.specs.declared.world.Change.TheVariants.{Load, Moment, PointView};
ghost use Rattle.mesh_house.specs.Objects.{is_physical};
ghost use Rattle.mesh_house.specs.Step.{step};
ghost use Rattle.mesh_house.specs.declared.world.World.{World};
ghost use Rattle.mesh_house.specs.World.{empty_world, version_of};
ghost use Rattle.mesh_spec_changes.specs.due.Parts.{Parts, either, no_parts, object_of};
ghost use Rattle.mesh_spec_promise.specs.Histories.{left, taken_by};
ghost use Rattle.mesh_spec_promise.specs.Sound.{IsEntry, Sound};

/// A warehouse that has nothing is kept well.
pub fn the_empty_world_is_sound()
    ensures { Sound no_parts empty_world }
{}

/// A world that is kept well but for some parts is so but for more.
pub fn more_doubt_keeps_the_world_sound()
    ensures { (x y : Parts) (w : World) → ((q : Forget) → y q ≡ false → x q ≡ false) → Sound x w → Sound y w }
{}

/// A part that a change takes out of doubt is out of it after any changes that have this one among them.
pub fn what_is_taken_leaves_doubt()
    ensures { (made : List Change) (x : Parts) (q : Forget) (c : Change) → Contains made c → taken_by c q ≡ true → left made x q ≡ false }
{}

/// In a world that is kept well, the object of a snapshot shows the snapshot's rows from scratch, where it and all
/// that it stands on are up to date.
pub fn objects_up_to_date_show_rows_from_scratch()
    ensures { (x : Parts) (w : World) (clock : Clock) → Sound x w → Shows clock w.book.moment → (s : Snapshot) → AllCurrent clock x w.book s →
        (rows : List (List Cell)) × (object_rows w s.object ≡ Some rows) × IsSameBag rows (from_scratch w.sources clock (closing w.book.snapshots s)) }
{}

/// In a world that is kept well, an environment that is finalized with the list of these models is final, where the
/// changes of all of them are made.
pub fn finalized_environments_are_final()
    ensures { (x : Parts) (w : World) (clock : Clock) → Sound x w → Shows clock w.book.moment → (e : Env) → IsEnv w.book e → e.pending ≡ false →
        (models : List Planned) → e.list ≡ refs_by_name models → AreDone clock x w.book models → AllByRecursion (λ p. Contains e.list (planned_ref p)) models →
        Final w clock e.name models }
{}

/// In a world that is kept well, the rows that a model is filled with are its rows from scratch, where the changes of
/// its parents and of all that they stand on are made: those of each unit, and all of a FULL model.
pub fn models_are_filled_with_rows_from_scratch()
    ensures { (x : Parts) (w : World) (clock : Clock) → Sound x w → Shows clock w.book.moment → (models : List Planned) (p : Planned) (s : Snapshot) → IsSnapshot w.book.snapshots s →
        s.own ≡ p.node.own → s.parents ≡ map planned_ref (parents_in models p) → AllByRecursion (IsReadable clock x w.book) (parents_in models p) →
        (tables : List Input) × (tables_read w models p ≡ Some tables)
        × ((u : Bounds) → IsSameBag (ascending (piece_over p.node.own tables u)) (piece w.sources clock (closing w.book.snapshots s) u))
        × (p.node.own.kind ≡ kind.Full → IsSameBag (ascending (defn_rows p.node.own.defn tables no_bounds)) (from_scratch w.sources clock (closing w.book.snapshots s))) }
{}

/// Models that are done stay so where the version of another object changes, and parts of other objects leave doubt.
pub fn models_that_are_done_stay_so()
    ensures { (clock : Clock) (x y : Parts) (b : Book) (old new : Version) → version_of b new.object ≡ Some old → ((q : Forget) → ¬ (object_of q ≡ new.object) → x q ≡ false → y q ≡ false) →
        (done : List Planned) → AllByRecursion (λ (p : Planned). ¬ (p.object ≡ new.object)) done → AreDone clock x b done →
        AreDone clock y (record b { versions = exchanged name_cmp version_object new b.versions }) done }
{}

/// A view of a pending environment may be pointed at the object of one of its entries.
pub fn pointing_a_view_keeps_the_world_sound()
    ensures { (x : Parts) (w : World) → Sound x w → (e : Env) → IsEnv w.book e → e.pending ≡ true → (r : Ref) → IsEntry e r → (s : Snapshot) → snapshot_at w.book.snapshots r ≡ Some s →
        Sound x (step w (PointView (view_in e.name r.name) s.object)) }
{}

/// The moment may be raised. The parts whose rows from scratch change by it are then in doubt.
pub fn raising_the_moment_keeps_the_world_sound()
    ensures { (x : Parts) (w : World) → Sound x w → (t : ℤ) → w.book.moment ≤ℤ t → is_moment t ≡ true → (before after : Clock) → Shows before w.book.moment → Shows after t →
        Sound (either x (moved w before after w.sources)) (step w (Moment t)) }
{}

/// A source may be loaded. The parts whose rows from scratch change by it are then in doubt.
pub fn loading_a_source_keeps_the_world_sound()
    ensures { (x : Parts) (w : World) → Sound x w → (clock : Clock) → Shows clock w.book.moment → (name : Name) → is_physical name ≡ false → (columns : List Column) (rows : List (List Cell)) (keep : Bool) →
        Sound (either x (moved w clock clock (step w (Load name columns rows keep)).sources)) (step w (Load name columns rows keep)) }
{}
