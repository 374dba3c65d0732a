// What the definitions give.
ghost use Rattle.std.specs.Prelude.{◌++◌, ◌≡◌, ◌⊎◌, ◌<ℤ◌, IsSome, ℕ, ℤ, List, [], ◌∷◌, Some, None, true, false};
ghost use Rattle.std.specs.List.{All, Contains, filter};
ghost use Rattle.std.specs.Option.{ForSome};
ghost use Rattle.std.specs.declared.option.Option.{Option};
ghost use Rattle.mesh_base_values.specs.Bag.{IsSameBag};
ghost use Rattle.mesh_base_values.specs.declared.kinds.Kind.TheVariants as kind;
ghost use Rattle.mesh_base_values.specs.declared.values.Cell.{Cell};
ghost use Rattle.mesh_base_values.specs.declared.values.Column.{Column};
ghost use Rattle.mesh_base_values.specs.declared.values.Name.{Name};
ghost use Rattle.mesh_base_values.specs.declared.values.Pair.{Pair};
ghost use Rattle.mesh_base.specs.Keys.{snapshot_ref};
ghost use Rattle.mesh_base.specs.Outputs.{columns_of};
ghost use Rattle.mesh_base.specs.declared.definitions.Own.{Own};
ghost use Rattle.mesh_base.specs.declared.forgets.Forget.{Forget};
ghost use Rattle.mesh_base.specs.declared.forgets.Forget.TheVariants.{Marks, Range};
ghost use Rattle.mesh_base.specs.declared.forgets.Rename.{Rename};
ghost use Rattle.mesh_base.specs.declared.snapshots.Env.{Env};
ghost use Rattle.mesh_base.specs.declared.snapshots.Ref.{Ref};
ghost use Rattle.mesh_base.specs.declared.snapshots.Snapshot.{Snapshot};
ghost use Rattle.mesh_time.specs.Ranges.{Has, IsWithin};
ghost use Rattle.mesh_base.specs.rules.Proper.{is_plain_schema};
ghost use Rattle.mesh_house_book.specs.Changes.{put_snapshot};
ghost use Rattle.mesh_house_book.specs.WellFormed.{is_snapshot_fit, snapshot_at};
ghost use Rattle.mesh_house_book.specs.declared.versions.Version.{Version};
ghost use Rattle.mesh_spec_model.specs.Horizons.{Clock, Shows, schedule};
ghost use Rattle.mesh_spec_model.specs.Scratch.{defn_rows, from_scratch, is_of_unit, no_bounds, piece};
ghost use Rattle.mesh_spec_changes.specs.listed.Closing.{closing, IsSnapshot};
ghost use Rattle.mesh_spec_changes.specs.listed.Listed.{is_list_fit};
ghost use Rattle.mesh_spec_changes.specs.reuse.Cores.{IsTwin};
ghost use Rattle.mesh_house.specs.declared.world.Change.{Change};
ghost use Rattle.mesh_house.specs.declared.world.Change.TheVariants.{DeleteEnv, DeleteSnapshot, DropObject, DropView, Expire, Finalize, ForgetUnits, ForgetVersion, MakeTable, MakeView, RecordMarks, RecordRange, ReplaceRows, SetPending, WriteRange, PutSnapshot, Migrate};
ghost use Rattle.mesh_house.specs.declared.world.World.{World};
ghost use Rattle.mesh_house.specs.Step.{step};
ghost use Rattle.mesh_house.specs.World.{object_at, version_of, view};
ghost use Rattle.mesh_spec_changes.specs.Environments.{IsEnv, view_in};
ghost use Rattle.mesh_spec_changes.specs.due.Marks.{marks};
ghost use Rattle.mesh_spec_changes.specs.due.Parts.{Parts};
ghost use Rattle.mesh_spec_promise.specs.Histories.{left, taken_by};
ghost use Rattle.mesh_spec_promise.specs.Sound.{IsEntry, IsObjectMade, Sound, parent_objects, table_rows, HasEachOnce, IsTableSound};

/// An environment may expire.
pub fn expiring_an_environment_keeps_the_world_sound()
    ensures { (x : Parts) (w : World) → Sound x w → (env : List ℕ) → Sound x (step w (Expire env)) }
{}

/// An environment may be finalized where the view of each entry of its list stands and points at the entry's object,
/// and where a view of an entry of its previous list stands only for a model of its list.
pub fn finalizing_keeps_the_world_sound()
    ensures { (x : Parts) (w : World) → Sound x w → (e : Env) → IsEnv w.book e →
        ((r : Ref) → Contains e.list r → (s : Snapshot) → snapshot_at w.book.snapshots r ≡ Some s → view w (view_in e.name r.name) ≡ Some s.object) →
        ((r : Ref) → Contains e.previous r → (t : Name) → view w (view_in e.name r.name) ≡ Some t → (q : Ref) × Contains e.list q × (q.name ≡ r.name)) →
        Sound x (step w (Finalize e.name)) }
{}

/// An environment may go where none of its entries has a view.
pub fn deleting_an_environment_keeps_the_world_sound()
    ensures { (x : Parts) (w : World) → Sound x w → (e : Env) → IsEnv w.book e → ((r : Ref) → IsEntry e r → view w (view_in e.name r.name) ≡ None) →
        Sound x (step w (DeleteEnv e.name)) }
{}

/// An environment, known or not, may be pending with a list that fits the book, where the object of each entry is made.
pub fn setting_an_environment_pending_keeps_the_world_sound()
    ensures { (x : Parts) (w : World) → Sound x w → (env : List ℕ) (list : List Ref) (expires : Option ℤ) → is_list_fit w.book.snapshots list ≡ true →
        ((r : Ref) → Contains list r → ForSome (snapshot_at w.book.snapshots r) (IsObjectMade w.book)) →
        Sound x (step w (SetPending env list expires)) }
{}

/// A view of a pending environment may go.
pub fn dropping_a_view_keeps_the_world_sound()
    ensures { (x : Parts) (w : World) → Sound x w → (e : Env) → IsEnv w.book e → e.pending ≡ true → (m : Name) → is_plain_schema m.schema ≡ true →
        Sound x (step w (DropView (view_in e.name m))) }
{}

/// Units and marks may be forgotten, where each unit of an incremental model stands in its schedule. They are then no
/// longer in doubt.
pub fn forgetting_units_keeps_the_world_sound()
    ensures { (x : Parts) (w : World) → Sound x w → (list : List Forget) →
        ((object : Name) (start end : ℤ) → Contains list (Range object start end) → (s : Snapshot) → IsSnapshot w.book.snapshots s → s.object ≡ object →
        (time : List ℕ) (lookback : ℕ) → s.own.kind ≡ kind.Incremental time lookback → (clock : Clock) → Shows clock w.book.moment →
        Contains (schedule clock (closing w.book.snapshots s)) (record { start = start; end = end })) →
        Sound (left (ForgetUnits list ∷ []) x) (step w (ForgetUnits list)) }
{}

/// A version may be forgotten whose object no entry of an environment has. No part of it is then in doubt.
pub fn forgetting_a_version_keeps_the_world_sound()
    ensures { (x : Parts) (w : World) → Sound x w → (object : Name) →
        ((e : Env) → IsEnv w.book e → (r : Ref) → IsEntry e r → (s : Snapshot) → snapshot_at w.book.snapshots r ≡ Some s → ¬ (s.object ≡ object)) →
        Sound (left (ForgetVersion object ∷ []) x) (step w (ForgetVersion object)) }
{}

/// An object may go whose version isn't made, and which isn't a target of a view that is made.
pub fn dropping_an_object_keeps_the_world_sound()
    ensures { (x : Parts) (w : World) → Sound x w → (object : Name) → ((v : Version) → version_of w.book object ≡ Some v → v.made ≡ false) →
        ((s : Snapshot) → IsSnapshot w.book.snapshots s → s.own.kind ≡ kind.View → (v : Version) → version_of w.book s.object ≡ Some v → v.made ≡ true →
        All (λ (t : Pair). ¬ (t.second ≡ object)) (parent_objects w.book.snapshots s.parents)) →
        Sound x (step w (DropObject object)) }
{}

/// Marks may be recorded of a table that is made. Of a FULL table they are its model's, and unless the table is in
/// doubt afterwards it has its rows from scratch; a seed's has the rows of its file. Other parts that were in doubt
/// are so still.
pub fn recording_marks_keeps_the_world_sound()
    ensures { (x y : Parts) (w : World) → Sound x w → (object : Name) (v : Version) → version_of w.book object ≡ Some v → v.made ≡ true → (ms : List ℤ) →
        ((q : Forget) → taken_by (RecordMarks object ms) q ≡ false → y q ≡ false → x q ≡ false) →
        ((s : Snapshot) → IsSnapshot w.book.snapshots s → s.object ≡ object → s.own.kind ≡ kind.Full → (clock : Clock) → Shows clock w.book.moment →
        (ms ≡ marks clock (closing w.book.snapshots s)) × (y (Marks object) ≡ false → ForSome (table_rows w object) (λ rows. IsSameBag rows (from_scratch w.sources clock (closing w.book.snapshots s))))) →
        ((s : Snapshot) → IsSnapshot w.book.snapshots s → s.object ≡ object → s.own.kind ≡ kind.Seed → ForSome (table_rows w object) (λ rows. IsSameBag rows (defn_rows s.own.defn [] no_bounds))) →
        Sound y (step w (RecordMarks object ms)) }
{}

/// A unit of the schedule may be recorded of a table that is made and which, unless the unit is in doubt afterwards,
/// has its rows from scratch there. Other parts that were in doubt are so still.
pub fn recording_a_unit_keeps_the_world_sound()
    ensures { (x y : Parts) (w : World) → Sound x w → (object : Name) (v : Version) → version_of w.book object ≡ Some v → v.made ≡ true → (start end : ℤ) → start <ℤ end →
        ((q : Forget) → taken_by (RecordRange object start end) q ≡ false → y q ≡ false → x q ≡ false) →
        ((s : Snapshot) → IsSnapshot w.book.snapshots s → s.object ≡ object → (time : List ℕ) (lookback : ℕ) → s.own.kind ≡ kind.Incremental time lookback → (clock : Clock) → Shows clock w.book.moment →
        Contains (schedule clock (closing w.book.snapshots s)) (record { start = start; end = end })
        × (y (Range object start end) ≡ false → ForSome (table_rows w object) (λ rows. IsSameBag (filter (is_of_unit s.own (record { start = start; end = end })) rows) (piece w.sources clock (closing w.book.snapshots s) (record { start = start; end = end }))))) →
        Sound y (step w (RecordRange object start end)) }
{}

/// A table may be made of a version that isn't made, with its model's columns. No part of it is then in doubt.
pub fn making_a_table_keeps_the_world_sound()
    ensures { (x : Parts) (w : World) → Sound x w → (object : Name) (columns : List Column) (v : Version) → version_of w.book object ≡ Some v → v.made ≡ false →
        ((s : Snapshot) → IsSnapshot w.book.snapshots s → s.object ≡ object → ¬ (s.own.kind ≡ kind.View) × (columns ≡ columns_of s.own)) →
        Sound (left (MakeTable object columns ∷ []) x) (step w (MakeTable object columns)) }
{}

/// A view may be made, and made again, with its model's columns and query over its parents' objects, where these stand.
pub fn making_a_view_keeps_the_world_sound()
    ensures { (x : Parts) (w : World) → Sound x w → (object : Name) (columns : List Column) (v : Version) → version_of w.book object ≡ Some v → (own : Own) (targets : List Pair) →
        ((s : Snapshot) → IsSnapshot w.book.snapshots s → s.object ≡ object → (s.own.kind ≡ kind.View) × (own ≡ s.own) × (columns ≡ columns_of s.own) × (targets ≡ parent_objects w.book.snapshots s.parents)) →
        All (λ (t : Pair). IsSome (object_at w t.second)) targets → Sound x (step w (MakeView object columns own targets)) }
{}

/// The rows of a table that isn't incremental may be replaced: of a FULL table while it is in doubt or its recorded
/// marks aren't its model's, and of a seed's while it has no marks.
pub fn replacing_rows_keeps_the_world_sound()
    ensures { (x : Parts) (w : World) → Sound x w → (object : Name) (rows : List (List Cell)) →
        ((s : Snapshot) → IsSnapshot w.book.snapshots s → s.object ≡ object → (time : List ℕ) (lookback : ℕ) → ¬ (s.own.kind ≡ kind.Incremental time lookback)) →
        ((s : Snapshot) → IsSnapshot w.book.snapshots s → s.object ≡ object → s.own.kind ≡ kind.Full → (v : Version) → version_of w.book object ≡ Some v → x (Marks object) ≡ false → (clock : Clock) → Shows clock w.book.moment →
        ¬ (v.marks ≡ Some (marks clock (closing w.book.snapshots s)))) →
        ((s : Snapshot) → IsSnapshot w.book.snapshots s → s.object ≡ object → s.own.kind ≡ kind.Seed → (v : Version) → version_of w.book object ≡ Some v → v.marks ≡ None) →
        Sound x (step w (ReplaceRows object rows)) }
{}

/// Rows that lie in a unit of the schedule may be written into an incremental table of which no second of the unit is
/// recorded.
pub fn writing_a_unit_keeps_the_world_sound()
    ensures { (x : Parts) (w : World) → Sound x w → (object : Name) (time : List ℕ) (start end : ℤ) (rows : List (List Cell)) →
        ((s : Snapshot) → IsSnapshot w.book.snapshots s → s.object ≡ object → (lookback : ℕ) × (s.own.kind ≡ kind.Incremental time lookback)) →
        ((s : Snapshot) → IsSnapshot w.book.snapshots s → s.object ≡ object → (clock : Clock) → Shows clock w.book.moment → Contains (schedule clock (closing w.book.snapshots s)) (record { start = start; end = end })) →
        ((s : Snapshot) → IsSnapshot w.book.snapshots s → s.object ≡ object → (row : List Cell) → Contains rows row → is_of_unit s.own (record { start = start; end = end }) row ≡ true) →
        ((v : Version) → version_of w.book object ≡ Some v → (t : ℤ) → IsWithin start end t → ¬ (Has v.ranges t)) →
        Sound x (step w (WriteRange object time start end rows)) }
{}

/// A snapshot may be deleted that is no entry of an environment and no parent of a snapshot, and whose object is
/// another snapshot's too, or has neither a version nor stands.
pub fn deleting_a_snapshot_keeps_the_world_sound()
    ensures { (x : Parts) (w : World) → Sound x w → (name : Name) (fingerprint : List ℕ) →
        ((e : Env) → IsEnv w.book e → (q : Ref) → IsEntry e q → ¬ (q ≡ record { name = name; fingerprint = fingerprint })) →
        ((p : Snapshot) → IsSnapshot w.book.snapshots p → (q : Ref) → Contains p.parents q → ¬ (q ≡ record { name = name; fingerprint = fingerprint })) →
        ((s : Snapshot) → snapshot_at w.book.snapshots (record { name = name; fingerprint = fingerprint }) ≡ Some s →
        ((version_of w.book s.object ≡ None) × (object_at w s.object ≡ None))
        ⊎ ((other : Snapshot) × IsSnapshot w.book.snapshots other × (other.object ≡ s.object) × ¬ (snapshot_ref other ≡ record { name = name; fingerprint = fingerprint }))) →
        Sound x (step w (DeleteSnapshot name fingerprint)) }
{}

/// A snapshot that fits the book may be put. Where the book has it, it is the same but for the time that it stays.
/// Where it is new, it and all that it stands on have distinct names, and what uses its object is of its model, is a
/// twin of it and is no view, and what is recorded of the table is so for the snapshot too.
pub fn putting_a_snapshot_keeps_the_world_sound()
    ensures { (x : Parts) (w : World) → Sound x w → (s : Snapshot) → is_snapshot_fit w.book.version w.book.snapshots None s ≡ true →
        ((old : Snapshot) → snapshot_at w.book.snapshots (snapshot_ref s) ≡ Some old → (s.own ≡ old.own) × (s.parents ≡ old.parents) × (s.rank ≡ old.rank) × (s.object ≡ old.object)) →
        (snapshot_at w.book.snapshots (snapshot_ref s) ≡ None → HasEachOnce (closing (put_snapshot w.book s).snapshots s)) →
        (snapshot_at w.book.snapshots (snapshot_ref s) ≡ None → (t : Snapshot) → IsSnapshot w.book.snapshots t → t.object ≡ s.object →
        (t.name ≡ s.name) × IsTwin (closing w.book.snapshots t) (closing (put_snapshot w.book s).snapshots s) × ¬ (t.own.kind ≡ kind.View)) →
        (snapshot_at w.book.snapshots (snapshot_ref s) ≡ None → (clock : Clock) → Shows clock w.book.moment → (v : Version) → version_of w.book s.object ≡ Some v → IsTableSound clock x (step w (PutSnapshot s)) s v s.own.kind) →
        Sound x (step w (PutSnapshot s)) }
{}

/// What is still in doubt after some changes and then more is what the later ones leave of what the earlier ones leave.
pub fn doubt_is_left_step_by_step()
    ensures { (made more : List Change) (x : Parts) (q : Forget) → left (made ++ more) x q ≡ left more (left made x) q }
{}

/// The book may be moved to other fingerprints, by any map.
pub fn migrating_keeps_the_world_sound()
    ensures { (x : Parts) (w : World) → Sound x w → (renames : List Rename) → Sound x (step w (Migrate renames)) }
{}
