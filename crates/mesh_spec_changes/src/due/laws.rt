// What the definitions give.
ghost use Rattle.std.specs.Prelude.{◌≡◌, ◌↔◌, ◌≤ℤ◌, ℕ, ℤ, List, map, true};
ghost use Rattle.std.specs.List.{AllPairs, AllZip, Contains};
ghost use Rattle.mesh_base_values.specs.declared.kinds.Kind.TheVariants as kind;
ghost use Rattle.mesh_base_values.specs.declared.times.Bounds.{Bounds};
ghost use Rattle.mesh_base.specs.declared.forgets.Forget.{Forget};
ghost use Rattle.mesh_house_book.specs.declared.book.Book.{Book};
ghost use Rattle.mesh_spec_model.specs.Closures.{Closure};
ghost use Rattle.mesh_spec_model.specs.Horizons.{Clock, HasCrons, Shows, schedule};
ghost use Rattle.mesh_spec_changes.specs.due.Dues.{due, due_units, is_due_unit};
ghost use Rattle.mesh_spec_changes.specs.due.Marks.{marks};
ghost use Rattle.mesh_spec_changes.specs.due.Parts.{unit_of};
ghost use Rattle.mesh_spec_changes.specs.due.Plans.{Planned};

/// A schedule and the marks of a model only grow with the moment, so marks that were once others are never the same
/// again.
pub fn schedules_and_marks_grow()
    ensures schedules { (t u : ℤ) (clock later : Clock) → t ≤ℤ u → Shows clock t → Shows later u → (c : Closure) → HasCrons c →
        (v : Bounds) → Contains (schedule clock c) v → Contains (schedule later c) v }
    ensures marks { (t u : ℤ) (clock later : Clock) → t ≤ℤ u → Shows clock t → Shows later u → (c : Closure) → HasCrons c → AllZip (λ m n. m ≤ℤ n) (marks clock c) (marks later c) }
    ensures apart { (t u v : ℤ) (first second third : Clock) → t ≤ℤ u → u ≤ℤ v → Shows first t → Shows second u → Shows third v → (c : Closure) → HasCrons c →
        ¬ (marks first c ≡ marks second c) → ¬ (marks first c ≡ marks third c) }
{}

/// What is due of an incremental model are the units of its schedule that aren't recorded or are computed again, each
/// once and in order.
pub fn due_units_are_in_order()
    ensures units { (clock : Clock) (b : Book) (forgets : List Forget) (p : Planned) (time : List ℕ) (lookback : ℕ) → p.node.own.kind ≡ kind.Incremental time lookback →
        due clock b forgets p ≡ map (unit_of p.object) (due_units clock b forgets p) }
    ensures each { (clock : Clock) (b : Book) (forgets : List Forget) (p : Planned) (u : Bounds) →
        Contains (due_units clock b forgets p) u ↔ (Contains (schedule clock p.closure) u × (is_due_unit b forgets p u ≡ true)) }
    ensures order { (clock : Clock) (b : Book) (forgets : List Forget) (p : Planned) → AllPairs (λ u v. u.end ≤ℤ v.start) (due_units clock b forgets p) }
{}
