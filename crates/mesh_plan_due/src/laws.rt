// What the definitions give.
ghost use Rattle.std.specs.Prelude.{◌≡◌, true, ℤ, List};
ghost use Rattle.std.specs.declared.option.Option.{Option};
ghost use Rattle.mesh_base.specs.declared.forgets.Forget.{Forget};
ghost use Rattle.mesh_base.specs.declared.forgets.Restate.{Restate};
ghost use Rattle.mesh_base.specs.declared.plans.Entry.{Entry};
ghost use Rattle.mesh_base.specs.declared.snapshots.Node.{Node};
ghost use Rattle.mesh_house_book.specs.declared.book.Book.{Book};
ghost use Rattle.mesh_base.specs.rules.Proper.{is_proper};
ghost use Rattle.mesh_spec_model.specs.Closures.{closures};
ghost use Rattle.mesh_spec_model.specs.Horizons.{Clock, Shows};
ghost use Rattle.mesh_spec_changes.specs.due.Dues.{again, dues};
ghost use Rattle.mesh_spec_changes.specs.due.Plans.{planned};
ghost use Rattle.mesh_plan_due.specs.Long.{first_too_long};

/// A moment decides what of a project's models is computed again and what is due, and whether a schedule is too long,
/// whichever clock shows it.
pub fn moments_decide_dues()
    ensures long { (t : ℤ) (clock other : Clock) → Shows clock t → Shows other t → (nodes : List Node) → is_proper nodes ≡ true →
        first_too_long clock (closures nodes) ≡ first_too_long other (closures nodes) }
    ensures again { (t : ℤ) (clock other : Clock) → Shows clock t → Shows other t → (nodes : List Node) (entries : List Entry) (b : Book) (r : Option Restate) → is_proper nodes ≡ true →
        again clock b r (planned nodes entries) ≡ again other b r (planned nodes entries) }
    ensures dues { (t : ℤ) (clock other : Clock) → Shows clock t → Shows other t → (nodes : List Node) (entries : List Entry) (b : Book) (forgets : List Forget) → is_proper nodes ≡ true →
        dues clock b forgets (planned nodes entries) ≡ dues other b forgets (planned nodes entries) }
{}
