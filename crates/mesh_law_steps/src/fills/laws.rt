// What the definitions give.
ghost use Rattle.std.specs.Prelude.{◌≡◌, false, List};
ghost use Rattle.std.specs.List.{AllByRecursion};
ghost use Rattle.mesh_base.specs.declared.forgets.Forget.{Forget};
ghost use Rattle.mesh_house_book.specs.declared.book.Book.{Book};
ghost use Rattle.mesh_spec_model.specs.Horizons.{Clock, Shows};
ghost use Rattle.mesh_house.specs.declared.world.World.{World};
ghost use Rattle.mesh_spec_changes.specs.due.Dues.{due};
ghost use Rattle.mesh_spec_changes.specs.due.Parts.{Parts, is_among, object_of};
ghost use Rattle.mesh_spec_changes.specs.due.Plans.{Planned};
ghost use Rattle.mesh_spec_changes.specs.Changes.{parents_in};
ghost use Rattle.mesh_spec_promise.specs.Current.{IsReadable};
ghost use Rattle.mesh_spec_promise.specs.Sound.{Sound};
ghost use Rattle.mesh_law_changes.specs.along.Filled.{IsOneFilled};
ghost use Rattle.mesh_law_changes.specs.along.Ready.{IsOpened, IsPlaced};

/// A planned model whose snapshot is in the book is made and filled, where all that isn't due of it is recorded and
/// not in doubt, and its parents are up to date with all that they stand on. The world stays sound along its changes,
/// which change nothing but its object, and after them it is done.
pub fn models_are_made_and_filled()
    ensures { (clock : Clock) (b : Book) (forgets : List Forget) (all : List Planned) (p : Planned) (x : Parts) (w : World) → Sound x w → Shows clock w.book.moment → IsPlaced all w.book.snapshots p → IsOpened clock b forgets w.book p →
        AllByRecursion (IsReadable clock x w.book) (parents_in all p) → ((q : Forget) → object_of q ≡ p.object → is_among (due clock b forgets p) q ≡ false → x q ≡ false) →
        IsOneFilled clock b forgets all p x w }
{}
