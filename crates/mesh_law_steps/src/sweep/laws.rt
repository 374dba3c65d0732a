// Sweeping and loading.
ghost use Rattle.std.specs.Prelude.{◌≡◌, ℤ, Bool, true, List, [], ◌∷◌};
ghost use Rattle.mesh_base_values.specs.declared.values.Cell.{Cell};
ghost use Rattle.mesh_base_values.specs.declared.values.Column.{Column};
ghost use Rattle.mesh_base_values.specs.declared.values.Name.{Name};
ghost use Rattle.mesh_house_book.specs.WellFormed.{is_moment};
ghost use Rattle.mesh_spec_model.specs.Horizons.{Clock, Shows};
ghost use Rattle.mesh_house.specs.Step.{load};
ghost use Rattle.mesh_house.specs.declared.world.Change.TheVariants.{Load};
ghost use Rattle.mesh_house.specs.declared.world.World.{World};
ghost use Rattle.mesh_spec_changes.specs.due.Parts.{Parts, either};
ghost use Rattle.mesh_spec_changes.specs.Commands.{is_not_behind};
ghost use Rattle.mesh_spec_changes.specs.Kept.{sweeps};
ghost use Rattle.mesh_spec_promise.specs.Moved.{moved};
ghost use Rattle.mesh_spec_promise.specs.Sound.{Sound};
ghost use Rattle.mesh_law_changes.specs.along.Along.{StaysAlong};

/// A world that is kept well stays so along the janitor's changes at a moment that isn't behind the book's. The parts
/// whose rows from scratch change by the moment are then in doubt.
pub fn sweeps_keep_the_world_sound()
    ensures { (x : Parts) (w : World) (t : ℤ) (before after : Clock) → Sound x w → is_not_behind t w.book ≡ true → is_moment t ≡ true → Shows before w.book.moment → Shows after t →
        StaysAlong (either x (moved w before after w.sources)) w (sweeps w.book t) }
{}

/// It stays so along a load too, by any two clocks that show its moment. The parts whose rows from scratch change by
/// the source are then in doubt.
pub fn loads_keep_the_world_sound()
    ensures { (x : Parts) (w : World) (before after : Clock) → Sound x w → Shows before w.book.moment → Shows after w.book.moment →
        (name : Name) (columns : List Column) (rows : List (List Cell)) (keep : Bool) →
        StaysAlong (either x (moved w before after (load w name columns rows keep).sources)) w (Load name columns rows keep ∷ []) }
{}
