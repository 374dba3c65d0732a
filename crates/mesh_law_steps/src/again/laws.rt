// Sweeping and promoting, once and again.
ghost use Rattle.std.specs.Prelude.{◌≡◌, ℤ, true, List, [], ◌∷◌};
ghost use Rattle.mesh_house_book.specs.WellFormed.{is_well_formed_book};
ghost use Rattle.mesh_base_values.specs.declared.values.Name.{Name};
ghost use Rattle.mesh_house.specs.declared.world.World.{World};
ghost use Rattle.mesh_house.specs.declared.world.Change.TheVariants.{Moment};
ghost use Rattle.mesh_house.specs.Step.{run};
ghost use Rattle.mesh_spec_changes.specs.shown.Shown.{view_rows};
ghost use Rattle.mesh_spec_changes.specs.Changes.{Plan, promotes};
ghost use Rattle.mesh_spec_changes.specs.Kept.{sweeps};
ghost use Rattle.mesh_spec_promise.specs.Sound.{IsTyped};
ghost use Rattle.mesh_law_steps.specs.again.Swept.{swept, swept_book};

/// The world after the janitor's changes: of the snapshots those that stay, of the versions those of tables that
/// stay, of the environments those that aren't over; of the objects all but the tables that go, of the views all but
/// those of the environments that go; and all else as before.
pub fn sweeping_leaves_what_stays()
    ensures { (w : World) (t : ℤ) → IsTyped w → is_well_formed_book w.book ≡ true → run w (sweeps w.book t) ≡ swept w t }
{}

/// By the book that a sweep leaves, a second one at the same moment has that moment as its only change, and the world
/// stays as it is.
pub fn sweeping_again_changes_nothing()
    ensures changes { (w : World) (t : ℤ) → is_well_formed_book w.book ≡ true → sweeps (swept_book w.book t) t ≡ Moment t ∷ [] }
    ensures world { (w : World) (t : ℤ) → is_well_formed_book w.book ≡ true → run (swept w t) (sweeps (swept_book w.book t) t) ≡ swept w t }
{}

/// Once a plan has been promoted, promoting it again, by the book as it is then, leaves the rows behind every view as
/// they are.
pub fn promoting_again_shows_the_same()
    ensures { (w : World) (plan : Plan) → IsTyped w → (name : Name) →
        view_rows (run (run w (promotes w.book plan)) (promotes (run w (promotes w.book plan)).book plan)) name ≡ view_rows (run w (promotes w.book plan)) name }
{}
