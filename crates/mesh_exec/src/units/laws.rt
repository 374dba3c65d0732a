// One evaluation for adjoining units.
ghost use Rattle.std.specs.Prelude.{◌≡◌, ◌↔◌, true, ℤ, List, ◌∷◌};
ghost use Rattle.std.specs.List.{All, filter};
ghost use Rattle.mesh_base_values.specs.declared.times.Bounds.{Bounds};
ghost use Rattle.mesh_base.specs.declared.definitions.Own.{Own};
ghost use Rattle.mesh_base.specs.declared.jobs.Input.{Input};
ghost use Rattle.mesh_time_days.specs.Moments.{IsDayNumber, day_at};
ghost use Rattle.mesh_spec_model.specs.Scratch.{defn_rows, is_of_unit, piece_over};
ghost use Rattle.mesh_spec_changes.specs.Changes.{ascending};
ghost use Rattle.mesh_lineage.specs.Joinable.{is_joinable};
ghost use Rattle.mesh_exec.specs.units.Units.{Adjoin, AreUnits, IsInDays, IsPartOf, IsUnit, run_of};

/// The rows of a joinable definition for an interval, cut to a unit of it, are the unit's rows, in their order. Such an
/// interval is a run of adjoining units, from the start of the first to the end of the last.
pub fn runs_give_the_rows_of_their_units()
    ensures unit { (own : Own) (inputs : List Input) (u w : Bounds) → is_joinable own ≡ true → IsUnit u → IsUnit w → IsPartOf u w →
        filter (is_of_unit own u) (defn_rows own.defn inputs w) ≡ piece_over own inputs u }
    ensures run { (own : Own) (inputs : List Input) (u : Bounds) (us : List Bounds) → is_joinable own ≡ true → AreUnits (u ∷ us) → Adjoin u us →
        All (λ v. filter (is_of_unit own v) (defn_rows own.defn inputs (run_of u us)) ≡ piece_over own inputs v) (u ∷ us) }
{}

/// So it is with rows in ascending order: those of a run that lie in it, cut to one of its units, are the unit's rows
/// in ascending order.
pub fn sorted_runs_are_cut_to_their_units()
    ensures unit { (own : Own) (inputs : List Input) (u w : Bounds) → is_joinable own ≡ true → IsUnit u → IsUnit w → IsPartOf u w →
        filter (is_of_unit own u) (ascending (piece_over own inputs w)) ≡ ascending (piece_over own inputs u) }
    ensures run { (own : Own) (inputs : List Input) (u : Bounds) (us : List Bounds) → is_joinable own ≡ true → AreUnits (u ∷ us) → Adjoin u us →
        All (λ v. filter (is_of_unit own v) (ascending (piece_over own inputs (run_of u us))) ≡ ascending (piece_over own inputs v)) (u ∷ us) }
{}

/// The seconds that units are asked to lie in are those of the days of the calendar.
pub fn seconds_lie_in_days()
    ensures { (t : ℤ) → IsInDays t ↔ IsDayNumber (day_at t) }
{}
