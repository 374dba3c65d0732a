// What holds of every seed that is read.
ghost use Rattle.std.specs.Prelude.{◌≡◌, ℕ, List, [], true, Result, Ok, Some};
ghost use Rattle.std.specs.List.{list_all};
ghost use Rattle.mesh_base_values.specs.declared.values.Column.{Column};
ghost use Rattle.mesh_base_values.specs.declared.values.ColType.TheVariants.{Int};
ghost use Rattle.mesh_base_values.specs.declared.values.Seed.{Seed as Seeds};
ghost use Rattle.mesh_model_csv.specs.seeds.Fits.{fits, kind_at, are_numbers};
ghost use Rattle.mesh_model_csv.specs.seeds.Seeds.{seed_text};

/// Each row of a seed has a cell for each of its columns, which is NULL or of the column's type.
#[tactic(auto, using(crate::proofs::seeds::Fitting::rows_fit))]
pub fn rows_fit_columns()
    ensures { (declared : List Column) (bytes : List ℕ) (seed : Seeds) → seed_text declared bytes ≡ Ok seed → list_all (fits seed.columns) seed.rows ≡ true }
{}

/// Where a file is read without declared columns, each column of INT has a row with a number in its place, and all
/// its other rows have a number or NULL there.
#[tactic(auto, using(crate::proofs::seeds::Numbers::numbers_found))]
pub fn numbers_are_found()
    ensures { (bytes : List ℕ) (seed : Seeds) (c : ℕ) → seed_text [] bytes ≡ Ok seed → kind_at c seed.columns ≡ Some Int → are_numbers c seed.rows ≡ true }
{}
