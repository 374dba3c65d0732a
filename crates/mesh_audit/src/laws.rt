// What the audits that need no file find. These functions compute nothing.
ghost use Rattle.std.specs.Prelude.{◌≡◌, ℕ, pos, [], ◌∷◌, List, map};
ghost use Rattle.std.specs.List.{flat_map};
ghost use Rattle.mesh_base_values.specs.declared.times.Bounds.{Bounds};
ghost use Rattle.mesh_base_values.specs.declared.values.Cell.{Cell};
ghost use Rattle.mesh_base_values.specs.declared.values.Cell.TheVariants as cell;
ghost use Rattle.mesh_base_values.specs.declared.values.Name.{Name};
ghost use Rattle.mesh_base.specs.declared.jobs.Input.{Input};
ghost use Rattle.mesh_spec_query.specs.Sel.{Sel};
ghost use Rattle.mesh_audit.specs.Forms.{not_null, unique_values};
ghost use Rattle.mesh_audit.specs.Meant.{mark_row, repeats, rows_with_null, table_at, values_of};

/// `not_null` finds a row for each row of the model in which one of the columns is NULL.
#[tactic(auto, using(crate::proofs::Meant::rows_found))]
pub fn not_null_finds_rows_with_null()
    ensures { (tables : List Input) (u : Bounds) (model : Name) (names : List (List ℕ)) →
        Sel (not_null model names) tables u ≡ map (λ (row : List Cell). mark_row) (rows_with_null (table_at tables model) names) }
{}

/// `unique_values` finds, for each column by itself, a row for each value that stands more than once.
#[tactic(auto, using(crate::proofs::Meant::values_found))]
pub fn unique_values_finds_repeated_values()
    ensures { (tables : List Input) (u : Bounds) (model : Name) (names : List (List ℕ)) →
        Sel (unique_values model names) tables u ≡ flat_map (λ name. map (λ (value : List Cell). mark_row) (repeats (values_of (table_at tables model) name))) names }
{}

/// NULLs are one value: two of them stand more than once, beside a number that stands once.
pub fn nulls_are_one_value()
    ensures { repeats ((cell.Null ∷ []) ∷ (cell.Int (pos 7) ∷ []) ∷ (cell.Null ∷ []) ∷ []) ≡ (cell.Null ∷ []) ∷ [] }
{}
