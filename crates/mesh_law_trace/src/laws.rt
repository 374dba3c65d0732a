// What a column's values hang on, and what not.
ghost use Rattle.std.specs.Prelude.{ℕ, List, [], ◌∷◌, Some};
ghost use Rattle.mesh_base_values.specs.Bag.{IsSameBag};
ghost use Rattle.mesh_base.specs.declared.jobs.Input.{Input};
ghost use Rattle.mesh_spec_model.specs.Closures.{Closure, own_of};
ghost use Rattle.mesh_spec_model.specs.Horizons.{Clock};
ghost use Rattle.mesh_law_query.specs.Cuts.{cut};
ghost use Rattle.mesh_trace.specs.Feeds.{feeds};
ghost use Rattle.mesh_law_trace.specs.Varied.{Agree, AreVaried, IsQuery, scratch_table};

/// Let two models differ in rows of seeds alone, and let their sources be any. Where what feeds some columns of the
/// model has the same rows in both, as far as it does, the model's rows with these columns alone are the same but
/// for their order, at every moment. With no columns there are as many rows.
pub fn traced_columns_decide_rows()
    ensures { (a b : List Input) (c d : Closure) → AreVaried c d → IsQuery (own_of c).defn → (columns : List (List ℕ)) → Agree (feeds c columns) a b c d → (clock : Clock) →
        IsSameBag (cut columns (Some (scratch_table a clock c))) (cut columns (Some (scratch_table b clock d))) }
{}

/// So it is with the values of one column: whatever isn't listed may change as it likes.
pub fn traced_columns_decide_values()
    ensures { (a b : List Input) (c d : Closure) → AreVaried c d → IsQuery (own_of c).defn → (column : List ℕ) → Agree (feeds c (column ∷ [])) a b c d → (clock : Clock) →
        IsSameBag (cut (column ∷ []) (Some (scratch_table a clock c))) (cut (column ∷ []) (Some (scratch_table b clock d))) }
{}
