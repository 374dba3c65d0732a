// What the definitions give.
ghost use Rattle.std.specs.Prelude.{◌≡◌, true, ◌↔◌, []};
ghost use Rattle.mesh_spec_model.specs.Closures.{Closure};
ghost use Rattle.mesh_spec_changes.specs.steady.Steady.{is_steady};
ghost use Rattle.mesh_lineage.specs.Unsteady.{breakers};

/// A model is steady exactly where no name breaks the rule.
#[tactic(auto, using(crate::proofs::Steady::steady_or_broken))]
pub fn steady_models_have_no_breakers()
    ensures { (c : Closure) → (is_steady c ≡ true) ↔ (breakers c ≡ []) }
{}
