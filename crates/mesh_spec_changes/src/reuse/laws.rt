// What the definitions give.
ghost use Rattle.mesh_base.specs.declared.definitions.Own.{Own};
ghost use Rattle.mesh_spec_model.specs.Closures.{Closure};
ghost use Rattle.mesh_spec_changes.specs.reuse.Compatible.{IsAdditive, IsCompatible};

/// A model is compatible with itself.
pub fn models_add_to_themselves()
    ensures { (c : Closure) → IsCompatible c c }
{}

/// What adds columns to a definition that adds columns to another adds columns to that one.
pub fn columns_are_added_step_by_step()
    ensures { (a b c : Own) → IsAdditive a b → IsAdditive b c → IsAdditive a c }
{}

/// The same of models with all that they stand on.
pub fn what_adds_to_additions_adds_to_all()
    ensures { (a b c : Closure) → IsCompatible a b → IsCompatible b c → IsCompatible a c }
{}
