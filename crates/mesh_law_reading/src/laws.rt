// What the own definition of a model is.
ghost use Rattle.std.specs.Prelude.{◌≡◌, true, List, map, Option, None, Ok};
ghost use Rattle.mesh_list.specs.Keyed.{ascends};
ghost use Rattle.mesh_base_values.specs.Names.{name_cmp};
ghost use Rattle.mesh_base_values.specs.declared.values.Name.{Name};
ghost use Rattle.mesh_base_values.specs.declared.values.Seed.{Seed};
ghost use Rattle.mesh_base.specs.Outputs.{columns_of};
ghost use Rattle.mesh_base.specs.declared.definitions.Own.{Own};
ghost use Rattle.mesh_base.specs.declared.rules.relations.Parent.{Parent};
ghost use Rattle.mesh_base.specs.rules.Proper.{defn_names, is_well_formed};
ghost use Rattle.mesh_base.specs.rules.Relations.{parent_relation};
ghost use Rattle.mesh_model_statement.specs.declared.model.model.ModelText.{ModelText};
ghost use Rattle.mesh_resolve.specs.declared.known.Known.{Known};
ghost use Rattle.mesh_resolve.specs.Owns.{as_declared, own};
ghost use Rattle.mesh_resolve.specs.Relations.{decl_name};
ghost use Rattle.mesh_law_reading.specs.Formed.{AreParentsAmong, IsReadModel, SaysAsItsFile, parents_among};
ghost use Rattle.mesh_law_reading.specs.Sight.{model_relation};

/// The own definition that is made of a model's file is well formed beside its parents: those known models that its
/// query names, with the columns that they are known by. It holds whatever sources are declared, also of a source
/// that has a model's name, which the model hides.
#[tactic(auto, using(crate::proofs::Whole::well_formed))]
pub fn own_definitions_are_well_formed()
    ensures { (m : ModelText) (seed : Option Seed) (known : Known) (definition : Own) (parents : List Parent) → IsReadModel m seed → own m seed known ≡ Ok definition → AreParentsAmong known (defn_names definition.defn) parents → is_well_formed parents definition ≡ true }
{}

/// Where the known models are these, those of them that are among the names in a query, each once and ascending by
/// name, are its parents.
pub fn named_models_are_parents()
    ensures { (names : List Name) (known : Known) (models : List Parent) → map model_relation known.models ≡ map parent_relation models → AreParentsAmong known names (parents_among names models) }
{}

/// An own definition has its name, kind, cron, unit and start from the model's file. Its sources ascend by name, so
/// that no two have one, and a query has just the columns that the file declares, where it declares some.
#[tactic(auto, using(crate::proofs::Files::as_file, crate::proofs::Files::sources_ascend, crate::proofs::Files::columns_declared))]
pub fn own_definitions_keep_their_files()
    ensures file { (m : ModelText) (seed : Option Seed) (known : Known) (definition : Own) → own m seed known ≡ Ok definition → SaysAsItsFile m definition }
    ensures sources { (m : ModelText) (seed : Option Seed) (known : Known) (definition : Own) → own m seed known ≡ Ok definition → ascends name_cmp decl_name definition.sources ≡ true }
    ensures columns { (m : ModelText) (known : Known) (definition : Own) → own m None known ≡ Ok definition → as_declared m.columns (columns_of definition) ≡ Ok tt }
{}
