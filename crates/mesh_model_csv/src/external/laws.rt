// What holds of every list of sources that is read.
ghost use Rattle.std.specs.Prelude.{◌≡◌, ℕ, List, true, Result, Ok};
ghost use Rattle.std.specs.List.{list_all};
ghost use Rattle.mesh_base_values.specs.Names.{name_cmp};
ghost use Rattle.mesh_base.specs.declared.definitions.Decl.{Decl};
ghost use Rattle.mesh_list.specs.Keyed.{ascends};
ghost use Rattle.mesh_model_csv.specs.external.Externals.{decl_name, external_text};
ghost use Rattle.mesh_model_csv.specs.external.Proper.{is_proper};

/// The columns of a source have distinct names, and a timed source has the column that its time is in.
#[tactic(auto, using(crate::proofs::external::Sound::sources_proper))]
pub fn sources_are_proper()
    ensures { (bytes : List ℕ) (sources : List Decl) → external_text bytes ≡ Ok sources → list_all is_proper sources ≡ true }
{}

/// The sources ascend by name, so that no two have one.
#[tactic(auto, using(crate::proofs::external::Sound::sources_up))]
pub fn sources_ascend()
    ensures { (bytes : List ℕ) (sources : List Decl) → external_text bytes ≡ Ok sources → ascends name_cmp decl_name sources ≡ true }
{}
