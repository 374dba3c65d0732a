// What holds of every model's file that is read.
ghost use Rattle.std.specs.Prelude.{◌≡◌, ℕ, List, true, Result, Ok};
ghost use Rattle.mesh_query_grammar.specs.declared.surface.queries.Surface.{Surface};
ghost use Rattle.mesh_query_tokens.specs.declared.faults.ReadFault.{ReadFault};
ghost use Rattle.mesh_model_statement.specs.declared.model.model.ModelText.{ModelText};
ghost use Rattle.mesh_model.specs.Complete.{is_complete};
ghost use Rattle.mesh_model.specs.Lexed.{file_tokens, file_fault};
ghost use Rattle.mesh_model.specs.ModelTexts.{model_of};

/// A model that is read from a file has a name whose schema and model are identifiers without capitals, of at most
/// 128 bytes each, the schema by the rule of schemas, a query unless it is a SEED, and where it is incremental a
/// start and a lookback of at most 366 units.
#[tactic(auto, using(crate::proofs::Completed::model_complete))]
pub fn models_are_complete()
    ensures { (file bytes : List ℕ) (query : Result Surface ReadFault) (m : ModelText) → model_of file (file_tokens bytes) (file_fault bytes) query ≡ Ok m → is_complete m ≡ true }
{}
