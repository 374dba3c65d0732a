// What holds of every statement that is read.
ghost use Rattle.std.specs.Prelude.{◌≡◌, ◌-◌, ℕ, List, true, Ok, drop, length};
ghost use Rattle.mesh_query_tokens.specs.declared.tokens.Token.{Token};
ghost use Rattle.mesh_model_statement.specs.Lookbacks.{is_short};
ghost use Rattle.mesh_model_statement.specs.Named.{has_schema};
ghost use Rattle.mesh_model_statement.specs.Statement.{Read, statement};

/// What is left of the tokens of a file stands behind all that the statement took.
#[tactic(auto, using(crate::proofs::Stated::rest_is_left))]
pub fn the_rest_stands_behind()
    ensures { (file : List ℕ) (tokens : List Token) (r : Read) → statement file tokens ≡ Ok r → drop (length tokens - length r.rest) tokens ≡ r.rest }
{}

/// A model's name has a schema by the rule of names.
#[tactic(auto, using(crate::proofs::Stated::name_is_proper))]
pub fn names_have_schemas()
    ensures { (file : List ℕ) (tokens : List Token) (r : Read) → statement file tokens ≡ Ok r → has_schema r.parts.name ≡ true }
{}

/// No model looks back over more units than the longest lookback.
#[tactic(auto, using(crate::proofs::Lookbacks::lookback_short))]
pub fn lookbacks_are_short()
    ensures { (file : List ℕ) (tokens : List Token) (r : Read) → statement file tokens ≡ Ok r → is_short r.parts.kind ≡ true }
{}
