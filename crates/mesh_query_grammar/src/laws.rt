// Laws of the grammar. Each body is empty.
ghost use Rattle.std.specs.Prelude.{◌≡◌, ◌↔◌, ℕ, ◌+◌, List, [], ◌∷◌, ◌++◌};
ghost use Rattle.mesh_query_tokens.specs.declared.tokens.Token.{Token};
ghost use Rattle.mesh_query_grammar.specs.declared.surface.queries.Surface.{Surface};
ghost use Rattle.mesh_query_grammar.specs.Grammar.{query, Spells};
ghost use Rattle.mesh_query_grammar.specs.Beginnings.{IsQuery, IsLongestBegun};
ghost use Rattle.mesh_query_grammar.specs.Rules.{query as the_query};
ghost use Rattle.mesh_query_grammar.specs.Plans.{plan};
ghost use Rattle.mesh_query_grammar.specs.Machine.{Reads, Fails, syntax, nesting};

/// One list of tokens spells one tree at most, however much room it is read with.
pub fn one_tree()
    ensures { (ts : List Token) (n m : ℕ) (a b : Surface) → Spells n (query a) ts [] → Spells m (query b) ts [] → a ≡ b }
{}

/// More room loses no query.
pub fn with_more_room()
    ensures { (ts : List Token) (n : ℕ) (a : Surface) → Spells n (query a) ts [] → Spells (n + 1) (query a) ts [] }
{}

/// A list of tokens has one place at most where it goes wrong.
pub fn one_longest_beginning()
    ensures { (ts a b : List Token) → IsLongestBegun ts a → IsLongestBegun ts b → a ≡ b }
{}

/// With one token of lookahead exactly those tokens are read to their end that the grammar spells.
pub fn what_is_read_is_spelled()
    ensures { (ts : List Token) (n : ℕ) (a : Surface) → Reads n the_query a ts [] ↔ Spells n (query a) ts [] }
{}

/// Where reading fails, what was taken is the longest beginning of a query, and the whole is none.
pub fn a_failed_run_ends_behind_the_longest_beginning()
    ensures failed { (ts rest : List Token) (n : ℕ) → Fails syntax n the_query (plan the_query) ts rest →
        (front : List Token) × (ts ≡ front ++ rest) × IsLongestBegun ts front × ((a : Surface) → IsQuery a ts → ⊥) }
    ensures left_over { (ts rest : List Token) (k : Token) (n : ℕ) (a : Surface) → Reads n the_query a ts (k ∷ rest) →
        (front : List Token) × (ts ≡ front ++ k ∷ rest) × IsLongestBegun ts front × ((b : Surface) → IsQuery b ts → ⊥) }
    ensures too_deep { (ts rest : List Token) (n : ℕ) → Fails nesting n the_query (plan the_query) ts rest → (a : Surface) → Spells n (query a) ts [] → ⊥ }
{}
