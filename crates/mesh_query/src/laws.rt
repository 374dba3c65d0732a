// Laws of what is refused. Each body is empty.
ghost use Rattle.std.specs.Prelude.{◌≡◌, ◌↔◌, ◌⊎◌, ℕ, ◌+◌, List, [], true, false};
ghost use Rattle.mesh_query_tokens.specs.declared.tokens.Token.{Token as Tokens};
ghost use Rattle.mesh_query_tokens.specs.declared.faults.ReadFault.{ReadFault as ReadFaults};
ghost use Rattle.mesh_query_tokens.specs.declared.faults.ReadFault.TheVariants.{Memory as NoMemory};
ghost use Rattle.mesh_query_grammar.specs.declared.surface.queries.Surface.{Surface};
ghost use Rattle.mesh_query_grammar.specs.Grammar.{Spells, query as a_query};
ghost use Rattle.mesh_query_grammar.specs.lookahead.Places.{deepest};
ghost use Rattle.mesh_query.specs.Refusals.{IsRefusal};
ghost use Rattle.mesh_query.specs.Sizes.{is_within, most_nodes};
ghost use Rattle.mesh_query.specs.Counts.{Reads};
ghost use Rattle.mesh_query_grammar.specs.Rules.{query as the_query};

/// One fault at most is told of tokens, but for want of memory. What passes no limit is refused for want of memory
/// alone.
#[tactic(auto, using(crate::proofs::OneRefusal::one_refusal, crate::proofs::OneRefusal::short))]
pub fn one_refusal()
    ensures one { (before ts : List Tokens) (f g : ReadFaults) → IsRefusal before ts f → IsRefusal before ts g → (f ≡ NoMemory) ⊎ ((g ≡ NoMemory) ⊎ (f ≡ g)) }
    ensures none { (before ts : List Tokens) (f : ReadFaults) (tree : Surface) → IsRefusal before ts f → Spells deepest (a_query tree) ts [] → is_within tree ≡ true → f ≡ NoMemory }
{}

/// While a query is read as many nodes are counted as its tree has: none is left behind it exactly where an
/// expression has too many.
pub fn what_is_counted_is_in_the_tree()
    ensures { (n left : ℕ) (ts rest : List Tokens) (tree : Surface) → Reads false n the_query tree ts rest (most_nodes + 1) left → ((left ≡ 0) ↔ (is_within tree ≡ false)) }
{}
