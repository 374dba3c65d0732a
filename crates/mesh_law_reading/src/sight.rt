// What the names of a resolved query mean.
ghost use Rattle.std.specs.Prelude.{◌≡◌, ℕ, true, Ok, Err};
ghost use Rattle.mesh_base.specs.declared.queries.Query.{Query};
ghost use Rattle.mesh_base.specs.rules.Seen.{is_query_seen};
ghost use Rattle.mesh_query_grammar.specs.declared.surface.queries.Surface.{Surface};
ghost use Rattle.mesh_query_tokens.specs.Gives.{Gives};
ghost use Rattle.mesh_query_tokens.specs.declared.faults.ReadFault.TheVariants.{Fault};
ghost use Rattle.mesh_query_tokens.specs.declared.faults.FaultKind.{FaultKind};
ghost use Rattle.mesh_resolve.specs.declared.known.Known.{Known};
ghost use Rattle.mesh_resolve.specs.Queries.{resolved};
ghost use Rattle.mesh_law_reading.specs.Each.{EachSelect, HasDistinctNames};
ghost use Rattle.mesh_law_reading.specs.Sight.{known_relations};

/// All that a resolved query names is there: each relation among the models and the sources that are known, each CTE
/// among those before, and each column among those of its FROM item.
#[tactic(auto, using(crate::proofs::Insight::resolved_seen))]
pub fn what_is_resolved_is_in_sight()
    ensures { (known : Known) (surface : Surface) (query : Query) → resolved known surface ≡ Ok query → is_query_seen (known_relations known) query ≡ true }
{}

/// No name stands twice among the output columns of a SELECT, in the query itself or in a CTE.
#[tactic(auto, using(crate::proofs::Distinct::distinct_names))]
pub fn output_names_are_distinct()
    ensures { (known : Known) (surface : Surface) (query : Query) → resolved known surface ≡ Ok query → EachSelect HasDistinctNames query }
{}

/// What is returned for a query, by what is known, is one query or one fault: no other query, no other fault, and never
/// both, whenever it is asked again and memory doesn't run out.
#[tactic(auto, using(crate::proofs::Outcomes::one_query, crate::proofs::Outcomes::one_fault, crate::proofs::Outcomes::never_both))]
pub fn one_query_or_one_fault()
    ensures query { (known : Known) (surface : Surface) (a b : Query) → Gives (Ok a) (resolved known surface) → Gives (Ok b) (resolved known surface) → a ≡ b }
    ensures fault { (known : Known) (surface : Surface) (at later : ℕ) (a b : FaultKind) → Gives (Err (Fault at a)) (resolved known surface) → Gives (Err (Fault later b)) (resolved known surface) → (at ≡ later) × (a ≡ b) }
    ensures never_both { (known : Known) (surface : Surface) (query : Query) (at : ℕ) (kind : FaultKind) → Gives (Ok query) (resolved known surface) → Gives (Err (Fault at kind)) (resolved known surface) → ⊥ }
{}
