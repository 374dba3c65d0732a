// From the tokens to the tree, or to the fault that is printed.
ghost use Rattle.std.specs.Prelude.{◌≡◌, ◌≤◌, ◌<◌, ◌+◌, ℕ, List, codes, drop, take, length, [], true, false, IfOk, IfErr, MatchResult};
ghost use Rattle.mesh_query_grammar.specs.declared.surface.queries.Surface.{Surface};
ghost use Rattle.mesh_query_tokens.specs.declared.tokens.Token.{Token as Tokens};
ghost use Rattle.mesh_query_tokens.specs.declared.faults.ReadFault.TheVariants.{Memory as NoMemory};
ghost use Rattle.mesh_query.specs.Refusals.{end_of, IsLimit, IsAmiss, IsRefusal};
ghost use Rattle.mesh_query.specs.Sizes.{is_within, most_nodes};
ghost use Rattle.mesh_query.specs.Counts.{Reads};
ghost use Rattle.mesh_query_grammar.specs.Rules.{query as the_query};
ghost use Rattle.mesh_query_grammar.specs.Grammar.{Spells, query as a_query};
ghost use Rattle.mesh_query_grammar.specs.Beginnings.{IsQuery};
ghost use Rattle.mesh_query_grammar.specs.lookahead.Places.{deepest};

use crate::nodes::Nodes;
use crate::queries::query;
use mesh_base_values::{DEEPEST_NESTING, LARGEST_EXPRESSION, Str};
use mesh_list::{Duplicate, Memory, Seq};
use mesh_query_grammar::lookahead::Fault;
use mesh_query_grammar::surface::Surface;
use mesh_query_tokens::{FaultKind, ReadFault, Token, Tokens};
use std::alloc::Global;

/// Parentheses, CASEs, NOTs and minus signs that may be open round a token.
const NESTING: u32 = 64;

/// Reads one query from token `from`, counted from 0, to the end of the tokens. A fault of syntax is at the end of
/// the last token that the beginning of a query has; where it has none, at the end of the last token before `from`,
/// and at 0 where there is none either. The two limits have place 0.
pub fn parse(tokens: &Tokens, from: u32) -> Result<Surface, ReadFault>
    // What is read is spelled by the tokens.
    ensures found { IfOk result (λ tree. Spells deepest (a_query tree) (drop from tokens.now) []) }
    // None of its expressions has too many nodes.
    ensures within { IfOk result (λ tree. is_within tree ≡ true) }
    // No other tree has the same tokens.
    ensures only { IfOk result (λ tree. (other : Surface) → IsQuery other (drop from tokens.now) → tree ≡ other) }
    // What is spelled and has no expression with too many nodes is read, unless memory is out.
    ensures read { (tree : Surface) → Spells deepest (a_query tree) (drop from tokens.now) [] → is_within tree ≡ true → MatchResult result (λ found. found ≡ tree) (λ fault. fault ≡ NoMemory) }
    // What is spelled and has an expression with too many nodes is refused for that limit, unless memory is out.
    ensures too_large { (tree : Surface) → Spells deepest (a_query tree) (drop from tokens.now) [] → is_within tree ≡ false → MatchResult result (λ _. ⊥) (IsLimit (codes "expression") most_nodes) }
    // What is refused breaks the grammar, at the end of its longest beginning, or a limit; or memory is out.
    ensures refused { IfErr result (IsRefusal (take from tokens.now) (drop from tokens.now)) }
{
    let alloc = tokens.alloc();
    let tokens = tokens.as_slice();
    let mut nodes = Nodes::new();
    let found = whole_query(alloc, tokens, &mut nodes, from as usize);
    match found {
        Ok(surface) => {
            if nodes.are_too_many() {
                return Err(too_large(alloc, b"expression", LARGEST_EXPRESSION));
            }
            Ok(surface)
        }
        Err(fault) => {
            if nodes.are_too_many() {
                return Err(crowded(alloc, fault));
            }
            Err(refusal(alloc, tokens, fault))
        }
    }
}

// An expression had too many nodes before what was read went wrong: that limit comes first.
#[tactic(auto, using(crate::proofs::Refused::crowded_refused))]
fn crowded(alloc: Global, fault: Fault) -> ReadFault
    ensures { (ts before s : List Tokens) → IsAmiss ts s 0 fault → IsRefusal before s result }
{
    match fault {
        Fault::Memory => ReadFault::Memory,
        Fault::Nesting | Fault::Syntax { .. } => {
            too_large(alloc, b"expression", LARGEST_EXPRESSION)
        }
    }
}

// The fault as it is printed.
#[tactic(auto, using(crate::proofs::Refused::nesting_refused, crate::proofs::Refused::syntax_refused))]
fn refusal(alloc: Global, tokens: &[Token], fault: Fault) -> ReadFault
    ensures { (from left : ℕ) → 0 < left → IsAmiss tokens.now (drop from tokens.now) left fault → IsRefusal (take from tokens.now) (drop from tokens.now) result }
{
    match fault {
        Fault::Memory => ReadFault::Memory,
        Fault::Nesting => too_large(alloc, b"nesting", DEEPEST_NESTING),
        Fault::Syntax { token } => ReadFault::Fault {
            at: end_before(tokens, token),
            kind: FaultKind::Syntax,
        },
    }
}

// A query that nothing stands behind.
fn whole_query(
    alloc: Global,
    tokens: &[Token],
    nodes: &mut Nodes,
    from: usize,
) -> Result<Surface, Fault>
    requires fresh { nodes.old.left ≡ most_nodes + 1 }
    ensures { MatchResult result (λ tree. Reads false deepest the_query tree (drop from tokens.now) [] (most_nodes + 1) nodes.new.left) (IsAmiss tokens.now (drop from tokens.now) nodes.new.left) }
{
    let (surface, at) = query(alloc, tokens, nodes, NESTING, from)?;
    if at < tokens.len() {
        Err(Fault::Syntax { token: at })
    } else {
        Ok(surface)
    }
}

// The end of the token before this one, or 0 where there is none.
fn end_before(tokens: &[Token], token: usize) -> u64
    ensures { result ≡ end_of (take token tokens.now) }
{
    if token > tokens.len() {
        last_end(tokens, tokens.len())
    } else {
        last_end(tokens, token)
    }
}

// The end of the last of so many tokens, or 0 where there is none.
#[tactic(auto, using(crate::proofs::Refused::end_before))]
fn last_end(tokens: &[Token], count: usize) -> u64
    requires { count ≤ length tokens.now }
    ensures { result ≡ end_of (take count tokens.now) }
{
    if count == 0 { 0 } else { tokens[count - 1].end }
}

fn too_large(alloc: Global, what: &[u8], limit: u64) -> ReadFault
    ensures { IsLimit what.now limit result }
{
    match u8::copy_items(alloc, what) {
        Ok(what) => ReadFault::Fault {
            at: 0,
            kind: FaultKind::TooLarge { what, limit },
        },
        Err(_) => ReadFault::Memory,
    }
}
