// What a SELECT reads from.
ghost use Rattle.std.specs.Prelude.{◌≡◌, ◌<◌, ◌≤◌, ℕ, false, List, drop, length, IfOk, IsTrue};
ghost use Rattle.mesh_query_tokens.specs.declared.tokens.Token.{Token as Tokens};
ghost use Rattle.mesh_query_grammar.specs.Rules.{source as a_source, relations as some_relations, join as a_join, joined as a_joined, relation as a_relation, qualified as a_name};
ghost use Rattle.mesh_query_grammar.specs.Plans.{Plan, accept, begins_join as opens_join, is_word as is_the_word};
ghost use Rattle.mesh_query_grammar.specs.Machine.{begins};
ghost use Rattle.mesh_query.specs.Answers.{Answers, Onward};

use crate::expressions::expr;
use crate::lists::pushed;
use crate::nodes::Nodes;
use crate::queries::alias;
use mesh_base_values::Str;
use mesh_list::Seq;
use mesh_query_grammar::lookahead::{Fault, is_sign, is_word, name, place, word};
use mesh_query_grammar::surface::{OrExpr, SurfaceFrom, SurfaceJoin, SurfaceRel};
use mesh_query_tokens::Token;
use std::alloc::Global;

/// FROM and its relations, or none.
pub fn source(
    alloc: Global,
    tokens: &[Token],
    nodes: &mut Nodes,
    depth: u32,
    from: usize,
) -> Result<(Option<SurfaceFrom>, usize), Fault>
    ensures { Answers false depth a_source tokens.now from nodes.old.left nodes.new.left result }
{
    if is_word(tokens, from, b"from") {
        let (source, next) = relations(alloc, tokens, nodes, depth, from + 1)?;
        return Ok((Some(source), next));
    }
    Ok((None, from))
}

fn relations(
    alloc: Global,
    tokens: &[Token],
    nodes: &mut Nodes,
    depth: u32,
    from: usize,
) -> Result<(SurfaceFrom, usize), Fault>
    ensures { Answers false depth some_relations tokens.now from nodes.old.left nodes.new.left result }
{
    let (first, mut at) = relation(tokens, from)?;
    let mut joins = Seq::new(alloc);
    'joins: while begins_join(tokens, at) {
        let more = join(alloc, tokens, nodes, depth, at);
        let next = pushed(&mut joins, more)?;
        at = next;
    }
    let whole = SurfaceFrom {
        at: place(tokens, from),
        first,
        joins,
    };
    Ok((whole, at))
}

#[tactic(auto, using(crate::proofs::Descent::join_tests))]
fn begins_join(tokens: &[Token], at: usize) -> bool
    ensures within { IsTrue result → (at < length tokens.now) }
    ensures seen { result ≡ begins opens_join (drop at tokens.now) }
{
    is_sign(tokens, at, b",")
        || is_word(tokens, at, b"cross")
        || is_word(tokens, at, b"inner")
        || is_word(tokens, at, b"join")
        || is_word(tokens, at, b"left")
}

fn join(
    alloc: Global,
    tokens: &[Token],
    nodes: &mut Nodes,
    depth: u32,
    from: usize,
) -> Result<(SurfaceJoin, usize), Fault>
    ensures answers { Answers false depth a_join tokens.now from nodes.old.left nodes.new.left result }
    ensures on { IfOk result (λ p. from < p.1) }
{
    let at = place(tokens, from);
    if is_sign(tokens, from, b",") {
        let (rel, next) = relation(tokens, from + 1)?;
        return Ok((SurfaceJoin::Comma { at, rel }, next));
    }
    if is_word(tokens, from, b"cross") {
        let next = word(tokens, from + 1, b"join")?;
        let (rel, next) = relation(tokens, next)?;
        return Ok((SurfaceJoin::Cross { at, rel }, next));
    }
    if is_word(tokens, from, b"left") {
        let next = past(tokens, from + 1, b"outer");
        let next = word(tokens, next, b"join")?;
        let ((rel, on), next) = joined(alloc, tokens, nodes, depth, next)?;
        return Ok((SurfaceJoin::Left { at, rel, on }, next));
    }
    let next = past(tokens, from, b"inner");
    let next = word(tokens, next, b"join")?;
    let ((rel, on), next) = joined(alloc, tokens, nodes, depth, next)?;
    Ok((SurfaceJoin::Inner { at, rel, on }, next))
}

// The place behind a word, if it stands here. What is left of a rule goes on there.
fn past(tokens: &[Token], at: usize, word: &[u8]) -> usize
    ensures on { at ≤ result }
    ensures left { (n c d : ℕ) (s : List Tokens) (q : Plan a_join) → Onward false n a_join s (accept (is_the_word word.now) (λ _. q) q) (drop at tokens.now) c d → Onward false n a_join s q (drop result tokens.now) c d }
{
    if is_word(tokens, at, word) {
        at + 1
    } else {
        at
    }
}

// A relation and the condition behind ON.
fn joined(
    alloc: Global,
    tokens: &[Token],
    nodes: &mut Nodes,
    depth: u32,
    from: usize,
) -> Result<((SurfaceRel, OrExpr), usize), Fault>
    ensures { Answers false depth a_joined tokens.now from nodes.old.left nodes.new.left result }
{
    let (rel, next) = relation(tokens, from)?;
    let next = word(tokens, next, b"on")?;
    nodes.begin();
    let (on, next) = expr(alloc, tokens, nodes, depth, next)?;
    Ok(((rel, on), next))
}

// A name of one part or two, and another name for it if there is one.
fn relation(tokens: &[Token], from: usize) -> Result<(SurfaceRel, usize), Fault>
    ensures { (n c : ℕ) → Answers false n a_relation tokens.now from c c result }
{
    let ((schema, name), next) = qualified(tokens, from)?;
    let (alias, next) = alias(tokens, next)?;
    let whole = SurfaceRel {
        at: place(tokens, from),
        schema,
        name,
        alias,
    };
    Ok((whole, next))
}

// A name of one part or two that has to stand here.
fn qualified(tokens: &[Token], from: usize) -> Result<((Option<Str>, Str), usize), Fault>
    ensures { (n c : ℕ) → Answers false n a_name tokens.now from c c result }
{
    let (first, next) = name(tokens, from)?;
    if is_sign(tokens, next, b".") {
        let (second, next) = name(tokens, next + 1)?;
        return Ok(((Some(first), second), next));
    }
    Ok(((None, first), next))
}
