// Whole queries. Each function reads its form from a token on, and answers it with the place behind it.
ghost use Rattle.std.specs.Prelude.{◌≡◌, ◌≤◌, ◌||◌, ℕ, Bool, true, false, List, codes, drop};
ghost use Rattle.mesh_query_tokens.specs.declared.tokens.Token.{Token as Tokens};
ghost use Rattle.mesh_query_grammar.specs.Rules.{query as a_query, ctes as some_ctes, cte_list as a_cte_list, exprs as some_exprs, cte as a_cte, union as a_union, select as a_select, selected as the_selected, items as some_items, item as an_item, alias as an_alias, condition, keys as some_keys};
ghost use Rattle.mesh_query_grammar.specs.Plans.{Plan, accept, ends_items, is_any, negated, is_word as is_the_word};
ghost use Rattle.mesh_query_grammar.specs.Machine.{begins, begins_star};
ghost use Rattle.mesh_query.specs.Answers.{Answers, Onward};

use crate::expressions::expr;
use crate::lists::{begun, given_up, pushed};
use crate::nodes::Nodes;
use crate::relations::source;
use mesh_base_values::Str;
use mesh_list::Seq;
use mesh_query_grammar::lookahead::{
    Fault, is_name, is_sign, is_word, name, nested, place, sign, word,
};
use mesh_query_grammar::surface::{
    OrExpr, Surface, SurfaceCte, SurfaceItem, SurfaceSelect, SurfaceUnion,
};
use mesh_query_tokens::Token;
use std::alloc::Global;

/// A query with its common table expressions, and a `;` if one stands behind it.
pub fn query(
    alloc: Global,
    tokens: &[Token],
    nodes: &mut Nodes,
    depth: u32,
    from: usize,
) -> Result<(Surface, usize), Fault>
    ensures { Answers false depth a_query tokens.now from nodes.old.left nodes.new.left result }
{
    let (ctes, at) = ctes(alloc, tokens, nodes, depth, from)?;
    let (body, at) = union(alloc, tokens, nodes, depth, at)?;
    let whole = Surface {
        at: place(tokens, from),
        ctes,
        body,
    };
    if is_sign(tokens, at, b";") {
        return Ok((whole, at + 1));
    }
    Ok((whole, at))
}

// WITH and the common table expressions behind it, or none.
fn ctes(
    alloc: Global,
    tokens: &[Token],
    nodes: &mut Nodes,
    depth: u32,
    from: usize,
) -> Result<(Seq<SurfaceCte>, usize), Fault>
    ensures { Answers false depth some_ctes tokens.now from nodes.old.left nodes.new.left result }
{
    if is_word(tokens, from, b"with") {
        return cte_list(alloc, tokens, nodes, depth, from + 1);
    }
    let none = Seq::new(alloc);
    Ok((none, from))
}

// Common table expressions with commas between them.
fn cte_list(
    alloc: Global,
    tokens: &[Token],
    nodes: &mut Nodes,
    depth: u32,
    from: usize,
) -> Result<(Seq<SurfaceCte>, usize), Fault>
    ensures { Answers false depth a_cte_list tokens.now from nodes.old.left nodes.new.left result }
{
    let first = cte(alloc, tokens, nodes, depth, from);
    let (mut list, mut at) = begun(alloc, first)?;
    'commas: while is_sign(tokens, at, b",") {
        let more = cte(alloc, tokens, nodes, depth, at + 1);
        let next = pushed(&mut list, more)?;
        at = next;
    }
    Ok((list, at))
}

fn cte(
    alloc: Global,
    tokens: &[Token],
    nodes: &mut Nodes,
    depth: u32,
    from: usize,
) -> Result<(SurfaceCte, usize), Fault>
    ensures { Answers false depth a_cte tokens.now from nodes.old.left nodes.new.left result }
{
    let (name, next) = name(tokens, from)?;
    let next = word(tokens, next, b"as")?;
    let next = sign(tokens, next, b"(")?;
    let deeper = nested(depth)?;
    let (body, next) = union(alloc, tokens, nodes, deeper, next)?;
    let next = sign(tokens, next, b")")?;
    let whole = SurfaceCte {
        at: place(tokens, from),
        name,
        body,
    };
    Ok((whole, next))
}

// SELECTs with UNION ALL between them.
fn union(
    alloc: Global,
    tokens: &[Token],
    nodes: &mut Nodes,
    depth: u32,
    from: usize,
) -> Result<(SurfaceUnion, usize), Fault>
    ensures { Answers false depth a_union tokens.now from nodes.old.left nodes.new.left result }
{
    let first = select(alloc, tokens, nodes, depth, from);
    let (mut selects, mut at) = begun(alloc, first)?;
    'unions: while is_word(tokens, at, b"union") {
        let behind = word(tokens, at + 1, b"all")?;
        let more = select(alloc, tokens, nodes, depth, behind);
        let next = pushed(&mut selects, more)?;
        at = next;
    }
    let whole = SurfaceUnion {
        at: place(tokens, from),
        selects,
    };
    Ok((whole, at))
}

fn select(
    alloc: Global,
    tokens: &[Token],
    nodes: &mut Nodes,
    depth: u32,
    from: usize,
) -> Result<(SurfaceSelect, usize), Fault>
    ensures { Answers false depth a_select tokens.now from nodes.old.left nodes.new.left result }
{
    let at = place(tokens, from);
    let next = word(tokens, from, b"select")?;
    let (distinct, next) = distinct(tokens, next);
    selected(alloc, tokens, nodes, depth, at, distinct, next)
}

// What stands behind SELECT or SELECT DISTINCT.
fn selected(
    alloc: Global,
    tokens: &[Token],
    nodes: &mut Nodes,
    depth: u32,
    at: u64,
    distinct: bool,
    from: usize,
) -> Result<(SurfaceSelect, usize), Fault>
    ensures { Answers false depth (the_selected at distinct) tokens.now from nodes.old.left nodes.new.left result }
{
    let (items, next) = items(alloc, tokens, nodes, depth, from)?;
    let (from, next) = match source(alloc, tokens, nodes, depth, next) {
        Ok(found) => found,
        Err(fault) => return Err(given_up(items, (), fault)),
    };
    let (filter, next) = match filter(alloc, tokens, nodes, depth, next) {
        Ok(found) => found,
        Err(fault) => return Err(given_up(items, from, fault)),
    };
    let (keys, next) = match keys(alloc, tokens, nodes, depth, next) {
        Ok(found) => found,
        Err(fault) => return Err(given_up((items, from), filter, fault)),
    };
    let (having, next) = match having(alloc, tokens, nodes, depth, next) {
        Ok(found) => found,
        Err(fault) => return Err(given_up((items, from), (filter, keys), fault)),
    };
    let whole = SurfaceSelect {
        at,
        distinct,
        items,
        from,
        filter,
        keys,
        having,
    };
    Ok((whole, next))
}

fn distinct(tokens: &[Token], from: usize) -> (bool, usize)
    ensures on { from ≤ result.1 }
    ensures left { (n c d : ℕ) (s : List Tokens) (f : Bool → Plan a_select) → Onward false n a_select s (accept (is_the_word (codes "distinct")) (λ _. f true) (f false)) (drop from tokens.now) c d → Onward false n a_select s (f result.0) (drop result.1 tokens.now) c d }
{
    if is_word(tokens, from, b"distinct") {
        (true, from + 1)
    } else {
        (false, from)
    }
}

// Items with commas between them, and with one behind the last item or without.
fn items(
    alloc: Global,
    tokens: &[Token],
    nodes: &mut Nodes,
    depth: u32,
    from: usize,
) -> Result<(Seq<SurfaceItem>, usize), Fault>
    ensures { Answers false depth some_items tokens.now from nodes.old.left nodes.new.left result }
{
    let first = item(alloc, tokens, nodes, depth, from);
    let (mut list, mut at) = begun(alloc, first)?;
    'commas: while is_sign(tokens, at, b",") {
        if are_items_over(tokens, at + 1) {
            return Ok((list, at + 1));
        }
        let more = item(alloc, tokens, nodes, depth, at + 1);
        let next = pushed(&mut list, more)?;
        at = next;
    }
    Ok((list, at))
}

// Whether what stands here comes behind the items of a SELECT.
#[tactic(auto, using(crate::proofs::Descent::item_tests, crate::proofs::Descent::any_at, crate::proofs::Descent::any_past))]
fn are_items_over(tokens: &[Token], at: usize) -> bool
    ensures { result ≡ (negated (begins is_any (drop at tokens.now)) || begins ends_items (drop at tokens.now)) }
{
    at >= tokens.len()
        || is_word(tokens, at, b"from")
        || is_word(tokens, at, b"where")
        || is_word(tokens, at, b"group")
        || is_word(tokens, at, b"having")
        || is_word(tokens, at, b"union")
        || is_sign(tokens, at, b")")
        || is_sign(tokens, at, b";")
}

fn item(
    alloc: Global,
    tokens: &[Token],
    nodes: &mut Nodes,
    depth: u32,
    from: usize,
) -> Result<(SurfaceItem, usize), Fault>
    ensures { Answers false depth an_item tokens.now from nodes.old.left nodes.new.left result }
{
    let at = place(tokens, from);
    if is_sign(tokens, from, b"*") {
        return Ok((SurfaceItem::All { at }, from + 1));
    }
    if is_all_of(tokens, from) {
        let (item, next) = name(tokens, from)?;
        let next = sign(tokens, next, b".")?;
        let next = sign(tokens, next, b"*")?;
        return Ok((SurfaceItem::AllOf { at, item }, next));
    }
    nodes.begin();
    let (value, next) = expr(alloc, tokens, nodes, depth, from)?;
    let (alias, next) = alias(tokens, next)?;
    Ok((SurfaceItem::Value { at, value, alias }, next))
}

// Whether a name, a dot and a star stand here.
#[tactic(auto, using(crate::proofs::Descent::star_tests))]
fn is_all_of(tokens: &[Token], at: usize) -> bool
    ensures { result ≡ begins_star (drop at tokens.now) }
{
    is_name(tokens, at) && is_sign(tokens, at + 1, b".") && is_sign(tokens, at + 2, b"*")
}

/// Another name for what stands before it, if there is one.
pub fn alias(tokens: &[Token], from: usize) -> Result<(Option<Str>, usize), Fault>
    ensures { (n c : ℕ) → Answers false n an_alias tokens.now from c c result }
{
    if is_word(tokens, from, b"as") {
        let (alias, next) = name(tokens, from + 1)?;
        return Ok((Some(alias), next));
    }
    if is_name(tokens, from) {
        let (alias, next) = name(tokens, from)?;
        return Ok((Some(alias), next));
    }
    Ok((None, from))
}

fn filter(
    alloc: Global,
    tokens: &[Token],
    nodes: &mut Nodes,
    depth: u32,
    from: usize,
) -> Result<(Option<OrExpr>, usize), Fault>
    ensures { Answers false depth (condition (codes "where")) tokens.now from nodes.old.left nodes.new.left result }
{
    if is_word(tokens, from, b"where") {
        nodes.begin();
        let (filter, next) = expr(alloc, tokens, nodes, depth, from + 1)?;
        return Ok((Some(filter), next));
    }
    Ok((None, from))
}

fn having(
    alloc: Global,
    tokens: &[Token],
    nodes: &mut Nodes,
    depth: u32,
    from: usize,
) -> Result<(Option<OrExpr>, usize), Fault>
    ensures { Answers false depth (condition (codes "having")) tokens.now from nodes.old.left nodes.new.left result }
{
    if is_word(tokens, from, b"having") {
        nodes.begin();
        let (having, next) = expr(alloc, tokens, nodes, depth, from + 1)?;
        return Ok((Some(having), next));
    }
    Ok((None, from))
}

// GROUP BY and its keys, or none.
fn keys(
    alloc: Global,
    tokens: &[Token],
    nodes: &mut Nodes,
    depth: u32,
    from: usize,
) -> Result<(Seq<OrExpr>, usize), Fault>
    ensures { Answers false depth some_keys tokens.now from nodes.old.left nodes.new.left result }
{
    if is_word(tokens, from, b"group") {
        let next = word(tokens, from + 1, b"by")?;
        return key_list(alloc, tokens, nodes, depth, next);
    }
    let none = Seq::new(alloc);
    Ok((none, from))
}

// Keys with commas between them.
fn key_list(
    alloc: Global,
    tokens: &[Token],
    nodes: &mut Nodes,
    depth: u32,
    from: usize,
) -> Result<(Seq<OrExpr>, usize), Fault>
    ensures { Answers false depth some_exprs tokens.now from nodes.old.left nodes.new.left result }
{
    nodes.begin();
    let first = expr(alloc, tokens, nodes, depth, from);
    let (mut list, mut at) = begun(alloc, first)?;
    'commas: while is_sign(tokens, at, b",") {
        nodes.begin();
        let more = expr(alloc, tokens, nodes, depth, at + 1);
        let next = pushed(&mut list, more)?;
        at = next;
    }
    Ok((list, at))
}
