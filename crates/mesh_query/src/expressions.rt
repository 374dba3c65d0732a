// Expressions, level by level. Each function reads its form from a token on, and answers it with the place behind it.
// `depth` is how many parentheses, CASEs, NOTs and minus signs may still be opened.
ghost use Rattle.std.specs.Prelude.{◌≡◌, ◌+◌, ◌<◌, ◌&&◌, ℕ, codes, drop, true, false, IfOk};
ghost use Rattle.mesh_query_grammar.specs.declared.surface.signs.Function.{Function as Functions};
ghost use Rattle.mesh_query_grammar.specs.declared.surface.signs.Function.TheVariants.{Count, Coalesce, Nullif};
ghost use Rattle.mesh_query_grammar.specs.Signs.{place as place_of};
ghost use Rattle.mesh_query_grammar.specs.Rules.{expr as an_expr, conjunction as a_conjunction, negation as a_negation, pred as a_pred, tested, ranged, cat as a_cat, sum as a_sum, product as a_product, signed, post as a_post, value, group as a_group, case as a_case, cast as a_cast, operand, arms as some_arms, arm as an_arm, otherwise, arguments, exprs as some_exprs};
ghost use Rattle.mesh_query_grammar.specs.Plans.{begins_range, is_word as is_the_word, is_sign as is_the_sign, is_name as is_a_name, is_text as is_a_text};
ghost use Rattle.mesh_query_grammar.specs.Machine.{begins};
ghost use Rattle.mesh_query.specs.Answers.{Answers, AnswersOn};
ghost use Rattle.mesh_query.specs.Rests.{behind_is, behind_between, behind_in, unopened, one_alone};

use crate::brackets::{opened, shut};
use crate::lists::{added, begun, boxed, given_up, multiplied, pushed};
use crate::literals::{column, date, function_at, literal};
use crate::nodes::Nodes;
use mesh_list::{Boxed, Seq};
use mesh_query_grammar::lookahead::{
    Fault, add_sign, column_type, comparison, is_date, is_name, is_sign, is_word, mul_sign, nested,
    place, sign, word,
};
use mesh_query_grammar::surface::{
    AddExpr, AndExpr, Args, Arm, CatExpr, Function, MulExpr, NotExpr, OrExpr, Post, Pred, Primary,
    Test, Unary,
};
use mesh_query_tokens::Token;
use std::alloc::Global;

/// Parts with OR between them.
#[cycle(parser)]
pub fn expr(
    alloc: Global,
    tokens: &[Token],
    nodes: &mut Nodes,
    depth: u32,
    from: usize,
) -> Result<(OrExpr, usize), Fault>
    ensures { Answers true depth an_expr tokens.now from nodes.old.left nodes.new.left result }
{
    let first = conjunction(alloc, tokens, nodes, depth, from);
    let (mut parts, mut at) = begun(alloc, first)?;
    'ors: while is_word(tokens, at, b"or") {
        nodes.meet();
        let part = conjunction(alloc, tokens, nodes, depth, at + 1);
        let next = pushed(&mut parts, part)?;
        at = next;
    }
    let whole = OrExpr {
        at: place(tokens, from),
        parts,
    };
    Ok((whole, at))
}

// Parts with AND between them.
#[cycle(parser)]
fn conjunction(
    alloc: Global,
    tokens: &[Token],
    nodes: &mut Nodes,
    depth: u32,
    from: usize,
) -> Result<(AndExpr, usize), Fault>
    ensures { Answers true depth a_conjunction tokens.now from nodes.old.left nodes.new.left result }
{
    let first = negation(alloc, tokens, nodes, depth, from);
    let (mut parts, mut at) = begun(alloc, first)?;
    'ands: while is_word(tokens, at, b"and") {
        nodes.meet();
        let part = negation(alloc, tokens, nodes, depth, at + 1);
        let next = pushed(&mut parts, part)?;
        at = next;
    }
    let whole = AndExpr {
        at: place(tokens, from),
        parts,
    };
    Ok((whole, at))
}

#[cycle(parser)]
fn negation(
    alloc: Global,
    tokens: &[Token],
    nodes: &mut Nodes,
    depth: u32,
    from: usize,
) -> Result<(NotExpr, usize), Fault>
    ensures { Answers true depth a_negation tokens.now from nodes.old.left nodes.new.left result }
{
    let at = place(tokens, from);
    if is_word(tokens, from, b"not") {
        let deeper = nested(depth)?;
        nodes.meet();
        let inner = negation(alloc, tokens, nodes, deeper, from + 1);
        let (inner, next) = boxed(alloc, inner)?;
        return Ok((NotExpr::Not { at, inner }, next));
    }
    let (pred, next) = pred(alloc, tokens, nodes, depth, from)?;
    Ok((NotExpr::Plain { at, pred }, next))
}

// A value, and what is asked about it.
#[cycle(parser)]
fn pred(
    alloc: Global,
    tokens: &[Token],
    nodes: &mut Nodes,
    depth: u32,
    from: usize,
) -> Result<(Pred, usize), Fault>
    ensures { Answers true depth a_pred tokens.now from nodes.old.left nodes.new.left result }
{
    let (left, at) = cat(alloc, tokens, nodes, depth, from)?;
    let (test, next) = test(alloc, tokens, nodes, depth, at)?;
    let whole = Pred {
        at: place(tokens, from),
        left,
        test,
    };
    Ok((whole, next))
}

#[cycle(parser)]
fn test(
    alloc: Global,
    tokens: &[Token],
    nodes: &mut Nodes,
    depth: u32,
    from: usize,
) -> Result<(Test, usize), Fault>
    ensures { Answers true depth tested tokens.now from nodes.old.left nodes.new.left result }
{
    if is_word(tokens, from, b"is") {
        nodes.meet();
        return null_test(tokens, from + 1);
    }
    if is_word(tokens, from, b"not") {
        return range_test(alloc, tokens, nodes, true, depth, from + 1);
    }
    if is_range(tokens, from) {
        return range_test(alloc, tokens, nodes, false, depth, from);
    }
    match comparison(tokens, from) {
        Some(cmp) => {
            nodes.meet();
            let (right, next) = cat(alloc, tokens, nodes, depth, from + 1)?;
            Ok((Test::Compare { cmp, right }, next))
        }
        None => Ok((Test::Nothing, from)),
    }
}

// Whether BETWEEN or IN stands here.
#[tactic(auto, using(crate::proofs::Descent::one_of_two))]
fn is_range(tokens: &[Token], at: usize) -> bool
    ensures { result ≡ begins begins_range (drop at tokens.now) }
{
    is_word(tokens, at, b"between") || is_word(tokens, at, b"in")
}

// What stands behind IS.
fn null_test(tokens: &[Token], from: usize) -> Result<(Test, usize), Fault>
    ensures { (n c : ℕ) → AnswersOn true n tested behind_is tokens.now from c c result }
{
    if is_word(tokens, from, b"not") {
        let at = word(tokens, from + 1, b"null")?;
        return Ok((Test::IsNull { negated: true }, at));
    }
    let at = word(tokens, from, b"null")?;
    Ok((Test::IsNull { negated: false }, at))
}

// BETWEEN or IN.
#[cycle(parser)]
fn range_test(
    alloc: Global,
    tokens: &[Token],
    nodes: &mut Nodes,
    negated: bool,
    depth: u32,
    from: usize,
) -> Result<(Test, usize), Fault>
    ensures { Answers true depth (ranged negated) tokens.now from nodes.old.left nodes.new.left result }
{
    if is_word(tokens, from, b"between") {
        nodes.meet();
        return between(alloc, tokens, nodes, negated, depth, from + 1);
    }
    let at = word(tokens, from, b"in")?;
    nodes.meet();
    one_of(alloc, tokens, nodes, negated, depth, at)
}

// What stands behind BETWEEN.
#[cycle(parser)]
fn between(
    alloc: Global,
    tokens: &[Token],
    nodes: &mut Nodes,
    negated: bool,
    depth: u32,
    from: usize,
) -> Result<(Test, usize), Fault>
    ensures { AnswersOn true depth (ranged negated) (behind_between negated) tokens.now from nodes.old.left nodes.new.left result }
{
    let (low, at) = cat(alloc, tokens, nodes, depth, from)?;
    let at = word(tokens, at, b"and")?;
    let (high, at) = cat(alloc, tokens, nodes, depth, at)?;
    let test = Test::Between { negated, low, high };
    Ok((test, at))
}

// What stands behind IN.
#[cycle(parser)]
fn one_of(
    alloc: Global,
    tokens: &[Token],
    nodes: &mut Nodes,
    negated: bool,
    depth: u32,
    from: usize,
) -> Result<(Test, usize), Fault>
    ensures { AnswersOn true depth (ranged negated) (behind_in negated) tokens.now from nodes.old.left nodes.new.left result }
{
    let (deeper, at) = opened(tokens, depth, from)?;
    let of = exprs(alloc, tokens, nodes, deeper, at);
    let (of, at) = shut(tokens, of)?;
    Ok((Test::OneOf { negated, of }, at))
}

// Parts with `||` between them.
#[cycle(parser)]
fn cat(
    alloc: Global,
    tokens: &[Token],
    nodes: &mut Nodes,
    depth: u32,
    from: usize,
) -> Result<(CatExpr, usize), Fault>
    ensures { Answers true depth a_cat tokens.now from nodes.old.left nodes.new.left result }
{
    let first = sum(alloc, tokens, nodes, depth, from);
    let (mut parts, mut at) = begun(alloc, first)?;
    'cats: while is_sign(tokens, at, b"||") {
        nodes.meet();
        let part = sum(alloc, tokens, nodes, depth, at + 1);
        let next = pushed(&mut parts, part)?;
        at = next;
    }
    let whole = CatExpr {
        at: place(tokens, from),
        parts,
    };
    Ok((whole, at))
}

// Parts with `+` and `-` between them.
#[cycle(parser)]
fn sum(
    alloc: Global,
    tokens: &[Token],
    nodes: &mut Nodes,
    depth: u32,
    from: usize,
) -> Result<(AddExpr, usize), Fault>
    ensures { Answers true depth a_sum tokens.now from nodes.old.left nodes.new.left result }
{
    let (first, mut at) = product(alloc, tokens, nodes, depth, from)?;
    let mut rest = Seq::new(alloc);
    'sums: while let Some(sign) = add_sign(tokens, at) {
        nodes.meet();
        let part = product(alloc, tokens, nodes, depth, at + 1);
        match added(&mut rest, place(tokens, at), sign, part) {
            Ok(next) => at = next,
            Err(fault) => return Err(given_up(first, rest, fault)),
        }
    }
    let whole = AddExpr {
        at: place(tokens, from),
        first,
        rest,
    };
    Ok((whole, at))
}

// Parts with `*`, `/` and `%` between them.
#[cycle(parser)]
fn product(
    alloc: Global,
    tokens: &[Token],
    nodes: &mut Nodes,
    depth: u32,
    from: usize,
) -> Result<(MulExpr, usize), Fault>
    ensures { Answers true depth a_product tokens.now from nodes.old.left nodes.new.left result }
{
    let (first, mut at) = unary(alloc, tokens, nodes, depth, from)?;
    let mut rest = Seq::new(alloc);
    'products: while let Some(sign) = mul_sign(tokens, at) {
        nodes.meet();
        let part = unary(alloc, tokens, nodes, depth, at + 1);
        match multiplied(&mut rest, place(tokens, at), sign, part) {
            Ok(next) => at = next,
            Err(fault) => return Err(given_up(first, rest, fault)),
        }
    }
    let whole = MulExpr {
        at: place(tokens, from),
        first,
        rest,
    };
    Ok((whole, at))
}

#[cycle(parser)]
fn unary(
    alloc: Global,
    tokens: &[Token],
    nodes: &mut Nodes,
    depth: u32,
    from: usize,
) -> Result<(Unary, usize), Fault>
    ensures { Answers true depth signed tokens.now from nodes.old.left nodes.new.left result }
{
    let at = place(tokens, from);
    if is_sign(tokens, from, b"-") {
        let deeper = nested(depth)?;
        nodes.meet();
        let inner = unary(alloc, tokens, nodes, deeper, from + 1);
        let (inner, next) = boxed(alloc, inner)?;
        return Ok((Unary::Minus { at, inner }, next));
    }
    let (post, next) = post(alloc, tokens, nodes, depth, from)?;
    Ok((Unary::Plain { at, post }, next))
}

// A value and the types behind it.
#[cycle(parser)]
fn post(
    alloc: Global,
    tokens: &[Token],
    nodes: &mut Nodes,
    depth: u32,
    from: usize,
) -> Result<(Post, usize), Fault>
    ensures { Answers true depth a_post tokens.now from nodes.old.left nodes.new.left result }
{
    let (value, mut at) = primary(alloc, tokens, nodes, depth, from)?;
    let mut casts = Seq::new(alloc);
    'casts: while is_sign(tokens, at, b"::") {
        nodes.meet();
        let kind = column_type(tokens, at + 1);
        match pushed(&mut casts, kind) {
            Ok(next) => at = next,
            Err(fault) => return Err(given_up(value, casts, fault)),
        }
    }
    let whole = Post {
        at: place(tokens, from),
        value,
        casts,
    };
    Ok((whole, at))
}

#[cycle(parser)]
fn primary(
    alloc: Global,
    tokens: &[Token],
    nodes: &mut Nodes,
    depth: u32,
    from: usize,
) -> Result<(Primary, usize), Fault>
    ensures { Answers true depth value tokens.now from nodes.old.left nodes.new.left result }
{
    if is_sign(tokens, from, b"(") {
        return group(alloc, tokens, nodes, depth, from);
    }
    if is_word(tokens, from, b"case") {
        return case(alloc, tokens, nodes, depth, from);
    }
    if is_word(tokens, from, b"cast") {
        nodes.meet();
        return cast(alloc, tokens, nodes, depth, from);
    }
    if is_date(tokens, from) {
        return date(tokens, nodes, from);
    }
    if is_name(tokens, from) {
        if is_sign(tokens, from + 1, b"(") {
            return call(alloc, tokens, nodes, depth, from);
        }
        return column(tokens, nodes, from);
    }
    literal(tokens, nodes, from)
}

// An expression in parentheses.
#[cycle(parser)]
fn group(
    alloc: Global,
    tokens: &[Token],
    nodes: &mut Nodes,
    depth: u32,
    from: usize,
) -> Result<(Primary, usize), Fault>
    ensures { Answers true depth a_group tokens.now from nodes.old.left nodes.new.left result }
{
    let at = place(tokens, from);
    let (deeper, next) = opened(tokens, depth, from)?;
    let inner = expr(alloc, tokens, nodes, deeper, next);
    let inner = boxed(alloc, inner);
    let (inner, next) = shut(tokens, inner)?;
    Ok((Primary::Group { at, inner }, next))
}

#[cycle(parser)]
fn cast(
    alloc: Global,
    tokens: &[Token],
    nodes: &mut Nodes,
    depth: u32,
    from: usize,
) -> Result<(Primary, usize), Fault>
    ensures { Answers true depth a_cast tokens.now from nodes.old.left nodes.new.left result }
{
    let at = place(tokens, from);
    let next = word(tokens, from, b"cast")?;
    let (deeper, next) = opened(tokens, depth, next)?;
    let value = expr(alloc, tokens, nodes, deeper, next);
    let (value, next) = boxed(alloc, value)?;
    let next = word(tokens, next, b"as")?;
    let to = column_type(tokens, next);
    let (to, next) = shut(tokens, to)?;
    Ok((Primary::Cast { at, value, to }, next))
}

#[cycle(parser)]
fn case(
    alloc: Global,
    tokens: &[Token],
    nodes: &mut Nodes,
    depth: u32,
    from: usize,
) -> Result<(Primary, usize), Fault>
    ensures { Answers true depth a_case tokens.now from nodes.old.left nodes.new.left result }
{
    let at = place(tokens, from);
    let next = word(tokens, from, b"case")?;
    let deeper = nested(depth)?;
    nodes.meet();
    let (operand, next) = case_operand(alloc, tokens, nodes, deeper, next)?;
    let (arms, next) = arms(alloc, tokens, nodes, deeper, next)?;
    let (otherwise, next) = case_else(alloc, tokens, nodes, deeper, next)?;
    let next = word(tokens, next, b"end")?;
    let whole = Primary::Case {
        at,
        operand,
        arms,
        otherwise,
    };
    Ok((whole, next))
}

// What a CASE compares with, if something stands before its first WHEN.
#[cycle(parser)]
fn case_operand(
    alloc: Global,
    tokens: &[Token],
    nodes: &mut Nodes,
    depth: u32,
    from: usize,
) -> Result<(Option<Boxed<OrExpr>>, usize), Fault>
    ensures { Answers true depth operand tokens.now from nodes.old.left nodes.new.left result }
{
    if is_word(tokens, from, b"when") {
        return Ok((None, from));
    }
    let operand = expr(alloc, tokens, nodes, depth, from);
    let (operand, next) = boxed(alloc, operand)?;
    Ok((Some(operand), next))
}

// One WHEN or more.
#[cycle(parser)]
fn arms(
    alloc: Global,
    tokens: &[Token],
    nodes: &mut Nodes,
    depth: u32,
    from: usize,
) -> Result<(Seq<Arm>, usize), Fault>
    ensures { Answers true depth some_arms tokens.now from nodes.old.left nodes.new.left result }
{
    let first = arm(alloc, tokens, nodes, depth, from);
    let (mut arms, mut at) = begun(alloc, first)?;
    'whens: while is_word(tokens, at, b"when") {
        let more = arm(alloc, tokens, nodes, depth, at);
        let next = pushed(&mut arms, more)?;
        at = next;
    }
    Ok((arms, at))
}

#[cycle(parser)]
fn arm(
    alloc: Global,
    tokens: &[Token],
    nodes: &mut Nodes,
    depth: u32,
    from: usize,
) -> Result<(Arm, usize), Fault>
    ensures answers { Answers true depth an_arm tokens.now from nodes.old.left nodes.new.left result }
    ensures on { IfOk result (λ p. from < p.1) }
{
    let next = word(tokens, from, b"when")?;
    let (test, next) = expr(alloc, tokens, nodes, depth, next)?;
    let next = word(tokens, next, b"then")?;
    let (value, next) = expr(alloc, tokens, nodes, depth, next)?;
    let whole = Arm {
        at: place(tokens, from),
        test,
        value,
    };
    Ok((whole, next))
}

#[cycle(parser)]
fn case_else(
    alloc: Global,
    tokens: &[Token],
    nodes: &mut Nodes,
    depth: u32,
    from: usize,
) -> Result<(Option<Boxed<OrExpr>>, usize), Fault>
    ensures { Answers true depth otherwise tokens.now from nodes.old.left nodes.new.left result }
{
    if is_word(tokens, from, b"else") {
        let otherwise = expr(alloc, tokens, nodes, depth, from + 1);
        let (otherwise, next) = boxed(alloc, otherwise)?;
        return Ok((Some(otherwise), next));
    }
    Ok((None, from))
}

// A function's name and its arguments. Where the name is no function's the fault is at the parenthesis, since the name
// alone might have been a column's.
#[cycle(parser)]
fn call(
    alloc: Global,
    tokens: &[Token],
    nodes: &mut Nodes,
    depth: u32,
    from: usize,
) -> Result<(Primary, usize), Fault>
    requires name { begins is_a_name (drop from tokens.now) ≡ true }
    requires undated { (begins (is_the_word (codes "date")) (drop from tokens.now) && begins is_a_text (drop (from + 1) tokens.now)) ≡ false }
    requires opened { begins (is_the_sign (codes "(")) (drop (from + 1) tokens.now) ≡ true }
    ensures { AnswersOn true depth value (unopened (place_of (drop from tokens.now))) tokens.now from nodes.old.left nodes.new.left result }
{
    nodes.meet();
    let at = place(tokens, from);
    match function_at(tokens, from) {
        Some(function) => {
            let (deeper, next) = opened(tokens, depth, from + 1)?;
            let args = args(alloc, tokens, nodes, function, deeper, next);
            let (args, next) = shut(tokens, args)?;
            Ok((Primary::Call { at, function, args }, next))
        }
        None => Err(Fault::Syntax { token: from + 1 }),
    }
}

// The arguments of a function, as many as it takes.
#[cycle(parser)]
fn args(
    alloc: Global,
    tokens: &[Token],
    nodes: &mut Nodes,
    function: Function,
    depth: u32,
    from: usize,
) -> Result<(Args, usize), Fault>
    ensures { Answers true depth (arguments function) tokens.now from nodes.old.left nodes.new.left result }
{
    match function {
        Function::Count => count_args(alloc, tokens, nodes, depth, from),
        Function::Coalesce => coalesce_args(alloc, tokens, nodes, depth, from),
        Function::Nullif => nullif_args(alloc, tokens, nodes, depth, from),
        _ => one_arg(alloc, tokens, nodes, depth, from),
    }
}

// What COALESCE takes: one value or more.
#[cycle(parser)]
fn coalesce_args(
    alloc: Global,
    tokens: &[Token],
    nodes: &mut Nodes,
    depth: u32,
    from: usize,
) -> Result<(Args, usize), Fault>
    ensures { Answers true depth (arguments Coalesce) tokens.now from nodes.old.left nodes.new.left result }
{
    let at = place(tokens, from);
    let (values, next) = exprs(alloc, tokens, nodes, depth, from)?;
    Ok((Args::List { at, values }, next))
}

// What NULLIF takes: two values.
#[cycle(parser)]
fn nullif_args(
    alloc: Global,
    tokens: &[Token],
    nodes: &mut Nodes,
    depth: u32,
    from: usize,
) -> Result<(Args, usize), Fault>
    ensures { Answers true depth (arguments Nullif) tokens.now from nodes.old.left nodes.new.left result }
{
    let at = place(tokens, from);
    let first = expr(alloc, tokens, nodes, depth, from);
    let (mut values, next) = begun(alloc, first)?;
    let next = sign(tokens, next, b",")?;
    let second = expr(alloc, tokens, nodes, depth, next);
    let next = pushed(&mut values, second)?;
    Ok((Args::List { at, values }, next))
}

// What COUNT takes: `*`, a value, or the different ones of a value.
#[cycle(parser)]
fn count_args(
    alloc: Global,
    tokens: &[Token],
    nodes: &mut Nodes,
    depth: u32,
    from: usize,
) -> Result<(Args, usize), Fault>
    ensures { Answers true depth (arguments Count) tokens.now from nodes.old.left nodes.new.left result }
{
    let at = place(tokens, from);
    if is_sign(tokens, from, b"*") {
        return Ok((Args::Star { at }, from + 1));
    }
    if is_word(tokens, from, b"distinct") {
        let value = expr(alloc, tokens, nodes, depth, from + 1);
        let (value, next) = boxed(alloc, value)?;
        return Ok((Args::Distinct { at, value }, next));
    }
    one_arg(alloc, tokens, nodes, depth, from)
}

#[cycle(parser)]
fn one_arg(
    alloc: Global,
    tokens: &[Token],
    nodes: &mut Nodes,
    depth: u32,
    from: usize,
) -> Result<(Args, usize), Fault>
    ensures { (f : Functions) → AnswersOn true depth (arguments f) (one_alone f (place_of (drop from tokens.now))) tokens.now from nodes.old.left nodes.new.left result }
{
    let at = place(tokens, from);
    let value = expr(alloc, tokens, nodes, depth, from);
    let (values, next) = begun(alloc, value)?;
    Ok((Args::List { at, values }, next))
}

// Expressions with commas between them.
#[cycle(parser)]
fn exprs(
    alloc: Global,
    tokens: &[Token],
    nodes: &mut Nodes,
    depth: u32,
    from: usize,
) -> Result<(Seq<OrExpr>, usize), Fault>
    ensures { Answers true depth some_exprs tokens.now from nodes.old.left nodes.new.left result }
{
    let first = expr(alloc, tokens, nodes, depth, from);
    let (mut list, mut at) = begun(alloc, first)?;
    'commas: while is_sign(tokens, at, b",") {
        let more = expr(alloc, tokens, nodes, depth, at + 1);
        let next = pushed(&mut list, more)?;
        at = next;
    }
    Ok((list, at))
}
