// The walk through an expression: operands from left to right, and then the form over them.
ghost use Rattle.mesh_query_tokens.specs.Gives.{Gives};
ghost use Rattle.mesh_resolve_scope.specs.Expressions.{typed, and_typed, not_typed, test_typed, cat_typed, sum_typed, product_typed, unary_typed, value_typed, args_typed, some_typed, all_typed, arms_typed};

use crate::sight::{Sight, column, macro_typed};
use crate::sizes::is_too_large;
use crate::steps::{
    all_cast, among_all, between_both, case_over, cast_value, compared_with, in_turn, literal,
    next_factor, next_part, next_term, number, pushed, text, whole, without_value,
};
use mesh_base::Op;
use mesh_base_values::{Cell, ColType};
use mesh_list::{Boxed, Seq};
use mesh_query_grammar::surface::{
    AddExpr, AndExpr, Args, Arm, CatExpr, Function, MulExpr, NotExpr, OrExpr, Primary, Test, Unary,
};
use mesh_query_tokens::ReadFault;
use mesh_resolve_types::{
    Arms, Typed, Typeds, called, compare_op, denied, distinct, negated, starred,
};
use std::alloc::Global;

/// An expression, with its columns and types, or the first fault in it. One that would grow too large, by the copies of
/// the operands of its CASEs, is never begun, and gives `Memory`.
pub fn typed_expression(alloc: Global, sight: &Sight, e: &OrExpr) -> Result<Typed, ReadFault>
    ensures { Gives result (typed sight.now e.now) }
{
    if is_too_large(e) {
        return Err(ReadFault::Memory);
    }
    typed(alloc, sight, e)
}

#[cycle(walk)]
fn typed(alloc: Global, sight: &Sight, e: &OrExpr) -> Result<Typed, ReadFault>
    ensures { Gives result (typed sight.now e.now) }
{
    let mut left = Ok(None);
    for part in e.parts.as_slice() {
        let right = and_typed(alloc, sight, part);
        left = next_part(alloc, ColType::Bool, Op::Or, e.at, left, right);
    }
    whole(e.at, left)
}

#[cycle(walk)]
fn and_typed(alloc: Global, sight: &Sight, e: &AndExpr) -> Result<Typed, ReadFault>
    ensures { Gives result (and_typed sight.now e.now) }
{
    let mut left = Ok(None);
    for part in e.parts.as_slice() {
        let right = not_typed(alloc, sight, part);
        left = next_part(alloc, ColType::Bool, Op::And, e.at, left, right);
    }
    whole(e.at, left)
}

#[cycle(walk)]
fn not_typed(alloc: Global, sight: &Sight, e: &NotExpr) -> Result<Typed, ReadFault>
    ensures { Gives result (not_typed sight.now e.now) }
{
    match e {
        NotExpr::Not { at, inner } => {
            let t = not_typed(alloc, sight, inner.get())?;
            denied(alloc, *at, t)
        }
        NotExpr::Plain { pred, .. } => {
            let left = cat_typed(alloc, sight, &pred.left)?;
            test_typed(alloc, sight, pred.at, left, &pred.test)
        }
    }
}

// What is asked about a value, in a form that begins at this place.
#[cycle(walk)]
fn test_typed(
    alloc: Global,
    sight: &Sight,
    at: u64,
    left: Typed,
    test: &Test,
) -> Result<Typed, ReadFault>
    ensures { Gives result (test_typed sight.now test.now at left) }
{
    match test {
        Test::Nothing => Ok(left),
        Test::Compare { cmp, right } => {
            let right = cat_typed(alloc, sight, right);
            compared_with(alloc, compare_op(*cmp), at, left, right)
        }
        Test::IsNull { negated } => without_value(alloc, *negated, at, left),
        Test::Between { negated, low, high } => {
            let low = cat_typed(alloc, sight, low);
            let ends = in_turn(low, cat_typed(alloc, sight, high));
            between_both(alloc, *negated, at, left, ends)
        }
        Test::OneOf { negated, of } => {
            let of = all_typed(alloc, sight, of);
            among_all(alloc, *negated, at, left, of)
        }
    }
}

#[cycle(walk)]
fn all_typed(alloc: Global, sight: &Sight, all: &Seq<OrExpr>) -> Result<Typeds, ReadFault>
    ensures { Gives result (all_typed sight.now all.now) }
{
    let mut made = Ok(Seq::new(alloc));
    for e in all.as_slice() {
        made = pushed(made, typed(alloc, sight, e));
    }
    made
}

#[cycle(walk)]
fn cat_typed(alloc: Global, sight: &Sight, e: &CatExpr) -> Result<Typed, ReadFault>
    ensures { Gives result (cat_typed sight.now e.now) }
{
    let mut left = Ok(None);
    for part in e.parts.as_slice() {
        let right = sum_typed(alloc, sight, part);
        left = next_part(alloc, ColType::Text, Op::Cat, e.at, left, right);
    }
    whole(e.at, left)
}

#[cycle(walk)]
fn sum_typed(alloc: Global, sight: &Sight, e: &AddExpr) -> Result<Typed, ReadFault>
    ensures { Gives result (sum_typed sight.now e.now) }
{
    let mut left = product_typed(alloc, sight, &e.first);
    for step in e.rest.as_slice() {
        let right = product_typed(alloc, sight, &step.part);
        left = next_term(alloc, step.sign, e.at, left, right);
    }
    left
}

#[cycle(walk)]
fn product_typed(alloc: Global, sight: &Sight, e: &MulExpr) -> Result<Typed, ReadFault>
    ensures { Gives result (product_typed sight.now e.now) }
{
    let mut left = unary_typed(alloc, sight, &e.first);
    for step in e.rest.as_slice() {
        let right = unary_typed(alloc, sight, &step.part);
        left = next_factor(alloc, step.sign, e.at, left, right);
    }
    left
}

#[cycle(walk)]
fn unary_typed(alloc: Global, sight: &Sight, e: &Unary) -> Result<Typed, ReadFault>
    ensures { Gives result (unary_typed sight.now e.now) }
{
    match e {
        Unary::Minus { at, inner } => {
            let t = unary_typed(alloc, sight, inner.get())?;
            negated(alloc, *at, t)
        }
        Unary::Plain { post, .. } => {
            let value = value_typed(alloc, sight, &post.value);
            all_cast(alloc, post.at, value, post.casts.as_slice())
        }
    }
}

#[cycle(walk)]
#[tactic(auto, using(crate::proofs::Layers::date_layer))]
fn value_typed(alloc: Global, sight: &Sight, value: &Primary) -> Result<Typed, ReadFault>
    ensures { Gives result (value_typed sight.now value.now) }
{
    match value {
        Primary::Number { at, value } => number(alloc, *at, *value),
        Primary::Text { at, text: word } => text(alloc, *at, word),
        Primary::Date { at, day } => literal(alloc, *at, Some(ColType::Date), Cell::Date(*day)),
        Primary::Truth { at, value } => literal(
            alloc,
            *at,
            Some(ColType::Bool),
            Cell::Bool(*value),
        ),
        Primary::Null { at } => literal(alloc, *at, None, Cell::Null),
        Primary::Macro { at, name } => macro_typed(alloc, sight, *at, name),
        Primary::Column { at, item, name } => column(alloc, sight, *at, item, name),
        Primary::Call { at, function, args } => args_typed(alloc, sight, *at, *function, args),
        Primary::Group { inner, .. } => typed(alloc, sight, inner.get()),
        Primary::Case {
            at,
            operand,
            arms,
            otherwise,
        } => {
            let operand = some_typed(alloc, sight, operand);
            let arms = arms_typed(alloc, sight, arms);
            let otherwise = some_typed(alloc, sight, otherwise);
            case_over(alloc, *at, operand, arms, otherwise)
        }
        Primary::Cast { at, value, to } => {
            let value = typed(alloc, sight, value.get());
            cast_value(alloc, *at, *to, value)
        }
    }
}

#[cycle(walk)]
fn some_typed(
    alloc: Global,
    sight: &Sight,
    e: &Option<Boxed<OrExpr>>,
) -> Result<Option<Typed>, ReadFault>
    ensures { Gives result (some_typed sight.now e.now) }
{
    match e {
        None => Ok(None),
        Some(e) => Ok(Some(typed(alloc, sight, e.get())?)),
    }
}

#[cycle(walk)]
fn arms_typed(alloc: Global, sight: &Sight, arms: &Seq<Arm>) -> Result<Arms, ReadFault>
    ensures { Gives result (arms_typed sight.now arms.now) }
{
    let mut made = Ok(Seq::new(alloc));
    for arm in arms.as_slice() {
        let test = typed(alloc, sight, &arm.test);
        made = pushed(made, in_turn(test, typed(alloc, sight, &arm.value)));
    }
    made
}

// The arguments of a function whose name stands at this place.
#[cycle(walk)]
fn args_typed(
    alloc: Global,
    sight: &Sight,
    at: u64,
    function: Function,
    args: &Args,
) -> Result<Typed, ReadFault>
    ensures { Gives result (args_typed sight.now args.now at function) }
{
    match args {
        Args::Star { .. } => starred(alloc, at, function),
        Args::Distinct { value, .. } => {
            let t = typed(alloc, sight, value.get())?;
            distinct(alloc, at, function, t)
        }
        Args::List { values, .. } => {
            let ts = all_typed(alloc, sight, values)?;
            called(alloc, at, function, ts)
        }
    }
}
