// Expressions, read. The functions call one another, as the types lead to one another.
ghost use Rattle.std.specs.Prelude.{◌≡◌, length};
ghost use Rattle.mesh_canon_words.specs.Words.{Gives, then_at};
ghost use Rattle.mesh_canon_reading.specs.Reading.{agg_parts_at, any_expr_at, between_at, binary_at, call_at, case_at, cast_at, col_at, count_at, expr_at, list_at, literal_at, members_at, more_at, one_of_at, option_at, parts_at, variable_at, when_at, with_front};

use crate::read::{Readable, shut};
use crate::value_reading::cell_parts;
use mesh_base::{Expr, Exprs, Op, When, Whens};
use mesh_canon_words::{
    CanonFault, CellHead, Head, after, aggregate, any_head, expect, func, macro_var, number,
    text_then, type_then,
};
use mesh_list::{Boxed, Seq};
use std::alloc::Global;

const MOST_PLACE: u64 = 0xffff_ffff;

/// An expression of at most `depth` nodes inside one another.
#[cycle(read)]
#[tactic(auto, unfolding(crate::specs::Reading::expr_at))]
fn expr(alloc: Global, depth: usize, bytes: &[u8]) -> Result<(Expr, &[u8]), CanonFault>
    ensures { Gives (λ x. (x.0, x.1.now)) result (expr_at depth bytes.now) }
{
    if depth == 0 {
        return Err(CanonFault::NotCanonical);
    }
    match any_head(bytes) {
        Some((head, rest)) => parts(alloc, depth - 1, head, rest),
        None => Err(CanonFault::NotCanonical),
    }
}

// A node behind its head.
#[cycle(read)]
#[tactic(auto, unfolding(crate::specs::Reading::parts_at))]
fn parts(alloc: Global, depth: usize, head: Head, bytes: &[u8]) -> Result<(Expr, &[u8]), CanonFault>
    ensures { Gives (λ x. (x.0, x.1.now)) result (parts_at (expr_at depth) head bytes.now) }
{
    match head {
        Head::Literal(cell) => literal(alloc, cell, bytes),
        Head::Col => col(alloc, bytes),
        Head::Macro => variable(bytes),
        Head::Binary(op) => binary(alloc, depth, op, bytes),
        Head::Neg => {
            let (value, rest) = boxed_then(alloc, depth, bytes, b")")?;
            Ok((Expr::Neg(value), rest))
        }
        Head::Not => {
            let (value, rest) = boxed_then(alloc, depth, bytes, b")")?;
            Ok((Expr::Not(value), rest))
        }
        Head::IsNull => {
            let (value, rest) = boxed_then(alloc, depth, bytes, b")")?;
            Ok((Expr::IsNull(value), rest))
        }
        Head::Between => between(alloc, depth, bytes),
        Head::OneOf => one_of(alloc, depth, bytes),
        Head::Cast => cast(alloc, depth, bytes),
        Head::Call => call(alloc, depth, bytes),
        Head::Case => case(alloc, depth, bytes),
        Head::CountAll => count_all(bytes),
        Head::Agg => agg(alloc, depth, bytes),
    }
}

#[tactic(auto, unfolding(crate::specs::Reading::literal_at))]
fn literal(alloc: Global, cell: CellHead, bytes: &[u8]) -> Result<(Expr, &[u8]), CanonFault>
    ensures { Gives (λ x. (x.0, x.1.now)) result (literal_at cell bytes.now) }
{
    let (cell, rest) = cell_parts(alloc, cell, bytes)?;
    Ok((Expr::Literal(cell), rest))
}

#[tactic(auto, unfolding(crate::specs::Reading::variable_at))]
fn variable(bytes: &[u8]) -> Result<(Expr, &[u8]), CanonFault>
    ensures { Gives (λ x. (x.0, x.1.now)) result (variable_at bytes.now) }
{
    let Some((var, rest)) = macro_var(bytes) else {
        return Err(CanonFault::NotCanonical);
    };
    shut(Expr::Macro(var), rest, b")")
}

#[tactic(auto, unfolding(crate::specs::Reading::count_at))]
fn count_all(bytes: &[u8]) -> Result<(Expr, &[u8]), CanonFault>
    ensures { Gives (λ x. (x.0, x.1.now)) result (count_at bytes.now) }
{
    shut(Expr::CountAll, bytes, b")")
}

#[tactic(auto, unfolding(crate::specs::Reading::col_at))]
fn col(alloc: Global, bytes: &[u8]) -> Result<(Expr, &[u8]), CanonFault>
    ensures { Gives (λ x. (x.0, x.1.now)) result (col_at bytes.now) }
{
    let (item, rest) = number(bytes, MOST_PLACE)?;
    let rest = expect(rest, b" ")?;
    let (name, rest) = text_then(alloc, rest, b")")?;
    let item = item as u32;
    Ok((Expr::Col { item, name }, rest))
}

// An expression and the sign behind it.
#[cycle(read)]
#[tactic(auto, unfolding(mesh_canon_words::specs::Words::then_at))]
fn expr_then<'a>(
    alloc: Global,
    depth: usize,
    bytes: &'a [u8],
    sign: &[u8],
) -> Result<(Expr, &'a [u8]), CanonFault>
    ensures { Gives (λ x. (x.0, x.1.now)) result (then_at sign.now (expr_at depth) bytes.now) }
{
    let (value, rest) = expr(alloc, depth, bytes)?;
    shut(value, rest, sign)
}

#[cycle(read)]
fn boxed_then<'a>(
    alloc: Global,
    depth: usize,
    bytes: &'a [u8],
    sign: &[u8],
) -> Result<(Boxed<Expr>, &'a [u8]), CanonFault>
    ensures { Gives (λ x. (x.0, x.1.now)) result (then_at sign.now (expr_at depth) bytes.now) }
{
    let (value, rest) = expr_then(alloc, depth, bytes, sign)?;
    Ok((Boxed::new(alloc, value)?, rest))
}

#[cycle(read)]
#[tactic(auto, unfolding(crate::specs::Reading::binary_at))]
fn binary(alloc: Global, depth: usize, op: Op, bytes: &[u8]) -> Result<(Expr, &[u8]), CanonFault>
    ensures { Gives (λ x. (x.0, x.1.now)) result (binary_at op (expr_at depth) bytes.now) }
{
    let (left, rest) = boxed_then(alloc, depth, bytes, b" ")?;
    let (right, rest) = boxed_then(alloc, depth, rest, b")")?;
    Ok((Expr::Binary { op, left, right }, rest))
}

#[cycle(read)]
#[tactic(auto, unfolding(crate::specs::Reading::between_at))]
fn between(alloc: Global, depth: usize, bytes: &[u8]) -> Result<(Expr, &[u8]), CanonFault>
    ensures { Gives (λ x. (x.0, x.1.now)) result (between_at (expr_at depth) bytes.now) }
{
    let (value, rest) = boxed_then(alloc, depth, bytes, b" ")?;
    let (low, rest) = boxed_then(alloc, depth, rest, b" ")?;
    let (high, rest) = boxed_then(alloc, depth, rest, b")")?;
    Ok((Expr::Between { value, low, high }, rest))
}

#[cycle(read)]
#[tactic(auto, unfolding(crate::specs::Reading::one_of_at))]
fn one_of(alloc: Global, depth: usize, bytes: &[u8]) -> Result<(Expr, &[u8]), CanonFault>
    ensures { Gives (λ x. (x.0, x.1.now)) result (one_of_at (expr_at depth) bytes.now) }
{
    let (value, rest) = boxed_then(alloc, depth, bytes, b" ")?;
    let (of, rest) = exprs(alloc, depth, rest)?;
    shut(Expr::OneOf { value, of }, rest, b")")
}

#[cycle(read)]
#[tactic(auto, unfolding(crate::specs::Reading::cast_at))]
fn cast(alloc: Global, depth: usize, bytes: &[u8]) -> Result<(Expr, &[u8]), CanonFault>
    ensures { Gives (λ x. (x.0, x.1.now)) result (cast_at (expr_at depth) bytes.now) }
{
    let (to, rest) = type_then(bytes, b" ")?;
    let (value, rest) = boxed_then(alloc, depth, rest, b")")?;
    Ok((Expr::Cast { to, value }, rest))
}

#[cycle(read)]
#[tactic(auto, unfolding(crate::specs::Reading::call_at))]
fn call(alloc: Global, depth: usize, bytes: &[u8]) -> Result<(Expr, &[u8]), CanonFault>
    ensures { Gives (λ x. (x.0, x.1.now)) result (call_at (expr_at depth) bytes.now) }
{
    let Some((func, rest)) = func(bytes) else {
        return Err(CanonFault::NotCanonical);
    };
    let (args, rest) = exprs(alloc, depth, rest)?;
    shut(Expr::Call { func, args }, rest, b")")
}

#[cycle(read)]
#[tactic(auto, unfolding(crate::specs::Reading::case_at))]
fn case(alloc: Global, depth: usize, bytes: &[u8]) -> Result<(Expr, &[u8]), CanonFault>
    ensures { Gives (λ x. (x.0, x.1.now)) result (case_at (expr_at depth) bytes.now) }
{
    let (whens, rest) = whens(alloc, depth, bytes)?;
    let rest = expect(rest, b" ")?;
    let (otherwise, rest) = boxed_then(alloc, depth, rest, b")")?;
    Ok((Expr::Case { whens, otherwise }, rest))
}

#[cycle(read)]
#[tactic(auto, unfolding(crate::specs::Reading::agg_parts_at))]
fn agg(alloc: Global, depth: usize, bytes: &[u8]) -> Result<(Expr, &[u8]), CanonFault>
    ensures { Gives (λ x. (x.0, x.1.now)) result (agg_parts_at (expr_at depth) bytes.now) }
{
    let Some((kind, rest)) = aggregate(bytes) else {
        return Err(CanonFault::NotCanonical);
    };
    let (value, rest) = boxed_then(alloc, depth, rest, b")")?;
    Ok((Expr::Agg { kind, value }, rest))
}

#[cycle(read)]
#[tactic(auto, unfolding(crate::specs::Reading::when_at))]
fn when(alloc: Global, depth: usize, bytes: &[u8]) -> Result<(When, &[u8]), CanonFault>
    ensures { Gives (λ x. (x.0, x.1.now)) result (when_at (expr_at depth) bytes.now) }
{
    let rest = expect(bytes, b"(when ")?;
    let (test, rest) = expr_then(alloc, depth, rest, b" ")?;
    match expr_then(alloc, depth, rest, b")") {
        Ok((value, rest)) => Ok((When { test, value }, rest)),
        Err(fault) => {
            drop(test);
            Err(fault)
        }
    }
}

#[cycle(read)]
#[tactic(auto, unfolding(crate::specs::Reading::list_at, crate::specs::Reading::members_at))]
fn exprs(alloc: Global, depth: usize, bytes: &[u8]) -> Result<(Exprs, &[u8]), CanonFault>
    ensures { Gives (λ x. (x.0, x.1.now)) result (list_at (expr_at depth) bytes.now) }
{
    let inner = expect(bytes, b"[")?;
    if let Some(rest) = after(inner, b"]") {
        return Ok((Seq::new(alloc), rest));
    }
    let (first, rest) = expr(alloc, depth, inner)?;
    let mut made = Seq::new(alloc);
    made.push(first)?;
    more_exprs(alloc, depth, made, rest)
}

#[cycle(read)]
fn more_exprs(
    alloc: Global,
    depth: usize,
    front: Exprs,
    bytes: &[u8],
) -> Result<(Exprs, &[u8]), CanonFault>
    ensures { Gives (λ x. (x.0, x.1.now)) result (with_front front (more_at (expr_at depth) (length bytes.now) bytes.now)) }
{
    let mut made = front;
    let mut rest = bytes;
    for _ in 0..bytes.len() {
        match after(rest, b"]") {
            Some(behind) => return Ok((made, behind)),
            None => {}
        }
        let behind = expect(rest, b" ")?;
        let (item, left) = expr(alloc, depth, behind)?;
        made.push(item)?;
        rest = left;
    }
    Err(CanonFault::NotCanonical)
}

#[cycle(read)]
#[tactic(auto, unfolding(crate::specs::Reading::list_at, crate::specs::Reading::members_at))]
fn whens(alloc: Global, depth: usize, bytes: &[u8]) -> Result<(Whens, &[u8]), CanonFault>
    ensures { Gives (λ x. (x.0, x.1.now)) result (list_at (when_at (expr_at depth)) bytes.now) }
{
    let inner = expect(bytes, b"[")?;
    if let Some(rest) = after(inner, b"]") {
        return Ok((Seq::new(alloc), rest));
    }
    let (first, rest) = when(alloc, depth, inner)?;
    let mut made = Seq::new(alloc);
    made.push(first)?;
    more_whens(alloc, depth, made, rest)
}

#[cycle(read)]
fn more_whens(
    alloc: Global,
    depth: usize,
    front: Whens,
    bytes: &[u8],
) -> Result<(Whens, &[u8]), CanonFault>
    ensures { Gives (λ x. (x.0, x.1.now)) result (with_front front (more_at (when_at (expr_at depth)) (length bytes.now) bytes.now)) }
{
    let mut made = front;
    let mut rest = bytes;
    for _ in 0..bytes.len() {
        match after(rest, b"]") {
            Some(behind) => return Ok((made, behind)),
            None => {}
        }
        let behind = expect(rest, b" ")?;
        let (item, left) = when(alloc, depth, behind)?;
        made.push(item)?;
        rest = left;
    }
    Err(CanonFault::NotCanonical)
}

impl Readable for Expr {
    ghost reading = { any_expr_at };

    fn read(alloc: Global, bytes: &[u8]) -> Result<(Expr, &[u8]), CanonFault> {
        expr(alloc, bytes.len(), bytes)
    }
}

/// An expression or `none`, and the sign behind it.
#[tactic(auto, unfolding(mesh_canon_words::specs::Words::then_at))]
pub(crate) fn option_then<'a>(
    alloc: Global,
    bytes: &'a [u8],
    sign: &[u8],
) -> Result<(Option<Expr>, &'a [u8]), CanonFault>
    ensures { Gives (λ x. (x.0, x.1.now)) result (then_at sign.now option_at bytes.now) }
{
    let (value, rest) = option(alloc, bytes)?;
    shut(value, rest, sign)
}

// An expression, or `none`.
#[tactic(auto, unfolding(crate::specs::Reading::option_at))]
fn option(alloc: Global, bytes: &[u8]) -> Result<(Option<Expr>, &[u8]), CanonFault>
    ensures { Gives (λ x. (x.0, x.1.now)) result (option_at bytes.now) }
{
    if let Some(rest) = after(bytes, b"none") {
        return Ok((None, rest));
    }
    let (value, rest) = expr(alloc, bytes.len(), bytes)?;
    Ok((Some(value), rest))
}
