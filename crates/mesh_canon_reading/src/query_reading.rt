// Queries, read.
ghost use Rattle.std.specs.Prelude.{◌≡◌, codes};
ghost use Rattle.mesh_canon_words.specs.Words.{Gives, then_at};
ghost use Rattle.mesh_canon_reading.specs.Reading.{cte_at, filters_at, from_at, item_at, modes_at, named_at, place_at, query_at, rel_at, select_at, tables_at};

use crate::expression_reading::option_then;
use crate::read::{Readable, list, list_then, part, shut};
use crate::value_reading::name;
use mesh_base::{Expr, Exprs, FromItem, Froms, Item, Items, Query, Rel, Select, Selects};
use mesh_canon_words::{
    CanonFault, after, distinct, expect, grouped, join, number, text_then, type_then,
};
use std::alloc::Global;

const MOST_PLACE: u64 = 0xffff_ffff;

impl Readable for Item {
    ghost reading = { item_at };

    #[tactic(auto, unfolding(crate::specs::Reading::item_at))]
    fn read(alloc: Global, bytes: &[u8]) -> Result<(Item, &[u8]), CanonFault> {
        let rest = expect(bytes, b"(as ")?;
        let (name, rest) = text_then(alloc, rest, b" ")?;
        let (kind, rest) = type_then(rest, b" ")?;
        let (expr, rest) = part(alloc, rest, b")")?;
        Ok((Item { name, kind, expr }, rest))
    }
}

#[tactic(auto, unfolding(crate::specs::Reading::named_at))]
fn named(alloc: Global, bytes: &[u8]) -> Result<(Rel, &[u8]), CanonFault>
    ensures { Gives (λ x. (x.0, x.1.now)) result (named_at bytes.now) }
{
    let (name, rest) = name(alloc, bytes)?;
    shut(Rel::Named(name), rest, b")")
}

#[tactic(auto, unfolding(crate::specs::Reading::place_at))]
fn place(bytes: &[u8]) -> Result<(Rel, &[u8]), CanonFault>
    ensures { Gives (λ x. (x.0, x.1.now)) result (place_at bytes.now) }
{
    let (at, rest) = number(bytes, MOST_PLACE)?;
    shut(Rel::Cte(at as u32), rest, b")")
}

#[tactic(auto, unfolding(crate::specs::Reading::rel_at))]
fn rel(alloc: Global, bytes: &[u8]) -> Result<(Rel, &[u8]), CanonFault>
    ensures { Gives (λ x. (x.0, x.1.now)) result (rel_at bytes.now) }
{
    if let Some(rest) = after(bytes, b"(rel ") {
        return named(alloc, rest);
    }
    let rest = expect(bytes, b"(cte ")?;
    place(rest)
}

#[tactic(auto, unfolding(mesh_canon_words::specs::Words::then_at))]
fn rel_then_space(alloc: Global, bytes: &[u8]) -> Result<(Rel, &[u8]), CanonFault>
    ensures { Gives (λ x. (x.0, x.1.now)) result (then_at (codes " ") rel_at bytes.now) }
{
    let (rel, rest) = rel(alloc, bytes)?;
    shut(rel, rest, b" ")
}

impl Readable for FromItem {
    ghost reading = { from_at };

    #[tactic(auto, unfolding(crate::specs::Reading::from_at))]
    fn read(alloc: Global, bytes: &[u8]) -> Result<(FromItem, &[u8]), CanonFault> {
        let rest = expect(bytes, b"(item ")?;
        let Some((join, rest)) = join(rest) else {
            return Err(CanonFault::NotCanonical);
        };
        let (rel, rest) = rel_then_space(alloc, rest)?;
        match option_then(alloc, rest, b")") {
            Ok((on, rest)) => Ok((FromItem { join, rel, on }, rest)),
            Err(fault) => {
                drop(rel);
                Err(fault)
            }
        }
    }
}

// Whether a SELECT is distinct and whether it is grouped, behind its word.
#[tactic(auto, unfolding(crate::specs::Reading::modes_at))]
fn modes(bytes: &[u8]) -> Result<((bool, bool), &[u8]), CanonFault>
    ensures { Gives (λ x. (x.0, x.1.now)) result (modes_at bytes.now) }
{
    let rest = expect(bytes, b"(select ")?;
    let Some((distinct, rest)) = distinct(rest) else {
        return Err(CanonFault::NotCanonical);
    };
    let Some((grouped, rest)) = grouped(rest) else {
        return Err(CanonFault::NotCanonical);
    };
    Ok(((distinct, grouped), rest))
}

// Its items and what they are taken from.
#[tactic(auto, unfolding(crate::specs::Reading::tables_at))]
fn tables(alloc: Global, bytes: &[u8]) -> Result<((Items, Froms), &[u8]), CanonFault>
    ensures { Gives (λ x. (x.0, x.1.now)) result (tables_at bytes.now) }
{
    let (items, rest) = list_then(alloc, bytes, b" ")?;
    let (from, rest) = list_then(alloc, rest, b" ")?;
    Ok(((items, from), rest))
}

// Its filter and its keys.
#[tactic(auto, unfolding(crate::specs::Reading::filters_at))]
fn filters(alloc: Global, bytes: &[u8]) -> Result<((Option<Expr>, Exprs), &[u8]), CanonFault>
    ensures { Gives (λ x. (x.0, x.1.now)) result (filters_at bytes.now) }
{
    let (filter, rest) = option_then(alloc, bytes, b" ")?;
    match list_then(alloc, rest, b" ") {
        Ok((keys, rest)) => Ok(((filter, keys), rest)),
        Err(fault) => {
            drop(filter);
            Err(fault)
        }
    }
}

impl Readable for Select {
    ghost reading = { select_at };

    #[tactic(auto, unfolding(crate::specs::Reading::select_at))]
    fn read(alloc: Global, bytes: &[u8]) -> Result<(Select, &[u8]), CanonFault> {
        let ((distinct, grouped), rest) = modes(bytes)?;
        let ((items, from), rest) = tables(alloc, rest)?;
        let ((filter, keys), rest) = filters(alloc, rest)?;
        match option_then(alloc, rest, b")") {
            Ok((having, rest)) => Ok((
                Select {
                    distinct,
                    grouped,
                    items,
                    from,
                    filter,
                    keys,
                    having,
                },
                rest,
            )),
            Err(fault) => {
                drop(filter);
                Err(fault)
            }
        }
    }
}

impl Readable for Selects {
    ghost reading = { cte_at };

    #[tactic(auto, unfolding(crate::specs::Reading::cte_at))]
    fn read(alloc: Global, bytes: &[u8]) -> Result<(Selects, &[u8]), CanonFault> {
        let rest = expect(bytes, b"(cte ")?;
        let (selects, rest) = list(alloc, rest)?;
        shut(selects, rest, b")")
    }
}

/// A query behind its word.
#[tactic(auto, unfolding(crate::specs::Reading::query_at))]
pub(crate) fn query(alloc: Global, bytes: &[u8]) -> Result<(Query, &[u8]), CanonFault>
    ensures { Gives (λ x. (x.0, x.1.now)) result (query_at bytes.now) }
{
    let (ctes, rest) = list_then(alloc, bytes, b" ")?;
    let (selects, rest) = list_then(alloc, rest, b")")?;
    Ok((Query { ctes, selects }, rest))
}
