// Names in sight: columns and macros.
ghost use Rattle.std.specs.Prelude.{◌≡◌, IfOk, codes};
ghost use Rattle.std.specs.Str.{bytes_eq};
ghost use Rattle.mesh_query_tokens.specs.Gives.{Gives};
ghost use Rattle.mesh_base_values.specs.Picked.{same_text};
ghost use Rattle.mesh_resolve_scope.specs.sight.Sole.{sole, the_one_by};
ghost use Rattle.mesh_resolve_scope.specs.sight.Sight.{answers_to, is_there, meant_column, meant_in, meant, qualified, column, column_typed, macro_named, macro_kind, macro_typed};

use crate::sight::index::sole_of_both;
use crate::sight::sight::{Meant, Seen, Sight};
use mesh_base::{Expr, Var};
use mesh_base_values::{ColType, Column, Str, same_text};
use mesh_list::{Boxed, Duplicate, Memory, Seq};
use mesh_query_tokens::ReadFault;
use mesh_resolve_types::{Typed, ambiguous, bad_macro, leaf, unknown_column};
use std::alloc::Global;

/// A FROM item answers to its name, and where no name is asked for.
pub fn answers_to(item: &Option<Str>, seen: &Seen) -> bool
    ensures { result ≡ answers_to item.now seen.now }
{
    match item {
        None => true,
        Some(name) => same_text(seen.name.as_slice(), name.as_slice()),
    }
}

// Most names differ in length already.
#[tactic(auto, using(crate::proofs::sight::Soles::unlike_lengths))]
fn is_called(c: &Column, name: &Str) -> bool
    ensures { result ≡ same_text c.now.name name.now }
{
    if c.name.len() != name.len() {
        return false;
    }
    same_text(c.name.as_slice(), name.as_slice())
}

fn meant_column(name: &Str, seen: &Seen, c: &Column) -> Option<Option<Meant>>
    ensures { result ≡ sole (meant_column name.now seen.now c.now) }
{
    if is_called(c, name) {
        Some(Some(Meant {
            item: seen.place,
            kind: c.kind,
        }))
    } else {
        None
    }
}

fn meant_in(name: &Str, seen: &Seen) -> Option<Option<Meant>>
    ensures { result ≡ sole (meant_in name.now seen.now) }
{
    let mut found = None;
    for c in seen.columns.as_slice() {
        found = sole_of_both(found, meant_column(name, seen, c));
    }
    found
}

// By all FROM items.
fn meant_among(item: &Option<Str>, name: &Str, from: &[Seen]) -> Option<Option<Meant>>
    ensures { result ≡ sole (meant item.now name.now from.now) }
{
    let mut found = None;
    for seen in from {
        if answers_to(item, seen) {
            found = sole_of_both(found, meant_in(name, seen));
        }
    }
    found
}

// By the one FROM item that may be meant, or by all where several may be.
fn meant(item: &Option<Str>, name: &Str, sight: &Sight) -> Option<Option<Meant>>
    ensures { result ≡ sole (meant item.now name.now sight.now.from) }
{
    match item {
        None => sight.column(name),
        Some(of) => match sight.place(of) {
            None => None,
            Some(None) => meant_among(item, name, sight.from()),
            Some(Some(place)) => meant_in(name, &sight.from()[place]),
        },
    }
}

fn is_there(name: &Str, sight: &Sight) -> bool
    ensures { result ≡ is_there name.now sight.now.from }
{
    sight.place(name).is_some()
}

/// Whether a FROM item of that name is there, where one is asked for.
pub fn qualified(alloc: Global, at: u64, item: &Option<Str>, sight: &Sight) -> Result<(), ReadFault>
    ensures { Gives result (qualified at item.now sight.now.from) }
{
    match item {
        None => Ok(()),
        Some(name) => {
            if is_there(name, sight) {
                Ok(())
            } else {
                Err(unknown_column(alloc, at, name.as_slice()))
            }
        }
    }
}

fn the_one(
    alloc: Global,
    at: u64,
    name: &Str,
    found: Option<Option<Meant>>,
) -> Result<Meant, ReadFault>
    ensures { Gives result (the_one_by at name.now found) }
{
    match found {
        None => Err(unknown_column(alloc, at, name.as_slice())),
        Some(None) => Err(ambiguous(alloc, at, name.as_slice())),
        Some(Some(m)) => Ok(m),
    }
}

/// A column, by its name and perhaps that of its FROM item.
#[tactic(auto, unfolding(crate::specs::sight::Sight::column))]
pub fn column(
    alloc: Global,
    sight: &Sight,
    at: u64,
    item: &Option<Str>,
    name: &Str,
) -> Result<Typed, ReadFault>
    ensures { Gives result (column sight.now at item.now name.now) }
{
    qualified(alloc, at, item, sight)?;
    let found = the_one(alloc, at, name, meant(item, name, sight))?;
    Ok(column_typed(alloc, at, name, found.item, found.kind)?)
}

/// A column of the FROM item at that place.
pub fn column_typed(
    alloc: Global,
    at: u64,
    name: &Str,
    item: u32,
    kind: ColType,
) -> Result<Typed, Memory>
    ensures { IfOk result (λ made. made ≡ column_typed at name.now item kind) }
{
    let name = name.copy()?;
    let expr = Boxed::new(alloc, Expr::Col { item, name })?;
    let mut marks = Seq::new(alloc);
    marks.push(at)?;
    Ok(Typed {
        at,
        kind: Some(kind),
        expr,
        marks,
    })
}

fn is_same(a: &[u8], b: &[u8]) -> bool
    ensures { result ≡ bytes_eq a.now b.now }
{
    a == b
}

fn macro_named(word: &[u8]) -> Option<Var>
    ensures { result ≡ macro_named word.now }
{
    if is_same(word, b"start_date") {
        Some(Var::StartDate)
    } else if is_same(word, b"end_date") {
        Some(Var::EndDate)
    } else if is_same(word, b"start_ds") {
        Some(Var::StartDs)
    } else if is_same(word, b"end_ds") {
        Some(Var::EndDs)
    } else if is_same(word, b"start_epoch") {
        Some(Var::StartEpoch)
    } else if is_same(word, b"end_epoch") {
        Some(Var::EndEpoch)
    } else {
        None
    }
}

fn macro_kind(var: Var) -> ColType
    ensures { result ≡ macro_kind var }
{
    match var {
        Var::StartDate => ColType::Date,
        Var::EndDate => ColType::Date,
        Var::StartDs => ColType::Text,
        Var::EndDs => ColType::Text,
        Var::StartEpoch => ColType::Int,
        Var::EndEpoch => ColType::Int,
    }
}

/// A macro, where macros may stand.
#[tactic(auto, unfolding(crate::specs::sight::Sight::macro_typed))]
pub fn macro_typed(alloc: Global, sight: &Sight, at: u64, word: &Str) -> Result<Typed, ReadFault>
    ensures { Gives result (macro_typed sight.now at word.now) }
{
    let named = if sight.macros() {
        macro_named(word.as_slice())
    } else {
        None
    };
    let Some(var) = named else {
        return Err(bad_macro(alloc, at, word.as_slice()));
    };
    Ok(leaf(alloc, at, Some(macro_kind(var)), Expr::Macro(var))?)
}
