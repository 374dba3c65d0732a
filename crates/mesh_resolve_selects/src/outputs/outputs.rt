// The output columns of a SELECT.
ghost use Rattle.std.specs.Prelude.{◌≡◌, ◌+◌, ◌++◌, map, length, nat_le, IfOk, OnOk};
ghost use Rattle.mesh_query_tokens.specs.Gives.{Gives};
ghost use Rattle.mesh_query_tokens.specs.Walk.{along};
ghost use Rattle.mesh_resolve_types.specs.Faults.{most_columns};
ghost use Rattle.mesh_resolve_selects.specs.outputs.Leads.{Leads};
ghost use Rattle.mesh_resolve_selects.specs.outputs.Outputs.{all_of_item, expanded, item, items, name_by_place, output_name, starred, value_item, within_limit};

use itoa::Buffer;
use mesh_base::Expr;
use mesh_base_values::{Column, MOST_COLUMNS, Str};
use mesh_list::{Duplicate, Memory, Seq};
use mesh_query_grammar::surface::{OrExpr, SurfaceItem};
use mesh_query_tokens::ReadFault;
use mesh_resolve_scope::sight::{Seen, Sight, answers_to, column_typed, qualified};
use mesh_resolve_scope::typed_expression;
use mesh_resolve_types::{Typed, too_many_columns};
use std::alloc::Global;

/// An output column, and the place of what is written for it.
#[derive(Drop)]
pub struct Output {
    pub at: u64,
    pub name: Str,
    pub typed: Typed,
}

fn starred(alloc: Global, at: u64, d: &Seen, c: &Column) -> Result<Output, Memory>
    ensures { IfOk result (λ made. made ≡ starred at d.now c.now) }
{
    let typed = column_typed(alloc, at, &c.name, d.place, c.kind)?;
    let name = c.name.copy()?;
    Ok(Output { at, name, typed })
}

fn add_columns(alloc: Global, at: u64, d: &Seen, done: &mut Seq<Output>) -> Result<(), Memory>
    ensures { OnOk result (done.new ≡ done.old ++ map (starred at d.now) d.now.columns) }
{
    for c in d.columns.as_slice() {
        done.push(starred(alloc, at, d, c)?)?;
    }
    Ok(())
}

// The columns that `*` or `item.*` at this place adds.
fn expand(
    alloc: Global,
    at: u64,
    item: &Option<Str>,
    from: &[Seen],
    done: &mut Seq<Output>,
) -> Result<(), Memory>
    ensures { OnOk result (done.new ≡ done.old ++ expanded at item.now from.now) }
{
    for d in from {
        if answers_to(item, d) {
            add_columns(alloc, at, d, done)?;
        }
    }
    Ok(())
}

// So many columns and those that `*` or `item.*` adds are no more than there may be. They are counted before any is
// made.
fn has_room(at: u64, item: &Option<Str>, from: &[Seen], taken: usize) -> bool
    ensures { result ≡ nat_le (taken + length (expanded at item.now from.now)) most_columns }
{
    if taken as u64 > MOST_COLUMNS {
        return false;
    }
    let mut room = MOST_COLUMNS as usize - taken;
    for d in from {
        if answers_to(item, d) {
            if d.columns.len() > room {
                return false;
            }
            room -= d.columns.len();
        }
    }
    true
}

fn all_of(
    alloc: Global,
    at: u64,
    item: &Option<Str>,
    from: &[Seen],
    done: &mut Seq<Output>,
) -> Result<(), ReadFault>
    ensures { Leads result done.new (within_limit (done.old ++ expanded at item.now from.now)) }
{
    if !has_room(at, item, from, done.len()) {
        return Err(too_many_columns(alloc));
    }
    expand(alloc, at, item, from, done)?;
    Ok(())
}

fn name_by_place(alloc: Global, place: usize) -> Result<Str, Memory>
    ensures { IfOk result (λ name. name ≡ name_by_place place) }
{
    let mut digits = Buffer::new();
    let mut name = Vec::from_slice(alloc, b"_col_")?;
    name.extend_from_slice(digits.format(place as u64).as_bytes())?;
    Ok(Seq::from_vec(name))
}

fn output_name(alloc: Global, place: usize, alias: &Option<Str>, t: &Typed) -> Result<Str, Memory>
    ensures { IfOk result (λ name. name ≡ output_name place alias.now t.now) }
{
    match alias {
        Some(alias) => alias.copy(),
        None => match t.expr.get() {
            Expr::Col { name, .. } => name.copy(),
            _ => name_by_place(alloc, place),
        },
    }
}

fn value_item(
    alloc: Global,
    sight: &Sight,
    at: u64,
    value: &OrExpr,
    alias: &Option<Str>,
    done: &mut Seq<Output>,
) -> Result<(), ReadFault>
    ensures { Leads result done.new (value_item sight.now done.old at value.now alias.now) }
{
    let typed = typed_expression(alloc, sight, value)?;
    if done.len() as u64 >= MOST_COLUMNS {
        return Err(too_many_columns(alloc));
    }
    let name = output_name(alloc, done.len(), alias, &typed)?;
    done.push(Output { at, name, typed })?;
    Ok(())
}

fn all_of_item(
    alloc: Global,
    sight: &Sight,
    at: u64,
    name: &Str,
    done: &mut Seq<Output>,
) -> Result<(), ReadFault>
    ensures { Leads result done.new (all_of_item sight.now done.old at name.now) }
{
    let wanted = Some(name.copy()?);
    qualified(alloc, at, &wanted, sight)?;
    all_of(alloc, at, &wanted, sight.from(), done)
}

// The columns of one more item.
fn item(
    alloc: Global,
    sight: &Sight,
    written: &SurfaceItem,
    done: &mut Seq<Output>,
) -> Result<(), ReadFault>
    ensures { Leads result done.new (item sight.now done.old written.now) }
{
    match written {
        SurfaceItem::All { at } => all_of(alloc, *at, &None, sight.from(), done),
        SurfaceItem::AllOf { at, item } => all_of_item(alloc, sight, *at, item, done),
        SurfaceItem::Value { at, value, alias } => {
            value_item(alloc, sight, *at, value, alias, done)
        }
    }
}

#[tactic(auto, using(crate::proofs::outputs::Steps::none_along, crate::proofs::outputs::Steps::one_more, crate::proofs::outputs::Steps::stops, crate::proofs::outputs::Steps::all_along))]
fn add_items(
    alloc: Global,
    sight: &Sight,
    all: &[SurfaceItem],
    done: &mut Seq<Output>,
) -> Result<(), ReadFault>
    ensures { Leads result done.new (along (item sight.now) done.old all.now) }
{
    for written in all {
        item(alloc, sight, written, done)?;
    }
    Ok(())
}

/// The output columns, from left to right.
#[tactic(auto, unfolding(crate::specs::outputs::Outputs::items))]
pub fn items(alloc: Global, sight: &Sight, all: &[SurfaceItem]) -> Result<Seq<Output>, ReadFault>
    ensures { Gives result (items sight.now all.now) }
{
    let mut done = Seq::new(alloc);
    add_items(alloc, sight, all, &mut done)?;
    Ok(done)
}
