// What FROM draws: relations by two-part names, and earlier CTEs by one-part names.
ghost use Rattle.std.specs.Prelude.{◌≡◌, ◌++◌, ◌∷◌, [], IfOk, OnOk};
ghost use Rattle.mesh_query_tokens.specs.Gives.{Gives};
ghost use Rattle.mesh_resolve_scope.specs.sight.Sight.{seeing};
ghost use Rattle.mesh_resolve.specs.Relations.{condition, conditional, dotted, drawn_from, item_drawn, joined, name_in_from, relation, two_part, unconditional};
ghost use Rattle.mesh_query_tokens.specs.Walk.{along};
ghost use Rattle.mesh_resolve_selects.specs.outputs.Leads.{Leads};

use crate::catalog::Catalog;
use crate::drawn::Drawing;
use mesh_base::{Join, Rel};
use mesh_base_values::{ColType, Columns, Name, Str};
use mesh_list::{Duplicate, Memory, Seq, both, push_made};
use mesh_query_grammar::surface::{OrExpr, SurfaceFrom, SurfaceJoin, SurfaceRel};
use mesh_query_tokens::ReadFault;
use mesh_resolve_scope::sight::Sight;
use mesh_resolve_scope::typed_expression;
use mesh_resolve_selects::outputs::{Commons, cte_named};
use mesh_resolve_selects::selects::Drawn;
use mesh_resolve_types::rules::may_be;
use mesh_resolve_types::{Typed, mismatch, unknown_relation};
use std::alloc::Global;

/// A condition, which is a BOOL.
#[tactic(auto, unfolding(crate::specs::Relations::condition))]
pub(crate) fn condition(alloc: Global, sight: &Sight, e: &OrExpr) -> Result<Typed, ReadFault>
    ensures { Gives result (condition sight.now e.now) }
{
    let t = typed_expression(alloc, sight, e)?;
    if may_be(ColType::Bool, t.kind) {
        Ok(t)
    } else {
        Err(mismatch(t.at))
    }
}

fn name_in_from(alias: &Option<Str>, name: &Str) -> Result<Str, Memory>
    ensures { IfOk result (λ made. made ≡ name_in_from alias.now name.now) }
{
    match alias {
        None => name.copy(),
        Some(alias) => alias.copy(),
    }
}

fn dotted(schema: &Str, name: &Str) -> Result<Str, Memory>
    ensures { IfOk result (λ made. made ≡ dotted schema.now name.now) }
{
    let (mut made, name) = both(schema, name)?;
    made.push(b'.')?;
    made.append(name)?;
    Ok(made)
}

fn two_part(known: &Catalog, at: u64, schema: &Str, name: &Str) -> Result<(Rel, Columns), ReadFault>
    ensures { Gives result (two_part known.now at schema.now name.now) }
{
    let (schema, model) = both(schema, name)?;
    let full = Name { schema, model };
    match known.columns(&full) {
        Some(columns) => match columns.copy() {
            Ok(columns) => Ok((Rel::Named(full), columns)),
            Err(Memory) => {
                drop(full);
                Err(ReadFault::Memory)
            }
        },
        None => {
            let shown = dotted(&full.schema, &full.model);
            drop(full);
            Err(unknown_relation(at, shown?))
        }
    }
}

#[tactic(auto, unfolding(crate::specs::Relations::relation))]
fn relation(
    alloc: Global,
    known: &Catalog,
    ctes: &Commons,
    r: &SurfaceRel,
) -> Result<(Rel, Columns), ReadFault>
    ensures { Gives result (relation known.now ctes.now r.now) }
{
    match &r.schema {
        None => match cte_named(alloc, ctes, &r.name)? {
            Some(found) => Ok(found),
            None => Err(unknown_relation(r.at, r.name.copy()?)),
        },
        Some(schema) => two_part(known, r.at, schema, &r.name),
    }
}

// Brings a relation's columns into sight under its name in FROM.
fn see_relation(sight: &mut Sight, r: &SurfaceRel, columns: Columns) -> Result<(), Memory>
    ensures { OnOk result (sight.new ≡ seeing sight.old (name_in_from r.now.alias r.now.name) columns) }
{
    let name = name_in_from(&r.alias, &r.name)?;
    sight.see(name, columns)
}

fn item_drawn(join: Join, r: &SurfaceRel, rel: Rel, on: Option<Typed>) -> Result<Drawn, Memory>
    ensures { IfOk result (λ d. d ≡ item_drawn join r.now rel on) }
{
    let name = name_in_from(&r.alias, &r.name)?;
    Ok(Drawn {
        at: r.at,
        name,
        join,
        rel,
        on,
    })
}

// One more FROM item without a condition.
fn unconditional(
    alloc: Global,
    known: &Catalog,
    ctes: &Commons,
    f: &mut Drawing,
    join: Join,
    r: &SurfaceRel,
) -> Result<(), ReadFault>
    ensures { Leads result f.new (unconditional known.now ctes.now f.old join r.now) }
{
    let (rel, columns) = relation(alloc, known, ctes, r)?;
    see_relation(&mut f.sight, r, columns)?;
    push_made(&mut f.drawn, item_drawn(join, r, rel, None))?;
    Ok(())
}

// One more FROM item, whose condition sees the items to its left and its own.
fn conditional(
    alloc: Global,
    known: &Catalog,
    ctes: &Commons,
    f: &mut Drawing,
    join: Join,
    r: &SurfaceRel,
    on: &OrExpr,
) -> Result<(), ReadFault>
    ensures { Leads result f.new (conditional known.now ctes.now f.old join r.now on.now) }
{
    let (rel, columns) = relation(alloc, known, ctes, r)?;
    see_relation(&mut f.sight, r, columns)?;
    let t = condition(alloc, &f.sight, on)?;
    push_made(&mut f.drawn, item_drawn(join, r, rel, Some(t)))?;
    Ok(())
}

fn joined(
    alloc: Global,
    known: &Catalog,
    ctes: &Commons,
    f: &mut Drawing,
    j: &SurfaceJoin,
) -> Result<(), ReadFault>
    ensures { Leads result f.new (joined known.now ctes.now f.old j.now) }
{
    match j {
        SurfaceJoin::Comma { rel, .. } => unconditional(alloc, known, ctes, f, Join::Cross, rel),
        SurfaceJoin::Cross { rel, .. } => unconditional(alloc, known, ctes, f, Join::Cross, rel),
        SurfaceJoin::Inner { rel, on, .. } => {
            conditional(alloc, known, ctes, f, Join::Inner, rel, on)
        }
        SurfaceJoin::Left { rel, on, .. } => {
            conditional(alloc, known, ctes, f, Join::Left, rel, on)
        }
    }
}

// Further FROM items.
#[tactic(auto, using(mesh_resolve_selects::proofs::outputs::Steps::none_along, mesh_resolve_selects::proofs::outputs::Steps::one_more, mesh_resolve_selects::proofs::outputs::Steps::stops, mesh_resolve_selects::proofs::outputs::Steps::all_along))]
fn all_joined(
    alloc: Global,
    known: &Catalog,
    ctes: &Commons,
    f: &mut Drawing,
    joins: &[SurfaceJoin],
) -> Result<(), ReadFault>
    ensures { Leads result f.new (along (joined known.now ctes.now) f.old joins.now) }
{
    for j in joins {
        joined(alloc, known, ctes, f, j)?;
    }
    Ok(())
}

/// The FROM items, from left to right.
#[tactic(auto, unfolding(crate::specs::Relations::drawn_from))]
pub(crate) fn drawn_from(
    alloc: Global,
    known: &Catalog,
    ctes: &Commons,
    from: &Option<SurfaceFrom>,
) -> Result<Drawing, ReadFault>
    ensures { Gives result (drawn_from known.now ctes.now from.now) }
{
    let mut f = Drawing {
        sight: Sight::new(alloc, known.macros()),
        drawn: Seq::new(alloc),
    };
    let Some(from) = from else {
        return Ok(f);
    };
    unconditional(alloc, known, ctes, &mut f, Join::First, &from.first)?;
    all_joined(alloc, known, ctes, &mut f, from.joins.as_slice())?;
    Ok(f)
}
