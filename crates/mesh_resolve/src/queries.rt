// The walk through a query: its CTEs in order, its SELECTs, and then the sides of each UNION ALL.
ghost use Rattle.std.specs.Prelude.{◌≡◌, [], map, IfOk};
ghost use Rattle.mesh_query_tokens.specs.Gives.{Gives};
ghost use Rattle.mesh_query_tokens.specs.Walk.{along};
ghost use Rattle.mesh_resolve_selects.specs.outputs.Leads.{Leads};
ghost use Rattle.mesh_resolve_selects.specs.outputs.Commons.{selects_of};
ghost use Rattle.mesh_resolve.specs.Queries.{cte, resolved, selects};

use crate::catalog::Catalog;
use crate::known::Known;
use crate::selects::select;
use mesh_base::{Ctes, Query, Selects};
use mesh_list::{Duplicate, Memory, Seq};
use mesh_query_grammar::surface::{Surface, SurfaceCte, SurfaceUnion};
use mesh_query_tokens::ReadFault;
use mesh_resolve_selects::outputs::{Common, Commons, with_sides_alike};
use mesh_resolve_selects::selects::duplicate;
use std::alloc::Global;

// The sides of a UNION ALL.
#[tactic(auto, using(mesh_resolve_selects::proofs::outputs::Steps::none_along, mesh_resolve_selects::proofs::outputs::Steps::one_more, mesh_resolve_selects::proofs::outputs::Steps::stops, mesh_resolve_selects::proofs::outputs::Steps::all_along), unfolding(crate::specs::Queries::selects))]
fn selects(
    alloc: Global,
    known: &Catalog,
    ctes: &Commons,
    u: &SurfaceUnion,
) -> Result<Selects, ReadFault>
    ensures { Gives result (selects known.now ctes.now u.now) }
{
    let mut done = Seq::new(alloc);
    for s in u.selects.as_slice() {
        let side = select(alloc, known, ctes, s)?;
        done.push(side)?;
    }
    Ok(done)
}

// One more CTE, which sees those before it.
fn cte(alloc: Global, known: &Catalog, done: &mut Commons, c: &SurfaceCte) -> Result<(), ReadFault>
    ensures { Leads result done.new (cte known.now done.old c.now) }
{
    let selects = selects(alloc, known, done, &c.body)?;
    let name = c.name.copy()?;
    if done.has(&name) {
        return Err(duplicate(c.at, name));
    }
    done.push(Common { name, selects })?;
    Ok(())
}

#[tactic(auto, using(mesh_resolve_selects::proofs::outputs::Steps::none_along, mesh_resolve_selects::proofs::outputs::Steps::one_more, mesh_resolve_selects::proofs::outputs::Steps::stops, mesh_resolve_selects::proofs::outputs::Steps::all_along))]
fn ctes(alloc: Global, known: &Catalog, all: &[SurfaceCte]) -> Result<Commons, ReadFault>
    ensures { Gives result (along (cte known.now) [] all.now) }
{
    let mut done = Commons::new(alloc);
    for c in all {
        cte(alloc, known, &mut done, c)?;
    }
    Ok(done)
}

// The CTEs by their places.
fn by_place(alloc: Global, ctes: Commons) -> Result<Ctes, Memory>
    ensures { IfOk result (λ made. made ≡ map selects_of ctes) }
{
    let mut made = Seq::new(alloc);
    for c in ctes.into_seq().into_vec() {
        made.push(c.selects)?;
    }
    Ok(made)
}

/// The query with its names and types, or its first fault: CTEs in order, then the SELECTs, and at last the sides of
/// each UNION ALL. `known` is what it may read.
#[tactic(auto, unfolding(crate::specs::Queries::resolved))]
pub fn resolve(alloc: Global, s: &Surface, known: &Known) -> Result<Query, ReadFault>
    ensures { Gives result (resolved known.now s.now) }
{
    let known = Catalog::new(known);
    let ctes = ctes(alloc, &known, s.ctes.as_slice())?;
    let selects = selects(alloc, &known, &ctes, &s.body)?;
    let ctes = by_place(alloc, ctes)?;
    with_sides_alike(ctes, selects)
}
