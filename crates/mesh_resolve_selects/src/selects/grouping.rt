// The rule on groups, over the parts of a SELECT in the order of the walk.
ghost use Rattle.std.specs.Prelude.{◌≡◌};
ghost use Rattle.std.specs.List.{list_any};
ghost use Rattle.mesh_query_tokens.specs.Gives.{Gives};
ghost use Rattle.mesh_resolve_selects.specs.selects.Standing.{each, is_grouped, is_right_key, keeps_groups, none_at, on_without_aggregates, output_has_aggregate, output_well_grouped, some, well_grouped, without_aggregates};

use crate::groups::{has_aggregate, misplaced, ungrouped};
use crate::outputs::{Key, Output};
use crate::selects::parts::{Drawn, Walked};
use mesh_base::Expr;
use mesh_query_tokens::ReadFault;
use mesh_resolve_types::{Typed, not_grouped};
use std::alloc::Global;

fn none_at(found: Option<u64>) -> Result<(), ReadFault>
    ensures { Gives result (none_at found) }
{
    match found {
        None => Ok(()),
        Some(at) => Err(not_grouped(at)),
    }
}

fn without_aggregates(alloc: Global, t: &Typed) -> Result<(), ReadFault>
    ensures { Gives result (without_aggregates t.now) }
{
    let found = misplaced(alloc, t.marks.as_slice(), t.expr.get())?;
    none_at(found)
}

fn well_grouped(alloc: Global, grouped: bool, keys: &[Expr], t: &Typed) -> Result<(), ReadFault>
    ensures { Gives result (well_grouped grouped keys.now t.now) }
{
    let found = ungrouped(alloc, grouped, keys, t.marks.as_slice(), t.expr.get())?;
    none_at(found)
}

fn some_without_aggregates(alloc: Global, t: &Option<Typed>) -> Result<(), ReadFault>
    ensures { Gives result (some without_aggregates t.now) }
{
    match t {
        None => Ok(()),
        Some(t) => without_aggregates(alloc, t),
    }
}

fn some_well_grouped(
    alloc: Global,
    grouped: bool,
    keys: &[Expr],
    t: &Option<Typed>,
) -> Result<(), ReadFault>
    ensures { Gives result (some (well_grouped grouped keys.now) t.now) }
{
    match t {
        None => Ok(()),
        Some(t) => well_grouped(alloc, grouped, keys, t),
    }
}

#[tactic(auto, using(crate::proofs::outputs::Steps::none_along, crate::proofs::outputs::Steps::one_more, crate::proofs::outputs::Steps::stops, crate::proofs::outputs::Steps::all_along))]
fn each_on(alloc: Global, from: &[Drawn]) -> Result<(), ReadFault>
    ensures { Gives result (each on_without_aggregates from.now) }
{
    for d in from {
        some_without_aggregates(alloc, &d.on)?;
    }
    Ok(())
}

#[tactic(auto, using(crate::proofs::outputs::Steps::none_along, crate::proofs::outputs::Steps::one_more, crate::proofs::outputs::Steps::stops, crate::proofs::outputs::Steps::all_along))]
fn each_output(
    alloc: Global,
    grouped: bool,
    keys: &[Expr],
    outputs: &[Output],
) -> Result<(), ReadFault>
    ensures { Gives result (each (output_well_grouped grouped keys.now) outputs.now) }
{
    for o in outputs {
        well_grouped(alloc, grouped, keys, &o.typed)?;
    }
    Ok(())
}

fn is_right_key(alloc: Global, k: &Key) -> Result<(), ReadFault>
    ensures { Gives result (is_right_key k.now) }
{
    match k {
        Key::Part(t) => without_aggregates(alloc, t),
        Key::Item { at, expr } => {
            if has_aggregate(expr) {
                Err(not_grouped(*at))
            } else {
                Ok(())
            }
        }
        Key::Missing { at } => Err(not_grouped(*at)),
    }
}

#[tactic(auto, using(crate::proofs::outputs::Steps::none_along, crate::proofs::outputs::Steps::one_more, crate::proofs::outputs::Steps::stops, crate::proofs::outputs::Steps::all_along))]
fn each_key(alloc: Global, keys: &[Key]) -> Result<(), ReadFault>
    ensures { Gives result (each is_right_key keys.now) }
{
    for k in keys {
        is_right_key(alloc, k)?;
    }
    Ok(())
}

fn some_has_aggregate(outputs: &[Output]) -> bool
    ensures { result ≡ list_any output_has_aggregate outputs.now }
{
    for o in outputs {
        if has_aggregate(o.typed.expr.get()) {
            return true;
        }
    }
    false
}

/// A SELECT is grouped by GROUP BY, by HAVING or by an aggregate in an item.
pub fn is_grouped(w: &Walked) -> bool
    ensures { result ≡ is_grouped w.now }
{
    !w.keys.as_slice().is_empty()
        || (w.having.is_some() || some_has_aggregate(w.outputs.as_slice()))
}

/// Each part of a SELECT keeps the rule; `keys` are the expressions of its keys.
pub(crate) fn keeps_groups(
    alloc: Global,
    grouped: bool,
    keys: &[Expr],
    w: &Walked,
) -> Result<(), ReadFault>
    ensures { Gives result (keeps_groups grouped keys.now w.now) }
{
    each_on(alloc, w.from.as_slice())?;
    some_without_aggregates(alloc, &w.filter)?;
    each_output(alloc, grouped, keys, w.outputs.as_slice())?;
    each_key(alloc, w.keys.as_slice())?;
    some_well_grouped(alloc, grouped, keys, &w.having)
}
