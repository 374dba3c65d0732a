// One SELECT.
ghost use Rattle.std.specs.Prelude.{◌≡◌, map, IfOk};
ghost use Rattle.std.specs.Option.{option_map};
ghost use Rattle.mesh_query_tokens.specs.Gives.{Gives};
ghost use Rattle.mesh_resolve_types.specs.Forms.{expr_of};
ghost use Rattle.mesh_resolve.specs.Selects.{from_item, resolved_as, right_keys, select, some_condition, walked};

use crate::catalog::Catalog;
use crate::drawn::Drawing;
use crate::relations::{condition, drawn_from};
use mesh_base::{Expr, FromItem, Select};
use mesh_list::{Memory, Seq, together};
use mesh_query_grammar::surface::{OrExpr, SurfaceSelect};
use mesh_query_tokens::ReadFault;
use mesh_resolve_scope::sight::Sight;
use mesh_resolve_selects::outputs::{Commons, group_keys, items, key_exprs, resolved_items};
use mesh_resolve_selects::selects::{Drawn, Walked, is_grouped, stands};
use mesh_resolve_types::Typed;
use std::alloc::Global;

fn some_condition(
    alloc: Global,
    sight: &Sight,
    e: &Option<OrExpr>,
) -> Result<Option<Typed>, ReadFault>
    ensures { Gives result (some_condition sight.now e.now) }
{
    match e {
        None => Ok(None),
        Some(e) => {
            let t = condition(alloc, sight, e)?;
            Ok(Some(t))
        }
    }
}

#[tactic(auto, unfolding(crate::specs::Selects::walked))]
fn parts_of(
    alloc: Global,
    known: &Catalog,
    ctes: &Commons,
    s: &SurfaceSelect,
) -> Result<Walked, ReadFault>
    ensures { Gives result (walked known.now ctes.now s.now) }
{
    let Drawing { sight, drawn } = drawn_from(alloc, known, ctes, &s.from)?;
    let filter = some_condition(alloc, &sight, &s.filter)?;
    let outputs = items(alloc, &sight, s.items.as_slice())?;
    let keys = group_keys(alloc, &sight, outputs.as_slice(), s.keys.as_slice())?;
    let having = some_condition(alloc, &sight, &s.having)?;
    Ok(Walked {
        from: drawn,
        filter,
        outputs,
        keys,
        having,
    })
}

fn expr_of(t: Option<Typed>) -> Option<Expr>
    ensures { result ≡ option_map expr_of t }
{
    match t {
        None => None,
        Some(t) => {
            let Typed { expr, .. } = t;
            Some(expr.into_inner())
        }
    }
}

fn from_item(d: Drawn) -> FromItem
    ensures { result ≡ from_item d }
{
    let Drawn { join, rel, on, .. } = d;
    FromItem {
        join,
        rel,
        on: expr_of(on),
    }
}

fn from_items(alloc: Global, from: Seq<Drawn>) -> Result<Seq<FromItem>, Memory>
    ensures { IfOk result (λ made. made ≡ map from_item from) }
{
    let mut made = Seq::new(alloc);
    for d in from.into_vec() {
        made.push(from_item(d))?;
    }
    Ok(made)
}

fn resolved_as(
    alloc: Global,
    distinct: bool,
    grouped: bool,
    keys: Seq<Expr>,
    w: Walked,
) -> Result<Select, Memory>
    ensures { IfOk result (λ made. made ≡ resolved_as distinct grouped keys w) }
{
    let Walked {
        from,
        filter,
        outputs,
        keys: before,
        having,
    } = w;
    drop(before);
    match together(resolved_items(alloc, outputs), from_items(alloc, from)) {
        Ok((items, from)) => Ok(Select {
            distinct,
            grouped,
            items,
            from,
            filter: expr_of(filter),
            keys,
            having: expr_of(having),
        }),
        Err(Memory) => {
            drop(filter);
            drop(having);
            Err(Memory)
        }
    }
}

fn right_keys(alloc: Global, w: &Walked) -> Result<Seq<Expr>, ReadFault>
    ensures { Gives result (right_keys w.now) }
{
    let keys = key_exprs(alloc, w.keys.as_slice())?;
    stands(alloc, is_grouped(w), keys.as_slice(), w)?;
    Ok(keys)
}

/// One SELECT, with its columns and types.
#[tactic(auto, unfolding(crate::specs::Selects::select))]
pub(crate) fn select(
    alloc: Global,
    known: &Catalog,
    ctes: &Commons,
    s: &SurfaceSelect,
) -> Result<Select, ReadFault>
    ensures { Gives result (select known.now ctes.now s.now) }
{
    let w = parts_of(alloc, known, ctes, s)?;
    match right_keys(alloc, &w) {
        Ok(keys) => {
            let grouped = is_grouped(&w);
            Ok(resolved_as(alloc, s.distinct, grouped, keys, w)?)
        }
        Err(fault) => {
            drop(w);
            Err(fault)
        }
    }
}
