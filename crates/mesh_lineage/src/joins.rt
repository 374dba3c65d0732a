// Models whose adjoining units can be computed as one.
ghost use Rattle.std.specs.Prelude.{◌≡◌, IfOk};
ghost use Rattle.std.specs.Option.{option_copied};
ghost use Rattle.mesh_base.specs.declared.expressions.Expr.{out-Expr};
ghost use Rattle.mesh_lineage.specs.Joinable.{binds, binds_in, binds_parts, is_bound_here, is_item_bound, is_joinable, is_joinable_as, is_joinable_query, is_joinable_select, item_named};

use crate::ends::{are_ends, is_and, is_column};
use crate::macros::{has_macro, has_macro_elsewhere};
use mesh_base::{Defn, Expr, Item, Own, Query, Select};
use mesh_base_values::{Kind, Str, same_text};
use mesh_list::Memory;

// Just one conjunct at the top of a condition has macros, and it binds this column to the unit.
#[tactic(auto, using(crate::proofs::Bindings::binds_out))]
#[cycle(binds)]
fn binds(e: &Expr, item: usize, name: &Str) -> bool
    ensures { result ≡ binds item name.now e.now }
{
    binds_parts(e, item, name)
}

#[cycle(binds)]
fn binds_parts(e: &Expr, item: usize, name: &Str) -> bool
    ensures { result ≡ binds_parts item name.now (out-Expr e.now) }
{
    match e {
        Expr::Binary { op, left, right } => {
            if !is_and(*op) {
                false
            } else if has_macro(right.get()) {
                binds(right.get(), item, name) && !has_macro(left.get())
            } else {
                binds(left.get(), item, name)
            }
        }
        Expr::Between { value, low, high } => {
            is_column(value.get(), item, name) && are_ends(low.get(), high.get())
        }
        _ => false,
    }
}

fn binds_in(filter: &Option<Expr>, item: usize, name: &Str) -> bool
    ensures { result ≡ binds_in item name.now filter.now }
{
    match filter {
        None => false,
        Some(e) => binds(e, item, name),
    }
}

fn item_named<'a>(items: &'a [Item], name: &Str) -> Option<&'a Item>
    ensures { option_copied result ≡ item_named items.now name.now }
{
    for i in items {
        if same_text(i.name.as_slice(), name.as_slice()) {
            return Some(i);
        }
    }
    None
}

fn is_bound(filter: &Option<Expr>, e: &Expr) -> bool
    ensures { result ≡ is_bound_here filter.now (out-Expr e.now) }
{
    match e {
        Expr::Col { item, name } => binds_in(filter, *item as usize, name),
        _ => false,
    }
}

fn is_time_bound(s: &Select, time: &Str) -> bool
    ensures { result ≡ is_item_bound s.now.filter (item_named s.now.items time.now) }
{
    match item_named(s.items.as_slice(), time) {
        None => false,
        Some(i) => is_bound(&s.filter, &i.expr),
    }
}

fn is_joinable_select(s: &Select, time: &Str) -> bool
    ensures { result ≡ is_joinable_select time.now s.now }
{
    !s.distinct && !s.grouped && !has_macro_elsewhere(s) && is_time_bound(s, time)
}

fn is_joinable_query(q: &Query, time: &Str) -> bool
    ensures { result ≡ is_joinable_query time.now q.now.ctes q.now.selects }
{
    match q.ctes.as_slice() {
        [] => match q.selects.as_slice() {
            [s] => is_joinable_select(s, time),
            [] | [_, _, ..] => false,
        },
        [_, ..] => false,
    }
}

/// Whether the rows of an incremental model for each of some adjoining units are those of its query for all of them
/// that lie in the unit: its macros only bind the column that its time column is.
pub fn joinable(m: &Own) -> Result<bool, Memory>
    ensures { IfOk result (λ made. made ≡ is_joinable m.now) }
{
    Ok(is_joinable(&m.kind, &m.defn))
}

fn is_joinable(kind: &Kind, defn: &Defn) -> bool
    ensures { result ≡ is_joinable_as defn.now kind.now }
{
    match kind {
        Kind::Incremental { time, .. } => match defn {
            Defn::Sql(q) => is_joinable_query(q, time),
            Defn::Seed { .. } => false,
        },
        Kind::Full | Kind::View | Kind::Seed => false,
    }
}
