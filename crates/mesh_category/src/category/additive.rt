// Whether a definition adds columns to another.
ghost use Rattle.std.specs.Prelude.{◌≡◌, ◌↔◌, IsTrue};
ghost use Rattle.mesh_spec_changes.specs.reuse.Compatible.{AreAmong, IsAdditive};
ghost use Rattle.mesh_category.specs.category.Adding.{AddsColumns, AddsItems, AreAlikeButDefn, AreAlikeButItems};

use mesh_base::{Defn, Item, Own, Query, Select};
use mesh_list::Same;

/// Whether the old items stand among the new ones in their order. Each is looked for behind the one before it.
fn are_among(old: &[Item], new: &[Item]) -> bool
    ensures { IsTrue result ↔ AreAmong old.now new.now }
{
    let mut at = 0;
    for item in new {
        if at < old.len() && old[at].same(item) {
            at += 1;
        }
    }
    at == old.len()
}

fn are_alike_but_items(old: &Select, new: &Select) -> bool
    ensures { IsTrue result ↔ AreAlikeButItems old.now new.now }
{
    old.distinct == new.distinct
        && old.grouped == new.grouped
        && old.from.same(&new.from)
        && old.filter.same(&new.filter)
        && old.keys.same(&new.keys)
        && old.having.same(&new.having)
}

fn adds_items(old: &Select, new: &Select) -> bool
    ensures { IsTrue result ↔ AddsItems old.now new.now }
{
    !old.distinct
        && are_alike_but_items(old, new)
        && are_among(old.items.as_slice(), new.items.as_slice())
}

fn adds_columns(old: &Query, new: &Query) -> bool
    ensures { IsTrue result ↔ AddsColumns old.now new.now }
{
    match old.selects.as_slice() {
        [was] => match new.selects.as_slice() {
            [is] => old.ctes.same(&new.ctes) && adds_items(was, is),
            _ => false,
        },
        _ => false,
    }
}

fn are_alike_but_defn(old: &Own, new: &Own) -> bool
    ensures { IsTrue result ↔ AreAlikeButDefn old.now new.now }
{
    old.name.same(&new.name)
        && old.kind.same(&new.kind)
        && old.cron == new.cron
        && old.unit == new.unit
        && old.start == new.start
        && old.sources.same(&new.sources)
}

/// Whether the new definition is the old one with more columns. DISTINCT, UNION ALL and any other difference make it
/// another one.
pub fn is_additive(old: &Own, new: &Own) -> bool
    ensures { IsTrue result ↔ IsAdditive old.now new.now }
{
    match &old.defn {
        Defn::Seed { .. } => false,
        Defn::Sql(was) => match &new.defn {
            Defn::Seed { .. } => false,
            Defn::Sql(is) => adds_columns(was, is) && are_alike_but_defn(old, new),
        },
    }
}
