// Whether what a snapshot's definition names is there: each relation is a source that it declares or a parent, each CTE
// stands earlier, and each column is one of its FROM item's.
ghost use Rattle.std.specs.Prelude.{◌≡◌, [], map};
ghost use Rattle.std.specs.List.{list_all};
ghost use Rattle.std.specs.Option.{is_some, option_copied};
ghost use Rattle.mesh_list.specs.Keyed.{found};
ghost use Rattle.mesh_base_values.specs.Names.{name_cmp};
ghost use Rattle.mesh_base.specs.rules.Seen.{are_ctes_seen, are_selects_seen, are_there, column_at, conditions_see, has_column, has_in, is_query_seen, is_select_seen, items_see, keys_see, rel_columns, sees, sees_some, sees_when, select_sees};
ghost use Rattle.mesh_base.specs.rules.Relations.{relation_columns, source_relation};
ghost use Rattle.mesh_base.specs.rules.Proper.{is_body_seen};
ghost use Rattle.mesh_base.specs.Keys.{ref_name};
ghost use Rattle.mesh_house_book.specs.WellFormed.{columns_at, relations_of, snapshot_at, tables_in};

use crate::outputs::{own_has, selects_have};
use mesh_base::rules::has_column;
use mesh_base::{
    Decl, Defn, Expr, FromItem, Item, Query, Ref, Rel, Select, Selects, Snapshot, Snapshots, When,
};
use mesh_base_values::{Columns, Name, Str};

fn snapshot_has(all: &Snapshots, r: &Ref, column: &Str) -> bool
    ensures { result ≡ has_column (columns_at (snapshot_at all.now r.now)) column.now }
{
    match all.find(r) {
        Some(snapshot) => own_has(&snapshot.own, column),
        None => false,
    }
}

fn source_columns<'a>(sources: &'a [Decl], name: &Name) -> Option<&'a Columns>
    ensures { option_copied result ≡ relation_columns (map source_relation sources.now) name.now }
{
    for source in sources {
        if source.name.compare(name).is_eq() {
            return Some(&source.columns);
        }
    }
    None
}

fn parent_at<'a>(parents: &'a [Ref], name: &Name) -> Option<&'a Ref>
    ensures { option_copied result ≡ found name_cmp ref_name name.now parents.now }
{
    for parent in parents {
        if parent.name.compare(name).is_eq() {
            return Some(parent);
        }
    }
    None
}

fn relation_has(all: &Snapshots, s: &Snapshot, relation: &Name, column: &Str) -> bool
    ensures { result ≡ has_in (relation_columns (relations_of all.now s.now) relation.now) column.now }
{
    match source_columns(s.own.sources.as_slice(), relation) {
        Some(columns) => has_column(columns.as_slice(), column),
        None => match parent_at(s.parents.as_slice(), relation) {
            Some(r) => snapshot_has(all, r, column),
            None => false,
        },
    }
}

fn relation_is_there(all: &Snapshots, s: &Snapshot, relation: &Name) -> bool
    ensures { result ≡ is_some (relation_columns (relations_of all.now s.now) relation.now) }
{
    match source_columns(s.own.sources.as_slice(), relation) {
        Some(_) => true,
        None => match parent_at(s.parents.as_slice(), relation) {
            Some(_) => true,
            None => false,
        },
    }
}

fn rel_has(all: &Snapshots, s: &Snapshot, ctes: &[Selects], rel: &Rel, column: &Str) -> bool
    ensures { result ≡ has_in (rel_columns (relations_of all.now s.now) ctes.now rel.now) column.now }
{
    match rel {
        Rel::Named(name) => relation_has(all, s, name, column),
        Rel::Cte(at) => match ctes.get(*at as usize) {
            Some(selects) => selects_have(selects.as_slice(), column),
            None => false,
        },
    }
}

fn rel_is_there(all: &Snapshots, s: &Snapshot, ctes: &[Selects], rel: &Rel) -> bool
    ensures { result ≡ is_some (rel_columns (relations_of all.now s.now) ctes.now rel.now) }
{
    match rel {
        Rel::Named(name) => relation_is_there(all, s, name),
        Rel::Cte(at) => ctes.get(*at as usize).is_some(),
    }
}

#[tactic(auto, unfolding(crate::specs::WellFormed::tables_in))]
fn column_at(
    all: &Snapshots,
    s: &Snapshot,
    ctes: &[Selects],
    from: &[FromItem],
    item: u32,
    name: &Str,
) -> bool
    ensures { result ≡ column_at (tables_in all.now s.now ctes.now from.now) item name.now }
{
    match from.get(item as usize) {
        Some(f) => rel_has(all, s, ctes, &f.rel, name),
        None => false,
    }
}

#[cycle(sees)]
fn sees(e: &Expr, all: &Snapshots, s: &Snapshot, ctes: &[Selects], from: &[FromItem]) -> bool
    ensures { result ≡ sees (tables_in all.now s.now ctes.now from.now) e.now }
{
    match e {
        Expr::Literal(_) | Expr::Macro(_) | Expr::CountAll => true,
        Expr::Col { item, name } => column_at(all, s, ctes, from, *item, name),
        Expr::Neg(value)
        | Expr::Not(value)
        | Expr::IsNull(value)
        | Expr::Cast { value, .. }
        | Expr::Agg { value, .. } => sees(value.get(), all, s, ctes, from),
        Expr::Binary { left, right, .. } => sees(left.get(), all, s, ctes, from)
            && sees(right.get(), all, s, ctes, from),
        Expr::Between { value, low, high } => sees(value.get(), all, s, ctes, from)
            && sees(low.get(), all, s, ctes, from)
            && sees(high.get(), all, s, ctes, from),
        Expr::OneOf { value, of } => sees(value.get(), all, s, ctes, from)
            && sees_all(of.as_slice(), all, s, ctes, from),
        Expr::Call { args, .. } => sees_all(args.as_slice(), all, s, ctes, from),
        Expr::Case { whens, otherwise } => sees_whens(whens.as_slice(), all, s, ctes, from)
            && sees(otherwise.get(), all, s, ctes, from),
    }
}

#[cycle(sees)]
fn sees_all(
    each: &[Expr],
    all: &Snapshots,
    s: &Snapshot,
    ctes: &[Selects],
    from: &[FromItem],
) -> bool
    ensures { result ≡ list_all (λ b. b) (map (sees (tables_in all.now s.now ctes.now from.now)) each.now) }
{
    let mut seen = true;
    for e in each {
        seen = seen && sees(e, all, s, ctes, from);
    }
    seen
}

#[cycle(sees)]
fn sees_whens(
    each: &[When],
    all: &Snapshots,
    s: &Snapshot,
    ctes: &[Selects],
    from: &[FromItem],
) -> bool
    ensures { result ≡ list_all (λ b. b) (map (sees_when (tables_in all.now s.now ctes.now from.now)) each.now) }
{
    let mut seen = true;
    for w in each {
        seen = seen && sees(&w.test, all, s, ctes, from) && sees(&w.value, all, s, ctes, from);
    }
    seen
}

fn sees_some(
    e: &Option<Expr>,
    all: &Snapshots,
    s: &Snapshot,
    ctes: &[Selects],
    from: &[FromItem],
) -> bool
    ensures { result ≡ sees_some (tables_in all.now s.now ctes.now from.now) e.now }
{
    match e {
        Some(e) => sees(e, all, s, ctes, from),
        None => true,
    }
}

fn sees_items(
    items: &[Item],
    all: &Snapshots,
    s: &Snapshot,
    ctes: &[Selects],
    from: &[FromItem],
) -> bool
    ensures { result ≡ items_see (tables_in all.now s.now ctes.now from.now) items.now }
{
    let mut each = true;
    for item in items {
        each = each && sees(&item.expr, all, s, ctes, from);
    }
    each
}

fn sees_conditions(
    of: &[FromItem],
    all: &Snapshots,
    s: &Snapshot,
    ctes: &[Selects],
    from: &[FromItem],
) -> bool
    ensures { result ≡ conditions_see (tables_in all.now s.now ctes.now from.now) of.now }
{
    let mut each = true;
    for f in of {
        each = each && sees_some(&f.on, all, s, ctes, from);
    }
    each
}

fn sees_keys(
    keys: &[Expr],
    all: &Snapshots,
    s: &Snapshot,
    ctes: &[Selects],
    from: &[FromItem],
) -> bool
    ensures { result ≡ keys_see (tables_in all.now s.now ctes.now from.now) keys.now }
{
    let mut each = true;
    for key in keys {
        each = each && sees(key, all, s, ctes, from);
    }
    each
}

#[tactic(auto, unfolding(mesh_base::specs::rules::Seen::select_sees))]
fn select_sees(all: &Snapshots, s: &Snapshot, ctes: &[Selects], select: &Select) -> bool
    ensures { result ≡ select_sees (tables_in all.now s.now ctes.now select.now.from) select.now }
{
    let from = select.from.as_slice();
    sees_items(select.items.as_slice(), all, s, ctes, from)
        && sees_conditions(from, all, s, ctes, from)
        && sees_some(&select.filter, all, s, ctes, from)
        && sees_keys(select.keys.as_slice(), all, s, ctes, from)
        && sees_some(&select.having, all, s, ctes, from)
}

fn are_there(all: &Snapshots, s: &Snapshot, ctes: &[Selects], from: &[FromItem]) -> bool
    ensures { result ≡ are_there (relations_of all.now s.now) ctes.now from.now }
{
    let mut each = true;
    for f in from {
        each = each && rel_is_there(all, s, ctes, &f.rel);
    }
    each
}

#[tactic(auto, unfolding(mesh_base::specs::rules::Seen::is_select_seen, crate::specs::WellFormed::tables_in))]
fn is_select_seen(all: &Snapshots, s: &Snapshot, ctes: &[Selects], select: &Select) -> bool
    ensures { result ≡ is_select_seen (relations_of all.now s.now) ctes.now select.now }
{
    are_there(all, s, ctes, select.from.as_slice()) && select_sees(all, s, ctes, select)
}

fn are_selects_seen(all: &Snapshots, s: &Snapshot, ctes: &[Selects], selects: &[Select]) -> bool
    ensures { result ≡ are_selects_seen (relations_of all.now s.now) ctes.now selects.now }
{
    let mut each = true;
    for select in selects {
        each = each && is_select_seen(all, s, ctes, select);
    }
    each
}

fn are_ctes_seen(all: &Snapshots, s: &Snapshot, ctes: &[Selects]) -> bool
    ensures { result ≡ are_ctes_seen (relations_of all.now s.now) [] ctes.now }
{
    for (i, selects) in ctes.iter().enumerate() {
        if !are_selects_seen(all, s, &ctes[..i], selects.as_slice()) {
            return false;
        }
    }
    true
}

fn is_query_seen(all: &Snapshots, s: &Snapshot, query: &Query) -> bool
    ensures { result ≡ is_query_seen (relations_of all.now s.now) query.now }
{
    let ctes = query.ctes.as_slice();
    are_ctes_seen(all, s, ctes) && are_selects_seen(all, s, ctes, query.selects.as_slice())
}

/// Whether what the snapshot's definition names is there. A seed names nothing.
pub fn is_body_seen(all: &Snapshots, s: &Snapshot) -> bool
    ensures { result ≡ is_body_seen (relations_of all.now s.now) s.now.own.defn }
{
    match &s.own.defn {
        Defn::Seed { .. } => true,
        Defn::Sql(query) => is_query_seen(all, s, query),
    }
}
