// Which columns of a model are fed by a source, from what is known of its parents.
ghost use Rattle.std.specs.Prelude.{◌≡◌, ◌++◌, ◌∷◌, [], ◌||◌, IfOk, OnOk, map, if◌then◌else◌};
ghost use Rattle.std.specs.List.{list_any};
ghost use Rattle.mesh_base_values.specs.declared.values.Column.{Column};
ghost use Rattle.mesh_base.specs.Outputs.{item_columns, select_columns};
ghost use Rattle.mesh_trace.specs.Impacts.{all_at, column_names, fed_columns, hit_has, is_fed, is_source, leads, leads_at, node_hit};

use crate::narrowed::needs;
use crate::walk::texts_of;
use mesh_base::{Defn, Item, Node, Own, Reading, Select};
use mesh_base_values::{Column, Str, Strs, same_text};
use mesh_list::{Duplicate, Memory, Seq, push_made};
use std::alloc::Global;
use std::collections::BTreeSet;

/// Whether all columns of a model are fed, whatever they are, and which are.
#[derive(Drop)]
pub struct Hit {
    pub all: bool,
    pub columns: Strs,
}

fn has(h: &Hit, column: &Str) -> bool
    ensures { result ≡ hit_has h.now column.now }
{
    let mut found = h.all;
    for c in h.columns.as_slice() {
        found = found || same_text(c.as_slice(), column.as_slice());
    }
    found
}

fn is_source(source: &Reading, r: &Reading) -> bool
    ensures { result ≡ is_source source.now r.now }
{
    r.relation.compare(&source.relation).is_eq()
        && same_text(r.column.as_slice(), source.column.as_slice())
}

fn leads_at(nodes: &[Node], hits: &[Hit], r: &Reading, place: u32) -> bool
    ensures { result ≡ leads_at nodes.now hits.now r.now place }
{
    match nodes.get(place as usize) {
        None => false,
        Some(n) => match hits.get(place as usize) {
            None => false,
            Some(h) => r.relation.compare(&n.own.name).is_eq() && has(h, &r.column),
        },
    }
}

fn leads(nodes: &[Node], hits: &[Hit], parents: &[u32], source: &Reading, r: &Reading) -> bool
    ensures { result ≡ leads nodes.now hits.now parents.now source.now r.now }
{
    let mut found = is_source(source, r);
    for place in parents {
        found = found || leads_at(nodes, hits, r, *place);
    }
    found
}

fn some_lead(
    nodes: &[Node],
    hits: &[Hit],
    parents: &[u32],
    source: &Reading,
    needed: &[Reading],
) -> bool
    ensures { result ≡ list_any (leads nodes.now hits.now parents.now source.now) needed.now }
{
    let mut found = false;
    for r in needed {
        found = found || leads(nodes, hits, parents, source, r);
    }
    found
}

fn all_at(hits: &[Hit], place: u32) -> bool
    ensures { result ≡ all_at hits.now place }
{
    match hits.get(place as usize) {
        None => false,
        Some(h) => h.all,
    }
}

fn some_all(hits: &[Hit], parents: &[u32]) -> bool
    ensures { result ≡ list_any (all_at hits.now) parents.now }
{
    let mut found = false;
    for place in parents {
        found = found || all_at(hits, *place);
    }
    found
}

fn is_fed(
    nodes: &[Node],
    hits: &[Hit],
    n: &Node,
    source: &Reading,
    wanted: &BTreeSet<Str>,
) -> Result<bool, Memory>
    ensures { IfOk result (λ fed. fed ≡ is_fed nodes.now hits.now n.now source.now wanted.now.keys) }
{
    let needed = needs(&n.own, wanted)?;
    let parents = n.parents.as_slice();
    Ok(some_all(hits, parents) || some_lead(nodes, hits, parents, source, needed.as_slice()))
}

fn is_one_fed(
    nodes: &[Node],
    hits: &[Hit],
    n: &Node,
    source: &Reading,
    column: &Str,
) -> Result<bool, Memory>
    ensures { IfOk result (λ fed. fed ≡ is_fed nodes.now hits.now n.now source.now (column.now ∷ [])) }
{
    let name = column.copy()?;
    let mut wanted = BTreeSet::new(n.parents.alloc());
    wanted.insert(name)?;
    is_fed(nodes, hits, n, source, &wanted)
}

fn are_all_fed(nodes: &[Node], hits: &[Hit], n: &Node, source: &Reading) -> Result<bool, Memory>
    ensures { IfOk result (λ fed. fed ≡ is_fed nodes.now hits.now n.now source.now []) }
{
    let wanted = BTreeSet::new(n.parents.alloc());
    is_fed(nodes, hits, n, source, &wanted)
}

fn names_of_columns(alloc: Global, columns: &[Column]) -> Result<Strs, Memory>
    ensures { IfOk result (λ made. made ≡ map (λ (c : Column). c.name) columns.now) }
{
    let mut made = Seq::new(alloc);
    for c in columns {
        push_made(&mut made, c.name.copy())?;
    }
    Ok(made)
}

fn names_of_items(alloc: Global, items: &[Item]) -> Result<Strs, Memory>
    ensures { IfOk result (λ made. made ≡ map (λ (c : Column). c.name) (item_columns items.now)) }
{
    let mut made = Seq::new(alloc);
    for i in items {
        push_made(&mut made, i.name.copy())?;
    }
    Ok(made)
}

fn names_of_selects(alloc: Global, selects: &[Select]) -> Result<Strs, Memory>
    ensures { IfOk result (λ made. made ≡ map (λ (c : Column). c.name) (select_columns selects.now)) }
{
    match selects {
        [] => Ok(Seq::new(alloc)),
        [s, ..] => names_of_items(alloc, s.items.as_slice()),
    }
}

fn column_names(alloc: Global, own: &Own) -> Result<Strs, Memory>
    ensures { IfOk result (λ made. made ≡ column_names own.now) }
{
    match &own.defn {
        Defn::Seed { columns, .. } => names_of_columns(alloc, columns.as_slice()),
        Defn::Sql(q) => names_of_selects(alloc, q.selects.as_slice()),
    }
}

fn add_fed(
    made: &mut Strs,
    all: bool,
    column: Str,
    nodes: &[Node],
    hits: &[Hit],
    n: &Node,
    source: &Reading,
) -> Result<(), Memory>
    ensures { OnOk result (made.new ≡ made.old ++ (if all || is_fed nodes.now hits.now n.now source.now (column ∷ []) then column ∷ [] else [])) }
{
    if all || is_one_fed(nodes, hits, n, source, &column)? {
        return made.push(column);
    }
    Ok(())
}

fn fed_columns(
    nodes: &[Node],
    hits: &[Hit],
    n: &Node,
    source: &Reading,
    all: bool,
) -> Result<Strs, Memory>
    ensures { IfOk result (λ made. made ≡ fed_columns nodes.now hits.now n.now source.now all) }
{
    let names = column_names(n.parents.alloc(), &n.own)?;
    let mut made = Seq::new(n.parents.alloc());
    for column in names.into_vec() {
        add_fed(&mut made, all, column, nodes, hits, n, source)?;
    }
    Ok(made)
}

fn is_some_fed(nodes: &[Node], hits: &[Hit], n: &Node, source: &Reading) -> Result<bool, Memory>
    ensures { IfOk result (λ fed. fed ≡ is_fed nodes.now hits.now n.now source.now (column_names n.now.own)) }
{
    let alloc = n.parents.alloc();
    let names = column_names(alloc, &n.own)?;
    let wanted = texts_of(alloc, names)?;
    let fed = is_fed(nodes, hits, n, source, &wanted)?;
    Ok(fed)
}

/// What is known of one more model. Of most it is that no column is fed.
pub(crate) fn node_hit(
    nodes: &[Node],
    hits: &[Hit],
    n: &Node,
    source: &Reading,
) -> Result<Hit, Memory>
    ensures { IfOk result (λ hit. hit ≡ node_hit nodes.now hits.now n.now source.now) }
{
    if !is_some_fed(nodes, hits, n, source)? {
        return Ok(Hit {
            all: false,
            columns: Seq::new(n.parents.alloc()),
        });
    }
    let all = are_all_fed(nodes, hits, n, source)?;
    let columns = fed_columns(nodes, hits, n, source, all)?;
    Ok(Hit { all, columns })
}
