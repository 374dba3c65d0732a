// What a model names for some of its columns.
ghost use Rattle.std.specs.Prelude.{◌≡◌, IfOk};
ghost use Rattle.std.specs.List.{filter, list_any};
ghost use Rattle.mesh_base_values.specs.Kinds.{time_column};
ghost use Rattle.mesh_base_values.specs.Picked.{same_text};
ghost use Rattle.mesh_spec_changes.specs.reuse.Cores.{is_time, is_wanted, pruned_defn, pruned_select, pruned_selects};
ghost use Rattle.mesh_trace.specs.Feeds.{has_cte, needs};

use mesh_base::{Defn, Item, Items, Own, Query, Reads, Select, Selects};
use mesh_base_values::{Kind, Name, Str, same_text};
use mesh_lineage::reads;
use mesh_list::{Duplicate, Memory, Seq, both, push_made, together};
use std::alloc::Global;
use std::collections::BTreeSet;

fn has_cte(d: &Defn) -> bool
    ensures { result ≡ has_cte d.now }
{
    match d {
        Defn::Seed { .. } => false,
        Defn::Sql(q) => match q.ctes.as_slice() {
            [] => false,
            [_, ..] => true,
        },
    }
}

fn is_time(kind: &Kind, name: &Str) -> bool
    ensures { result ≡ is_time (time_column kind.now) name.now }
{
    match kind {
        Kind::Incremental { time, .. } => same_text(time.as_slice(), name.as_slice()),
        Kind::Full | Kind::View | Kind::Seed => false,
    }
}

fn is_among(wanted: &BTreeSet<Str>, name: &Str) -> bool
    ensures { result ≡ list_any (λ n. same_text n name.now) wanted.now.keys }
{
    wanted.contains(name)
}

fn is_wanted(wanted: &BTreeSet<Str>, kind: &Kind, i: &Item) -> bool
    ensures { result ≡ is_wanted wanted.now.keys (time_column kind.now) i.now }
{
    is_among(wanted, &i.name) || is_time(kind, &i.name)
}

fn pruned_items(
    alloc: Global,
    items: &[Item],
    wanted: &BTreeSet<Str>,
    kind: &Kind,
) -> Result<Items, Memory>
    ensures { IfOk result (λ made. made ≡ filter (is_wanted wanted.now.keys (time_column kind.now)) items.now) }
{
    let mut made = Seq::new(alloc);
    for i in items {
        if is_wanted(wanted, kind, i) {
            push_made(&mut made, i.copy())?;
        }
    }
    Ok(made)
}

fn pruned_select(s: &Select, wanted: &BTreeSet<Str>, kind: &Kind) -> Result<Select, Memory>
    ensures { IfOk result (λ made. made ≡ pruned_select wanted.now.keys (time_column kind.now) s.now) }
{
    if s.distinct {
        return s.copy();
    }
    let items = pruned_items(s.items.alloc(), s.items.as_slice(), wanted, kind);
    let ((items, from), ((filter, keys), having)) = together(
        together(items, s.from.copy()),
        together(both(&s.filter, &s.keys), s.having.copy()),
    )?;
    Ok(Select {
        distinct: false,
        grouped: s.grouped,
        items,
        from,
        filter,
        keys,
        having,
    })
}

fn pruned_selects(selects: &Selects, wanted: &BTreeSet<Str>, kind: &Kind) -> Result<Selects, Memory>
    ensures { IfOk result (λ made. made ≡ pruned_selects wanted.now.keys (time_column kind.now) selects.now) }
{
    match selects.as_slice() {
        [s] => {
            let mut made = Seq::new(selects.alloc());
            push_made(&mut made, pruned_select(s, wanted, kind))?;
            Ok(made)
        }
        [] | [_, _, ..] => selects.copy(),
    }
}

fn pruned_defn(d: &Defn, wanted: &BTreeSet<Str>, kind: &Kind) -> Result<Defn, Memory>
    ensures { IfOk result (λ made. made ≡ pruned_defn wanted.now.keys (time_column kind.now) d.now) }
{
    match d {
        Defn::Seed { .. } => d.copy(),
        Defn::Sql(q) => {
            let (ctes, selects) = together(
                q.ctes.copy(),
                pruned_selects(&q.selects, wanted, kind),
            )?;
            Ok(Defn::Sql(Query { ctes, selects }))
        }
    }
}

// A model of that definition, and of nothing else that counts here.
fn bare(own: &Own, defn: Defn) -> Own
    ensures { result.defn ≡ defn }
{
    let alloc = own.sources.alloc();
    Own {
        name: Name {
            schema: Seq::new(alloc),
            model: Seq::new(alloc),
        },
        kind: Kind::Full,
        cron: own.cron,
        unit: own.unit,
        start: None,
        sources: Seq::new(alloc),
        defn,
    }
}

/// The columns that a model names for these columns of its own.
pub(crate) fn needs(own: &Own, wanted: &BTreeSet<Str>) -> Result<Reads, Memory>
    ensures { IfOk result (λ made. made ≡ needs own.now wanted.now.keys) }
{
    if has_cte(&own.defn) {
        return reads(own);
    }
    let defn = pruned_defn(&own.defn, wanted, &own.kind)?;
    let less = bare(own, defn);
    reads(&less)
}
