// The columns that a definition reads.
ghost use Rattle.std.specs.Prelude.{◌≡◌, ◌<◌, ◌++◌, IfOk, OnOk, IsTrue, map, flat_map, length};
ghost use Rattle.std.specs.Option.{option_to_list};
ghost use Rattle.mesh_base.specs.declared.queries.Item.{Item};
ghost use Rattle.mesh_spec_query.specs.Named.{columns};
ghost use Rattle.mesh_law_query.specs.Reads.{expressions, on_of, query_readings, reading_at, readings, rel_reading, select_readings, selects_readings};
ghost use Rattle.mesh_lineage.specs.Alike.{IsAlike};
ghost use Rattle.mesh_lineage.specs.Named.{IsAgain, place_of, places_of};

use crate::columns::{add_all_columns, add_columns};
use crate::named::Named;
use crate::once::in_order;
use mesh_base::{
    Defn, Expr, FromItem, Froms, Item, Own, Query, Reading, Reads, Rel, Select, Selects,
};
use mesh_base_values::{Str, same_text};
use mesh_list::{Memory, Seq, both};
use std::alloc::Global;

fn add_items_columns<'a>(items: &'a [Item], places: &mut Named<'a>) -> Result<(), Memory>
    ensures { OnOk result (places.new ≡ places.old ++ flat_map columns (map (λ (i : Item). i.expr) items.now)) }
{
    for i in items {
        add_columns(&i.expr, places)?;
    }
    Ok(())
}

fn add_columns_in<'a>(condition: &'a Option<Expr>, places: &mut Named<'a>) -> Result<(), Memory>
    ensures { OnOk result (places.new ≡ places.old ++ flat_map columns (option_to_list condition.now)) }
{
    match condition {
        None => Ok(()),
        Some(e) => add_columns(e, places),
    }
}

fn add_on_columns<'a>(from: &'a [FromItem], places: &mut Named<'a>) -> Result<(), Memory>
    ensures { OnOk result (places.new ≡ places.old ++ flat_map columns (on_of from.now)) }
{
    for f in from {
        add_columns_in(&f.on, places)?;
    }
    Ok(())
}

// The columns that a SELECT names, in its order, put behind others.
fn add_select_columns<'a>(s: &'a Select, places: &mut Named<'a>) -> Result<(), Memory>
    ensures { OnOk result (places.new ≡ places.old ++ flat_map columns (expressions s.now)) }
{
    add_items_columns(s.items.as_slice(), places)?;
    add_on_columns(s.from.as_slice(), places)?;
    add_columns_in(&s.filter, places)?;
    add_all_columns(s.keys.as_slice(), places)?;
    add_columns_in(&s.having, places)?;
    Ok(())
}

fn add_rel_reading(rel: &Rel, column: &Str, made: &mut Reads) -> Result<(), Memory>
    ensures { OnOk result (made.new ≡ made.old ++ rel_reading column.now rel.now) }
{
    match rel {
        Rel::Cte(_) => Ok(()),
        Rel::Named(name) => {
            let (relation, column) = both(name, column)?;
            made.push(Reading { relation, column })
        }
    }
}

fn add_reading(from: &Froms, item: u32, column: &Str, made: &mut Reads) -> Result<(), Memory>
    ensures { OnOk result (made.new ≡ made.old ++ reading_at from.now (item, column.now)) }
{
    match from.get(item as usize) {
        Some(f) => add_rel_reading(&f.rel, column, made),
        None => Ok(()),
    }
}

fn same_place(a: &(u32, &Str), b: &(u32, &Str)) -> bool
    ensures { IsTrue result → place_of a.now ≡ place_of b.now }
{
    a.0 == b.0 && same_text(a.1.as_slice(), b.1.as_slice())
}

// Whether the place before it is the same.
fn is_again(places: &[(u32, &Str)], i: usize) -> bool
    requires { i < length places.now }
    ensures { IsTrue result → IsAgain places.now i }
{
    if i == 0 {
        return false;
    }
    same_place(&places[i - 1], &places[i])
}

// They are sorted, so that those that stand twice stand side by side.
fn add_readings(from: &Froms, places: &[(u32, &Str)], made: &mut Reads) -> Result<(), Memory>
    ensures { OnOk result (IsAlike made.new (made.old ++ flat_map (reading_at from.now) (places_of places.now))) }
{
    for (i, p) in places.iter().enumerate() {
        if !is_again(places, i) {
            add_reading(from, p.0, p.1, made)?;
        }
    }
    Ok(())
}

// Each once, so that no name is copied oftener.
fn add_select_reads(s: &Select, made: &mut Reads) -> Result<(), Memory>
    ensures { OnOk result (IsAlike made.new (made.old ++ select_readings s.now)) }
{
    let mut places = Named::new(made.alloc());
    add_select_columns(s, &mut places)?;
    places.sort();
    add_readings(&s.from, places.as_slice(), made)
}

fn add_selects_reads(selects: &[Select], made: &mut Reads) -> Result<(), Memory>
    ensures { OnOk result (IsAlike made.new (made.old ++ selects_readings selects.now)) }
{
    for s in selects {
        add_select_reads(s, made)?;
    }
    Ok(())
}

fn add_ctes_reads(ctes: &[Selects], made: &mut Reads) -> Result<(), Memory>
    ensures { OnOk result (IsAlike made.new (made.old ++ flat_map selects_readings ctes.now)) }
{
    for c in ctes {
        add_selects_reads(c.as_slice(), made)?;
    }
    Ok(())
}

// What a query reads, as often as it names it in different SELECTs or FROM items.
fn query_reads(alloc: Global, q: &Query) -> Result<Reads, Memory>
    ensures { IfOk result (λ made. IsAlike made (query_readings q.now)) }
{
    let mut made = Seq::new(alloc);
    add_ctes_reads(q.ctes.as_slice(), &mut made)?;
    add_selects_reads(q.selects.as_slice(), &mut made)?;
    Ok(made)
}

/// The columns of models and sources that a definition names, by relation and then by column, each once. A seed names
/// none.
#[tactic(auto, using(crate::proofs::Orders::one_order))]
pub fn reads(m: &Own) -> Result<Reads, Memory>
    ensures { IfOk result (λ made. made ≡ readings m.now) }
{
    let alloc = m.sources.alloc();
    match &m.defn {
        Defn::Seed { .. } => Ok(Seq::new(alloc)),
        Defn::Sql(q) => {
            let all = query_reads(alloc, q)?;
            in_order(alloc, all)
        }
    }
}
