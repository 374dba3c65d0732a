// The tables of models that may be computed before any of them is made.
ghost use Rattle.std.specs.Prelude.{◌≡◌, ◌-◌, ◌<◌, ◌≤◌, ◌++◌, ◌∷◌, [], IfOk, OnOk, IsTrue, length, map, None, true};
ghost use Rattle.std.specs.Option.{option_copied};
ghost use Rattle.mesh_house.specs.House.{Reads};
ghost use Rattle.mesh_house.specs.Sources.{are_plain};
ghost use Rattle.mesh_house.specs.World.{body_of, object_at, rows_of};
ghost use Rattle.mesh_spec_changes.specs.shown.Shown.{each_there};
ghost use Rattle.mesh_layer.specs.Shows.{Finds};
ghost use Rattle.mesh_exec_works.specs.Fronts.{AreAlike, FindsSame, GoesOn, are_read_later, are_there, each_pool, has_object, is_read_later, is_view, parents_now, pool_now, pools_from, table_now, tables_now, work_now};
ghost use Rattle.mesh_exec_works.specs.Lost.{reads};
ghost use Rattle.mesh_exec_works.specs.Plain.{model_of, plain_models, work_model};
ghost use Rattle.mesh_exec_works.specs.Works.{part_of};

use crate::tables::table_of;
use crate::works::{Work, parents_of};
use mesh_base::{Entry, Indexes, Input, Inputs, Node, Pools};
use mesh_base_values::{Kind, Name, Rows, has_two_underscores};
use mesh_house::{Body, Warehouse, WhFail};
use mesh_layer::{ShowFault, source_tables};
use mesh_list::{Memory, Same, Seq};
use std::alloc::Global;

/// Some pools, and for each of some models the number of its own.
pub struct Pooled {
    pub pools: Pools,
    pub numbers: Indexes,
}

impl Drop for Pooled {
    fn drop(self) {
        let Pooled {
            pools: _,
            numbers: _,
        } = self;
    }
}

fn rows_of(body: Option<Body>) -> Option<Rows>
    ensures { result ≡ rows_of body }
{
    match body {
        Some(body) => body.into_rows(),
        None => None,
    }
}

/// The rows of the table of that name.
fn rows_now<W: Warehouse>(alloc: Global, house: &mut W, name: &Name) -> Result<Option<Rows>, WhFail>
    ensures { Reads (λ w. rows_of (body_of (object_at w name.now))) (W.told house.old) (W.told house.new) result }
{
    if has_two_underscores(name.schema.as_slice()) {
        let body = house.body(alloc, name)?;
        Ok(rows_of(body))
    } else {
        Ok(None)
    }
}

/// A model as a table, where its object is one.
fn table_now<W: Warehouse>(
    alloc: Global,
    house: &mut W,
    node: &Node,
    entry: &Entry,
) -> Result<Option<Input>, ShowFault>
    ensures { Finds (λ w. IsTrue (are_plain w.sources))
        (λ w table. table ≡ table_now w (model_of node.now entry.now))
        (λ w. None) (W.told house.old) (W.told house.new) result }
{
    let rows = rows_now(alloc, house, &entry.object)?;
    match rows {
        None => Ok(None),
        Some(rows) => {
            let table = table_of(node, rows)?;
            Ok(Some(table))
        }
    }
}

/// Some models as tables, where the object of each is one.
fn each_now<W: Warehouse>(
    alloc: Global,
    house: &mut W,
    parents: &[Work],
) -> Result<Option<Inputs>, ShowFault>
    ensures { Finds (λ w. IsTrue (are_plain w.sources))
        (λ w tables. tables ≡ each_there (map (work_now w) parents.now))
        (λ w. None) (W.told house.old) (W.told house.new) result }
{
    let mut tables = Seq::new(alloc);
    for parent in parents {
        let table = table_now(alloc, house, parent.node, parent.entry)?;
        let Some(table) = table else {
            return Ok(None);
        };
        tables.push(table)?;
    }
    Ok(Some(tables))
}

/// The tables that a model reads, where the objects of its parents are tables.
fn tables_now<W: Warehouse>(
    alloc: Global,
    house: &mut W,
    node: &Node,
    entry: &Entry,
    parents: &[Work],
) -> Result<Option<Inputs>, ShowFault>
    ensures { Finds (λ w. IsTrue (are_plain w.sources))
        (λ w tables. tables ≡ tables_now w (model_of node.now entry.now) (map work_model parents.now))
        (λ w. None) (W.told house.old) (W.told house.new) result }
{
    let tables = each_now(alloc, house, parents)?;
    match tables {
        None => Ok(None),
        Some(tables) => {
            let mut read = source_tables(alloc, house, node.own.sources.as_slice())?;
            read.append(tables)?;
            Ok(Some(read))
        }
    }
}

fn has_object(works: &[Work], name: &Name) -> bool
    ensures { result ≡ has_object (map part_of works.now) name.now }
{
    let mut found = false;
    for work in works {
        found = found || work.entry.object.compare(name).is_eq();
    }
    found
}

fn is_view(kind: &Kind) -> bool
    ensures { result ≡ is_view kind.now }
{
    match kind {
        Kind::View => true,
        Kind::Full | Kind::Seed | Kind::Incremental { .. } => false,
    }
}

fn is_read_later(works: &[Work], parent: &Work) -> bool
    ensures { result ≡ is_read_later (map part_of works.now) (work_model parent.now) }
{
    is_view(&parent.node.own.kind) || has_object(works, &parent.entry.object)
}

fn are_read_later(works: &[Work], parents: &[Work]) -> bool
    ensures { result ≡ are_read_later (map part_of works.now) (map work_model parents.now) }
{
    let mut found = false;
    for parent in parents {
        found = found || is_read_later(works, parent);
    }
    found
}

/// The tables of a part that reads these parents, where they are there and none is an object of these parts.
fn parents_now<W: Warehouse>(
    alloc: Global,
    house: &mut W,
    works: &[Work],
    work: &Work,
    parents: &[Work],
) -> Result<Option<Inputs>, ShowFault>
    ensures { Finds (λ w. IsTrue (are_plain w.sources))
        (λ w tables. tables ≡ parents_now w (map part_of works.now) (model_of work.now.node.now work.now.entry.now) (map work_model parents.now))
        (λ w. None) (W.told house.old) (W.told house.new) result }
{
    if are_read_later(works, parents) {
        Ok(None)
    } else {
        tables_now(alloc, house, work.node, work.entry, parents)
    }
}

fn reads(work: &Work) -> bool
    ensures { result ≡ reads (part_of work.now) }
{
    match &work.node.own.kind {
        Kind::Full | Kind::Incremental { .. } => !work.dues.is_empty(),
        Kind::View | Kind::Seed => false,
    }
}

/// The tables of a part, where they are there and none is an object of these parts.
fn pool_now<W: Warehouse>(
    alloc: Global,
    house: &mut W,
    nodes: &[Node],
    entries: &[Entry],
    works: &[Work],
    work: &Work,
) -> Result<Option<Inputs>, ShowFault>
    ensures { Finds (λ w. IsTrue (are_plain w.sources))
        (λ w tables. tables ≡ pool_now w (plain_models nodes.now entries.now) (map part_of works.now) (part_of work.now))
        (λ w. None) (W.told house.old) (W.told house.new) result }
{
    if reads(work) {
        let parents = parents_of(alloc, nodes, entries, work.node.parents.as_slice())?;
        parents_now(alloc, house, works, work, parents.as_slice())
    } else {
        Ok(Some(Seq::new(alloc)))
    }
}

/// Whether two models declare the same sources and have the same parents.
fn are_alike(a: &Node, b: &Node) -> bool
    ensures { IsTrue result → AreAlike a.now b.now }
{
    a.own.sources.same(&b.own.sources) && a.parents.same(&b.parents)
}

/// Whether a part's tables are those of the part before it.
fn finds_same(
    alloc: Global,
    nodes: &[Node],
    entries: &[Entry],
    works: &[Work],
    before: &Work,
    work: &Work,
) -> Result<bool, Memory>
    ensures { IfOk result (λ yes. IsTrue yes → FindsSame (plain_models nodes.now entries.now) (map part_of works.now) (part_of before.now) (part_of work.now)) }
{
    if reads(before) && reads(work) && are_alike(before.node, work.node) {
        let parents = parents_of(alloc, nodes, entries, work.node.parents.as_slice())?;
        Ok(!are_read_later(works, parents.as_slice()))
    } else {
        Ok(false)
    }
}

/// The same, where there is a part before it.
fn goes_on(
    alloc: Global,
    nodes: &[Node],
    entries: &[Entry],
    works: &[Work],
    before: Option<&Work>,
    work: &Work,
) -> Result<bool, Memory>
    ensures { IfOk result (λ yes. IsTrue yes → GoesOn (plain_models nodes.now entries.now) (map part_of works.now) (option_copied before.entry) (part_of work.now)) }
{
    match before {
        None => Ok(false),
        Some(before) => finds_same(alloc, nodes, entries, works, before, work),
    }
}

/// One more model with a pool of its own.
fn add_pool(made: &mut Pooled, pool: Inputs) -> Result<(), Memory>
    requires { length made.old.pools < 4096 }
    ensures pools { OnOk result (made.new.pools ≡ made.old.pools ++ pool ∷ []) }
    ensures numbers { OnOk result (made.new.numbers ≡ made.old.numbers ++ length made.old.pools ∷ []) }
{
    let number = made.pools.len() as u32;
    made.pools.push(pool)?;
    made.numbers.push(number)
}

/// One more model with the last pool.
fn add_same(made: &mut Pooled) -> Result<(), Memory>
    requires any { 0 < length made.old.pools }
    requires few { length made.old.pools ≤ 4096 }
    ensures pools { OnOk result (made.new.pools ≡ made.old.pools) }
    ensures numbers { OnOk result (made.new.numbers ≡ made.old.numbers ++ (length made.old.pools - 1) ∷ []) }
{
    let number = (made.pools.len() - 1) as u32;
    made.numbers.push(number)
}

/// The tables of the first of some models, each with its own, as far as they are there before any of these models is
/// made. Models that stand side by side and read the same have one pool.
pub fn pools_ahead<W: Warehouse>(
    alloc: Global,
    house: &mut W,
    nodes: &[Node],
    entries: &[Entry],
    works: &[Work],
) -> Result<Pooled, ShowFault>
    requires { length works.now ≤ 4096 }
    ensures few { IfOk result (λ pooled. length pooled.numbers ≤ length works.now) }
    ensures there { IfOk result (λ pooled. are_there pooled ≡ true) }
    ensures finds { Finds (λ w. IsTrue (are_plain w.sources))
        (λ w pooled. each_pool pooled ≡ pools_from w (plain_models nodes.now entries.now) [] (map part_of works.now))
        (λ w. None) (W.told house.old) (W.told house.new) result }
{
    let mut made = Pooled {
        pools: Seq::new(alloc),
        numbers: Seq::new(alloc),
    };
    let mut before: Option<&Work> = None;
    for (i, work) in works.iter().enumerate() {
        if goes_on(alloc, nodes, entries, &works[..i + 1], before, work)? {
            add_same(&mut made)?;
        } else {
            let pool = pool_now(alloc, house, nodes, entries, &works[..i + 1], work)?;
            let Some(pool) = pool else {
                return Ok(made);
            };
            add_pool(&mut made, pool)?;
        }
        before = Some(work);
    }
    Ok(made)
}
