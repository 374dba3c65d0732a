// The tables that audits read: models with the rows that their objects show.
ghost use Rattle.std.specs.Prelude.{◌≡◌, IfOk, IsTrue, map, if◌then◌else◌, [], Some};
ghost use Rattle.mesh_spec_model.specs.Scratch.{table_of};
ghost use Rattle.mesh_house.specs.Sources.{are_plain};
ghost use Rattle.mesh_spec_changes.specs.shown.Shown.{each_there};
ghost use Rattle.mesh_layer.specs.Lost.{first_of};
ghost use Rattle.mesh_layer.specs.Shows.{Finds};
ghost use Rattle.mesh_audit.specs.Audited.{asked, asked_tables, is_asked, lost_model, placed, shown_table};
ghost use Rattle.mesh_audit.specs.Pools.{Serves, lost_shown, marks, plain, shown_model};

use mesh_base::rules::is_named;
use mesh_base::{Entry, Input, Inputs, Node, Query};
use mesh_base_columns::columns_of;
use mesh_base_values::Rows;
use mesh_house::Warehouse;
use mesh_layer::{ShowFault, object_rows};
use mesh_list::{Duplicate, Memory, Same, Seq};
use std::alloc::Global;

/// A model of a plan, and its entry.
#[derive(Clone, Copy)]
pub struct Model<'a> {
    pub node: &'a Node,
    pub entry: &'a Entry,
}

pub type Models<'a> = Seq<Model<'a>>;

/// The tables that were read last, and a mark for each model of the plan that is among them.
#[derive(Drop)]
pub struct Pool {
    pub marks: Seq<u8>,
    pub tables: Inputs,
}

/// The models of a plan, each with its entry.
pub(crate) fn models_of<'a>(
    alloc: Global,
    nodes: &'a [Node],
    entries: &'a [Entry],
) -> Result<Models<'a>, Memory>
    ensures { IfOk result (λ all. map plain all ≡ placed nodes.now entries.now) }
{
    let mut all = Seq::new(alloc);
    let mut rest = entries;
    for node in nodes {
        let [entry, more @ ..] = rest else {
            return Ok(all);
        };
        all.push(Model { node, entry })?;
        rest = more;
    }
    Ok(all)
}

pub(crate) fn no_pool(alloc: Global) -> Pool
    ensures { result ≡ record { marks = []; tables = [] } }
{
    Pool {
        marks: Seq::new(alloc),
        tables: Seq::new(alloc),
    }
}

fn table_of(node: &Node, rows: Rows) -> Result<Input, Memory>
    ensures { IfOk result (λ table. table ≡ table_of node.now.own rows) }
{
    let columns = columns_of(&node.own)?;
    let name = node.own.name.copy()?;
    Ok(Input {
        name,
        columns,
        rows,
    })
}

fn shown_table<W: Warehouse>(alloc: Global, house: &mut W, m: &Model) -> Result<Input, ShowFault>
    ensures { Finds (λ w. IsTrue (are_plain w.sources))
        (λ w table. shown_table w (plain m.now) ≡ Some table)
        (λ w. lost_model w (plain m.now)) (W.told house.old) (W.told house.new) result }
{
    let rows = object_rows(alloc, house, &m.entry.object)?;
    let table = table_of(m.node, rows)?;
    Ok(table)
}

fn is_asked(q: &Query, m: &Model) -> bool
    ensures { result ≡ is_asked q.now (plain m.now) }
{
    is_named(q, &m.node.own.name)
}

/// The models that a query names.
fn asked<'a>(alloc: Global, all: &[Model<'a>], q: &Query) -> Result<Models<'a>, Memory>
    ensures { IfOk result (λ models. map plain models ≡ asked (map plain all.now) q.now) }
{
    let mut models = Seq::new(alloc);
    for m in all {
        if is_asked(q, m) {
            models.push(*m)?;
        }
    }
    Ok(models)
}

fn mark(asked: bool) -> u8
    ensures { result ≡ if asked then 1 else 0 }
{
    if asked { 1 } else { 0 }
}

/// A mark for each model, 1 where the query names it.
fn marks(alloc: Global, all: &[Model], q: &Query) -> Result<Seq<u8>, Memory>
    ensures { IfOk result (λ made. made ≡ marks q.now (map plain all.now)) }
{
    let mut made = Seq::new(alloc);
    for m in all {
        made.push(mark(is_asked(q, m)))?;
    }
    Ok(made)
}

/// The tables of some models.
fn shown_tables<W: Warehouse>(
    alloc: Global,
    house: &mut W,
    models: &[Model],
) -> Result<Inputs, ShowFault>
    ensures { Finds (λ w. IsTrue (are_plain w.sources))
        (λ w tables. each_there (map (shown_model w) models.now) ≡ Some tables)
        (λ w. first_of (map (lost_shown w) models.now)) (W.told house.old) (W.told house.new) result }
{
    let mut tables = Seq::new(alloc);
    for m in models {
        let table = shown_table(alloc, house, m)?;
        tables.push(table)?;
    }
    Ok(tables)
}

/// Reads the tables of the models that a query names, where they aren't the ones that were read last.
pub(crate) fn refill<W: Warehouse>(
    alloc: Global,
    house: &mut W,
    all: &[Model],
    q: &Query,
    pool: &mut Pool,
) -> Result<(), ShowFault>
    ensures { Finds (λ w. IsTrue (are_plain w.sources) × Serves w (map plain all.now) pool.old)
        (λ w _. Serves w (map plain all.now) pool.new × (asked_tables w (map plain all.now) q.now ≡ Some pool.new.tables))
        (λ w. first_of (map (lost_model w) (asked (map plain all.now) q.now))) (W.told house.old) (W.told house.new) result }
{
    let marks = marks(alloc, all, q)?;
    if marks.same(&pool.marks) {
        return Ok(());
    }
    let models = asked(alloc, all, q)?;
    let tables = shown_tables(alloc, house, models.as_slice())?;
    pool.marks = marks;
    pool.tables = tables;
    Ok(())
}
