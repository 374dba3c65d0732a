// The tables that models read, as the warehouse shows them.
ghost use Rattle.std.specs.Prelude.{◌≡◌, IfOk, IsTrue, map, Some};
ghost use Rattle.mesh_house.specs.Sources.{are_plain};
ghost use Rattle.mesh_spec_model.specs.Scratch.{table_of};
ghost use Rattle.mesh_spec_changes.specs.shown.Shown.{each_there};
ghost use Rattle.mesh_spec_changes.specs.Changes.{parent_table, tables_read};
ghost use Rattle.mesh_layer.specs.Lost.{first_of};
ghost use Rattle.mesh_layer.specs.Shows.{Finds};
ghost use Rattle.mesh_exec_works.specs.Lost.{lost_parent, lost_parents, lost_part, lost_work};
ghost use Rattle.mesh_exec_works.specs.Plain.{model_of, parents_at, plain_models};
ghost use Rattle.mesh_exec_works.specs.Tables.{part_tables, work_table};
ghost use Rattle.mesh_exec_works.specs.Works.{part_of};

use crate::works::{Work, parents_of};
use mesh_base::{Entry, Input, Inputs, Node};
use mesh_base_columns::columns_of;
use mesh_base_values::{Kind, Rows};
use mesh_house::Warehouse;
use mesh_layer::{ShowFault, object_rows, source_tables};
use mesh_list::{Duplicate, Memory, Seq};
use std::alloc::Global;

/// A model as a table with these rows.
pub(crate) fn table_of(node: &Node, rows: Rows) -> Result<Input, Memory>
    ensures { IfOk result (λ table. table ≡ table_of node.now.own rows) }
{
    let columns = columns_of(&node.own)?;
    let name = node.own.name.copy()?;
    Ok(Input {
        name,
        columns,
        rows,
    })
}

/// A model as a table, with the rows that its object shows.
fn parent_table<W: Warehouse>(
    alloc: Global,
    house: &mut W,
    node: &Node,
    entry: &Entry,
) -> Result<Input, ShowFault>
    ensures { Finds (λ w. IsTrue (are_plain w.sources))
        (λ w table. parent_table w (model_of node.now entry.now) ≡ Some table)
        (λ w. lost_parent w (model_of node.now entry.now)) (W.told house.old) (W.told house.new) result }
{
    let rows = object_rows(alloc, house, &entry.object)?;
    let table = table_of(node, rows)?;
    Ok(table)
}

/// Some models as tables.
fn parent_tables<W: Warehouse>(
    alloc: Global,
    house: &mut W,
    parents: &[Work],
) -> Result<Inputs, ShowFault>
    ensures { Finds (λ w. IsTrue (are_plain w.sources))
        (λ w tables. each_there (map (work_table w) parents.now) ≡ Some tables)
        (λ w. first_of (map (lost_work w) parents.now)) (W.told house.old) (W.told house.new) result }
{
    let mut tables = Seq::new(alloc);
    for parent in parents {
        let table = parent_table(alloc, house, parent.node, parent.entry)?;
        tables.push(table)?;
    }
    Ok(tables)
}

/// The tables that a model reads: its sources, and its parents.
fn tables_read<W: Warehouse>(
    alloc: Global,
    house: &mut W,
    nodes: &[Node],
    entries: &[Entry],
    node: &Node,
    entry: &Entry,
) -> Result<Inputs, ShowFault>
    ensures { Finds (λ w. IsTrue (are_plain w.sources))
        (λ w tables. tables_read w (plain_models nodes.now entries.now) (model_of node.now entry.now) ≡ Some tables)
        (λ w. lost_parents w (parents_at (plain_models nodes.now entries.now) node.now.parents)) (W.told house.old) (W.told house.new) result }
{
    let parents = parents_of(alloc, nodes, entries, node.parents.as_slice())?;
    let mut read = source_tables(alloc, house, node.own.sources.as_slice())?;
    let tables = parent_tables(alloc, house, parents.as_slice())?;
    read.append(tables)?;
    Ok(read)
}

/// The tables that have to be there for a part; where nothing is due, and for a seed and a view, there are none.
pub fn part_tables<W: Warehouse>(
    alloc: Global,
    house: &mut W,
    nodes: &[Node],
    entries: &[Entry],
    work: &Work,
) -> Result<Inputs, ShowFault>
    ensures { Finds (λ w. IsTrue (are_plain w.sources))
        (λ w tables. part_tables w (plain_models nodes.now entries.now) (part_of work.now) ≡ Some tables)
        (λ w. lost_part w (plain_models nodes.now entries.now) (part_of work.now)) (W.told house.old) (W.told house.new) result }
{
    if work.dues.is_empty() {
        return Ok(Seq::new(alloc));
    }
    match &work.node.own.kind {
        Kind::Full | Kind::Incremental { .. } => {
            tables_read(alloc, house, nodes, entries, work.node, work.entry)
        }
        Kind::View | Kind::Seed => Ok(Seq::new(alloc)),
    }
}
