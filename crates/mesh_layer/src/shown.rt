// What is shown of a warehouse.
ghost use Rattle.std.specs.Prelude.{◌≡◌, IsTrue, Some, map};
ghost use Rattle.mesh_house.specs.Sources.{are_plain};
ghost use Rattle.mesh_spec_changes.specs.shown.Shown.{each_there, object_rows};
ghost use Rattle.mesh_layer.specs.Asked.{asked, lost_asked, lost_model, lost_view, shown_view, view_table};
ghost use Rattle.mesh_layer.specs.Lost.{first_of, lost_object};
ghost use Rattle.mesh_layer.specs.Read.{AreKnown, Given};
ghost use Rattle.mesh_layer.specs.Shows.{Finds, Shows};

use crate::faults::{ShowFault, dangling};
use crate::known::Known;
use crate::names::asked_models;
use crate::views::view_in;
use crate::walk::{object_behind, rows_behind, table_of};
use mesh_base::{Input, Inputs, Query};
use mesh_base_values::{Bounds, Name, Rows, Str};
use mesh_eval::exact_rows;
use mesh_house::Warehouse;
use mesh_house_book::Book;
use mesh_list::Seq;
use std::alloc::Global;

/// How many stored queries may stand one behind the other.
pub const LONGEST_CHAIN: u64 = 4_096;

/// The rows behind an object: those of a table, or those of a stored query over what its targets show.
pub fn object_rows<W: Warehouse>(
    alloc: Global,
    house: &mut W,
    name: &Name,
) -> Result<Rows, ShowFault>
    ensures { Shows (λ w. object_rows w name.now) (λ w. lost_object w name.now)
        (W.told house.old) (W.told house.new) result }
{
    let mut known = Known::new(alloc);
    let (_, rows) = rows_behind(alloc, house, LONGEST_CHAIN, name, &mut known)?;
    Ok(rows)
}

/// The rows behind a view, and nothing where no such view stands.
pub fn show<W: Warehouse>(
    alloc: Global,
    house: &mut W,
    view: &Name,
) -> Result<Option<Rows>, ShowFault>
    ensures { Shows (λ w. shown_view w view.now) (λ w. lost_view w view.now)
        (W.told house.old) (W.told house.new) result }
{
    match house.view(alloc, view)? {
        None => Ok(None),
        Some(target) => {
            let rows = object_rows(alloc, house, &target)?;
            Ok(Some(rows))
        }
    }
}

/// A model as a table, with the rows behind its view.
fn view_table<W: Warehouse>(
    alloc: Global,
    house: &mut W,
    env: &Str,
    model: &Name,
    known: &mut Known,
) -> Result<Input, ShowFault>
    ensures { Finds (λ w. Given w known.old)
        (λ w table. AreKnown w known.new × (view_table env.now w model.now ≡ Some table))
        (λ w. lost_model env.now w model.now) (W.told house.old) (W.told house.new) result }
{
    let name = view_in(alloc, env, model)?;
    match house.view(alloc, &name)? {
        None => Err(dangling(&name)),
        Some(target) => {
            let found = object_behind(alloc, house, LONGEST_CHAIN, &target, known)?;
            let table = table_of(model, found)?;
            Ok(table)
        }
    }
}

/// Some models of an environment as tables, with the rows behind their views.
pub fn view_tables<W: Warehouse>(
    alloc: Global,
    house: &mut W,
    env: &Str,
    models: &[Name],
) -> Result<Inputs, ShowFault>
    ensures { Finds (λ w. IsTrue (are_plain w.sources))
        (λ w tables. each_there (map (view_table env.now w) models.now) ≡ Some tables)
        (λ w. first_of (map (lost_model env.now w) models.now)) (W.told house.old) (W.told house.new) result }
{
    let mut known = Known::new(alloc);
    let mut tables = Seq::new(alloc);
    for model in models {
        let table = view_table(alloc, house, env, model, &mut known)?;
        tables.push(table)?;
    }
    Ok(tables)
}

/// The rows of a query over the views of an environment's models, by the book's list of it. The columns of each are
/// those of the object that the view points at. A relation that is none of these models, and a CTE that doesn't stand
/// earlier, has neither columns nor rows.
pub fn ask<W: Warehouse>(
    alloc: Global,
    house: &mut W,
    b: &Book,
    env: &Str,
    q: &Query,
) -> Result<Rows, ShowFault>
    ensures { Shows (asked b.now env.now q.now) (lost_asked b.now env.now q.now) (W.told house.old) (W.told house.new) result }
{
    let models = asked_models(alloc, b, env, q)?;
    let tables = view_tables(alloc, house, env, models.as_slice())?;
    let bounds = Bounds { start: 0, end: 0 };
    let rows = exact_rows(alloc, q, tables.as_slice(), bounds)?;
    Ok(rows)
}
