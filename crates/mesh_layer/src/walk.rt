// The rows behind an object: each stored query is computed once. A level of the walk takes little of the stack: what
// is done before it goes deeper, and once it is back, stands in functions that are not inlined.
ghost use Rattle.std.specs.Prelude.{◌≡◌, ◌≤◌, ◌<◌, ◌+◌, ◌^◌, ℕ, List, ◌++◌, ◌∷◌, [], IfOk, OnOk, IsTrue, map, Some, None};
ghost use Rattle.std.specs.Option.{option_map};
ghost use Rattle.mesh_base_values.specs.declared.values.Cell.{Cell};
ghost use Rattle.mesh_base_values.specs.declared.values.Pair.{Pair};
ghost use Rattle.mesh_spec_query.specs.Sel.{Sel};
ghost use Rattle.mesh_base.specs.rules.Seen.{or_no_columns};
ghost use Rattle.mesh_spec_model.specs.Sources.{inputs};
ghost use Rattle.mesh_spec_model.specs.Scratch.{no_bounds};
ghost use Rattle.mesh_house.specs.declared.objects.Body.TheVariants as body;
ghost use Rattle.mesh_house.specs.House.{Reads};
ghost use Rattle.mesh_house.specs.Sources.{are_plain};
ghost use Rattle.mesh_house.specs.World.{object_at, body_of, columns_of};
ghost use Rattle.mesh_spec_changes.specs.shown.Shown.{each_there, rows_through, target_table};
ghost use Rattle.mesh_layer.specs.declared.kept.Kept.TheVariants as kept;
ghost use Rattle.mesh_layer.specs.Lost.{first_of, lost_in, lost_through};
ghost use Rattle.mesh_layer.specs.Read.{AreKnown, Given, IsFound, body_through, kept_of};
ghost use Rattle.mesh_layer.specs.Shows.{Finds};

use crate::faults::{ShowFault, dangling};
use crate::kept::{Kept, kept_at};
use crate::known::{Found, Known, keep, known_at};
use crate::seen::stored_query;
use crate::sources::source_tables;
use mesh_base::{Input, Inputs, Own, Query};
use mesh_base_values::{Bounds, Columns, Name, Pair, Rows, has_two_underscores};
use mesh_eval::exact_rows;
use mesh_house::{Body, Warehouse, WhFail};
use mesh_list::{Duplicate, Memory, Seq};
use std::alloc::Global;

fn or_no_columns(alloc: Global, columns: Option<Columns>) -> Columns
    ensures { result ≡ or_no_columns columns }
{
    match columns {
        Some(columns) => columns,
        None => Seq::new(alloc),
    }
}

/// The columns of the object of that name.
fn columns_at<W: Warehouse>(alloc: Global, house: &mut W, name: &Name) -> Result<Columns, WhFail>
    ensures { Reads (λ w. or_no_columns (columns_of (object_at w name.now))) (W.told house.old) (W.told house.new) result }
{
    if has_two_underscores(name.schema.as_slice()) {
        let columns = house.head(alloc, name)?;
        Ok(or_no_columns(alloc, columns))
    } else {
        Ok(Seq::new(alloc))
    }
}

/// The rows of a stored query over the sources that it declares and these tables. As `kept_at`, it is called from two
/// places.
#[inline(never)]
fn query_rows<W: Warehouse>(
    alloc: Global,
    house: &mut W,
    query: &Query,
    own: &Own,
    tables: Inputs,
) -> Result<Rows, ShowFault>
    ensures { Finds (λ w. IsTrue (are_plain w.sources))
        (λ w rows. rows ≡ Sel query.now (inputs w.sources own.now tables) no_bounds)
        (λ w. None) (W.told house.old) (W.told house.new) result }
{
    let mut read = source_tables(alloc, house, own.sources.as_slice())?;
    read.append(tables)?;
    let bounds = Bounds { start: 0, end: 0 };
    let rows = exact_rows(alloc, query, read.as_slice(), bounds)?;
    Ok(rows)
}

/// The greater of two heights.
fn taller(a: u64, b: u64) -> u64
    ensures first { a ≤ result }
    ensures second { b ≤ result }
    ensures least { (most : ℕ) → a ≤ most → b ≤ most → result ≤ most }
{
    if a < b { b } else { a }
}

/// What was found as a table, by the name that a query has for it.
pub(crate) fn table_of(name: &Name, found: Found) -> Result<Input, Memory>
    ensures { IfOk result (λ table. table ≡ record { name = name.now; columns = found.columns; rows = found.rows }) }
{
    let name = name.copy()?;
    Ok(Input {
        name,
        columns: found.columns,
        rows: found.rows,
    })
}

/// Puts it behind other tables.
#[inline(never)]
fn push_table(tables: &mut Inputs, name: &Name, found: Found) -> Result<(), Memory>
    ensures { OnOk result (tables.new ≡ tables.old ++ record { name = name.now; columns = found.columns; rows = found.rows } ∷ []) }
{
    let table = table_of(name, found)?;
    tables.push(table)
}

/// An object's columns beside its rows, which are kept as they are found.
#[inline(never)]
fn found_with<W: Warehouse>(
    alloc: Global,
    house: &mut W,
    name: &Name,
    height: u64,
    rows: Rows,
    known: &mut Known,
) -> Result<Found, ShowFault>
    ensures height { IfOk result (λ f. f.height ≡ height) }
    ensures finds { Finds (λ w. AreKnown w known.old × (rows_through height w name.now ≡ Some rows))
        (λ w f. AreKnown w known.new × IsFound w name.now f)
        (λ w. None) (W.told house.old) (W.told house.new) result }
{
    let columns = columns_at(alloc, house, name)?;
    let found = Found {
        height,
        columns,
        rows,
    };
    keep(known, name, &found)?;
    Ok(found)
}

/// The rows behind an object, read and computed, and how many stored queries stand behind one another there.
#[cycle(walk)]
pub(crate) fn rows_behind<W: Warehouse>(
    alloc: Global,
    house: &mut W,
    depth: u64,
    name: &Name,
    known: &mut Known,
) -> Result<(u64, Rows), ShowFault>
    ensures height { IfOk result (λ r. r.0 ≤ depth) }
    ensures finds { Finds (λ w. Given w known.old)
        (λ w r. AreKnown w known.new × (rows_through r.0 w name.now ≡ Some r.1))
        (λ w. lost_through depth w name.now) (W.told house.old) (W.told house.new) result }
{
    let Some(kept) = kept_at(alloc, house, name, None)? else {
        return Err(dangling(name));
    };
    match kept {
        Kept::Rows(rows) => Ok((0, rows)),
        Kept::Query(stored) => query_behind(alloc, house, depth, name, stored.get(), known),
    }
}

/// The same of an object that keeps this stored query, which no table does. The query is let go by the caller alone,
/// at one place, since each such place takes some of the stack.
#[cycle(walk)]
fn query_behind<W: Warehouse>(
    alloc: Global,
    house: &mut W,
    depth: u64,
    name: &Name,
    stored: &Body,
    known: &mut Known,
) -> Result<(u64, Rows), ShowFault>
    ensures height { IfOk result (λ r. r.0 ≤ depth) }
    ensures finds { Finds (λ w. Given w known.old × (option_map kept_of (body_of (object_at w name.now)) ≡ Some (kept.Query stored.now)))
        (λ w r. AreKnown w known.new × (rows_through r.0 w name.now ≡ Some r.1))
        (λ w. lost_through depth w name.now) (W.told house.old) (W.told house.new) result }
{
    match stored {
        Body::Stored { own, targets } => {
            if depth == 0 {
                return Err(dangling(name));
            }
            let targets = targets.as_slice();
            stored_behind(alloc, house, depth - 1, name, own, targets, known)
        }
        Body::Rows(_) => Err(dangling(name)),
    }
}

/// The rows of a stored query over those of its targets, and how many stored queries stand behind one another with it.
#[cycle(walk)]
fn stored_behind<W: Warehouse>(
    alloc: Global,
    house: &mut W,
    depth: u64,
    name: &Name,
    own: &Own,
    targets: &[Pair],
    known: &mut Known,
) -> Result<(u64, Rows), ShowFault>
    requires { depth + 1 < 2 ^ 64 }
    ensures height { IfOk result (λ r. r.0 ≤ depth + 1) }
    ensures finds { Finds (λ w. Given w known.old)
        (λ w r. AreKnown w known.new × (body_through r.0 w (body.Stored own.now targets.now) ≡ Some r.1))
        (λ w. lost_in (lost_through depth w) name.now (Some (body.Stored own.now targets.now))) (W.told house.old) (W.told house.new) result }
{
    match stored_query(own, targets) {
        None => Err(dangling(name)),
        Some(query) => {
            if targets.is_empty() {
                let rows = query_rows(alloc, house, query, own, Seq::new(alloc))?;
                return Ok((1, rows));
            }
            let (height, tables) = tables_behind(alloc, house, depth, targets, known)?;
            let rows = query_rows(alloc, house, query, own, tables)?;
            Ok((height + 1, rows))
        }
    }
}

/// The tables of some targets, and the height of the tallest.
#[cycle(walk)]
fn tables_behind<W: Warehouse>(
    alloc: Global,
    house: &mut W,
    depth: u64,
    targets: &[Pair],
    known: &mut Known,
) -> Result<(u64, Inputs), ShowFault>
    ensures height { IfOk result (λ r. r.0 ≤ depth) }
    ensures finds { Finds (λ w. Given w known.old)
        (λ w r. AreKnown w known.new × (each_there (map (target_table (rows_through r.0 w) w) targets.now) ≡ Some r.1))
        (λ w. first_of (map (λ (t : Pair). lost_through depth w t.second) targets.now)) (W.told house.old) (W.told house.new) result }
{
    let mut height = 0;
    let mut tables = Seq::new(alloc);
    for target in targets {
        let found = object_behind(alloc, house, depth, &target.second, known)?;
        height = taller(height, found.height);
        push_table(&mut tables, &target.first, found)?;
    }
    Ok((height, tables))
}

/// An object's columns and rows, as they are known, or read and computed.
#[cycle(walk)]
pub(crate) fn object_behind<W: Warehouse>(
    alloc: Global,
    house: &mut W,
    depth: u64,
    name: &Name,
    known: &mut Known,
) -> Result<Found, ShowFault>
    ensures height { IfOk result (λ f. f.height ≤ depth) }
    ensures finds { Finds (λ w. Given w known.old)
        (λ w f. AreKnown w known.new × IsFound w name.now f)
        (λ w. lost_through depth w name.now) (W.told house.old) (W.told house.new) result }
{
    if let Some(found) = known_at(known, depth, name)? {
        return Ok(found);
    }
    let (height, rows) = rows_behind(alloc, house, depth, name, known)?;
    found_with(alloc, house, name, height, rows, known)
}
