// The sources that a definition declares, as tables that its query reads.
ghost use Rattle.std.specs.Prelude.{◌≡◌, IsTrue, IfOk, map, None};
ghost use Rattle.std.specs.List.{find};
ghost use Rattle.std.specs.Option.{option_copied};
ghost use Rattle.mesh_base_values.specs.Picked.{same_text, picked_rows};
ghost use Rattle.mesh_base_values.specs.declared.values.Column.{Column};
ghost use Rattle.mesh_spec_model.specs.Sources.{is_of_type, has_shape, declared_rows, declared, source_named};
ghost use Rattle.mesh_house.specs.Sources.{are_plain};
ghost use Rattle.mesh_layer.specs.Places.{place_of, places_of, cell_at, row_at, rows_at, is_at, are_in_order, are_wide};
ghost use Rattle.mesh_layer.specs.Read.{read_rows};
ghost use Rattle.mesh_layer.specs.Shows.{Finds};

use crate::faults::ShowFault;
use crate::kept::{kept_at, table_rows};
use mesh_base::{Decl, Input, Inputs};
use mesh_base_values::{
    Cell, ColType, Column, Columns, Row, Rows, Str, has_two_underscores, same_text,
};
use mesh_house::Warehouse;
use mesh_list::{Duplicate, Memory, Seq, both, push_made};
use std::alloc::Global;

/// Where the column of that name stands.
fn place_of(columns: &[Column], name: &Str) -> Option<usize>
    ensures { result ≡ place_of columns.now name.now }
{
    for (i, column) in columns.iter().enumerate() {
        if same_text(column.name.as_slice(), name.as_slice()) {
            return Some(i);
        }
    }
    None
}

/// The places of the declared columns.
fn places_of(
    alloc: Global,
    columns: &[Column],
    declared: &[Column],
) -> Result<Vec<Option<usize>>, Memory>
    ensures { IfOk result (λ places. places.items ≡ places_of columns.now (map (λ (d : Column). d.name) declared.now)) }
{
    let mut places = Vec::with_capacity(alloc, declared.len())?;
    for column in declared {
        places.push(place_of(columns, &column.name))?;
    }
    Ok(places)
}

fn cell_at(row: &Row, place: Option<usize>) -> Result<Cell, Memory>
    ensures { IfOk result (λ cell. cell ≡ cell_at row.now place) }
{
    match place {
        None => Ok(Cell::Null),
        Some(i) => match row.get(i) {
            None => Ok(Cell::Null),
            Some(cell) => cell.copy(),
        },
    }
}

fn row_at(alloc: Global, row: &Row, places: &[Option<usize>]) -> Result<Row, Memory>
    ensures { IfOk result (λ made. made ≡ row_at row.now places.now) }
{
    let mut made = Seq::from_vec(Vec::with_capacity(alloc, places.len())?);
    for place in places {
        push_made(&mut made, cell_at(row, *place))?;
    }
    Ok(made)
}

fn rows_at(alloc: Global, rows: &[Row], places: &[Option<usize>]) -> Result<Rows, Memory>
    ensures { IfOk result (λ made. made ≡ rows_at rows.now places.now) }
{
    let mut made = Seq::from_vec(Vec::with_capacity(alloc, rows.len())?);
    for row in rows {
        push_made(&mut made, row_at(alloc, row, places))?;
    }
    Ok(made)
}

/// Whether that is the place.
fn is_at(place: Option<usize>, at: usize) -> bool
    ensures { result ≡ is_at at place }
{
    match place {
        None => false,
        Some(i) => i == at,
    }
}

/// Whether the places are the first, the second and so on.
fn are_in_order(places: &[Option<usize>]) -> bool
    ensures { result ≡ are_in_order 0 places.now }
{
    for (i, place) in places.iter().enumerate() {
        if !is_at(*place, i) {
            return false;
        }
    }
    true
}

/// Whether each row has so many cells.
fn are_wide(rows: &[Row], width: usize) -> bool
    ensures { result ≡ are_wide width rows.now }
{
    rows.iter().all(|row| row.len() == width)
}

/// Whether a column of that name is there, and the first of them has this type.
fn is_of_type(columns: &[Column], name: &Str, kind: ColType) -> bool
    ensures { result ≡ is_of_type kind (find (λ (c : Column). same_text c.name name.now) columns.now) }
{
    for column in columns {
        if same_text(column.name.as_slice(), name.as_slice()) {
            return column.kind == kind;
        }
    }
    false
}

/// Whether each declared column is there, with its type.
pub fn has_shape(declared: &[Column], columns: &[Column]) -> bool
    ensures { result ≡ has_shape declared.now columns.now }
{
    let mut each = true;
    for column in declared {
        each = each && is_of_type(columns, &column.name, column.kind);
    }
    each
}

/// The rows with the declared columns alone, in declared order: the rows themselves where those are all columns in
/// theirs.
pub fn picked_rows(
    alloc: Global,
    declared: &[Column],
    columns: &[Column],
    rows: Rows,
) -> Result<Rows, Memory>
    ensures { IfOk result (λ made. made ≡ picked_rows (map (λ (d : Column). d.name) declared.now) columns.now rows) }
{
    let places = places_of(alloc, columns, declared)?;
    if are_in_order(places.as_slice()) && are_wide(rows.as_slice(), places.len()) {
        return Ok(rows);
    }
    rows_at(alloc, rows.as_slice(), places.as_slice())
}

/// A source's rows with the declared columns alone, and none where it has another shape.
pub(crate) fn read_rows(
    alloc: Global,
    declared: &[Column],
    columns: &Option<Columns>,
    rows: Option<Rows>,
) -> Result<Rows, Memory>
    ensures { IfOk result (λ made. made ≡ read_rows declared.now columns.now rows) }
{
    match (columns, rows) {
        (Some(columns), Some(rows)) => {
            if has_shape(declared, columns.as_slice()) {
                picked_rows(alloc, declared, columns.as_slice(), rows)
            } else {
                Ok(Seq::new(alloc))
            }
        }
        _ => Ok(Seq::new(alloc)),
    }
}

/// The declared rows of a source, as the warehouse has it.
fn source_rows<W: Warehouse>(alloc: Global, house: &mut W, decl: &Decl) -> Result<Rows, ShowFault>
    ensures { Finds (λ w. IsTrue (are_plain w.sources))
        (λ w rows. rows ≡ declared_rows decl.now.columns (source_named w.sources decl.now))
        (λ w. None) (W.told house.old) (W.told house.new) result }
{
    if has_two_underscores(decl.name.schema.as_slice()) {
        return Ok(Seq::new(alloc));
    }
    let kept = kept_at(alloc, house, &decl.name, Some(decl.columns.as_slice()))?;
    Ok(table_rows(alloc, kept))
}

/// A declared source as a table.
fn source_table<W: Warehouse>(alloc: Global, house: &mut W, decl: &Decl) -> Result<Input, ShowFault>
    ensures { Finds (λ w. IsTrue (are_plain w.sources))
        (λ w table. table ≡ declared w.sources decl.now)
        (λ w. None) (W.told house.old) (W.told house.new) result }
{
    let (name, columns) = both(&decl.name, &decl.columns)?;
    let rows = source_rows(alloc, house, decl)?;
    Ok(Input {
        name,
        columns,
        rows,
    })
}

/// The sources that a definition declares, as tables, in its order.
pub fn source_tables<W: Warehouse>(
    alloc: Global,
    house: &mut W,
    sources: &[Decl],
) -> Result<Inputs, ShowFault>
    ensures { Finds (λ w. IsTrue (are_plain w.sources))
        (λ w tables. tables ≡ map (declared w.sources) sources.now)
        (λ w. None) (W.told house.old) (W.told house.new) result }
{
    let mut tables = Seq::new(alloc);
    for decl in sources {
        let table = source_table(alloc, house, decl)?;
        tables.push(table)?;
    }
    Ok(tables)
}
