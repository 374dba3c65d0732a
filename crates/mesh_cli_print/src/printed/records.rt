// Rows as a CSV file has them.
ghost use Rattle.std.specs.Prelude.{◌≡◌, ◌++◌, ◌∷◌, [], ℕ, List, map, IfOk, OnOk};
ghost use Rattle.std.specs.List.{flat_map};
ghost use Rattle.csv.specs.Records.{fields_of, partial_of};
ghost use Rattle.csv.specs.Writing.{default_writer, row_text};
ghost use Rattle.mesh_cli_print.specs.printed.Records.{column_name, field, rows_text};
ghost use Rattle.mesh_cli_print.specs.printed.Writers.{Holds};

use csv::{ByteRecord, Writer, WriterBuilder};
use mesh_base_values::{Cell, ColType, Column, Row, Str};
use mesh_list::{Duplicate, Memory, Seq};
use mesh_time_days::casts::cast;
use std::alloc::Global;
use std::io::Write;

/// A cell as a field.
fn field_of(alloc: Global, cell: &Cell) -> Result<Str, Memory>
    ensures { IfOk result (λ made. made ≡ field cell.now) }
{
    let text = cast(alloc, ColType::Text, cell.copy()?)?;
    match &text {
        Cell::Text(text) => text.copy(),
        Cell::Null | Cell::Int(_) | Cell::Date(_) | Cell::Bool(_) => Ok(Seq::new(alloc)),
    }
}

fn push_cell(alloc: Global, fields: &mut ByteRecord, cell: &Cell) -> Result<(), Memory>
    requires { partial_of fields.old ≡ [] }
    ensures { OnOk result ((fields_of fields.new ≡ fields_of fields.old ++ field cell.now ∷ []) × (partial_of fields.new ≡ [])) }
{
    let text = field_of(alloc, cell)?;
    fields.push_field(text.as_slice())?;
    Ok(())
}

/// A row as a record.
fn row_record(alloc: Global, row: &Row) -> Result<ByteRecord, Memory>
    ensures { IfOk result (λ made. fields_of made ≡ map field row.now) }
{
    let mut made = ByteRecord::new(alloc);
    for cell in row.as_slice() {
        push_cell(alloc, &mut made, cell)?;
    }
    Ok(made)
}

/// The columns' names as a record.
fn head_record(alloc: Global, columns: &[Column]) -> Result<ByteRecord, Memory>
    ensures { IfOk result (λ made. fields_of made ≡ map column_name columns.now) }
{
    let mut made = ByteRecord::new(alloc);
    for column in columns {
        made.push_field(column.name.as_slice())?;
    }
    Ok(made)
}

/// Writes a record behind those that were written.
fn put_record<W: Write + Drop>(writer: &mut Writer<W>, fields: &ByteRecord) -> Result<(), Memory>
    ensures { OnOk result ((text : List ℕ) → Holds W.contents writer.old text → Holds W.contents writer.new (text ++ row_text default_writer (fields_of fields.now))) }
{
    match writer.write_byte_record(fields) {
        Ok(()) => Ok(()),
        Err(_) => Err(Memory),
    }
}

fn put_row<W: Write + Drop>(alloc: Global, writer: &mut Writer<W>, row: &Row) -> Result<(), Memory>
    ensures { OnOk result ((text : List ℕ) → Holds W.contents writer.old text → Holds W.contents writer.new (text ++ row_text default_writer (map field row.now))) }
{
    let fields = row_record(alloc, row)?;
    put_record(writer, &fields)
}

fn put_rows<W: Write + Drop>(
    alloc: Global,
    writer: &mut Writer<W>,
    rows: &[Row],
) -> Result<(), Memory>
    ensures { OnOk result ((text : List ℕ) → Holds W.contents writer.old text → Holds W.contents writer.new (text ++ flat_map (row_text default_writer) (map (map field) rows.now))) }
{
    for row in rows {
        put_row(alloc, writer, row)?;
    }
    Ok(())
}

/// Rows as a CSV file (RFC 4180), with the columns' names in front and a line feed behind each record. NULL and the
/// empty text are both an empty field.
pub fn rows_text(alloc: Global, columns: &[Column], rows: &[Row]) -> Result<Str, Memory>
    ensures { IfOk result (λ text. text ≡ rows_text columns.now rows.now) }
{
    let mut writer = WriterBuilder::new().from_writer(Vec::new(alloc));
    let head = head_record(alloc, columns)?;
    put_record(&mut writer, &head)?;
    put_rows(alloc, &mut writer, rows)?;
    match writer.into_inner() {
        Ok(out) => Ok(Seq::from_vec(out)),
        Err(_) => Err(Memory),
    }
}
