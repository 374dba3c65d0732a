// The columns of sources.
ghost use Rattle.std.specs.Prelude.{◌≡◌, ◌++◌, ◌∷◌, [], IfOk};
ghost use Rattle.mesh_query_tokens.specs.Gives.{Gives};
ghost use Rattle.mesh_model_csv.specs.external.Externals.{has_column, column_name, column_type, time_of, grown};

use crate::seeds::{bad_row, long_name, many_columns};
use mesh_base::Decl;
use mesh_base_values::{ColType, Column, Columns, LONGEST_NAME, MOST_COLUMNS, Str, is_identifier};
use mesh_list::{Duplicate, Memory};
use mesh_query_grammar::lookahead::{is_same, type_of};
use mesh_query_tokens::ReadFault;
use mesh_time_days::casts::lower_case;
use std::alloc::Global;

fn has_column(columns: &[Column], name: &Str) -> bool
    ensures { result ≡ has_column columns.now name.now }
{
    let mut found = false;
    for column in columns {
        found = found || column.name.as_slice().cmp(&name.as_slice()).is_eq();
    }
    found
}

// The column in field 2, in lower case.
fn column_name(alloc: Global, row: u64, columns: &[Column], field: &[u8]) -> Result<Str, ReadFault>
    ensures { Gives result (column_name row columns.now field.now) }
{
    if !is_identifier(field) {
        return Err(bad_row(row, 2));
    }
    if field.len() as u64 > LONGEST_NAME {
        return Err(long_name(alloc)?);
    }
    let name = lower_case(alloc, field)?;
    if has_column(columns, &name) {
        return Err(bad_row(row, 2));
    }
    if columns.len() as u64 >= MOST_COLUMNS {
        return Err(many_columns(alloc)?);
    }
    Ok(name)
}

// The type in field 3.
fn column_type(alloc: Global, row: u64, field: &[u8]) -> Result<ColType, ReadFault>
    ensures { Gives result (column_type row field.now) }
{
    let word = lower_case(alloc, field)?;
    match type_of(word.as_slice()) {
        Some(kind) => Ok(kind),
        None => Err(bad_row(row, 3)),
    }
}

// The time column, with a column whose role is in field 4.
fn time_of(
    row: u64,
    time: Option<Str>,
    column: &Str,
    field: &[u8],
) -> Result<Option<Str>, ReadFault>
    ensures { Gives result (time_of row time column.now field.now) }
{
    match field {
        [] => Ok(time),
        [_, ..] => {
            if is_same(field, b"time") && !time.is_some() {
                Ok(Some(column.copy()?))
            } else {
                Err(bad_row(row, 4))
            }
        }
    }
}

// Columns with one more.
fn with_column(columns: Columns, name: Str, kind: ColType) -> Result<Columns, Memory>
    ensures { IfOk result (λ more. more ≡ columns ++ record { name = name; kind = kind } ∷ []) }
{
    let mut columns = columns;
    columns.push(Column { name, kind })?;
    Ok(columns)
}

/// A source with the column that fields 2 to 4 of a record declare.
pub(crate) fn grown(
    alloc: Global,
    row: u64,
    source: Decl,
    column: &[u8],
    kind: &[u8],
    role: &[u8],
) -> Result<Decl, ReadFault>
    ensures { Gives result (grown row source column.now kind.now role.now) }
{
    let column = match column_name(alloc, row, source.columns.as_slice(), column) {
        Ok(column) => column,
        Err(fault) => {
            drop(source);
            return Err(fault);
        }
    };
    let kind = match column_type(alloc, row, kind) {
        Ok(kind) => kind,
        Err(fault) => {
            drop(source);
            drop(column);
            return Err(fault);
        }
    };
    let Decl {
        name,
        columns,
        time,
    } = source;
    let time = match time_of(row, time, &column, role) {
        Ok(time) => time,
        Err(fault) => {
            drop(name);
            drop(columns);
            drop(column);
            return Err(fault);
        }
    };
    match with_column(columns, column, kind) {
        Ok(columns) => Ok(Decl {
            name,
            columns,
            time,
        }),
        Err(_) => {
            drop(name);
            drop(time);
            Err(ReadFault::Memory)
        }
    }
}
