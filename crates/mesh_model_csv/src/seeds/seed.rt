// A seed's file.
ghost use Rattle.std.specs.Prelude.{◌≡◌, IfOk, Ok};
ghost use Rattle.std.specs.Option.{option_copied};
ghost use Rattle.mesh_base_values.specs.Picked.{same_text};
ghost use Rattle.mesh_query_tokens.specs.Gives.{Gives};
ghost use Rattle.mesh_model_csv.specs.seeds.Seeds.{declared, declared_kind, are_declared, shape_fault, kinds_found, kinds_declared, kinds, column, columns_of, unless, records_fault, seed_rows, seed_under, seed_of, seed_text};

use crate::seeds::header::{bad_row, header_fault, header_names};
use crate::seeds::records::{Record, records_of};
use crate::seeds::rows::{records_fault, rows_of};
use crate::seeds::types::kind_found;
use mesh_base_values::{ColType, Column, Columns, Seed, Str};
use mesh_list::{Duplicate, Memory, Seq, push_made, together};
use mesh_query_tokens::ReadFault;
use std::alloc::Global;

type Kinds = Seq<ColType>;

fn is_named(column: &Column, name: &Str) -> bool
    ensures { result ≡ same_text column.now.name name.now }
{
    column.name.as_slice().cmp(&name.as_slice()).is_eq()
}

fn declared<'a>(columns: &'a [Column], name: &Str) -> Option<&'a Column>
    ensures { option_copied result ≡ declared columns.now name.now }
{
    columns.iter().find(|column| is_named(column, name))
}

// The type of the declared column of that name.
fn declared_kind(columns: &[Column], name: &Str) -> Option<ColType>
    ensures { result ≡ declared_kind columns.now name.now }
{
    match declared(columns, name) {
        Some(column) => Some(column.kind),
        None => None,
    }
}

fn are_declared(columns: &[Column], names: &[Str]) -> bool
    ensures { result ≡ are_declared columns.now names.now }
{
    let mut each = columns.len() == names.len();
    for name in names {
        each = each && declared_kind(columns, name).is_some();
    }
    each
}

fn shape_fault(columns: &[Column], names: &[Str]) -> Option<ReadFault>
    ensures { result ≡ shape_fault columns.now names.now }
{
    match columns {
        [] => None,
        [_, ..] => {
            if are_declared(columns, names) {
                None
            } else {
                Some(bad_row(1, 0))
            }
        }
    }
}

fn kinds_found(alloc: Global, names: &[Str], records: &[Record]) -> Result<Kinds, Memory>
    ensures { IfOk result (λ kinds. kinds ≡ kinds_found 0 names.now records.now) }
{
    let mut kinds: Kinds = Seq::new(alloc);
    for i in 0..names.len() {
        push_made(&mut kinds, kind_found(alloc, i, records))?;
    }
    Ok(kinds)
}

fn kinds_declared(alloc: Global, columns: &[Column], names: &[Str]) -> Result<Kinds, Memory>
    ensures { IfOk result (λ kinds. kinds ≡ kinds_declared columns.now names.now) }
{
    let mut kinds: Kinds = Seq::new(alloc);
    for name in names {
        kinds.push(declared_kind(columns, name).unwrap_or(ColType::Text))?;
    }
    Ok(kinds)
}

fn kinds_of(
    alloc: Global,
    columns: &[Column],
    names: &[Str],
    records: &[Record],
) -> Result<Kinds, Memory>
    ensures { IfOk result (λ made. made ≡ kinds columns.now names.now records.now) }
{
    match columns {
        [] => kinds_found(alloc, names, records),
        [_, ..] => kinds_declared(alloc, columns, names),
    }
}

fn column(name: &Str, kind: ColType) -> Result<Column, Memory>
    ensures { IfOk result (λ made. made ≡ column name.now kind) }
{
    Ok(Column {
        name: name.copy()?,
        kind,
    })
}

fn columns_of(alloc: Global, names: &[Str], kinds: &Kinds) -> Result<Columns, Memory>
    ensures { IfOk result (λ columns. columns ≡ columns_of names.now kinds.now) }
{
    let mut columns: Columns = Seq::new(alloc);
    for i in 0..names.len() {
        let name = &names[i];
        let Some(kind) = kinds.get(i) else {
            return Ok(columns);
        };
        push_made(&mut columns, column(name, *kind))?;
    }
    Ok(columns)
}

fn seed_rows(
    alloc: Global,
    names: &[Str],
    kinds: &Kinds,
    records: &[Record],
) -> Result<Seed, Memory>
    ensures { IfOk result (λ seed. seed ≡ seed_rows names.now kinds.now records.now) }
{
    let (columns, rows) = together(
        columns_of(alloc, names, kinds),
        rows_of(alloc, kinds.as_slice(), records),
    )?;
    Ok(Seed { columns, rows })
}

// The records under a header, where their columns have these types.
fn seed_as(
    alloc: Global,
    names: &[Str],
    kinds: &Kinds,
    records: &[Record],
) -> Result<Seed, ReadFault>
    ensures { Gives result (unless (records_fault 2 kinds.now records.now) (Ok (seed_rows names.now kinds.now records.now))) }
{
    match records_fault(alloc, kinds.as_slice(), records)? {
        Some(fault) => Err(fault),
        None => Ok(seed_rows(alloc, names, kinds, records)?),
    }
}

// What the header's names and the records under them say.
fn seed_under(
    alloc: Global,
    columns: &[Column],
    names: &[Str],
    records: &[Record],
) -> Result<Seed, ReadFault>
    ensures { Gives result (seed_under columns.now names.now records.now) }
{
    match shape_fault(columns, names) {
        Some(fault) => Err(fault),
        None => {
            let kinds = kinds_of(alloc, columns, names, records)?;
            seed_as(alloc, names, &kinds, records)
        }
    }
}

fn seed_of(alloc: Global, columns: &[Column], records: &[Record]) -> Result<Seed, ReadFault>
    ensures { Gives result (seed_of columns.now records.now) }
{
    match records {
        [] => Err(bad_row(1, 0)),
        [header, under @ ..] => {
            match header_fault(alloc, header)? {
                Some(fault) => Err(fault),
                None => {
                    let names = header_names(alloc, header)?;
                    seed_under(alloc, columns, names.as_slice(), under)
                }
            }
        }
    }
}

/// The columns and rows of a seed's file beside its declared columns, of which there are none where it declares none.
/// Refused is a file that isn't so shaped (`BadRow`: records and fields count from 1, and field 0 is the record's
/// shape), an identifier of more than 128 bytes, or more than 1,024 columns.
pub fn read_seed(bytes: &Str, columns: &Columns) -> Result<Seed, ReadFault>
    ensures { Gives result (seed_text columns.now bytes.now) }
{
    let alloc = bytes.alloc();
    let records = records_of(alloc, bytes.as_slice())?;
    seed_of(alloc, columns.as_slice(), records.as_slice())
}
