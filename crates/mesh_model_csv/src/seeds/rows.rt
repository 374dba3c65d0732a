// The rows of the records under a header.
ghost use Rattle.std.specs.Prelude.{◌≡◌, IfOk, map};
ghost use Rattle.mesh_model_csv.specs.seeds.Cells.{row_of};
ghost use Rattle.mesh_model_csv.specs.seeds.Seeds.{unread_field, record_fault, records_fault};

use crate::seeds::fields::{cell_of, is_read};
use crate::seeds::header::bad_row;
use crate::seeds::records::Record;
use mesh_base_values::{ColType, Row, Rows};
use mesh_list::{Memory, Seq, push_made};
use mesh_query_tokens::ReadFault;
use std::alloc::Global;

// The first field, from 1, that isn't read as its column's type.
fn unread_field(alloc: Global, kinds: &[ColType], fields: &Record) -> Result<Option<u64>, Memory>
    ensures { IfOk result (λ place. place ≡ unread_field 1 kinds.now fields.now) }
{
    for i in 0..kinds.len() {
        let kind = &kinds[i];
        let Some(field) = fields.get(i) else {
            return Ok(None);
        };
        if !is_read(alloc, *kind, field)? {
            return Ok(Some(i as u64 + 1));
        }
    }
    Ok(None)
}

// What is wrong with a record, the header being record 1.
fn record_fault(
    alloc: Global,
    row: u64,
    kinds: &[ColType],
    fields: &Record,
) -> Result<Option<ReadFault>, Memory>
    ensures { IfOk result (λ fault. fault ≡ record_fault row kinds.now fields.now) }
{
    if fields.len() != kinds.len() {
        return Ok(Some(bad_row(row, 0)));
    }
    match unread_field(alloc, kinds, fields)? {
        Some(field) => Ok(Some(bad_row(row, field))),
        None => Ok(None),
    }
}

/// The first fault of the records under the header.
pub(crate) fn records_fault(
    alloc: Global,
    kinds: &[ColType],
    records: &[Record],
) -> Result<Option<ReadFault>, Memory>
    ensures { IfOk result (λ fault. fault ≡ records_fault 2 kinds.now records.now) }
{
    for i in 0..records.len() {
        let record = &records[i];
        match record_fault(alloc, i as u64 + 2, kinds, record)? {
            Some(fault) => return Ok(Some(fault)),
            None => {}
        }
    }
    Ok(None)
}

fn row_of(alloc: Global, kinds: &[ColType], fields: &Record) -> Result<Row, Memory>
    ensures { IfOk result (λ row. row ≡ row_of kinds.now fields.now) }
{
    let mut row: Row = Seq::new(alloc);
    for i in 0..kinds.len() {
        let kind = &kinds[i];
        let Some(field) = fields.get(i) else {
            return Ok(row);
        };
        push_made(&mut row, cell_of(alloc, *kind, field))?;
    }
    Ok(row)
}

pub(crate) fn rows_of(alloc: Global, kinds: &[ColType], records: &[Record]) -> Result<Rows, Memory>
    ensures { IfOk result (λ rows. rows ≡ map (row_of kinds.now) records.now) }
{
    let mut rows: Rows = Seq::new(alloc);
    for record in records {
        push_made(&mut rows, row_of(alloc, kinds, record))?;
    }
    Ok(rows)
}
