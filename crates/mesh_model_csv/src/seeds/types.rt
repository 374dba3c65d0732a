// The types of columns that aren't declared.
ghost use Rattle.std.specs.Prelude.{◌≡◌, IfOk, List, ℕ, length};
ghost use Rattle.mesh_model_csv.specs.seeds.Cells.{is_used, are_read, kind_found};

use crate::seeds::fields::{is_filled, is_read};
use crate::seeds::records::Record;
use mesh_base_values::ColType;
use mesh_list::Memory;
use std::alloc::Global;

fn is_used(column: usize, records: &[Record]) -> bool
    ensures { result ≡ is_used column records.now }
{
    let mut used = false;
    for record in records {
        used = used || is_filled(record.field(column));
    }
    used
}

fn are_read(alloc: Global, kind: ColType, column: usize, records: &[Record]) -> Result<bool, Memory>
    ensures { IfOk result (λ found. found ≡ are_read kind column records.now) }
{
    let mut read = true;
    for record in records {
        read = read && is_read(alloc, kind, record.field(column))?;
    }
    Ok(read)
}

/// The type of the column at a place from 0.
pub(crate) fn kind_found(
    alloc: Global,
    column: usize,
    records: &[Record],
) -> Result<ColType, Memory>
    ensures { IfOk result (λ kind. kind ≡ kind_found column records.now) }
{
    if !is_used(column, records) {
        return Ok(ColType::Text);
    }
    if are_read(alloc, ColType::Int, column, records)? {
        return Ok(ColType::Int);
    }
    if are_read(alloc, ColType::Date, column, records)? {
        return Ok(ColType::Date);
    }
    Ok(ColType::Text)
}
