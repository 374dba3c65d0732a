// Columns, and faults of a file.
use mesh_base_values::Column;
use mesh_cases::{Pen, Trouble, kind_word};
use mesh_query_tokens::{FaultKind, ReadFault};

/// Adds a count, and the word of what is counted in front of it.
pub fn put_count(pen: &mut Pen, what: &[u8], count: u64) {
    pen.put(what);
    pen.put(b" ");
    pen.count(count);
}

/// Adds the name of a column and its type.
pub fn put_column(pen: &mut Pen, column: &Column) {
    pen.put(column.name.as_slice());
    pen.word(kind_word(column.kind));
}

fn put_kind(pen: &mut Pen, kind: &FaultKind) -> Result<(), Trouble> {
    if let FaultKind::BadRow { row, field } = kind {
        put_count(pen, b"record", *row);
        put_count(pen, b", field", *field);
        return Ok(());
    }
    if let FaultKind::TooLarge { what, limit } = kind {
        pen.put(what.as_slice());
        put_count(pen, b" past", *limit);
        return Ok(());
    }
    Err(Trouble::Case)
}

/// Adds the record and the field at fault, or the word of a limit.
pub fn put_fault(pen: &mut Pen, fault: &ReadFault) -> Result<(), Trouble> {
    match fault {
        ReadFault::Fault { at: _, kind } => put_kind(pen, kind),
        ReadFault::Memory => Err(Trouble::Memory),
    }
}
