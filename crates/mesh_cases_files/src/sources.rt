// What is printed of the sources that a file declares.
use crate::answers::{put_column, put_count};
use mesh_base::{Decl, Externals};
use mesh_base_values::Column;
use mesh_cases::Pen;

fn is_time(source: &Decl, column: &Column) -> bool {
    match &source.time {
        Some(time) => time.as_slice() == column.name.as_slice(),
        None => false,
    }
}

fn put_source(pen: &mut Pen, source: &Decl) {
    pen.put(source.name.schema.as_slice());
    pen.put(b".");
    pen.put(source.name.model.as_slice());
    pen.put(b":");
    for column in source.columns.as_slice() {
        pen.put(b" ");
        put_column(pen, column);
        pen.put_if(is_time(source, column), b" (time)");
    }
    pen.put(b";");
}

/// Adds each source and its columns.
pub fn put_sources(pen: &mut Pen, sources: &Externals) {
    for (at, source) in sources.as_slice().iter().enumerate() {
        pen.put_if(at > 0, b" ");
        put_source(pen, source);
    }
}

/// Adds how many columns each source has.
pub fn put_sources_size(pen: &mut Pen, sources: &Externals) {
    for source in sources.as_slice() {
        put_count(pen, b"columns", source.columns.len() as u64);
    }
}
