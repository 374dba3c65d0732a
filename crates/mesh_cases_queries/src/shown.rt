// How rows, and places of rows, are shown.
use mesh_base_values::{Cell, Row, Rows};
use mesh_cases::{Pen, Trouble};
use mesh_eval_rows::joins::index::{Index, Listed};

fn put_text(pen: &mut Pen, text: &[u8]) {
    pen.put(b"'");
    pen.shown(text);
    pen.put(b"'");
}

fn put_day(pen: &mut Pen, day: i32) {
    pen.put(b"day ");
    pen.number(i64::from(day));
}

fn put_cell(pen: &mut Pen, c: &Cell) {
    match c {
        Cell::Null => pen.put(b"null"),
        Cell::Int(n) => pen.number(*n),
        Cell::Text(text) => put_text(pen, text.as_slice()),
        Cell::Date(day) => put_day(pen, *day),
        Cell::Bool(truth) => pen.put(if *truth { b"true" } else { b"false" }),
    }
}

/// Adds each cell behind a blank.
fn put_row(pen: &mut Pen, row: &Row) {
    for c in row.as_slice() {
        pen.put(b" ");
        put_cell(pen, c);
    }
}

/// Adds each row with a semicolon behind it.
pub fn put_rows(pen: &mut Pen, rows: &Rows) {
    for row in rows.as_slice() {
        put_row(pen, row);
        pen.put(b";");
    }
}

/// The sum of the numbers in rows, by which long answers are told apart.
fn sum(rows: &Rows) -> i64 {
    let mut made = 0i64;
    for row in rows.as_slice() {
        for c in row.as_slice() {
            if let Cell::Int(n) = c {
                made = made.wrapping_add(*n);
            }
        }
    }
    made
}

fn put_count(pen: &mut Pen, count: usize) {
    pen.put(b" ");
    pen.count(count as u64);
}

/// Adds the number of rows, and the sum of their numbers.
pub fn put_sum(pen: &mut Pen, rows: &Rows) {
    put_count(pen, rows.len());
    pen.put(b" ");
    pen.number(sum(rows));
}

/// Adds a row, all places where the index has it, and the first of them.
fn put_places_of(pen: &mut Pen, index: &Index, row: &Row) -> Result<(), Trouble> {
    let mut found = Vec::new(pen.alloc());
    index.find(row.as_slice(), &mut found)?;
    put_row(pen, row);
    pen.put(b" at");
    for place in found.iter() {
        put_count(pen, *place);
    }
    put_first(pen, index.first(row.as_slice()));
    Ok(())
}

fn put_first(pen: &mut Pen, first: Option<usize>) {
    if let Some(place) = first {
        pen.put(b" first");
        put_count(pen, place);
    }
    pen.put(b";");
}

/// Adds the places of each of these rows among others.
pub fn put_places(pen: &mut Pen, among: &Rows, rows: &Rows) -> Result<(), Trouble> {
    let index = Index::new(pen.alloc(), Listed::Each(among.as_slice()))?;
    for row in rows.as_slice() {
        put_places_of(pen, &index, row)?;
    }
    Ok(())
}
