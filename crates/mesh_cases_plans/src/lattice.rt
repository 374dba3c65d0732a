// Many models in ranks, each over all of the rank below it.
use mesh_cases::{Pen, Trouble, front_word, number_of};
use std::alloc::Global;

/// Adds the three digits of a number, or more where it has more.
fn put_number(text: &mut Pen, number: i64) {
    text.put_if(number < 100, b"0");
    text.put_if(number < 10, b"0");
    text.number(number);
}

/// Adds the name of a model by its rank and its place in it.
fn put_model(text: &mut Pen, rank: i64, place: i64) {
    text.put(b"m");
    put_number(text, rank);
    text.put(b"_");
    put_number(text, place);
}

/// Adds a model's column, and what stands behind it.
fn put_column(text: &mut Pen, rank: i64, place: i64, rest: &[u8]) {
    put_model(text, rank, place);
    text.put(b".");
    text.put(rest);
}

fn put_join(text: &mut Pen, rank: i64, place: i64) {
    text.put(if place == 0 { b" FROM a." } else { b" JOIN a." });
    put_model(text, rank, place);
    if place > 0 {
        text.put(b" ON ");
        put_column(text, rank, place, b"x = ");
        put_column(text, rank, 0, b"x");
    }
}

fn put_bound(text: &mut Pen, rank: i64, place: i64) {
    text.put(if place == 0 { b" WHERE " } else { b" AND " });
    put_column(text, rank, place, b"d BETWEEN @start_ds AND @end_ds");
}

/// Adds what a model reads: all models of a rank, each over the unit that is asked for.
fn put_parents(text: &mut Pen, width: i64, rank: i64) {
    for place in 0..width {
        put_join(text, rank, place);
    }
    for place in 0..width {
        put_bound(text, rank, place);
    }
}

/// Adds the items of a model.
fn put_items(text: &mut Pen, rank: i64, is_wider: bool) {
    if rank > 0 {
        put_column(text, rank.saturating_sub(1), 0, b"d");
        text.put(b", 1 AS x");
    } else {
        text.put(b"CAST('2024-01-01' AS DATE) AS d, 1 AS x");
    }
    text.put_if(is_wider, b", 2 AS y");
}

const PROPERTIES: &[u8] =
    b", kind INCREMENTAL_BY_TIME_RANGE (time_column d), start '2024-01-01'); SELECT ";

/// The file of a model of a lattice.
pub fn model_text(alloc: Global, width: i64, rank: i64, place: i64, is_wider: bool) -> Pen {
    let mut text = Pen::new(alloc);
    text.put(b"MODEL (name a.");
    put_model(&mut text, rank, place);
    text.put(PROPERTIES);
    put_items(&mut text, rank, is_wider);
    if rank > 0 {
        put_parents(&mut text, width, rank.saturating_sub(1));
    }
    text
}

/// The width and the height that a line says.
pub fn sizes(text: &[u8]) -> Result<(i64, i64), Trouble> {
    let (width, height) = front_word(text);
    Ok((number_of(width)?, number_of(height)?))
}
