// Cells as another type, and the texts that are numbers and truths.
use crate::seeds::put_cell_of;
use crate::times::put_found;
use mesh_base_values::Cell;
use mesh_cases::{Pen, Trouble, cell_of, front_word, kind_of};
use mesh_time_days::casts::{cast, lower_case, number_named, truth_named};

fn put_truth(text: &[u8], pen: &mut Pen) -> Result<(), Trouble> {
    match truth_named(pen.alloc(), text)? {
        Some(truth) => put_cell_of(pen, &Cell::Bool(truth)),
        None => put_found(pen, None),
    }
    Ok(())
}

fn put_lower(text: &[u8], pen: &mut Pen) -> Result<(), Trouble> {
    let lower = lower_case(pen.alloc(), text)?;
    pen.shown(lower.as_slice());
    Ok(())
}

fn put_cast(text: &[u8], pen: &mut Pen) -> Result<(), Trouble> {
    let (kind, cell) = front_word(text);
    let kind = kind_of(kind)?;
    let cell = cell_of(pen.alloc(), cell)?;
    let made = cast(pen.alloc(), kind, cell)?;
    put_cell_of(pen, &made);
    Ok(())
}

/// Makes the call of a word, if it is one of these.
pub fn call(word: &[u8], text: &[u8], pen: &mut Pen) -> Result<bool, Trouble> {
    if word == b"number".as_slice() {
        put_found(pen, number_named(text));
    } else if word == b"truth".as_slice() {
        put_truth(text, pen)?;
    } else if word == b"lower".as_slice() {
        put_lower(text, pen)?;
    } else if word == b"cast".as_slice() {
        put_cast(text, pen)?;
    } else {
        return Ok(false);
    }
    Ok(true)
}
