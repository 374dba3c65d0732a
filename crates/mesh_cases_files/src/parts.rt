// Cells and types of columns on their own, by their canonical texts.
use crate::canon::{Answer, put_answer, refusal, told};
use mesh_canon::canon::{cell_text, read_cell, read_type, type_text};
use mesh_cases::{Pen, Trouble};
use std::alloc::Global;

/// Reads a cell and writes it again.
fn cell_again(alloc: Global, text: &[u8]) -> Result<Answer, Trouble> {
    match read_cell(alloc, text) {
        Ok(cell) => told(text, cell_text(alloc, &cell)),
        Err(fault) => Ok(refusal(fault)),
    }
}

/// Reads a type and writes it again.
fn type_again(alloc: Global, text: &[u8]) -> Result<Answer, Trouble> {
    match read_type(text) {
        Ok(kind) => told(text, type_text(alloc, kind)),
        Err(fault) => Ok(refusal(fault)),
    }
}

/// Makes the call of a word, if it is one of these.
pub fn call(word: &[u8], text: &[u8], pen: &mut Pen) -> Result<bool, Trouble> {
    if word == b"cell".as_slice() {
        put_answer(pen, text, cell_again(pen.alloc(), text)?);
    } else if word == b"type".as_slice() {
        put_answer(pen, text, type_again(pen.alloc(), text)?);
    } else {
        return Ok(false);
    }
    Ok(true)
}
