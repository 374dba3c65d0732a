// What the libraries answer to a text, in print.
use crate::faults::kind_of;
use crate::notation::number_of;
use crate::parts::{put_model, put_parts};
use crate::query::put_query;
use crate::refusals::{put_fault, put_fault_of};
use crate::tokens::put_each;
use mesh_base_values::Str;
use mesh_cases::{Pen, Trouble, halves};
use mesh_list::{Duplicate, Same};
use mesh_model::read_model;
use mesh_model_statement::read_statement;
use mesh_query::parse;
use mesh_query_tokens::{ReadFault, Tokens, tokens_of};
use std::alloc::Global;

/// The tokens of a text that has no fault among them.
fn plain(alloc: Global, text: &[u8]) -> Result<Tokens, Trouble> {
    match tokens_of(alloc, text) {
        Ok(tokens) => Ok(tokens),
        Err(ReadFault::Fault { .. }) => Err(Trouble::Case),
        Err(ReadFault::Memory) => Err(Trouble::Memory),
    }
}

/// The tokens of a text, which are copied first.
pub fn put_tokens(alloc: Global, pen: &mut Pen, text: &[u8]) -> Result<(), Trouble> {
    match tokens_of(alloc, text) {
        Ok(found) => {
            let copied = found.copy()?;
            pen.put_if(!copied.same(&found), b" another copy:");
            put_each(pen, &copied);
            pen.put(b"\n");
        }
        Err(fault) => put_fault(pen, &fault),
    }
    Ok(())
}

fn put_tree_from(alloc: Global, pen: &mut Pen, text: &[u8], from: u32) -> Result<(), Trouble> {
    match parse(&plain(alloc, text)?, from) {
        Ok(query) => {
            pen.put(b" ");
            put_query(pen, &query);
            pen.put(b"\n");
        }
        Err(fault) => put_fault(pen, &fault),
    }
    Ok(())
}

/// The tree of a query.
pub fn put_tree(alloc: Global, pen: &mut Pen, text: &[u8]) -> Result<(), Trouble> {
    put_tree_from(alloc, pen, text, 0)
}

/// The tree of a query that begins at a token behind others.
pub fn put_tree_behind(alloc: Global, pen: &mut Pen, text: &[u8]) -> Result<(), Trouble> {
    let (from, text) = halves(text)?;
    let from = u32::try_from(number_of(from)?).map_err(|_| Trouble::Case)?;
    put_tree_from(alloc, pen, text, from)
}

/// Whether a query is read.
pub fn put_limit(alloc: Global, pen: &mut Pen, text: &[u8]) -> Result<(), Trouble> {
    match parse(&plain(alloc, text)?, 0) {
        Ok(_) => pen.put(b" read\n"),
        Err(fault) => put_fault(pen, &fault),
    }
    Ok(())
}

/// The properties of a statement in `models/m/a.sql`.
pub fn put_statement(alloc: Global, pen: &mut Pen, text: &[u8]) -> Result<(), Trouble> {
    let tokens = plain(alloc, text)?;
    match read_statement(alloc, b"models/m/a.sql", tokens.as_slice()) {
        Ok((parts, end, rest)) => {
            put_parts(pen, &parts, end, rest.len());
            pen.put(b"\n");
        }
        Err(fault) => put_fault(pen, &fault),
    }
    Ok(())
}

fn file_of_models(alloc: Global) -> Result<Str, Trouble> {
    Ok(u8::copy_items(alloc, b"models/a.sql")?)
}

/// The model of the file `models/a.sql`.
pub fn put_model_file(alloc: Global, pen: &mut Pen, text: &[u8]) -> Result<(), Trouble> {
    match read_model(&file_of_models(alloc)?, text) {
        Ok(model) => {
            put_model(pen, &model);
            pen.put(b"\n");
        }
        Err(fault) => put_fault(pen, &fault),
    }
    Ok(())
}

/// What a cut file is answered.
fn outcome(alloc: Global, file: &Str, text: &[u8]) -> Pen {
    let mut pen = Pen::new(alloc);
    match read_model(file, text) {
        Ok(_) => pen.put(b" read\n"),
        Err(fault) => put_fault(&mut pen, &fault),
    }
    pen
}

/// A file that is cut behind 0 bytes, behind 1 and so on: each length from which on something else is answered, and
/// that.
pub fn put_cuts(alloc: Global, pen: &mut Pen, text: &[u8]) -> Result<(), Trouble> {
    let file = file_of_models(alloc)?;
    let mut last = Pen::new(alloc);
    for length in 0..text.len().saturating_add(1) {
        let found = outcome(alloc, &file, text.get(..length).ok_or(Trouble::Case)?);
        found.done()?;
        if found.text() != last.text() {
            pen.put_if(length > 0, b"   ");
            pen.put(b" ");
            pen.count(length as u64);
            pen.put(found.text());
        }
        last = found;
    }
    Ok(())
}

/// The line of a fault at byte 10 of `models/m.sql`.
pub fn put_fault_line(alloc: Global, pen: &mut Pen, text: &[u8]) -> Result<(), Trouble> {
    put_fault_of(pen, b"models/m.sql", 10, &kind_of(alloc, text)?);
    Ok(())
}
