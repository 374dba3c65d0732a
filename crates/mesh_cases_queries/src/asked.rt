// What the text of a query or of a model means, over models and sources that are known.
use crate::cut::cut_at;
use mesh_base::{Defn, Input, Inputs, Own, Query, Sources};
use mesh_base_values::{Columns, Kind, Name, Rows, Seed, Str};
use mesh_canon::canon::{own_text, read_own};
use mesh_cases::{Pen, Trouble};
use mesh_cli_print::faults::fault_line;
use mesh_list::{Duplicate, Memory, both};
use mesh_model::read_model;
use mesh_model_csv::external::read_external;
use mesh_model_statement::model::ModelText;
use mesh_query::parse;
use mesh_query_tokens::{ReadFault, tokens_of};
use mesh_resolve::{Known, own_of, resolve};
use std::alloc::Global;

/// A definition whose query is empty.
const EMPTY: &[u8] = b"(own 1:a 1:x (view) 9:0 0 * * * day none [] (query [] []))";

/// What stands in the text of such a definition before its query's CTEs.
const BEFORE: &[u8] = b"(own 1:a 1:x (view) 9:0 0 * * * day none [] (query ";

/// The models and the sources that the lines so far have made known.
#[derive(Drop)]
pub struct Asked {
    pub known: Known,
}

fn is(head: &[u8], word: &[u8]) -> bool {
    head == word
}

/// The name and the columns of a table, without its rows.
pub fn put_model(models: &mut Inputs, name: &Name, columns: &Columns) -> Result<(), Memory> {
    let (name, columns) = both(name, columns)?;
    let rows = Rows::new(models.alloc());
    models.push(Input {
        name,
        columns,
        rows,
    })
}

/// The query that a text means, or the first fault of the text.
pub fn query_of(alloc: Global, known: &Known, text: &[u8]) -> Result<Query, ReadFault> {
    let tokens = tokens_of(alloc, text)?;
    match parse(&tokens, 0) {
        Ok(surface) => resolve(alloc, &surface, known),
        Err(fault) => Err(fault),
    }
}

/// The seed of a model without rows.
fn seed_of(m: &ModelText) -> Result<Seed, Memory> {
    let columns = m.columns.copy()?;
    let rows = Rows::new(columns.alloc());
    Ok(Seed { columns, rows })
}

/// The definition that a model's file means, or its first fault. No file is read as a seed with a query, or as a
/// model of another kind without one.
fn definition_of(alloc: Global, known: &Known, file: &Str, text: &[u8]) -> Result<Own, ReadFault> {
    match read_model(file, text) {
        Ok(m) => own_by(alloc, known, &m),
        Err(fault) => Err(fault),
    }
}

fn own_by(alloc: Global, known: &Known, m: &ModelText) -> Result<Own, ReadFault> {
    match (&m.kind, &m.query) {
        (Kind::Seed, None) => match seed_of(m) {
            Ok(seed) => own_of(alloc, m, Some(seed), known),
            Err(Memory) => Err(ReadFault::Memory),
        },
        (Kind::Seed, Some(_)) | (_, None) => Err(ReadFault::Memory),
        (_, Some(_)) => own_of(alloc, m, None, known),
    }
}

fn text_of(alloc: Global, own: &Own) -> Result<Str, ReadFault> {
    match own_text(alloc, own) {
        Ok(text) => Ok(text),
        Err(Memory) => Err(ReadFault::Memory),
    }
}

/// The canonical text of that definition.
fn definition_text(
    alloc: Global,
    known: &Known,
    file: &Str,
    text: &[u8],
) -> Result<Str, ReadFault> {
    match definition_of(alloc, known, file, text) {
        Ok(own) => text_of(alloc, &own),
        Err(fault) => Err(fault),
    }
}

/// The canonical text of a definition that has this query.
fn query_text(alloc: Global, query: Query) -> Result<Str, ReadFault> {
    match read_own(alloc, EMPTY) {
        Ok(own) => text_of(alloc, &with_query(own, query)),
        Err(_) => {
            drop(query);
            Err(ReadFault::Memory)
        }
    }
}

/// The definition with this query in the place of its own.
pub fn with_query(own: Own, query: Query) -> Own {
    let mut own = own;
    drop(std::mem::replace(&mut own.defn, Defn::Sql(query)));
    own
}

/// The canonical text of a definition that has the query that a text means, or the text's first fault.
fn resolved_text(alloc: Global, known: &Known, text: &[u8]) -> Result<Str, ReadFault> {
    match query_of(alloc, known, text) {
        Ok(query) => query_text(alloc, query),
        Err(fault) => Err(fault),
    }
}

fn put_line(pen: &mut Pen, line: &[u8]) {
    pen.put(line.strip_suffix(b"\n").unwrap_or(line));
}

/// Adds the line of a fault, without its line feed.
fn put_fault(pen: &mut Pen, file: &[u8], fault: &ReadFault) -> Result<(), Trouble> {
    match fault {
        ReadFault::Fault { at, kind } => {
            let line = fault_line(pen.alloc(), file, *at, kind)?;
            put_line(pen, line.as_slice());
            Ok(())
        }
        ReadFault::Memory => Err(Trouble::Memory),
    }
}

/// Adds what a query is resolved to, in the text of its definition.
fn put_query(pen: &mut Pen, text: &Str) -> Result<(), Trouble> {
    let rest = text.as_slice().strip_prefix(BEFORE).ok_or(Trouble::Case)?;
    pen.put(rest.strip_suffix(b"))").ok_or(Trouble::Case)?);
    Ok(())
}

/// Adds the type and the expression of a query's first item, which is named `x`.
fn put_item(pen: &mut Pen, text: &Str) -> Result<(), Trouble> {
    let (_, behind) = cut_at(text.as_slice(), b"[(as 1:x ")?;
    let (item, _) = cut_at(behind, b")] [(item first")?;
    pen.put(item);
    Ok(())
}

/// Adds what a query's text means.
fn put_answer(pen: &mut Pen, known: &Known, text: &[u8]) -> Result<(), Trouble> {
    match resolved_text(pen.alloc(), known, text) {
        Ok(text) => put_query(pen, &text),
        Err(fault) => put_fault(pen, b"-", &fault),
    }
}

fn put_refusal(pen: &mut Pen, fault: &ReadFault) -> Result<(), Trouble> {
    match fault {
        ReadFault::Memory => {
            pen.put(b"want of memory");
            Ok(())
        }
        ReadFault::Fault { .. } => put_fault(pen, b"-", fault),
    }
}

/// Adds whether a query means something, without what it means.
fn put_verdict(pen: &mut Pen, known: &Known, text: &[u8]) -> Result<(), Trouble> {
    match resolved_text(pen.alloc(), known, text) {
        Ok(_text) => {
            pen.put(b"resolved");
            Ok(())
        }
        Err(fault) => put_refusal(pen, &fault),
    }
}

/// The query of an expression over `a.t`.
fn selected(alloc: Global, expression: &[u8]) -> Pen {
    let mut text = Pen::new(alloc);
    text.put(b"SELECT ");
    text.put(expression);
    text.put(b" AS x FROM a.t");
    text
}

/// Adds what the only item of such a query means.
fn put_selected(pen: &mut Pen, known: &Known, query: &Pen) -> Result<(), Trouble> {
    query.done()?;
    match resolved_text(pen.alloc(), known, query.text()) {
        Ok(text) => put_item(pen, &text),
        Err(fault) => put_fault(pen, b"-", &fault),
    }
}

/// Adds what a model's file means.
fn put_definition(pen: &mut Pen, known: &Known, text: &[u8]) -> Result<(), Trouble> {
    let file = u8::copy_items(pen.alloc(), b"models/m.sql")?;
    match definition_text(pen.alloc(), known, &file, text) {
        Ok(text) => {
            pen.put(text.as_slice());
            Ok(())
        }
        Err(fault) => put_fault(pen, file.as_slice(), &fault),
    }
}

impl Asked {
    pub fn new(alloc: Global) -> Asked {
        Asked {
            known: Known {
                models: Inputs::new(alloc),
                sources: Sources::new(alloc),
                macros: false,
            },
        }
    }

    /// Makes a model known by its file.
    fn model(&mut self, alloc: Global, text: &[u8]) -> Result<(), Trouble> {
        let file = u8::copy_items(alloc, b"models/m.sql")?;
        match read_model(&file, text) {
            Ok(m) => Ok(put_model(&mut self.known.models, &m.name, &m.columns)?),
            Err(_) => Err(Trouble::Case),
        }
    }

    /// Makes the sources known that the text of a file declares.
    fn sources(&mut self, alloc: Global, text: &[u8]) -> Result<(), Trouble> {
        let text = u8::copy_items(alloc, text)?;
        match read_external(&text) {
            Ok(sources) => {
                drop(std::mem::replace(&mut self.known.sources, sources));
                Ok(())
            }
            Err(_) => Err(Trouble::Case),
        }
    }

    /// Adds what the text behind a line's head means.
    pub fn put(&mut self, pen: &mut Pen, head: &[u8], text: &[u8]) -> Result<(), Trouble> {
        self.known.macros = is(head, b"macros") || is(head, b"timed");
        if is(head, b"expr") {
            put_selected(pen, &self.known, &selected(pen.alloc(), text))
        } else if is(head, b"own") || is(head, b"timed") {
            put_definition(pen, &self.known, text)
        } else if is(head, b"read") {
            put_verdict(pen, &self.known, text)
        } else {
            put_answer(pen, &self.known, text)
        }
    }

    /// Takes what a line makes known. Whether it is such a line.
    pub fn takes(&mut self, alloc: Global, head: &[u8], text: &[u8]) -> Result<bool, Trouble> {
        if is(head, b"model") {
            self.model(alloc, text)?;
        } else if is(head, b"sources") {
            self.sources(alloc, text)?;
        } else {
            return Ok(false);
        }
        Ok(true)
    }
}
