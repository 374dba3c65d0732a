// One case: a text that is read, and the rows that it stands for.
use crate::asked::{put_model, query_of, with_query};
use crate::shown::{put_places, put_rows, put_sum};
use crate::words::{Word, expanded};
use mesh_base::{Defn, Input, Inputs, Own, Query, Sources};
use mesh_base_columns::columns_of;
use mesh_base_values::{Bounds, Rows};
use mesh_canon::canon::read_own;
use mesh_cases::{Pen, Trouble, halves};
use mesh_eval::eval;
use mesh_eval_rows::joins::index::distinct_rows;
use mesh_list::{Duplicate, Memory};
use mesh_resolve::Known;
use std::alloc::Global;

/// The second day of 1970.
const DAY: Bounds = Bounds {
    start: 86_400,
    end: 172_800,
};

/// The words and the tables that the lines so far have made, and what is to be printed.
#[derive(Drop)]
pub struct Stage {
    pub words: Vec<Word>,
    pub tables: Inputs,
    pub pen: Pen,
}

/// The text of a model of the schema `a`.
fn model_text(alloc: Global, name: &[u8], body: &[u8]) -> Pen {
    let mut text = Pen::new(alloc);
    text.put(b"(own 1:a ");
    text.put(name);
    text.put(b" (full) 9:0 0 * * * day none [] ");
    text.put(body);
    text.put(b")");
    text
}

fn read(text: &Pen) -> Result<Own, Trouble> {
    text.done()?;
    match read_own(text.alloc(), text.text()) {
        Ok(own) => Ok(own),
        Err(_) => Err(Trouble::Case),
    }
}

/// The definition of a model of the schema `a`, which is written as in canonical text.
fn definition(alloc: Global, name: &[u8], body: &[u8]) -> Result<Own, Trouble> {
    read(&model_text(alloc, name, body))
}

/// The tables, as a query's text may name them.
fn known(alloc: Global, tables: &Inputs) -> Result<Known, Memory> {
    let mut models = Inputs::new(alloc);
    for table in tables.as_slice() {
        put_model(&mut models, &table.name, &table.columns)?;
    }
    Ok(Known {
        models,
        sources: Sources::new(alloc),
        macros: true,
    })
}

/// A definition of the schema `a`, whose body is written as in canonical text or is the text of a query.
fn written(alloc: Global, tables: &Inputs, name: &[u8], body: &[u8]) -> Result<Own, Trouble> {
    if body.starts_with(b"(") {
        return definition(alloc, name, body);
    }
    match query_in(alloc, tables, body) {
        Ok(query) => queried(alloc, name, query),
        Err(trouble) => Err(trouble),
    }
}

fn query_in(alloc: Global, tables: &Inputs, text: &[u8]) -> Result<Query, Trouble> {
    let known = known(alloc, tables)?;
    match query_of(alloc, &known, text) {
        Ok(query) => Ok(query),
        Err(_) => Err(Trouble::Case),
    }
}

fn queried(alloc: Global, name: &[u8], query: Query) -> Result<Own, Trouble> {
    match definition(alloc, name, b"(query [] [])") {
        Ok(own) => Ok(with_query(own, query)),
        Err(trouble) => {
            drop(query);
            Err(trouble)
        }
    }
}

/// The query of an expression.
fn of_expression(alloc: Global, expression: &[u8]) -> Pen {
    let mut text = Pen::new(alloc);
    text.put(b"(query [] [(select all plain [(as 1:x int ");
    text.put(expression);
    text.put(b")] [] none [] none)])");
    text
}

/// The rows of a seed, or those of a query over the tables.
fn rows_of(alloc: Global, tables: &Inputs, own: &Own) -> Result<Rows, Trouble> {
    match &own.defn {
        Defn::Seed { rows, .. } => Ok(rows.copy()?),
        Defn::Sql(query) => Ok(eval(alloc, query, tables.as_slice(), DAY)?),
    }
}

fn put_distinct(pen: &mut Pen, rows: Rows) -> Result<(), Trouble> {
    let kept = distinct_rows(rows)?;
    put_rows(pen, &kept);
    Ok(())
}

impl Stage {
    /// Adds a word.
    fn word(&mut self, alloc: Global, name: &[u8], text: Vec<u8>) -> Result<(), Trouble> {
        let name = Vec::from_slice(alloc, name)?;
        self.words.push(Word { name, text })?;
        Ok(())
    }

    /// Adds a table.
    fn table(&mut self, own: &Own, rows: Rows) -> Result<(), Trouble> {
        let name = own.name.copy()?;
        let columns = columns_of(own)?;
        self.tables.push(Input {
            name,
            columns,
            rows,
        })?;
        Ok(())
    }

    /// Adds the places of rows in the last table.
    fn places(&mut self, rows: &Rows) -> Result<(), Trouble> {
        match self.tables.as_slice() {
            [.., last] => put_places(&mut self.pen, &last.rows, rows),
            [] => Err(Trouble::Case),
        }
    }

    /// Adds what rows show.
    fn rows(&mut self, head: &[u8], rows: Rows) -> Result<(), Trouble> {
        if head.starts_with(b"sum ") {
            put_sum(&mut self.pen, &rows);
            Ok(())
        } else if head.starts_with(b"distinct ") {
            put_distinct(&mut self.pen, rows)
        } else if head.starts_with(b"places ") {
            self.places(&rows)
        } else {
            put_rows(&mut self.pen, &rows);
            Ok(())
        }
    }

    /// Adds the line of a case.
    fn line(&mut self, head: &[u8], rows: Rows) -> Result<(), Trouble> {
        self.pen.put(head);
        self.pen.put(b":");
        self.rows(head, rows)?;
        self.pen.put(b"\n");
        Ok(())
    }

    /// Reads the text of a table, and adds it.
    fn named(&mut self, alloc: Global, name: &[u8], text: &[u8]) -> Result<(), Trouble> {
        match written(alloc, &self.tables, name, text) {
            Ok(own) => self.made(alloc, &own),
            Err(trouble) => Err(trouble),
        }
    }

    /// Adds the table of a definition.
    fn made(&mut self, alloc: Global, own: &Own) -> Result<(), Trouble> {
        let rows = rows_of(alloc, &self.tables, own)?;
        self.table(own, rows)
    }

    /// Reads the text of a case, and adds its line.
    fn case(&mut self, alloc: Global, head: &[u8], text: &[u8]) -> Result<(), Trouble> {
        match written(alloc, &self.tables, b"0:", text) {
            Ok(own) => self.told(alloc, head, &own),
            Err(trouble) => Err(trouble),
        }
    }

    /// Adds the line of a definition's rows.
    fn told(&mut self, alloc: Global, head: &[u8], own: &Own) -> Result<(), Trouble> {
        let rows = rows_of(alloc, &self.tables, own)?;
        self.line(head, rows)
    }

    /// Runs a line whose text stands behind a head.
    fn headed(&mut self, alloc: Global, line: &[u8]) -> Result<(), Trouble> {
        let (head, behind) = halves(line)?;
        let text = expanded(alloc, self.words.as_slice(), behind)?;
        if let Some(name) = head.strip_prefix(b"$") {
            self.word(alloc, name, text)
        } else if let Some(name) = head.strip_prefix(b"table ") {
            self.named(alloc, name, text.as_slice())
        } else {
            self.case(alloc, head, text.as_slice())
        }
    }

    /// Runs a line that is an expression.
    fn expression(&mut self, alloc: Global, line: &[u8]) -> Result<(), Trouble> {
        let text = expanded(alloc, self.words.as_slice(), line)?;
        let query = of_expression(alloc, text.as_slice());
        query.done()?;
        self.case(alloc, line, query.text())
    }

    pub fn run(&mut self, alloc: Global, line: &[u8]) -> Result<(), Trouble> {
        if line.starts_with(b"(") {
            self.expression(alloc, line)
        } else {
            self.headed(alloc, line)
        }
    }
}
