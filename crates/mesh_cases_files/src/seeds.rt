// Files that are read: seeds beside their declared columns, and declarations of sources.
use crate::answers::{put_column, put_count, put_fault};
use crate::sources::{put_sources, put_sources_size};
use mesh_base_values::{Cell, ColType, Column, Columns, Row, Seed, Str};
use mesh_cases::{Pen, Trouble, front_word, kind_of, put_cell};
use mesh_list::{Duplicate, Memory, Seq, push_made};
use mesh_model_csv::external::read_external;
use mesh_model_csv::seeds::read_seed;
use std::alloc::Global;

/// The columns that are declared, and what stands in front of each file.
#[derive(Drop)]
pub struct Files {
    alloc: Global,
    columns: Columns,
    front: Vec<u8>,
}

fn column_of(alloc: Global, name: &[u8], kind: ColType) -> Result<Column, Memory> {
    let name = u8::copy_items(alloc, name)?;
    Ok(Column { name, kind })
}

fn columns_of(alloc: Global, text: &[u8]) -> Result<Columns, Trouble> {
    let mut columns: Columns = Seq::new(alloc);
    let mut rest = text;
    for _ in 0..text.len() {
        if rest.is_empty() {
            break;
        }
        let (name, behind) = front_word(rest);
        let (kind, behind) = front_word(behind);
        let kind = kind_of(kind)?;
        push_made(&mut columns, column_of(alloc, name, kind))?;
        rest = behind;
    }
    Ok(columns)
}

/// Adds a cell.
pub fn put_cell_of(pen: &mut Pen, cell: &Cell) {
    let mut text = Vec::new(pen.alloc());
    match put_cell(pen.alloc(), &mut text, cell) {
        Ok(()) => pen.put(text.as_slice()),
        Err(_) => pen.lose(),
    }
}

fn put_row(pen: &mut Pen, row: &Row) {
    pen.put(b";");
    for cell in row.as_slice() {
        pen.put(b" ");
        put_cell_of(pen, cell);
    }
}

fn put_seed(pen: &mut Pen, seed: &Seed) {
    for (at, column) in seed.columns.as_slice().iter().enumerate() {
        pen.put_if(at > 0, b", ");
        put_column(pen, column);
    }
    for row in seed.rows.as_slice() {
        put_row(pen, row);
    }
}

fn put_seed_size(pen: &mut Pen, seed: &Seed) {
    put_count(pen, b"columns", seed.columns.len() as u64);
    put_count(pen, b", rows", seed.rows.len() as u64);
}

impl Files {
    /// No columns are declared, and nothing stands in front of a file.
    pub fn new(alloc: Global) -> Files {
        Files {
            alloc,
            columns: Seq::new(alloc),
            front: Vec::new(alloc),
        }
    }

    /// The bytes of a file.
    fn whole(&self, text: &[u8]) -> Result<Str, Trouble> {
        let mut whole = Vec::from_slice(self.alloc, self.front.as_slice())?;
        whole.extend_from_slice(text)?;
        Ok(Seq::from_vec(whole))
    }

    fn seed(&self, text: &[u8], size: bool, pen: &mut Pen) -> Result<(), Trouble> {
        let whole = self.whole(text)?;
        match read_seed(&whole, &self.columns) {
            Ok(seed) => {
                if size {
                    put_seed_size(pen, &seed);
                } else {
                    put_seed(pen, &seed);
                }
                Ok(())
            }
            Err(fault) => put_fault(pen, &fault),
        }
    }

    fn sources(&self, text: &[u8], size: bool, pen: &mut Pen) -> Result<(), Trouble> {
        let whole = self.whole(text)?;
        match read_external(&whole) {
            Ok(sources) => {
                if size {
                    put_sources_size(pen, &sources);
                } else {
                    put_sources(pen, &sources);
                }
                Ok(())
            }
            Err(fault) => put_fault(pen, &fault),
        }
    }

    /// Makes the change of a word, if it is one of these, and answers whether it is.
    fn change(&mut self, word: &[u8], text: &[u8]) -> Result<bool, Trouble> {
        if word == b"columns".as_slice() {
            self.columns = columns_of(self.alloc, text)?;
        } else if word == b"front".as_slice() {
            self.front = Vec::from_slice(self.alloc, text)?;
        } else {
            return Ok(false);
        }
        Ok(true)
    }

    /// Makes the call of a word, if it is one of these.
    pub fn call(&mut self, word: &[u8], text: &[u8], pen: &mut Pen) -> Result<bool, Trouble> {
        if self.change(word, text)? {
            pen.put(b"done");
        } else if word == b"seed".as_slice() {
            self.seed(text, false, pen)?;
        } else if word == b"seed-size".as_slice() {
            self.seed(text, true, pen)?;
        } else if word == b"sources".as_slice() {
            self.sources(text, false, pen)?;
        } else if word == b"sources-size".as_slice() {
            self.sources(text, true, pen)?;
        } else {
            return Ok(false);
        }
        Ok(true)
    }
}
