// Definitions by their canonical texts.
use crate::line::{Named, Owns};
use mesh_base::{Defn, Own};
use mesh_base_columns::columns_of;
use mesh_base_values::{Columns, Rows, sort_rows};
use mesh_canon::canon::{CanonFault, own_text, read_own};
use mesh_cases::{Pen, Trouble, front_word};
use mesh_list::{Duplicate, Memory, Seq, together};
use std::alloc::Global;
use std::mem::replace;

fn read(alloc: Global, text: &[u8]) -> Result<Own, Trouble> {
    match read_own(alloc, text) {
        Ok(own) => Ok(own),
        Err(CanonFault::NotCanonical) => Err(Trouble::Case),
        Err(CanonFault::Memory) => Err(Trouble::Memory),
    }
}

/// Adds the definition that a line says: the word that calls it, a blank and its text.
pub fn add_own(alloc: Global, owns: &mut Owns, line: &[u8]) -> Result<(), Trouble> {
    let (word, text) = front_word(line);
    let word = u8::copy_items(alloc, word)?;
    let own = read(alloc, text)?;
    owns.push(Named { word, own })?;
    Ok(())
}

fn put_text(pen: &mut Pen, own: &Own) {
    match own_text(pen.alloc(), own) {
        Ok(text) => pen.put(text.as_slice()),
        Err(Memory) => pen.lose(),
    }
}

fn with_defn(own: Own, defn: Defn) -> Own {
    let mut own = own;
    drop(replace(&mut own.defn, defn));
    own
}

fn put_copy(pen: &mut Pen, own: &Own, defn: Defn) {
    match own.copy() {
        Ok(copied) => put_text(pen, &with_defn(copied, defn)),
        Err(Memory) => {
            drop(defn);
            pen.lose();
        }
    }
}

/// Adds the text of a definition with these columns and rows as its seed.
fn put_seed(pen: &mut Pen, own: &Own, seed: Result<(Columns, Rows), Memory>) {
    match seed {
        Ok((columns, rows)) => put_copy(pen, own, Defn::Seed { columns, rows }),
        Err(Memory) => pen.lose(),
    }
}

/// Adds the text of a definition with its columns in place of its query.
pub fn put_columns_of(pen: &mut Pen, own: &Own) {
    let none = Seq::new(pen.alloc());
    put_seed(pen, own, together(columns_of(own), Ok(none)));
}

fn sorted(rows: &Rows) -> Result<Rows, Memory> {
    sort_rows(rows.copy()?)
}

/// Adds the text of a seed whose rows are sorted.
pub fn put_sorted(pen: &mut Pen, own: &Own) -> Result<(), Trouble> {
    match &own.defn {
        Defn::Seed { columns, rows } => {
            put_seed(pen, own, together(columns.copy(), sorted(rows)));
            Ok(())
        }
        Defn::Sql(_) => Err(Trouble::Case),
    }
}
