// Cells and types of columns on their own, read.
ghost use Rattle.std.specs.Prelude.{◌≡◌, true, IfOk};
ghost use Rattle.mesh_base_values.specs.declared.values.Cell.{Cell};
ghost use Rattle.mesh_base_values.specs.declared.values.ColType.{ColType};
ghost use Rattle.mesh_canon_text.specs.Text.{cell_text, type_word};
ghost use Rattle.mesh_canon_reading.specs.Fits.{cell_fits};
ghost use Rattle.mesh_canon_words.specs.Words.{Gives};
ghost use Rattle.mesh_canon_reading.specs.Reading.{cell_in, type_in};

use crate::canon::same::is_same;
use mesh_base_values::{Cell, ColType};
use mesh_canon_reading::Readable;
use mesh_canon_text::cell_text;
use mesh_canon_words::{CanonFault, column_type};
use std::alloc::Global;

#[tactic(auto, unfolding(mesh_canon_reading::specs::Reading::cell_in))]
fn whole_cell(alloc: Global, bytes: &[u8]) -> Result<Cell, CanonFault>
    ensures { Gives (λ cell. cell) result (cell_in bytes.now) }
{
    let (made, rest) = Cell::read(alloc, bytes)?;
    match rest {
        [] => Ok(made),
        [_, ..] => Err(CanonFault::NotCanonical),
    }
}

/// The cell that has this text.
pub fn read_cell(alloc: Global, text: &[u8]) -> Result<Cell, CanonFault>
    // What is read has this text.
    ensures found { IfOk result (λ cell. text.now ≡ cell_text cell) }
    // A cell that has this text is read, unless memory runs out.
    ensures only { (cell : Cell) → cell_fits cell ≡ true → text.now ≡ cell_text cell → Gives (λ x. x) result (Some cell) }
{
    let made = whole_cell(alloc, text)?;
    let again = cell_text(alloc, &made)?;
    if is_same(again.as_slice(), text) {
        Ok(made)
    } else {
        Err(CanonFault::NotCanonical)
    }
}

#[tactic(auto, unfolding(mesh_canon_reading::specs::Reading::type_in))]
fn whole_type(bytes: &[u8]) -> Option<ColType>
    ensures { result ≡ type_in bytes.now }
{
    match column_type(bytes) {
        Some((kind, [])) => Some(kind),
        _ => None,
    }
}

/// The type that has this text. No memory is wanted.
pub fn read_type(text: &[u8]) -> Result<ColType, CanonFault>
    // What is read has this text.
    ensures found { IfOk result (λ kind. text.now ≡ type_word kind) }
    // A type that has this text is read.
    ensures only { (kind : ColType) → text.now ≡ type_word kind → result ≡ Ok kind }
{
    match whole_type(text) {
        Some(kind) => Ok(kind),
        None => Err(CanonFault::NotCanonical),
    }
}
