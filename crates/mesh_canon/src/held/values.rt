// Numbers, texts, cells, columns and names.
ghost use Rattle.std.specs.Prelude.{◌≡◌, ◌-◌, ◌^◌, true};
ghost use Rattle.mesh_canon_reading.specs.Fits.{cell_fits, column_fits, name_fits, signed_fits, text_fits};

use crate::held::held::Held;
use mesh_base_values::{Cell, Column, Name};

/// A text lies in memory.
pub fn text_rule(text: &[u8])
    ensures { text_fits text.now ≡ true }
{
    let _length = text.len();
}

/// A number has its type's range.
pub fn signed_rule(number: i64)
    ensures { signed_fits (2 ^ 63 - 1) number ≡ true }
{
    let _number = number;
}

// A day has its type's range.
pub(crate) fn day_rule(day: i32)
    ensures { signed_fits (2 ^ 31 - 1) day ≡ true }
{
    let _day = day;
}

/// A cell fits.
pub fn cell_rule(cell: &Cell)
    ensures { cell_fits cell.now ≡ true }
{
    match cell {
        Cell::Null | Cell::Bool(_) => {}
        Cell::Int(number) => signed_rule(*number),
        Cell::Text(text) => text_rule(text.as_slice()),
        Cell::Date(day) => day_rule(*day),
    }
}

impl Held for Cell {
    ghost fits = { cell_fits };

    fn rule(&self) {
        cell_rule(self)
    }
}

impl Held for Column {
    ghost fits = { column_fits };

    fn rule(&self) {
        text_rule(self.name.as_slice())
    }
}

/// A name fits.
pub fn name_rule(name: &Name)
    ensures { name_fits name.now ≡ true }
{
    text_rule(name.schema.as_slice());
    text_rule(name.model.as_slice())
}
