// What a field is as a cell.
ghost use Rattle.std.specs.Prelude.{◌≡◌, IfOk, MatchOption};
ghost use Rattle.mesh_model_csv.specs.seeds.Cells.{is_utf8, is_filled, is_empty_text, has_value, is_read, value_of, cell_of};

use mesh_base_values::{Cell, ColType};
use mesh_list::{Duplicate, Memory};
use mesh_time_days::casts::{day_named, number_named, truth_named};
use std::alloc::Global;

fn is_utf8(bytes: &[u8]) -> bool
    ensures { result ≡ is_utf8 bytes.now }
{
    std::str::from_utf8(bytes).is_ok()
}

pub(crate) fn is_filled(field: &[u8]) -> bool
    ensures { result ≡ is_filled field.now }
{
    match field {
        [] => false,
        [_, ..] => true,
    }
}

fn has_value(alloc: Global, kind: ColType, field: &[u8]) -> Result<bool, Memory>
    ensures { IfOk result (λ found. found ≡ has_value kind field.now) }
{
    match kind {
        ColType::Int => Ok(number_named(field).is_some()),
        ColType::Text => Ok(is_utf8(field)),
        ColType::Date => Ok(day_named(field).is_some()),
        ColType::Bool => Ok(truth_named(alloc, field)?.is_some()),
    }
}

/// Whether a field is empty or has a value of the type.
pub(crate) fn is_read(alloc: Global, kind: ColType, field: &[u8]) -> Result<bool, Memory>
    ensures { IfOk result (λ found. found ≡ is_read kind field.now) }
{
    match field {
        [] => Ok(true),
        [_, ..] => has_value(alloc, kind, field),
    }
}

fn value_of(alloc: Global, kind: ColType, field: &[u8]) -> Result<Cell, Memory>
    ensures { IfOk result (λ cell. cell ≡ value_of kind field.now) }
{
    match kind {
        ColType::Int => match number_named(field) {
            Some(n) => Ok(Cell::Int(n)),
            None => Ok(Cell::Null),
        },
        ColType::Text => Ok(Cell::Text(u8::copy_items(alloc, field)?)),
        ColType::Date => match day_named(field) {
            Some(day) => Ok(Cell::Date(day)),
            None => Ok(Cell::Null),
        },
        ColType::Bool => match truth_named(alloc, field)? {
            Some(b) => Ok(Cell::Bool(b)),
            None => Ok(Cell::Null),
        },
    }
}

/// The cell of a field that is read as the type; an empty field is NULL.
pub(crate) fn cell_of(alloc: Global, kind: ColType, field: &[u8]) -> Result<Cell, Memory>
    ensures { IfOk result (λ cell. cell ≡ cell_of kind field.now) }
{
    match field {
        [] => Ok(Cell::Null),
        [_, ..] => value_of(alloc, kind, field),
    }
}
