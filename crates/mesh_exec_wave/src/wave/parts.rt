// The rows that workers made, with the numbers of their jobs.
ghost use Rattle.std.specs.Prelude.{◌≡◌, ◌<◌, ◌++◌, ◌∷◌, [], List, length, IfOk, Ok, Some, None, replicate, slice_get};
ghost use Rattle.std.specs.List.{All, flat_map};
ghost use Rattle.std.specs.Option.{option_to_list};
ghost use Rattle.mesh_base_values.specs.declared.values.Cell.{Cell};
ghost use Rattle.mesh_exec_wave.specs.wave.Workers.{part, placed};
ghost use Rattle.mesh_exec_wave.specs.declared.wave.parts.Part.{Part};

use crate::wave::units::Units;
use mesh_base_values::{Rows, RowsList};
use mesh_list::{Memory, Seq};
use std::alloc::Global;

pub(crate) type Parts = Seq<Part>;

/// The rows of the job of that number.
#[derive(Drop)]
pub(crate) struct Part {
    pub(crate) number: usize,
    pub(crate) rows: Rows,
}

/// Puts the rows of one more job behind those that were made.
pub(crate) fn with_part<U: Units>(
    alloc: Global,
    made: Result<Parts, Memory>,
    units: &U,
    number: usize,
) -> Result<Parts, Memory>
    requires { number < length (U.wanted units.now) }
    ensures { IfOk result (λ parts. (before : List Part) × (rows : List (List Cell)) × (made ≡ Ok before) × (slice_get (U.wanted units.now) number ≡ Some rows) × (parts ≡ before ++ part number rows ∷ [])) }
{
    let mut parts = made?;
    let rows = units.rows_of(alloc, number)?;
    parts.push(Part { number, rows })?;
    Ok(parts)
}

/// What two workers made, one after the other.
pub(crate) fn joined(
    left: Result<Parts, Memory>,
    right: Result<Parts, Memory>,
) -> Result<Parts, Memory>
    ensures { IfOk result (λ parts. (first : List Part) × (second : List Part) × (left ≡ Ok first) × (right ≡ Ok second) × (parts ≡ first ++ second)) }
{
    let mut parts = left?;
    parts.append(right?)?;
    Ok(parts)
}

fn no_rows(alloc: Global, count: usize) -> Result<Vec<Option<Rows>>, Memory>
    ensures { IfOk result (λ slots. slots.items ≡ replicate count None) }
{
    let mut slots = Vec::new(alloc);
    for _ in 0..count {
        match slots.push(None) {
            Ok(()) => {}
            Err(_) => return Err(Memory),
        }
    }
    Ok(slots)
}

fn place(slots: &mut Vec<Option<Rows>>, parts: Parts)
    requires { All (λ p. p.number < length slots.old.items) parts }
    ensures { slots.new.items ≡ placed slots.old.items parts }
{
    for part in parts.into_vec() {
        slots[part.number] = Some(part.rows);
    }
}

fn rows_at(alloc: Global, slots: Vec<Option<Rows>>) -> Result<RowsList, Memory>
    ensures { IfOk result (λ made. made ≡ flat_map option_to_list slots.items) }
{
    let mut made = Seq::new(alloc);
    for slot in slots {
        if let Some(rows) = slot {
            made.push(rows)?;
        }
    }
    Ok(made)
}

/// The rows of the parts at their numbers.
pub(crate) fn at_their_numbers(
    alloc: Global,
    parts: Parts,
    count: usize,
) -> Result<RowsList, Memory>
    requires { All (λ p. p.number < count) parts }
    ensures { IfOk result (λ made. made ≡ flat_map option_to_list (placed (replicate count None) parts)) }
{
    let mut slots = no_rows(alloc, count)?;
    place(&mut slots, parts);
    rows_at(alloc, slots)
}
