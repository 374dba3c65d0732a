// Faults that are made from their number and what they name.
use crate::notation::number_of;
use mesh_base_values::{Name, Names, Str};
use mesh_cases::{Trouble, halves};
use mesh_list::Duplicate;
use mesh_query_tokens::FaultKind;
use std::alloc::Global;

fn of_a_text(number: u64, name: Str) -> FaultKind {
    match number {
        3 => FaultKind::UnknownProperty { name },
        4 => FaultKind::BadProperty { name },
        6 => FaultKind::UnknownRelation { name },
        7 => FaultKind::UnknownColumn { name },
        8 => FaultKind::Ambiguous { name },
        10 => FaultKind::Duplicate { name },
        15 => FaultKind::TimeColumn { name },
        18 => FaultKind::BadMacro { name },
        _ => FaultKind::Outside { name },
    }
}

fn copied(alloc: Global, part: Option<&[u8]>) -> Result<Str, Trouble> {
    Ok(u8::copy_items(alloc, part.ok_or(Trouble::Case)?)?)
}

/// The name of two parts, with a point between them.
fn name_of(alloc: Global, word: &[u8]) -> Result<Name, Trouble> {
    let mut parts = word.split(|byte| *byte == b'.');
    let schema = copied(alloc, parts.next())?;
    let model = copied(alloc, parts.next())?;
    Ok(Name { schema, model })
}

fn of_a_name(number: u64, name: Name) -> FaultKind {
    match number {
        5 => FaultKind::DuplicateModel { name },
        17 => FaultKind::SourceMissing { name },
        _ => FaultKind::SourceShape { name },
    }
}

fn of_names(alloc: Global, text: &[u8]) -> Result<FaultKind, Trouble> {
    let mut names = Names::new(alloc);
    for word in text.split(|byte| *byte == b' ') {
        names.push(name_of(alloc, word)?)?;
    }
    Ok(FaultKind::Cycle { names })
}

// The byte of a number, and the greatest one of a number that has none.
fn byte_of(number: u64) -> u8 {
    u8::try_from(number).unwrap_or(u8::MAX)
}

fn of_two(number: u64, text: &[u8]) -> Result<FaultKind, Trouble> {
    let (first, second) = halves(text)?;
    let first = number_of(first)?;
    let second = number_of(second)?;
    if number == 16 {
        return Ok(FaultKind::BadRow {
            row: first,
            field: second,
        });
    }
    Ok(FaultKind::FingerprintClash {
        stored: [byte_of(first); 32],
        given: [byte_of(second); 32],
    })
}

fn of_number(alloc: Global, number: u64, text: &[u8]) -> Result<FaultKind, Trouble> {
    match number {
        5 | 17 | 21 => Ok(of_a_name(number, name_of(alloc, text)?)),
        9 => Ok(FaultKind::TypeMismatch),
        11 => Ok(FaultKind::NotGrouped),
        12 => of_names(alloc, text),
        16 | 19 => of_two(number, text),
        _ => Ok(of_a_text(number, u8::copy_items(alloc, text)?)),
    }
}

/// The fault of a number, as it is printed, and of what is behind it.
pub fn kind_of(alloc: Global, text: &[u8]) -> Result<FaultKind, Trouble> {
    let (number, text) = halves(text)?;
    of_number(alloc, number_of(number)?, text)
}
