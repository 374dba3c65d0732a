// The names of a header.
ghost use Rattle.std.specs.Prelude.{◌≡◌, ◌+◌, ◌++◌, ◌∷◌, [], IfOk, MatchOption, length, drop, Result, Ok, Err};
ghost use Rattle.mesh_base_values.specs.Picked.{same_text};
ghost use Rattle.mesh_model_csv.specs.seeds.Headers.{bad_row, long_name, many_columns, lowered, is_among, name_fault, names_fault, header_fault, header_names};

use crate::seeds::records::Record;
use mesh_base_values::{LONGEST_NAME, MOST_COLUMNS, Str, Strs, is_identifier};
use mesh_list::{Duplicate, Memory, Seq, push_made};
use mesh_query_tokens::{FaultKind, ReadFault};
use mesh_time_days::casts::lower_case;
use std::alloc::Global;

/// Field `field` of record `row`, both from 1, breaks a rule, or the record's shape does where `field` is 0.
pub fn bad_row(row: u64, field: u64) -> ReadFault
    ensures { result ≡ bad_row row field }
{
    ReadFault::Fault {
        at: 0,
        kind: FaultKind::BadRow { row, field },
    }
}

/// An identifier has more than 128 bytes.
pub fn long_name(alloc: Global) -> Result<ReadFault, Memory>
    ensures { IfOk result (λ fault. fault ≡ long_name) }
{
    let what = u8::copy_items(alloc, b"name")?;
    Ok(ReadFault::Fault {
        at: 0,
        kind: FaultKind::TooLarge {
            what,
            limit: LONGEST_NAME,
        },
    })
}

/// There are more than 1,024 columns.
pub fn many_columns(alloc: Global) -> Result<ReadFault, Memory>
    ensures { IfOk result (λ fault. fault ≡ many_columns) }
{
    let what = u8::copy_items(alloc, b"columns")?;
    Ok(ReadFault::Fault {
        at: 0,
        kind: FaultKind::TooLarge {
            what,
            limit: MOST_COLUMNS,
        },
    })
}

fn is_among(names: &[Str], name: &Str) -> bool
    ensures { result ≡ is_among names.now name.now }
{
    let mut found = false;
    for other in names {
        found = found || name.as_slice().cmp(&other.as_slice()).is_eq();
    }
    found
}

// What is wrong with a field of the header, from 1, behind the names before it.
fn name_fault(
    alloc: Global,
    before: &[Str],
    place: u64,
    field: &[u8],
    name: &Str,
) -> Result<Option<ReadFault>, Memory>
    requires { name.now ≡ lowered field.now }
    ensures { IfOk result (λ fault. fault ≡ name_fault before.now place field.now) }
{
    if !is_identifier(field) {
        return Ok(Some(bad_row(1, place)));
    }
    if field.len() as u64 > LONGEST_NAME {
        return Ok(Some(long_name(alloc)?));
    }
    if is_among(before, name) {
        return Ok(Some(bad_row(1, place)));
    }
    if place > MOST_COLUMNS {
        return Ok(Some(many_columns(alloc)?));
    }
    Ok(None)
}

// The first fault of the header's fields, whose names are these.
fn names_fault(alloc: Global, names: &[Str], header: &Record) -> Result<Option<ReadFault>, Memory>
    requires { names.now ≡ header_names header.now }
    ensures { IfOk result (λ fault. fault ≡ header_fault header.now) }
{
    for i in 0..names.len() {
        let name = &names[i];
        let field = header.field(i);
        match name_fault(alloc, &names[..i], i as u64 + 1, field, name)? {
            Some(fault) => return Ok(Some(fault)),
            None => {}
        }
    }
    Ok(None)
}

/// The first fault of the header's names.
pub fn header_fault(alloc: Global, header: &Record) -> Result<Option<ReadFault>, Memory>
    ensures { IfOk result (λ fault. fault ≡ header_fault header.now) }
{
    let names = header_names(alloc, header)?;
    names_fault(alloc, names.as_slice(), header)
}

/// The names, in lower case.
pub fn header_names(alloc: Global, header: &Record) -> Result<Strs, Memory>
    ensures { IfOk result (λ names. names ≡ header_names header.now) }
{
    let mut names: Strs = Seq::new(alloc);
    for i in 0..header.len() {
        push_made(&mut names, lower_case(alloc, header.field(i)))?;
    }
    Ok(names)
}
