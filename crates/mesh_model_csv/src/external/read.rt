// The file that declares the sources.
ghost use Rattle.std.specs.Prelude.{◌≡◌, [], IfOk};
ghost use Rattle.mesh_query_tokens.specs.Gives.{Gives};
ghost use Rattle.mesh_model_csv.specs.external.Externals.{are_words, words_fault, shape_fault, declare_all, external_of, large_file, external_text};

use crate::external::sources::{Sources, declare, listed};
use crate::seeds::{Record, bad_row, header_fault, header_names, records_of};
use mesh_base::Externals;
use mesh_base_values::{LARGEST_FILE, Str};
use mesh_list::{Duplicate, Memory, Register};
use mesh_query_grammar::lookahead::is_same;
use mesh_query_tokens::{FaultKind, ReadFault};
use std::alloc::Global;

fn are_words(names: &[Str]) -> bool
    ensures { result ≡ are_words names.now }
{
    match names {
        [a, b, c, d] => {
            is_same(a.as_slice(), b"name")
                && is_same(b.as_slice(), b"column")
                && is_same(c.as_slice(), b"type")
                && is_same(d.as_slice(), b"role")
        }
        _ => false,
    }
}

fn words_fault(names: &[Str]) -> Option<ReadFault>
    ensures { result ≡ words_fault names.now }
{
    if are_words(names) {
        None
    } else {
        Some(bad_row(1, 0))
    }
}

// What is wrong with the header.
fn shape_fault(alloc: Global, header: &Record) -> Result<Option<ReadFault>, Memory>
    ensures { IfOk result (λ fault. fault ≡ shape_fault header.now) }
{
    if header.len() != 4 {
        return Ok(Some(bad_row(1, 0)));
    }
    if let Some(fault) = header_fault(alloc, header)? {
        return Ok(Some(fault));
    }
    let names = header_names(alloc, header)?;
    Ok(words_fault(names.as_slice()))
}

// The sources that the records under the header declare.
fn declare_all(alloc: Global, records: &[Record]) -> Result<Sources, ReadFault>
    ensures { Gives result (declare_all 2 [] records.now) }
{
    let mut sources: Sources = Register::new(alloc);
    for i in 0..records.len() {
        sources = declare(alloc, i as u64 + 2, sources, &records[i])?;
    }
    Ok(sources)
}

fn external_of(alloc: Global, records: &[Record]) -> Result<Externals, ReadFault>
    ensures { Gives result (external_of records.now) }
{
    match records {
        [] => Err(bad_row(1, 0)),
        [header, under @ ..] => {
            if let Some(fault) = shape_fault(alloc, header)? {
                return Err(fault);
            }
            let sources = declare_all(alloc, under)?;
            Ok(listed(alloc, sources)?)
        }
    }
}

fn large_file(alloc: Global) -> Result<ReadFault, Memory>
    ensures { IfOk result (λ fault. fault ≡ large_file) }
{
    let what = u8::copy_items(alloc, b"file")?;
    Ok(ReadFault::Fault {
        at: 0,
        kind: FaultKind::TooLarge {
            what,
            limit: LARGEST_FILE,
        },
    })
}

/// The sources that a file declares, in the order of their names. Refused is a file that isn't so shaped (`BadRow`:
/// records and fields count from 1, and field 0 is the record's shape), one of more than 1,048,576 bytes, an identifier
/// of more than 128, or more than 1,024 columns of a source.
pub fn read_external(bytes: &Str) -> Result<Externals, ReadFault>
    ensures { Gives result (external_text bytes.now) }
{
    let alloc = bytes.alloc();
    if bytes.len() as u64 > LARGEST_FILE {
        return Err(large_file(alloc)?);
    }
    let records = records_of(alloc, bytes.as_slice())?;
    external_of(alloc, records.as_slice())
}
