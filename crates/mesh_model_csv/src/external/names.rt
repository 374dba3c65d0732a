// The names of sources.
ghost use Rattle.std.specs.Prelude.{◌≡◌, ◌≤◌, IfOk, length};
ghost use Rattle.mesh_query_tokens.specs.Gives.{Gives};
ghost use Rattle.mesh_model_csv.specs.seeds.Headers.{lowered};
ghost use Rattle.mesh_model_csv.specs.external.Externals.{point_len, source_named, two_parts, source_name};

use crate::seeds::{bad_row, long_name};
use mesh_base_values::{LONGEST_NAME, Name, is_identifier, is_schema};
use mesh_list::Memory;
use mesh_query_tokens::ReadFault;
use mesh_time_days::casts::lower_case;
use std::alloc::Global;

fn point_len(field: &[u8]) -> usize
    ensures value { result ≡ point_len field.now }
    ensures within { result ≤ length field.now }
{
    for (i, byte) in field.iter().enumerate() {
        if *byte == b'.' {
            return i;
        }
    }
    field.len()
}

fn made(alloc: Global, schema: &[u8], model: &[u8]) -> Result<Name, Memory>
    ensures { IfOk result (λ name. name ≡ record { schema = lowered schema.now; model = lowered model.now }) }
{
    Ok(Name {
        schema: lower_case(alloc, schema)?,
        model: lower_case(alloc, model)?,
    })
}

fn source_named(alloc: Global, row: u64, schema: &[u8], model: &[u8]) -> Result<Name, ReadFault>
    ensures { Gives result (source_named row schema.now model.now) }
{
    if !(is_identifier(schema) && is_identifier(model)) {
        return Err(bad_row(row, 1));
    }
    if !(schema.len() as u64 <= LONGEST_NAME && model.len() as u64 <= LONGEST_NAME) {
        return Err(long_name(alloc)?);
    }
    if !is_schema(schema) {
        return Err(bad_row(row, 1));
    }
    Ok(made(alloc, schema, model)?)
}

fn two_parts(alloc: Global, row: u64, schema: &[u8], rest: &[u8]) -> Result<Name, ReadFault>
    ensures { Gives result (two_parts row schema.now rest.now) }
{
    match rest {
        [] => Err(bad_row(row, 1)),
        [_, model @ ..] => source_named(alloc, row, schema, model),
    }
}

/// The name `schema.model` in field 1 of a record, in lower case.
pub(crate) fn source_name(alloc: Global, row: u64, field: &[u8]) -> Result<Name, ReadFault>
    ensures { Gives result (source_name row field.now) }
{
    let (schema, rest) = field.split_at(point_len(field));
    two_parts(alloc, row, schema, rest)
}
