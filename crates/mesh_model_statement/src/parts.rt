// The properties that have been read.
ghost use Rattle.std.specs.Prelude.{◌≡◌, IfOk};
ghost use Rattle.mesh_model_statement.specs.Answers.{GivesAs};
ghost use Rattle.mesh_model_statement.specs.Statement.{no_parts, noted, put, put_name, put_unit, put_start, put_kind, put_cron, put_columns, put_audits, admitted};

use crate::faults::{bad, unknown};
use crate::kinds::{KindText, kind_value};
use crate::values::{columns_value, cron_value, name_of, start_of, unit_of};
use crate::words::{is_one_of, is_property};
use mesh_base_values::{Columns, Cron, Name, Strs, Unit};
use mesh_list::{Duplicate, Memory, Seq};
use mesh_query_grammar::lookahead::is_same;
use mesh_query_tokens::{ReadFault, Token, Tokens};
use std::alloc::Global;

/// The properties of a statement, and the names of all that stand in it. A start is a day counted from 1970-01-01; no
/// columns stand where the property is absent. `audits` are the tokens of that property's value, none where it is
/// absent.
#[derive(Drop)]
pub struct Parts {
    pub seen: Strs,
    pub name: Option<Name>,
    pub kind: Option<KindText>,
    pub cron: Option<Cron>,
    pub unit: Option<Unit>,
    pub start: Option<i32>,
    pub columns: Columns,
    pub audits: Tokens,
}

pub(crate) fn no_parts(alloc: Global) -> Parts
    ensures { result ≡ no_parts }
{
    Parts {
        seen: Seq::new(alloc),
        name: None,
        kind: None,
        cron: None,
        unit: None,
        start: None,
        columns: Seq::new(alloc),
        audits: Seq::new(alloc),
    }
}

fn noted(alloc: Global, parts: &mut Parts, name: &[u8]) -> Result<(), Memory>
    ensures { IfOk result (λ done. parts.new ≡ noted parts.old name.now) }
{
    let name = u8::copy_items(alloc, name)?;
    parts.seen.push(name)?;
    Ok(())
}

/// Adds a property's name, at byte `at`, which is known and was not there before.
pub(crate) fn admitted(
    alloc: Global,
    parts: &mut Parts,
    at: u64,
    name: &[u8],
) -> Result<(), ReadFault>
    ensures { GivesAs (λ done. parts.new) result (admitted parts.old at name.now) }
{
    if !is_property(name) {
        return Err(unknown(alloc, at, name));
    }
    if is_one_of(parts.seen.as_slice(), name) {
        return Err(bad(alloc, at, name));
    }
    Ok(noted(alloc, parts, name)?)
}

fn put_name(alloc: Global, parts: &mut Parts, at: u64, value: &[Token]) -> Result<(), ReadFault>
    ensures { GivesAs (λ done. parts.new) result (put_name parts.old at value.now) }
{
    let Some(name) = name_of(alloc, value)? else {
        return Err(bad(alloc, at, b"name"));
    };
    parts.name = Some(name);
    Ok(())
}

fn put_kind(
    alloc: Global,
    file: &[u8],
    parts: &mut Parts,
    at: u64,
    value: &[Token],
) -> Result<(), ReadFault>
    ensures { GivesAs (λ done. parts.new) result (put_kind file.now parts.old at value.now) }
{
    let kind = kind_value(alloc, file, at, value)?;
    parts.kind = Some(kind);
    Ok(())
}

fn put_cron(alloc: Global, parts: &mut Parts, at: u64, value: &[Token]) -> Result<(), ReadFault>
    ensures { GivesAs (λ done. parts.new) result (put_cron parts.old at value.now) }
{
    let cron = cron_value(alloc, at, value)?;
    parts.cron = Some(cron);
    Ok(())
}

fn put_unit(alloc: Global, parts: &mut Parts, at: u64, value: &[Token]) -> Result<(), ReadFault>
    ensures { GivesAs (λ done. parts.new) result (put_unit parts.old at value.now) }
{
    let Some(unit) = unit_of(value) else {
        return Err(bad(alloc, at, b"interval_unit"));
    };
    parts.unit = Some(unit);
    Ok(())
}

fn put_start(alloc: Global, parts: &mut Parts, at: u64, value: &[Token]) -> Result<(), ReadFault>
    ensures { GivesAs (λ done. parts.new) result (put_start parts.old at value.now) }
{
    let Some(start) = start_of(value) else {
        return Err(bad(alloc, at, b"start"));
    };
    parts.start = Some(start);
    Ok(())
}

fn put_columns(alloc: Global, parts: &mut Parts, at: u64, value: &[Token]) -> Result<(), ReadFault>
    ensures { GivesAs (λ done. parts.new) result (put_columns parts.old at value.now) }
{
    let columns = columns_value(alloc, at, value)?;
    parts.columns = columns;
    Ok(())
}

fn put_audits(alloc: Global, parts: &mut Parts, value: &[Token]) -> Result<(), Memory>
    ensures { IfOk result (λ done. parts.new ≡ put_audits parts.old value.now) }
{
    let audits = Token::copy_items(alloc, value)?;
    parts.audits = audits;
    Ok(())
}

/// Puts in the value of a property in a model's file, which begins at byte `at`.
pub(crate) fn put(
    alloc: Global,
    file: &[u8],
    parts: &mut Parts,
    at: u64,
    name: &[u8],
    value: &[Token],
) -> Result<(), ReadFault>
    ensures { GivesAs (λ done. parts.new) result (put file.now parts.old at name.now value.now) }
{
    if is_same(name, b"name") {
        put_name(alloc, parts, at, value)
    } else if is_same(name, b"kind") {
        put_kind(alloc, file, parts, at, value)
    } else if is_same(name, b"cron") {
        put_cron(alloc, parts, at, value)
    } else if is_same(name, b"interval_unit") {
        put_unit(alloc, parts, at, value)
    } else if is_same(name, b"start") {
        put_start(alloc, parts, at, value)
    } else if is_same(name, b"columns") {
        put_columns(alloc, parts, at, value)
    } else if is_same(name, b"audits") {
        Ok(put_audits(alloc, parts, value)?)
    } else {
        Ok(())
    }
}
