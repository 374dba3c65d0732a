// What the values of properties mean.
ghost use Rattle.std.specs.Prelude.{◌≡◌, IfOk, [], ◌∷◌, length};
ghost use Rattle.std.specs.Option.{option_map};
ghost use Rattle.mesh_query_tokens.specs.Gives.{Gives};
ghost use Rattle.mesh_model_statement.specs.Values.{name_of, start_of, unit_named, unit_of, cron_kind, cron_value, column_of, behind, one_column, columns_from, columns_open, is_among, are_distinct, columns_value, sized, many_columns};
ghost use Rattle.mesh_model_statement.specs.Answers.{Refused};

use crate::faults::bad;
use crate::look::{said, text, word};
use mesh_base_values::{Column, Columns, Cron, MOST_COLUMNS, Name, Unit, is_schema};
use mesh_list::{Duplicate, Memory, Seq};
use mesh_query_grammar::lookahead::{is_same, type_of};
use mesh_query_tokens::bounds::is_sign;
use mesh_query_tokens::{FaultKind, ReadFault, Token, TokenKind};
use mesh_time::read_cron;
use mesh_time_days::casts::day_named;
use std::alloc::Global;

fn two_parts(alloc: Global, schema: &[u8], model: &[u8]) -> Result<Name, Memory>
    ensures { IfOk result (λ made. made ≡ record { schema = schema.now; model = model.now }) }
{
    Ok(Name {
        schema: u8::copy_items(alloc, schema)?,
        model: u8::copy_items(alloc, model)?,
    })
}

fn named(alloc: Global, first: &Token, point: &Token, last: &Token) -> Result<Option<Name>, Memory>
    ensures { IfOk result (λ name. name ≡ name_of (first.now ∷ point.now ∷ last.now ∷ [])) }
{
    let Some(schema) = word(first) else {
        return Ok(None);
    };
    let Some(model) = word(last) else {
        return Ok(None);
    };
    if is_sign(point, b".") && is_schema(schema) {
        Ok(Some(two_parts(alloc, schema, model)?))
    } else {
        Ok(None)
    }
}

/// The name that a value is.
pub(crate) fn name_of(alloc: Global, value: &[Token]) -> Result<Option<Name>, Memory>
    ensures { IfOk result (λ name. name ≡ name_of value.now) }
{
    match value {
        [first, point, last] => named(alloc, first, point, last),
        _ => Ok(None),
    }
}

/// The day that a value is, counted from 1970-01-01.
pub(crate) fn start_of(value: &[Token]) -> Option<i32>
    ensures { result ≡ start_of value.now }
{
    match value {
        [token] => match text(token) {
            Some(found) => day_named(found),
            None => None,
        },
        _ => None,
    }
}

fn unit_named(name: &[u8]) -> Option<Unit>
    ensures { result ≡ unit_named name.now }
{
    if is_same(name, b"hour") {
        Some(Unit::Hour)
    } else if is_same(name, b"day") {
        Some(Unit::Day)
    } else {
        None
    }
}

pub(crate) fn unit_of(value: &[Token]) -> Option<Unit>
    ensures { result ≡ unit_of value.now }
{
    match value {
        [token] => match said(token) {
            Some(name) => unit_named(name),
            None => None,
        },
        _ => None,
    }
}

fn alias(alloc: Global, name: &[u8]) -> Result<Vec<u8>, Memory>
    ensures { IfOk result (λ made. made.items ≡ 64 ∷ name.now) }
{
    let mut text = Vec::new(alloc);
    text.push(b'@')?;
    text.extend_from_slice(name)?;
    Ok(text)
}

fn cron_of(alloc: Global, at: u64, token: &Token) -> Result<Cron, ReadFault>
    ensures { Gives result (cron_kind at token.now.kind) }
{
    match &token.kind {
        TokenKind::Text(found) => match read_cron(found.as_slice()) {
            Ok(cron) => Ok(cron),
            Err(fault) => Err(ReadFault::Fault {
                at,
                kind: FaultKind::BadCron { fault },
            }),
        },
        TokenKind::Macro(name) => {
            let text = alias(alloc, name.as_slice())?;
            match read_cron(text.as_slice()) {
                Ok(cron) => Ok(cron),
                Err(_) => Err(bad(alloc, at, b"cron")),
            }
        }
        _ => Err(bad(alloc, at, b"cron")),
    }
}

pub(crate) fn cron_value(alloc: Global, at: u64, value: &[Token]) -> Result<Cron, ReadFault>
    ensures { Gives result (cron_value at value.now) }
{
    match value {
        [token] => cron_of(alloc, at, token),
        _ => Err(bad(alloc, at, b"cron")),
    }
}

fn column_of(alloc: Global, name: &Token, kind: &Token) -> Result<Option<Column>, Memory>
    ensures { IfOk result (λ column. column ≡ column_of name.now kind.now) }
{
    let Some(name) = word(name) else {
        return Ok(None);
    };
    let Some(kind) = word(kind) else {
        return Ok(None);
    };
    match type_of(kind) {
        Some(kind) => Ok(Some(Column {
            name: u8::copy_items(alloc, name)?,
            kind,
        })),
        None => Ok(None),
    }
}

/// What stands behind an item of a list: nothing where the list is closed.
pub(crate) fn behind(rest: &[Token]) -> Option<&[Token]>
    ensures { option_map (λ r. r.now) result ≡ behind rest.now }
{
    match rest {
        [] => None,
        [sign] => { if is_sign(sign, b")") { Some(&[]) } else { None } }
        [sign, more @ ..] => {
            if is_sign(sign, b",") {
                Some(more)
            } else {
                None
            }
        }
    }
}

// One column, and what stands behind it.
fn one_column<'a>(
    alloc: Global,
    tokens: &'a [Token],
) -> Result<Option<(Column, &'a [Token])>, Memory>
    ensures { IfOk result (λ found. option_map (λ r. (r.0, r.1.now)) found ≡ one_column tokens.now) }
{
    let [name, kind, more @ ..] = tokens else {
        return Ok(None);
    };
    let Some(column) = column_of(alloc, name, kind)? else {
        return Ok(None);
    };
    match behind(more) {
        Some(rest) => Ok(Some((column, rest))),
        None => Ok(None),
    }
}

fn columns_from(alloc: Global, tokens: &[Token]) -> Result<Option<Columns>, Memory>
    ensures { IfOk result (λ columns. columns ≡ columns_from (length tokens.now) [] tokens.now) }
{
    let mut columns: Columns = Seq::new(alloc);
    let mut rest = tokens;
    for _ in 0..tokens.len() {
        if rest.is_empty() {
            return Ok(Some(columns));
        }
        let Some((column, left)) = one_column(alloc, rest)? else {
            return Ok(None);
        };
        columns.push(column)?;
        rest = left;
    }
    if rest.is_empty() {
        return Ok(Some(columns));
    }
    Ok(None)
}

fn is_among(columns: &[Column], name: &[u8]) -> bool
    ensures { result ≡ is_among columns.now name.now }
{
    for column in columns {
        if is_same(column.name.as_slice(), name) {
            return true;
        }
    }
    false
}

fn are_distinct(columns: &[Column]) -> bool
    ensures { result ≡ are_distinct columns.now }
{
    let mut rest = columns;
    for _ in 0..columns.len() {
        let [column, more @ ..] = rest else {
            return true;
        };
        if is_among(more, column.name.as_slice()) {
            return false;
        }
        rest = more;
    }
    true
}

fn many_columns(alloc: Global) -> ReadFault
    ensures { Refused result many_columns }
{
    match u8::copy_items(alloc, b"columns") {
        Ok(what) => ReadFault::Fault {
            at: 0,
            kind: FaultKind::TooLarge {
                what,
                limit: MOST_COLUMNS,
            },
        },
        Err(_) => ReadFault::Memory,
    }
}

fn columns_open(alloc: Global, value: &[Token]) -> Result<Option<Columns>, Memory>
    ensures { IfOk result (λ columns. columns ≡ columns_open value.now) }
{
    match value {
        [] => Ok(None),
        [_] => Ok(None),
        [begin, inner @ ..] => {
            if is_sign(begin, b"(") {
                columns_from(alloc, inner)
            } else {
                Ok(None)
            }
        }
    }
}

fn sized(alloc: Global, at: u64, columns: Option<Columns>) -> Result<Columns, ReadFault>
    ensures { Gives result (sized at columns) }
{
    let Some(columns) = columns else {
        return Err(bad(alloc, at, b"columns"));
    };
    if columns.len() as u64 > MOST_COLUMNS {
        return Err(many_columns(alloc));
    }
    if !are_distinct(columns.as_slice()) {
        return Err(bad(alloc, at, b"columns"));
    }
    Ok(columns)
}

pub(crate) fn columns_value(alloc: Global, at: u64, value: &[Token]) -> Result<Columns, ReadFault>
    ensures { Gives result (columns_value at value.now) }
{
    sized(alloc, at, columns_open(alloc, value)?)
}
