// The properties of a statement, one after the other.
ghost use Rattle.std.specs.Prelude.{◌≡◌, ◌≤◌, IfOk, length};
ghost use Rattle.mesh_query_tokens.specs.Gives.{Gives};
ghost use Rattle.mesh_model_statement.specs.Answers.{GivesAs};
ghost use Rattle.mesh_model_statement.specs.declared.parts.Parts.{Parts as PartsRead};
ghost use Rattle.mesh_model_statement.specs.Statement.{Read, no_parts, end_of, value_size, valued, property, stands, begins, closes, goes_on, one_property, properties, model_word, statement};

use crate::kinds::first_at;
use crate::look::{is_word, word};
use crate::parts::{Parts, admitted, no_parts, put};
use crate::words::is_free;
use mesh_query_tokens::bounds::{broken, is_sign, value_len};
use mesh_query_tokens::{ReadFault, Token};
use std::alloc::Global;

/// The end of the last of the tokens, or `before` where there is none.
pub fn end_of(before: u64, tokens: &[Token]) -> u64
    ensures { result ≡ end_of before tokens.now }
{
    let mut end = before;
    for token in tokens {
        end = token.end;
    }
    end
}

/// How many tokens a value has, which are one at least.
#[tactic(auto, unfolding(crate::specs::Statement::value_size))]
pub fn value_size(
    alloc: Global,
    any: bool,
    before: u64,
    tokens: &[Token],
) -> Result<usize, ReadFault>
    ensures value { Gives result (value_size any before tokens.now) }
    ensures within { IfOk result (λ n. n ≤ length tokens.now) }
{
    let length = value_len(alloc, any, before, tokens)?;
    if length == 0 {
        Err(broken(before))
    } else {
        Ok(length)
    }
}

// The value of a property, behind its name, which ends at byte `before`: the end of its last token, and the tokens
// behind it.
fn valued<'a>(
    alloc: Global,
    file: &[u8],
    parts: &mut Parts,
    before: u64,
    name: &[u8],
    tokens: &'a [Token],
) -> Result<(u64, &'a [Token]), ReadFault>
    ensures { GivesAs (λ r. record { parts = parts.new; before = r.0; rest = r.1.now }) result (valued file.now parts.old before name.now tokens.now) }
{
    let length = match value_size(alloc, is_free(name), before, tokens) {
        Ok(length) => length,
        Err(fault) => return Err(fault),
    };
    let (value, rest) = tokens.split_at(length);
    match put(alloc, file, parts, first_at(tokens), name, value) {
        Ok(()) => Ok((end_of(before, value), rest)),
        Err(fault) => Err(fault),
    }
}

// One property: the end of its last token, and the tokens behind it.
fn property<'a>(
    alloc: Global,
    file: &[u8],
    parts: &mut Parts,
    before: u64,
    tokens: &'a [Token],
) -> Result<(u64, &'a [Token]), ReadFault>
    ensures { GivesAs (λ r. record { parts = parts.new; before = r.0; rest = r.1.now }) result (property file.now parts.old before tokens.now) }
{
    let [first, more @ ..] = tokens else {
        return Err(broken(before));
    };
    let Some(name) = word(first) else {
        return Err(broken(before));
    };
    match admitted(alloc, parts, first.start, name) {
        Ok(()) => valued(alloc, file, parts, first.end, name, more),
        Err(fault) => Err(fault),
    }
}

/// A sign that has to stand here: its end, and the tokens behind it.
pub fn expect<'a>(
    sign: &[u8],
    before: u64,
    tokens: &'a [Token],
) -> Result<(u64, &'a [Token]), ReadFault>
    ensures { GivesAs (λ r. (r.0, r.1.now)) result (stands sign.now before tokens.now) }
{
    match tokens {
        [first, rest @ ..] => {
            if is_sign(first, sign) {
                Ok((first.end, rest))
            } else {
                Err(broken(before))
            }
        }
        [] => Err(broken(before)),
    }
}

/// Whether the first of the tokens is this sign.
pub fn begins(sign: &[u8], tokens: &[Token]) -> bool
    ensures { result ≡ begins sign.now tokens.now }
{
    match tokens {
        [first, ..] => is_sign(first, sign),
        [] => false,
    }
}

// The parenthesis behind the last property.
fn closes<'a>(before: u64, tokens: &'a [Token]) -> Result<(bool, u64, &'a [Token]), ReadFault>
    ensures { (p : PartsRead) → GivesAs (λ r. (r.0, record { parts = p; before = r.1; rest = r.2.now })) result (closes (record { parts = p; before = before; rest = tokens.now })) }
{
    match expect(b")", before, tokens) {
        Ok((end, rest)) => Ok((true, end, rest)),
        Err(fault) => Err(fault),
    }
}

// A comma behind a property, and the parenthesis where that was the last one.
fn goes_on<'a>(before: u64, tokens: &'a [Token]) -> Result<(bool, u64, &'a [Token]), ReadFault>
    ensures { (p : PartsRead) → GivesAs (λ r. (r.0, record { parts = p; before = r.1; rest = r.2.now })) result (goes_on (record { parts = p; before = before; rest = tokens.now })) }
{
    match expect(b",", before, tokens) {
        Ok((end, rest)) => {
            if begins(b")", rest) {
                closes(end, rest)
            } else {
                Ok((false, end, rest))
            }
        }
        Err(fault) => Err(fault),
    }
}

// One more property, and whether it is the last.
fn one_property<'a>(
    alloc: Global,
    file: &[u8],
    parts: &mut Parts,
    before: u64,
    tokens: &'a [Token],
) -> Result<(bool, u64, &'a [Token]), ReadFault>
    ensures { GivesAs (λ r. (r.0, record { parts = parts.new; before = r.1; rest = r.2.now })) result (one_property file.now parts.old before tokens.now) }
{
    match property(alloc, file, parts, before, tokens) {
        Ok((end, rest)) => {
            if begins(b")", rest) {
                closes(end, rest)
            } else {
                goes_on(end, rest)
            }
        }
        Err(fault) => Err(fault),
    }
}

// The properties, up to the parenthesis that closes them.
fn properties<'a>(
    alloc: Global,
    file: &[u8],
    parts: &mut Parts,
    before: u64,
    tokens: &'a [Token],
) -> Result<(u64, &'a [Token]), ReadFault>
    ensures { GivesAs (λ r. record { parts = parts.new; before = r.0; rest = r.1.now }) result (properties file.now (length tokens.now) parts.old before tokens.now) }
{
    let mut before = before;
    let mut rest = tokens;
    for _ in 0..tokens.len() {
        match one_property(alloc, file, parts, before, rest) {
            Ok((is_last, end, left)) => {
                if is_last {
                    return Ok((end, left));
                }
                before = end;
                rest = left;
            }
            Err(fault) => return Err(fault),
        }
    }
    Err(broken(before))
}

fn model_word(tokens: &[Token]) -> Result<(u64, &[Token]), ReadFault>
    ensures { GivesAs (λ r. record { parts = no_parts; before = r.0; rest = r.1.now }) result (model_word tokens.now) }
{
    match tokens {
        [first, rest @ ..] => {
            if is_word(first, b"model") {
                Ok((first.end, rest))
            } else {
                Err(broken(0))
            }
        }
        [] => Err(broken(0)),
    }
}

/// The properties of the MODEL statement that the tokens of a file begin with, the byte at which its semicolon ends,
/// and the tokens behind it. Places of faults are bytes of the text.
pub fn read_statement<'a>(
    alloc: Global,
    file: &[u8],
    tokens: &'a [Token],
) -> Result<(Parts, u64, &'a [Token]), ReadFault>
    ensures { GivesAs (λ r. record { parts = r.0; before = r.1; rest = r.2.now }) result (statement file.now tokens.now) }
{
    let (before, rest) = match model_word(tokens) {
        Ok(found) => found,
        Err(fault) => return Err(fault),
    };
    let (before, rest) = match expect(b"(", before, rest) {
        Ok(found) => found,
        Err(fault) => return Err(fault),
    };
    let mut parts = no_parts(alloc);
    let (before, rest) = match properties(alloc, file, &mut parts, before, rest) {
        Ok(found) => found,
        Err(fault) => {
            drop(parts);
            return Err(fault);
        }
    };
    match expect(b";", before, rest) {
        Ok((before, rest)) => Ok((parts, before, rest)),
        Err(fault) => {
            drop(parts);
            Err(fault)
        }
    }
}
