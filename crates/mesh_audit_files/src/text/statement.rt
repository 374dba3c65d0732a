// The properties of an AUDIT statement, one after the other.
ghost use Rattle.std.specs.Prelude.{◌≡◌, length};
ghost use Rattle.mesh_model_statement.specs.Answers.{GivesAs};
ghost use Rattle.mesh_audit_files.specs.declared.text.heads.Head.{Head as HeadRead};
ghost use Rattle.mesh_audit_files.specs.text.Statement.{audit_word, closes, goes_on, is_any, no_head, one_property, properties, property, statement, valued};

use crate::text::heads::{Head, admitted, no_head, put};
use mesh_base_values::Str;
use mesh_model_statement::{begins, end_of, expect, first_at, is_word, value_size, word};
use mesh_query_grammar::lookahead::is_same;
use mesh_query_tokens::bounds::broken;
use mesh_query_tokens::{ReadFault, Token};
use std::alloc::Global;

fn is_any(name: &[u8]) -> bool
    ensures { result ≡ is_any name.now }
{
    is_same(name, b"dialect")
}

// The value of a property, behind its name, which goes from byte `place` to byte `before`: the end of its last token,
// and the tokens behind it.
fn valued<'a>(
    alloc: Global,
    taken: &[Str],
    head: &mut Head,
    place: u64,
    before: u64,
    name: &[u8],
    tokens: &'a [Token],
) -> Result<(u64, &'a [Token]), ReadFault>
    ensures { GivesAs (λ r. record { head = head.new; before = r.0; rest = r.1.now }) result (valued taken.now head.old place before name.now tokens.now) }
{
    let length = match value_size(alloc, is_any(name), before, tokens) {
        Ok(length) => length,
        Err(fault) => return Err(fault),
    };
    let (value, rest) = tokens.split_at(length);
    match put(alloc, taken, head, place, first_at(tokens), name, value) {
        Ok(()) => Ok((end_of(before, value), rest)),
        Err(fault) => Err(fault),
    }
}

// One property: the end of its last token, and the tokens behind it.
fn property<'a>(
    alloc: Global,
    taken: &[Str],
    head: &mut Head,
    before: u64,
    tokens: &'a [Token],
) -> Result<(u64, &'a [Token]), ReadFault>
    ensures { GivesAs (λ r. record { head = head.new; before = r.0; rest = r.1.now }) result (property taken.now head.old before tokens.now) }
{
    let [first, more @ ..] = tokens else {
        return Err(broken(before));
    };
    let Some(name) = word(first) else {
        return Err(broken(before));
    };
    match admitted(alloc, head, first.start, name) {
        Ok(()) => valued(alloc, taken, head, first.start, first.end, name, more),
        Err(fault) => Err(fault),
    }
}

// The parenthesis behind the last property.
fn closes<'a>(before: u64, tokens: &'a [Token]) -> Result<(bool, u64, &'a [Token]), ReadFault>
    ensures { (h : HeadRead) → GivesAs (λ r. (r.0, record { head = h; before = r.1; rest = r.2.now })) result (closes (record { head = h; before = before; rest = tokens.now })) }
{
    match expect(b")", before, tokens) {
        Ok((end, rest)) => Ok((true, end, rest)),
        Err(fault) => Err(fault),
    }
}

// A comma behind a property, and the parenthesis where that was the last one.
fn goes_on<'a>(before: u64, tokens: &'a [Token]) -> Result<(bool, u64, &'a [Token]), ReadFault>
    ensures { (h : HeadRead) → GivesAs (λ r. (r.0, record { head = h; before = r.1; rest = r.2.now })) result (goes_on (record { head = h; before = before; rest = tokens.now })) }
{
    match expect(b",", before, tokens) {
        Ok((end, rest)) => {
            if begins(b")", rest) {
                closes(end, rest)
            } else {
                Ok((false, end, rest))
            }
        }
        Err(fault) => Err(fault),
    }
}

// One more property, and whether it is the last.
fn one_property<'a>(
    alloc: Global,
    taken: &[Str],
    head: &mut Head,
    before: u64,
    tokens: &'a [Token],
) -> Result<(bool, u64, &'a [Token]), ReadFault>
    ensures { GivesAs (λ r. (r.0, record { head = head.new; before = r.1; rest = r.2.now })) result (one_property taken.now head.old before tokens.now) }
{
    match property(alloc, taken, head, before, tokens) {
        Ok((end, rest)) => {
            if begins(b")", rest) {
                closes(end, rest)
            } else {
                goes_on(end, rest)
            }
        }
        Err(fault) => Err(fault),
    }
}

// The properties, up to the parenthesis that closes them.
fn properties<'a>(
    alloc: Global,
    taken: &[Str],
    head: &mut Head,
    before: u64,
    tokens: &'a [Token],
) -> Result<(u64, &'a [Token]), ReadFault>
    ensures { GivesAs (λ r. record { head = head.new; before = r.0; rest = r.1.now }) result (properties taken.now (length tokens.now) head.old before tokens.now) }
{
    let mut before = before;
    let mut rest = tokens;
    for _ in 0..tokens.len() {
        match one_property(alloc, taken, head, before, rest) {
            Ok((is_last, end, left)) => {
                if is_last {
                    return Ok((end, left));
                }
                before = end;
                rest = left;
            }
            Err(fault) => return Err(fault),
        }
    }
    Err(broken(before))
}

fn audit_word(tokens: &[Token]) -> Result<(u64, &[Token]), ReadFault>
    ensures { GivesAs (λ r. record { head = no_head; before = r.0; rest = r.1.now }) result (audit_word tokens.now) }
{
    match tokens {
        [first, rest @ ..] => {
            if is_word(first, b"audit") {
                Ok((first.end, rest))
            } else {
                Err(broken(0))
            }
        }
        [] => Err(broken(0)),
    }
}

/// The properties of the AUDIT statement that the tokens of a file begin with, the byte at which its semicolon ends,
/// and the tokens behind it, where earlier files have taken these names.
pub(crate) fn read_statement<'a>(
    alloc: Global,
    taken: &[Str],
    tokens: &'a [Token],
) -> Result<(Head, u64, &'a [Token]), ReadFault>
    ensures { GivesAs (λ r. record { head = r.0; before = r.1; rest = r.2.now }) result (statement taken.now tokens.now) }
{
    let (before, rest) = match audit_word(tokens) {
        Ok(found) => found,
        Err(fault) => return Err(fault),
    };
    let (before, rest) = match expect(b"(", before, rest) {
        Ok(found) => found,
        Err(fault) => return Err(fault),
    };
    let mut head = no_head(alloc);
    let (before, rest) = match properties(alloc, taken, &mut head, before, rest) {
        Ok(found) => found,
        Err(fault) => {
            drop(head);
            return Err(fault);
        }
    };
    match expect(b";", before, rest) {
        Ok((before, rest)) => Ok((head, before, rest)),
        Err(fault) => {
            drop(head);
            Err(fault)
        }
    }
}
