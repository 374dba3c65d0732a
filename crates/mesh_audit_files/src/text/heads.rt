// The properties of an AUDIT statement that have been read.
ghost use Rattle.std.specs.Prelude.{◌≡◌, IfOk, codes};
ghost use Rattle.mesh_model_statement.specs.Answers.{GivesAs};
ghost use Rattle.mesh_model_statement.specs.Views.{seen};
ghost use Rattle.mesh_model_statement.specs.Kinds.{is_one_of};
ghost use Rattle.mesh_audit_files.specs.text.Statement.{admitted, is_flag, no_head, noted, one_word, put, put_flag, put_name, words};

use mesh_base_values::{Str, Strs};
use mesh_list::{Duplicate, Memory, Seq};
use mesh_model_statement::{bad, is_one_of, is_word, outside, unknown, word};
use mesh_query_grammar::lookahead::is_same;
use mesh_query_tokens::{ReadFault, Token};
use std::alloc::Global;

/// The names of all properties that stand in a statement, and the audit's own name.
#[derive(Drop)]
pub struct Head {
    pub seen: Strs,
    pub name: Option<Str>,
}

pub(crate) fn no_head(alloc: Global) -> Head
    ensures { result ≡ no_head }
{
    Head {
        seen: Seq::new(alloc),
        name: None,
    }
}

fn noted(alloc: Global, head: &mut Head, name: &[u8]) -> Result<(), Memory>
    ensures { IfOk result (λ done. head.new ≡ noted head.old name.now) }
{
    let name = u8::copy_items(alloc, name)?;
    head.seen.push(name)?;
    Ok(())
}

fn is_property(name: &[u8]) -> bool
    ensures { result ≡ is_one_of words name.now }
{
    is_same(name, b"name")
        || is_same(name, b"dialect")
        || is_same(name, b"blocking")
        || is_same(name, b"skip")
}

/// Adds a property's name, at byte `at`, which is known and was not there before.
pub(crate) fn admitted(
    alloc: Global,
    head: &mut Head,
    at: u64,
    name: &[u8],
) -> Result<(), ReadFault>
    ensures { GivesAs (λ done. head.new) result (admitted head.old at name.now) }
{
    if !is_property(name) {
        return Err(unknown(alloc, at, name));
    }
    if is_one_of(head.seen.as_slice(), name) {
        return Err(bad(alloc, at, name));
    }
    Ok(noted(alloc, head, name)?)
}

fn one_word(value: &[Token]) -> Option<&[u8]>
    ensures { seen result ≡ one_word value.now }
{
    match value {
        [token] => word(token),
        _ => None,
    }
}

fn put_name(
    alloc: Global,
    taken: &[Str],
    head: &mut Head,
    at: u64,
    value: &[Token],
) -> Result<(), ReadFault>
    ensures { GivesAs (λ done. head.new) result (put_name taken.now head.old at value.now) }
{
    let Some(name) = one_word(value) else {
        return Err(bad(alloc, at, b"name"));
    };
    if is_one_of(taken, name) {
        return Err(bad(alloc, at, b"name"));
    }
    let name = u8::copy_items(alloc, name)?;
    head.name = Some(name);
    Ok(())
}

fn is_flag(flag: &[u8], value: &[Token]) -> bool
    ensures { result ≡ is_flag flag.now value.now }
{
    match value {
        [token] => is_word(token, flag),
        _ => false,
    }
}

fn put_flag(
    alloc: Global,
    kept: &[u8],
    left_out: &[u8],
    head: &mut Head,
    place: u64,
    at: u64,
    name: &[u8],
    value: &[Token],
) -> Result<(), ReadFault>
    ensures { GivesAs (λ done. head.new) result (put_flag kept.now left_out.now head.old place at name.now value.now) }
{
    if is_flag(kept, value) {
        Ok(())
    } else if is_flag(left_out, value) {
        Err(outside(alloc, place, name))
    } else {
        Err(bad(alloc, at, name))
    }
}

/// Adds the value of a property, whose name begins at byte `place` and whose value at byte `at`.
pub(crate) fn put(
    alloc: Global,
    taken: &[Str],
    head: &mut Head,
    place: u64,
    at: u64,
    name: &[u8],
    value: &[Token],
) -> Result<(), ReadFault>
    ensures { GivesAs (λ done. head.new) result (put taken.now head.old place at name.now value.now) }
{
    if is_same(name, b"name") {
        put_name(alloc, taken, head, at, value)
    } else if is_same(name, b"blocking") {
        put_flag(alloc, b"true", b"false", head, place, at, name, value)
    } else if is_same(name, b"skip") {
        put_flag(alloc, b"false", b"true", head, place, at, name, value)
    } else {
        Ok(())
    }
}
