// The form of a kind, which is judged before its entries are.
ghost use Rattle.std.specs.Prelude.{◌≡◌, ◌||◌, [], ◌∷◌, length};
ghost use Rattle.mesh_query_tokens.specs.Gives.{Gives};
ghost use Rattle.mesh_model_statement.specs.Answers.{GivesAs};
ghost use Rattle.mesh_model_statement.specs.Faults.{bad, provided};
ghost use Rattle.mesh_model_statement.specs.Kinds.{one_name, names_from, has_needed, complete, formed, kind_word};

use crate::faults::bad;
use crate::kinds::KindWord;
use crate::look::word;
use crate::values::behind;
use crate::words::{is_needed, needs_none};
use mesh_query_tokens::bounds::{is_sign, value_len};
use mesh_query_tokens::{ReadFault, Token};
use std::alloc::Global;

// The name of an entry, and what stands behind the entry.
fn one_name<'a>(
    alloc: Global,
    at: u64,
    tokens: &'a [Token],
) -> Result<(&'a [u8], &'a [Token]), ReadFault>
    ensures { GivesAs (λ r. (r.0.now, r.1.now)) result (one_name (bad at kind_word) tokens.now) }
{
    let [first, more @ ..] = tokens else {
        return Err(bad(alloc, at, b"kind"));
    };
    let Some(name) = word(first) else {
        return Err(bad(alloc, at, b"kind"));
    };
    let length = match value_len(alloc, true, first.end, more) {
        Ok(length) => length,
        Err(fault) => return Err(fault),
    };
    let (_, rest) = more.split_at(length);
    match behind(rest) {
        Some(rest) => Ok((name, rest)),
        None => Err(bad(alloc, at, b"kind")),
    }
}

// Whether the entry that the kind needs has been found, behind one of this name.
fn is_found(found: bool, kind: KindWord, name: &[u8]) -> bool
    ensures { result ≡ (found || has_needed kind (name.now ∷ [])) }
{
    found || is_needed(kind, name)
}

// The kind, where the entry that it needs has been found or it needs none.
fn found_or_fault(
    alloc: Global,
    at: u64,
    found: bool,
    kind: KindWord,
) -> Result<KindWord, ReadFault>
    ensures { Gives result (provided (found || has_needed kind []) kind (bad at kind_word)) }
{
    if found || needs_none(kind) {
        Ok(kind)
    } else {
        Err(bad(alloc, at, b"kind"))
    }
}

fn formed_from(
    alloc: Global,
    at: u64,
    kind: KindWord,
    tokens: &[Token],
) -> Result<KindWord, ReadFault>
    ensures { Gives result (complete (bad at kind_word) kind (names_from (length tokens.now) (bad at kind_word) tokens.now)) }
{
    let mut found = false;
    let mut rest = tokens;
    for _ in 0..tokens.len() {
        if rest.is_empty() {
            return found_or_fault(alloc, at, found, kind);
        }
        match one_name(alloc, at, rest) {
            Ok((name, left)) => {
                found = is_found(found, kind, name);
                rest = left;
            }
            Err(fault) => return Err(fault),
        }
    }
    if rest.is_empty() {
        found_or_fault(alloc, at, found, kind)
    } else {
        Err(bad(alloc, at, b"kind"))
    }
}

/// The kind, whose word stands at byte `at`, where the tokens behind it have the form of its entries.
pub(crate) fn formed(
    alloc: Global,
    at: u64,
    kind: KindWord,
    tokens: &[Token],
) -> Result<KindWord, ReadFault>
    ensures { Gives result (formed (bad at kind_word) kind tokens.now) }
{
    match tokens {
        [] => found_or_fault(alloc, at, false, kind),
        [_] => Err(bad(alloc, at, b"kind")),
        [begin, inner @ ..] => {
            if is_sign(begin, b"(") {
                formed_from(alloc, at, kind, inner)
            } else {
                Err(bad(alloc, at, b"kind"))
            }
        }
    }
}
