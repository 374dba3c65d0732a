// What the value of `kind` means.
ghost use Rattle.std.specs.Prelude.{◌≡◌, IfOk, length, map};
ghost use Rattle.std.specs.Char.{to_ascii_uppercase};
ghost use Rattle.mesh_query_tokens.specs.Gives.{Gives};
ghost use Rattle.mesh_model_statement.specs.Faults.{bad};
ghost use Rattle.mesh_model_statement.specs.Kinds.{kind_or_fault, first_at, path_text, time_word, is_day_format, is_false, is_idle, noted, file_named, with_path, with_time, with_lookback, entry_value, entry, entry_behind, one_entry, entries_from, no_entries, entries_in, plain, seed, incremental, whole, kind_value, kind_word};
ghost use Rattle.mesh_model_statement.specs.Answers.{GivesAs};
ghost use Rattle.mesh_model_statement.specs.Values.{text as text_of};
ghost use Rattle.mesh_model_statement.specs.Views.{seen};

use crate::faults::{bad, outside, unknown};
use crate::forms::formed;
use crate::look::{is_number, is_word, text, word};
use crate::values::behind;
use crate::words::{is_entry, is_left_out, is_one_of, kind_named};
use mesh_base_values::{Kind, Str, Strs};
use mesh_list::{Duplicate, Memory, Seq};
use mesh_query_grammar::lookahead::is_same;
use mesh_query_tokens::bounds::{file_at, is_sign, lookback_number, value_len};
use mesh_query_tokens::{ReadFault, Token};
use std::alloc::Global;

/// The word of a kind.
#[derive(Clone, Copy, PartialEq, Eq)]
pub enum KindWord {
    Full,
    View,
    Seed,
    Incremental,
}

/// The entries of a kind, and the names of all that have been read.
#[derive(Drop)]
pub struct Entries {
    pub seen: Strs,
    pub path: Option<Str>,
    pub path_at: u64,
    pub time: Option<Str>,
    pub lookback: u32,
}

/// A kind, and for a SEED the path of its file in the project and the byte at which that text begins.
#[derive(Drop)]
pub struct KindText {
    pub kind: Kind,
    pub path: Option<Str>,
    pub path_at: u64,
}

fn upper(alloc: Global, word: &[u8]) -> Result<Str, Memory>
    ensures { IfOk result (λ made. made ≡ map to_ascii_uppercase word.now) }
{
    Ok(Seq::from_vec(word.to_ascii_uppercase(alloc)?))
}

fn kind_or_fault(alloc: Global, at: u64, word: &[u8]) -> Result<KindWord, ReadFault>
    ensures { Gives result (kind_or_fault at word.now) }
{
    if is_left_out(word) {
        let name = upper(alloc, word)?;
        return Err(outside(alloc, at, name.as_slice()));
    }
    match kind_named(word) {
        Some(kind) => Ok(kind),
        None => Err(bad(alloc, at, b"kind")),
    }
}

/// The byte at which the first token begins, and 0 where there is none.
pub fn first_at(value: &[Token]) -> u64
    ensures { result ≡ first_at value.now }
{
    match value {
        [] => 0,
        [token, ..] => token.start,
    }
}

fn path_text(value: &[Token]) -> Option<&[u8]>
    ensures { seen result ≡ path_text value.now }
{
    match value {
        [token] => text(token),
        _ => None,
    }
}

fn is_day_format(format: &Token) -> bool
    ensures { result ≡ is_day_format (text_of format.now) }
{
    match text(format) {
        None => false,
        Some(found) => is_same(found, b"%Y-%m-%d"),
    }
}

fn time_word(value: &[Token]) -> Option<&[u8]>
    ensures { seen result ≡ time_word value.now }
{
    match value {
        [token] => word(token),
        [begin, token, comma, format, close] => {
            if is_sign(begin, b"(")
                && is_sign(comma, b",")
                && is_day_format(format)
                && is_sign(close, b")")
            {
                word(token)
            } else {
                None
            }
        }
        _ => None,
    }
}

fn is_false(value: &[Token]) -> bool
    ensures { result ≡ is_false value.now }
{
    match value {
        [token] => is_word(token, b"false"),
        _ => false,
    }
}

// Whether an entry that means nothing has the one value that it may have.
fn is_idle(name: &[u8], value: &[Token]) -> bool
    ensures { result ≡ is_idle name.now value.now }
{
    if is_same(name, b"batch_size") {
        is_number(value, 1)
    } else {
        is_false(value)
    }
}

fn noted(alloc: Global, entries: &mut Entries, name: &[u8]) -> Result<(), Memory>
    ensures { IfOk result (λ done. entries.new ≡ noted entries.old name.now) }
{
    let name = u8::copy_items(alloc, name)?;
    entries.seen.push(name)?;
    Ok(())
}

// The file of the project that a path in a model's file names.
fn file_named(alloc: Global, file: &[u8], path: Option<&[u8]>) -> Result<Option<Str>, Memory>
    ensures { IfOk result (λ found. found ≡ file_named file.now (seen path.entry)) }
{
    match path {
        None => Ok(None),
        Some(path) => file_at(alloc, file, path),
    }
}

fn with_path(
    alloc: Global,
    file: &[u8],
    entries: &mut Entries,
    name: &[u8],
    value: &[Token],
) -> Result<(), ReadFault>
    ensures { GivesAs (λ done. entries.new) result (with_path file.now entries.old name.now value.now) }
{
    let at = first_at(value);
    let Some(path) = file_named(alloc, file, path_text(value))? else {
        return Err(bad(alloc, at, name));
    };
    entries.path = Some(path);
    entries.path_at = at;
    Ok(())
}

fn with_time(
    alloc: Global,
    entries: &mut Entries,
    name: &[u8],
    value: &[Token],
) -> Result<(), ReadFault>
    ensures { GivesAs (λ done. entries.new) result (with_time entries.old name.now value.now) }
{
    let Some(time) = time_word(value) else {
        return Err(bad(alloc, first_at(value), name));
    };
    let time = u8::copy_items(alloc, time)?;
    entries.time = Some(time);
    Ok(())
}

fn with_lookback(
    alloc: Global,
    entries: &mut Entries,
    name: &[u8],
    value: &[Token],
) -> Result<(), ReadFault>
    ensures { GivesAs (λ done. entries.new) result (with_lookback entries.old name.now value.now) }
{
    let Some(lookback) = lookback_number(value) else {
        return Err(bad(alloc, first_at(value), name));
    };
    entries.lookback = lookback;
    Ok(())
}

fn entry_value(
    alloc: Global,
    file: &[u8],
    entries: &mut Entries,
    at: u64,
    name: &[u8],
    value: &[Token],
) -> Result<(), ReadFault>
    ensures { GivesAs (λ done. entries.new) result (entry_value file.now entries.old at name.now value.now) }
{
    if is_same(name, b"path") {
        return with_path(alloc, file, entries, name, value);
    }
    if is_same(name, b"time_column") {
        return with_time(alloc, entries, name, value);
    }
    if is_same(name, b"lookback") {
        return with_lookback(alloc, entries, name, value);
    }
    if is_idle(name, value) {
        Ok(())
    } else {
        Err(outside(alloc, at, name))
    }
}

// An entry of a kind, whose name begins at byte `at`.
fn entry(
    alloc: Global,
    file: &[u8],
    kind: KindWord,
    entries: &mut Entries,
    at: u64,
    name: &[u8],
    value: &[Token],
) -> Result<(), ReadFault>
    ensures { GivesAs (λ done. entries.new) result (entry file.now kind entries.old at name.now value.now) }
{
    if !is_entry(kind, name) {
        return Err(unknown(alloc, at, name));
    }
    if is_one_of(entries.seen.as_slice(), name) || value.is_empty() {
        return Err(bad(alloc, at, name));
    }
    noted(alloc, entries, name)?;
    entry_value(alloc, file, entries, at, name, value)
}

// An entry behind the token that is its name, and what stands behind it.
fn entry_behind<'a>(
    alloc: Global,
    file: &[u8],
    at: u64,
    kind: KindWord,
    entries: &mut Entries,
    first: &Token,
    name: &[u8],
    tokens: &'a [Token],
) -> Result<&'a [Token], ReadFault>
    ensures { GivesAs (λ r. (entries.new, r.now)) result (entry_behind file.now (bad at kind_word) kind entries.old first.now name.now tokens.now) }
{
    let length = match value_len(alloc, true, first.end, tokens) {
        Ok(length) => length,
        Err(fault) => return Err(fault),
    };
    let (value, rest) = tokens.split_at(length);
    if let Err(fault) = entry(alloc, file, kind, entries, first.start, name, value) {
        return Err(fault);
    }
    match behind(rest) {
        Some(rest) => Ok(rest),
        None => Err(bad(alloc, at, b"kind")),
    }
}

// One entry, and what stands behind it.
fn one_entry<'a>(
    alloc: Global,
    file: &[u8],
    at: u64,
    kind: KindWord,
    entries: &mut Entries,
    tokens: &'a [Token],
) -> Result<&'a [Token], ReadFault>
    ensures { GivesAs (λ r. (entries.new, r.now)) result (one_entry file.now (bad at kind_word) kind entries.old tokens.now) }
{
    let [first, more @ ..] = tokens else {
        return Err(bad(alloc, at, b"kind"));
    };
    let Some(name) = word(first) else {
        return Err(bad(alloc, at, b"kind"));
    };
    entry_behind(alloc, file, at, kind, entries, first, name, more)
}

fn entries_from(
    alloc: Global,
    file: &[u8],
    at: u64,
    kind: KindWord,
    tokens: &[Token],
) -> Result<Entries, ReadFault>
    ensures { Gives result (entries_from file.now (length tokens.now) (bad at kind_word) kind no_entries tokens.now) }
{
    let mut entries = no_entries(alloc);
    let mut rest = tokens;
    for _ in 0..tokens.len() {
        if rest.is_empty() {
            return Ok(entries);
        }
        match one_entry(alloc, file, at, kind, &mut entries, rest) {
            Ok(left) => rest = left,
            Err(fault) => {
                drop(entries);
                return Err(fault);
            }
        }
    }
    if rest.is_empty() {
        Ok(entries)
    } else {
        drop(entries);
        Err(bad(alloc, at, b"kind"))
    }
}

fn no_entries(alloc: Global) -> Entries
    ensures { result ≡ no_entries }
{
    Entries {
        seen: Seq::new(alloc),
        path: None,
        path_at: 0,
        time: None,
        lookback: 0,
    }
}

fn entries_in(
    alloc: Global,
    file: &[u8],
    at: u64,
    kind: KindWord,
    tokens: &[Token],
) -> Result<Entries, ReadFault>
    ensures { Gives result (entries_in file.now (bad at kind_word) kind tokens.now) }
{
    match tokens {
        [] => Ok(no_entries(alloc)),
        [_] => Err(bad(alloc, at, b"kind")),
        [begin, inner @ ..] => {
            if is_sign(begin, b"(") {
                entries_from(alloc, file, at, kind, inner)
            } else {
                Err(bad(alloc, at, b"kind"))
            }
        }
    }
}

fn plain(kind: Kind) -> KindText
    ensures { result ≡ plain kind }
{
    KindText {
        kind,
        path: None,
        path_at: 0,
    }
}

fn seed(alloc: Global, at: u64, path: Option<Str>, path_at: u64) -> Result<KindText, ReadFault>
    ensures { Gives result (seed (bad at kind_word) path path_at) }
{
    match path {
        Some(path) => Ok(KindText {
            kind: Kind::Seed,
            path: Some(path),
            path_at,
        }),
        None => Err(bad(alloc, at, b"kind")),
    }
}

fn incremental(
    alloc: Global,
    at: u64,
    time: Option<Str>,
    lookback: u32,
) -> Result<KindText, ReadFault>
    ensures { Gives result (incremental (bad at kind_word) time lookback) }
{
    match time {
        Some(time) => Ok(plain(Kind::Incremental { time, lookback })),
        None => Err(bad(alloc, at, b"kind")),
    }
}

// A SEED has a path, and an incremental kind a time column.
fn whole(alloc: Global, at: u64, kind: KindWord, entries: Entries) -> Result<KindText, ReadFault>
    ensures { Gives result (whole (bad at kind_word) kind entries) }
{
    let path_at = entries.path_at;
    let lookback = entries.lookback;
    match kind {
        KindWord::Full => Ok(plain(Kind::Full)),
        KindWord::View => Ok(plain(Kind::View)),
        KindWord::Seed => seed(alloc, at, entries.path, path_at),
        KindWord::Incremental => incremental(alloc, at, entries.time, lookback),
    }
}

/// The kind that a value means in a model's file, which begins at byte `at`.
pub(crate) fn kind_value(
    alloc: Global,
    file: &[u8],
    at: u64,
    value: &[Token],
) -> Result<KindText, ReadFault>
    ensures { Gives result (kind_value file.now at value.now) }
{
    let [first, more @ ..] = value else {
        return Err(bad(alloc, at, b"kind"));
    };
    let Some(name) = word(first) else {
        return Err(bad(alloc, at, b"kind"));
    };
    let kind = match kind_or_fault(alloc, at, name) {
        Ok(kind) => kind,
        Err(fault) => return Err(fault),
    };
    let kind = match formed(alloc, at, kind, more) {
        Ok(kind) => kind,
        Err(fault) => return Err(fault),
    };
    match entries_in(alloc, file, at, kind, more) {
        Ok(entries) => whole(alloc, at, kind, entries),
        Err(fault) => Err(fault),
    }
}
