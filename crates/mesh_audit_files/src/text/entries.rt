// What the value of a model's `audits` lists.
ghost use Rattle.std.specs.Prelude.{◌≡◌, ◌≤◌, ◌<◌, ◌+◌, ◌^◌, suc, [], IfOk, OnOk, ◌++◌, length};
ghost use Rattle.std.specs.List.{flat_map};
ghost use Rattle.std.specs.Option.{option_map};
ghost use Rattle.mesh_model_statement.specs.Values.{word};
ghost use Rattle.mesh_query_tokens.specs.declared.tokens.TokenKind.TheVariants.{Macro, Number};
ghost use Rattle.mesh_audit_files.specs.text.Entries.{closes, columns_behind, columns_from, columns_given, depth_behind, entries_of, entry_of, inside, is_border, is_closing, is_end, kind_said, one_column, named_or, not_null_or, only_column, opens, other, piece_entry, pieces_from, unique_values_or};

use mesh_base_values::{Str, Strs};
use mesh_list::{Duplicate, Memory, Seq, push_made};
use mesh_model_statement::{is_word, word};
use mesh_query_tokens::bounds::is_sign;
use mesh_query_tokens::{Token, TokenKind, Tokens};
use std::alloc::Global;

/// What an entry asks for: the audit of a file, by its name; one of the two forms that need no file, over columns; or
/// nothing that there is, under the text of its first token.
pub enum Entry {
    Named(Str),
    NotNull(Strs),
    UniqueValues(Strs),
    Other(Str),
}

impl Drop for Entry {
    fn drop(self) {
        match self {
            Entry::Named(_) | Entry::NotNull(_) | Entry::UniqueValues(_) | Entry::Other(_) => {}
        }
    }
}

/// In the order in which they are written.
pub type Entries = Seq<Entry>;

fn opens(token: &Token) -> bool
    ensures { result ≡ opens token.now }
{
    is_sign(token, b"(") || is_sign(token, b"[")
}

fn closes(token: &Token) -> bool
    ensures { result ≡ closes token.now }
{
    is_sign(token, b")") || is_sign(token, b"]")
}

// How many brackets are open behind a token.
fn depth_behind(depth: usize, token: &Token) -> usize
    requires { depth + 1 < 2 ^ 64 }
    ensures value { result ≡ depth_behind depth token.now }
    ensures within { result ≤ suc depth }
{
    if opens(token) {
        depth + 1
    } else if closes(token) {
        depth.saturating_sub(1)
    } else {
        depth
    }
}

fn is_border(depth: usize, token: &Token) -> bool
    ensures { result ≡ is_border depth token.now }
{
    depth == 0 && is_sign(token, b",")
}

// The pieces between commas outside of all brackets.
fn pieces(alloc: Global, tokens: &[Token]) -> Result<Seq<Tokens>, Memory>
    ensures { IfOk result (λ pieces. pieces ≡ pieces_from [] 0 tokens.now) }
{
    let mut pieces: Seq<Tokens> = Seq::new(alloc);
    let mut front: Tokens = Seq::new(alloc);
    let mut depth: usize = 0;
    for token in tokens {
        if is_border(depth, token) {
            pieces.push(front)?;
            front = Seq::new(alloc);
            depth = 0;
        } else {
            push_made(&mut front, token.copy())?;
            depth = depth_behind(depth, token);
        }
    }
    pieces.push(front)?;
    Ok(pieces)
}

fn is_closing(tokens: &[Token]) -> bool
    ensures { result ≡ is_closing tokens.now }
{
    match tokens {
        [token] => closes(token),
        _ => false,
    }
}

// The tokens inside of the brackets round all of them.
fn inside(tokens: &[Token]) -> &[Token]
    ensures { result.now ≡ inside tokens.now }
{
    let [first, more @ ..] = tokens else {
        return tokens;
    };
    let (inner, last) = more.split_at(more.len().saturating_sub(1));
    if opens(first) && is_closing(last) {
        inner
    } else {
        tokens
    }
}

fn is_end(tokens: &[Token]) -> bool
    ensures { result ≡ is_end tokens.now }
{
    match tokens {
        [token] => is_sign(token, b")"),
        _ => false,
    }
}

// A column, whether it is the last, and the tokens behind it.
fn one_column(tokens: &[Token]) -> Option<(&[u8], bool, &[Token])>
    ensures { option_map (λ r. (r.0.now, r.1, r.2.now)) result ≡ one_column tokens.now }
{
    let [first, sign, more @ ..] = tokens else {
        return None;
    };
    let Some(name) = word(first) else {
        return None;
    };
    if is_sign(sign, b",") {
        Some((name, false, more))
    } else if is_sign(sign, b")") && is_end(more) {
        Some((name, true, more))
    } else {
        None
    }
}

// The columns up to the parenthesis that closes their list and the one that closes the form.
fn columns_from(alloc: Global, tokens: &[Token]) -> Result<Option<Strs>, Memory>
    ensures { IfOk result (λ columns. columns ≡ columns_from (length tokens.now) [] tokens.now) }
{
    let mut columns: Strs = Seq::new(alloc);
    let mut rest = tokens;
    for _ in 0..tokens.len() {
        let Some((name, is_last, more)) = one_column(rest) else {
            return Ok(None);
        };
        let name = u8::copy_items(alloc, name)?;
        columns.push(name)?;
        if is_last {
            return Ok(Some(columns));
        }
        rest = more;
    }
    Ok(None)
}

fn only_column(alloc: Global, first: &Token, more: &[Token]) -> Result<Option<Strs>, Memory>
    ensures { IfOk result (λ columns. columns ≡ only_column first.now more.now) }
{
    let Some(name) = word(first) else {
        return Ok(None);
    };
    if !is_end(more) {
        return Ok(None);
    }
    let mut columns = Seq::new(alloc);
    push_made(&mut columns, u8::copy_items(alloc, name))?;
    Ok(Some(columns))
}

fn columns_given(alloc: Global, tokens: &[Token]) -> Result<Option<Strs>, Memory>
    ensures { IfOk result (λ columns. columns ≡ columns_given tokens.now) }
{
    let [first, more @ ..] = tokens else {
        return Ok(None);
    };
    if is_sign(first, b"(") {
        columns_from(alloc, more)
    } else {
        only_column(alloc, first, more)
    }
}

fn columns_behind(alloc: Global, tokens: &[Token]) -> Result<Option<Strs>, Memory>
    ensures { IfOk result (λ columns. columns ≡ columns_behind tokens.now) }
{
    let [begin, key, sign, more @ ..] = tokens else {
        return Ok(None);
    };
    if is_sign(begin, b"(") && is_word(key, b"columns") && is_sign(sign, b":=") {
        columns_given(alloc, more)
    } else {
        Ok(None)
    }
}

fn number_text(alloc: Global, number: u64) -> Result<Str, Memory>
    ensures { IfOk result (λ text. text ≡ kind_said (Number number)) }
{
    let mut buffer = itoa::Buffer::new();
    u8::copy_items(alloc, buffer.format(number).as_bytes())
}

fn macro_text(alloc: Global, name: &Str) -> Result<Str, Memory>
    ensures { IfOk result (λ text. text ≡ kind_said (Macro name.now)) }
{
    let mut made = Vec::from_slice(alloc, b"@")?;
    made.extend_from_slice(name.as_slice())?;
    Ok(Seq::from_vec(made))
}

fn kind_said(alloc: Global, kind: &TokenKind) -> Result<Str, Memory>
    ensures { IfOk result (λ text. text ≡ kind_said kind.now) }
{
    match kind {
        TokenKind::Ident(word) => word.copy(),
        TokenKind::Number(number) => number_text(alloc, *number),
        TokenKind::Text(text) => text.copy(),
        TokenKind::Macro(name) => macro_text(alloc, name),
        TokenKind::Sign(sign) => sign.copy(),
    }
}

fn other(alloc: Global, first: &Token) -> Result<Entry, Memory>
    ensures { IfOk result (λ entry. entry ≡ other first.now) }
{
    Ok(Entry::Other(kind_said(alloc, &first.kind)?))
}

fn named_or(alloc: Global, first: &Token) -> Result<Entry, Memory>
    ensures { IfOk result (λ entry. entry ≡ named_or first.now (word first.now)) }
{
    match word(first) {
        None => other(alloc, first),
        Some(name) => Ok(Entry::Named(u8::copy_items(alloc, name)?)),
    }
}

fn not_null_or(alloc: Global, first: &Token, columns: Option<Strs>) -> Result<Entry, Memory>
    ensures { IfOk result (λ entry. entry ≡ not_null_or first.now columns) }
{
    match columns {
        None => other(alloc, first),
        Some(columns) => Ok(Entry::NotNull(columns)),
    }
}

fn unique_values_or(alloc: Global, first: &Token, columns: Option<Strs>) -> Result<Entry, Memory>
    ensures { IfOk result (λ entry. entry ≡ unique_values_or first.now columns) }
{
    match columns {
        None => other(alloc, first),
        Some(columns) => Ok(Entry::UniqueValues(columns)),
    }
}

// What a piece means whose first token is this.
fn entry_of(alloc: Global, first: &Token, more: &[Token]) -> Result<Entry, Memory>
    ensures { IfOk result (λ entry. entry ≡ entry_of first.now more.now) }
{
    if more.is_empty() {
        return named_or(alloc, first);
    }
    if is_word(first, b"not_null") {
        let columns = columns_behind(alloc, more)?;
        return not_null_or(alloc, first, columns);
    }
    if is_word(first, b"unique_values") {
        let columns = columns_behind(alloc, more)?;
        return unique_values_or(alloc, first, columns);
    }
    other(alloc, first)
}

fn push_piece(alloc: Global, entries: &mut Entries, piece: &[Token]) -> Result<(), Memory>
    ensures { OnOk result (entries.new ≡ entries.old ++ piece_entry piece.now) }
{
    match piece {
        [] => Ok(()),
        [first, more @ ..] => push_made(entries, entry_of(alloc, first, more)),
    }
}

fn piece_entries(alloc: Global, pieces: &[Tokens]) -> Result<Entries, Memory>
    ensures { IfOk result (λ entries. entries ≡ flat_map piece_entry pieces.now) }
{
    let mut entries = Seq::new(alloc);
    for piece in pieces {
        push_piece(alloc, &mut entries, piece.as_slice())?;
    }
    Ok(entries)
}

/// The entries that a value lists, of which there are none where it has no tokens.
pub fn entries_of(alloc: Global, value: &[Token]) -> Result<Entries, Memory>
    ensures { IfOk result (λ entries. entries ≡ entries_of value.now) }
{
    let pieces = pieces(alloc, inside(value))?;
    piece_entries(alloc, pieces.as_slice())
}
