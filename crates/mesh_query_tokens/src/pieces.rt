// The piece that a text begins with: a blank, a comment or a token.
ghost use Rattle.std.specs.Prelude.{◌≡◌, ◌≤◌, ◌<◌, ◌+◌, ◌^◌, IfOk, MatchOption, Some, length};
ghost use Rattle.mesh_query_tokens.specs.declared.faults.FaultKind.TheVariants.{Syntax};
ghost use Rattle.mesh_query_tokens.specs.declared.faults.ReadFault.TheVariants.{Fault};
ghost use Rattle.mesh_query_tokens.specs.declared.tokens.TokenKind.TheVariants.{Text};
ghost use Rattle.mesh_query_tokens.specs.Gives.{Gives};
ghost use Rattle.mesh_query_tokens.specs.Letters.{decimal, lowered};
ghost use Rattle.mesh_query_tokens.specs.Pieces.{greatest, last_at, line_at, long_sign, macro_at, note_at, number_at, pair_at, piece_at, piece_of, sign_at, text_at, too_large, unquoted, word_at, word_len, digits_len};

use crate::faults::{FaultKind, ReadFault};
use crate::lengths::{digits_len, line_len, note_len, text_len, valid_len, word_len};
use crate::letters::{begins_word, is_blank, is_digit, is_long_sign, is_sign};
use crate::tokens::TokenKind;
use mesh_base_values::{LARGEST_NUMBER, LONGEST_NAME, Str};
use mesh_list::{Memory, Seq};
use std::alloc::Global;

/// What a piece is, if it is a token, and its length in bytes.
pub(crate) type Piece = (Option<TokenKind>, usize);

/// A text of its own.
pub(crate) fn copied(alloc: Global, text: &[u8]) -> Result<Str, Memory>
    ensures { IfOk result (λ made. made ≡ text.now) }
{
    Ok(Seq::from_vec(Vec::from_slice(alloc, text)?))
}

fn lowered(alloc: Global, text: &[u8]) -> Result<Str, Memory>
    ensures { IfOk result (λ made. made ≡ lowered text.now) }
{
    Ok(Seq::from_vec(text.to_ascii_lowercase(alloc)?))
}

fn too_large(alloc: Global, at: usize, what: &[u8], limit: u64) -> Result<Piece, ReadFault>
    ensures { Gives result (too_large at what.now limit) }
{
    let what = copied(alloc, what)?;
    Err(ReadFault::Fault {
        at: at as u64,
        kind: FaultKind::TooLarge { what, limit },
    })
}

fn no_token(at: usize) -> ReadFault
    ensures { result ≡ Fault at Syntax }
{
    ReadFault::Fault {
        at: at as u64,
        kind: FaultKind::Syntax,
    }
}

#[tactic(auto, unfolding(crate::specs::Pieces::word_at))]
fn word_at(alloc: Global, at: usize, bytes: &[u8]) -> Result<Piece, ReadFault>
    requires { 1 ≤ word_len bytes.now }
    ensures gives { Gives result (word_at at bytes.now) }
    ensures within { IfOk result (λ piece. (1 ≤ piece.1) × (piece.1 ≤ length bytes.now)) }
{
    let end = word_len(bytes);
    if end as u64 > LONGEST_NAME {
        return too_large(alloc, at, b"name", LONGEST_NAME);
    }
    Ok((Some(TokenKind::Ident(lowered(alloc, &bytes[..end])?)), end))
}

// The number that decimal digits say, if it isn't too large.
fn decimal(digits: &[u8]) -> Option<u64>
    ensures { MatchOption result (greatest < decimal digits.now) (λ n. (n ≡ decimal digits.now) × (n ≤ greatest)) }
{
    let mut value: u64 = 0;
    let mut rest = digits;
    while let [first, after @ ..] = rest {
        if value > LARGEST_NUMBER / 10 {
            return None;
        }
        value = 10 * value + first.saturating_sub(b'0') as u64;
        if value > LARGEST_NUMBER {
            return None;
        }
        rest = after;
    }
    Some(value)
}

#[tactic(auto, unfolding(crate::specs::Pieces::number_at))]
fn number_at(alloc: Global, at: usize, bytes: &[u8]) -> Result<Piece, ReadFault>
    requires { 1 ≤ digits_len bytes.now }
    ensures gives { Gives result (number_at at bytes.now) }
    ensures within { IfOk result (λ piece. (1 ≤ piece.1) × (piece.1 ≤ length bytes.now)) }
{
    let end = digits_len(bytes);
    match decimal(&bytes[..end]) {
        None => too_large(alloc, at, b"number", LARGEST_NUMBER),
        Some(value) => Ok((Some(TokenKind::Number(value)), end)),
    }
}

#[tactic(auto, unfolding(crate::specs::Pieces::macro_at))]
fn macro_at(alloc: Global, at: usize, bytes: &[u8]) -> Result<Piece, ReadFault>
    ensures gives { Gives result (macro_at at bytes.now) }
    ensures within { IfOk result (λ piece. (1 ≤ piece.1) × (piece.1 ≤ 1 + length bytes.now)) }
{
    match bytes {
        [] => Err(no_token(at)),
        [first, ..] => {
            if !begins_word(*first) {
                return Err(no_token(at));
            }
            let end = word_len(bytes);
            if end as u64 > LONGEST_NAME {
                return too_large(alloc, at, b"name", LONGEST_NAME);
            }
            Ok((
                Some(TokenKind::Macro(lowered(alloc, &bytes[..end])?)),
                end + 1,
            ))
        }
    }
}

fn unquoted(alloc: Global, bytes: &[u8]) -> Result<Str, Memory>
    ensures { IfOk result (λ made. made ≡ unquoted bytes.now) }
{
    let mut made = Seq::new(alloc);
    let mut rest = bytes;
    while let [first, after @ ..] = rest {
        made.push(*first)?;
        match after {
            [] => return Ok(made),
            [second, later @ ..] => {
                if *first == b'\'' && *second == b'\'' {
                    rest = later;
                } else {
                    rest = after;
                }
            }
        }
    }
    Ok(made)
}

// A text, whose bytes between the quotes these are, and its length with both quotes.
fn text_said(alloc: Global, body: &[u8], end: usize) -> Result<Piece, Memory>
    requires { end < 2 ^ 63 }
    ensures { IfOk result (λ piece. piece ≡ (Some (Text (unquoted body.now)), 2 + end)) }
{
    Ok((Some(TokenKind::Text(unquoted(alloc, body)?)), end + 2))
}

#[tactic(auto, unfolding(crate::specs::Pieces::text_at))]
fn text_at(alloc: Global, at: usize, bytes: &[u8]) -> Result<Piece, ReadFault>
    requires { at + length bytes.now < 2 ^ 63 }
    ensures gives { Gives result (text_at at bytes.now) }
    ensures within { IfOk result (λ piece. (1 ≤ piece.1) × (piece.1 ≤ 1 + length bytes.now)) }
{
    match text_len(bytes) {
        None => Err(no_token(at)),
        Some(end) => {
            let body = &bytes[..end];
            let valid = valid_len(body);
            if valid != end {
                return Err(no_token(at + 1 + valid));
            }
            Ok(text_said(alloc, body, end)?)
        }
    }
}

#[tactic(auto, unfolding(crate::specs::Pieces::line_at))]
fn line_at(at: usize, bytes: &[u8]) -> Result<Piece, ReadFault>
    requires { at + length bytes.now < 2 ^ 63 }
    ensures gives { Gives result (line_at at bytes.now) }
    ensures within { IfOk result (λ piece. (1 ≤ piece.1) × (piece.1 ≤ 2 + length bytes.now)) }
{
    let end = line_len(bytes);
    let valid = valid_len(&bytes[..end]);
    if valid != end {
        return Err(no_token(at + 2 + valid));
    }
    Ok((None, end + 2))
}

#[tactic(auto, unfolding(crate::specs::Pieces::note_at))]
fn note_at(at: usize, bytes: &[u8]) -> Result<Piece, ReadFault>
    requires { at + length bytes.now < 2 ^ 63 }
    ensures gives { Gives result (note_at at bytes.now) }
    ensures within { IfOk result (λ piece. (1 ≤ piece.1) × (piece.1 ≤ 2 + length bytes.now)) }
{
    match note_len(bytes) {
        None => Err(no_token(at)),
        Some(end) => {
            let valid = valid_len(&bytes[..end]);
            if valid != end {
                return Err(no_token(at + 2 + valid));
            }
            Ok((None, end + 4))
        }
    }
}

fn long_sign(alloc: Global, first: u8, second: u8) -> Result<TokenKind, Memory>
    ensures { IfOk result (λ made. made ≡ long_sign first second) }
{
    if first == b'!' {
        return Ok(TokenKind::Sign(copied(alloc, b"<>")?));
    }
    Ok(TokenKind::Sign(copied(alloc, &[first, second])?))
}

#[tactic(auto, unfolding(crate::specs::Pieces::last_at))]
fn last_at(alloc: Global, at: usize, first: u8) -> Result<Piece, ReadFault>
    ensures gives { Gives result (last_at at first) }
    ensures within { IfOk result (λ piece. piece.1 ≡ 1) }
{
    if is_sign(first) {
        Ok((Some(TokenKind::Sign(copied(alloc, &[first])?)), 1))
    } else {
        Err(no_token(at))
    }
}

#[tactic(auto, unfolding(crate::specs::Pieces::pair_at, crate::specs::Pieces::last_at))]
fn pair_at(alloc: Global, at: usize, first: u8, second: u8, rest: &[u8]) -> Result<Piece, ReadFault>
    requires { at + length rest.now < 2 ^ 63 }
    ensures gives { Gives result (pair_at at first second rest.now) }
    ensures within { IfOk result (λ piece. (1 ≤ piece.1) × (piece.1 ≤ 2 + length rest.now)) }
{
    if first == b'-' && second == b'-' {
        line_at(at, rest)
    } else if first == b'/' && second == b'*' {
        note_at(at, rest)
    } else if is_long_sign(first, second) {
        Ok((Some(long_sign(alloc, first, second)?), 2))
    } else {
        last_at(alloc, at, first)
    }
}

#[tactic(auto, unfolding(crate::specs::Pieces::sign_at))]
fn sign_at(alloc: Global, at: usize, first: u8, bytes: &[u8]) -> Result<Piece, ReadFault>
    requires { at + length bytes.now < 2 ^ 63 }
    ensures gives { Gives result (sign_at at first bytes.now) }
    ensures within { IfOk result (λ piece. (1 ≤ piece.1) × (piece.1 ≤ 1 + length bytes.now)) }
{
    match bytes {
        [] => last_at(alloc, at, first),
        [second, rest @ ..] => pair_at(alloc, at, first, *second, rest),
    }
}

/// The piece that these bytes begin with, which stand at this place.
#[tactic(auto, unfolding(crate::specs::Pieces::piece_at))]
pub(crate) fn piece_at(alloc: Global, at: usize, bytes: &[u8]) -> Result<Piece, ReadFault>
    requires { at + length bytes.now < 2 ^ 63 }
    ensures gives { Gives result (piece_of at bytes.now) }
    ensures within { IfOk result (λ piece. (1 ≤ piece.1) × (piece.1 ≤ length bytes.now)) }
{
    match bytes {
        [] => Err(no_token(at)),
        [first, rest @ ..] => {
            if is_blank(*first) {
                Ok((None, 1))
            } else if begins_word(*first) {
                word_at(alloc, at, bytes)
            } else if is_digit(*first) {
                number_at(alloc, at, bytes)
            } else if *first == b'\'' {
                text_at(alloc, at, rest)
            } else if *first == b'@' {
                macro_at(alloc, at, rest)
            } else {
                sign_at(alloc, at, *first, rest)
            }
        }
    }
}
