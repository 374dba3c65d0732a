// How far the pieces of a text go.
ghost use Rattle.std.specs.Prelude.{◌≡◌, ◌≤◌, ◌<◌, ◌+◌, ◌==◌, ◌&&◌, length, IfSome};
ghost use Rattle.std.specs.Str.Lossy.{utf8_valid_len};
ghost use Rattle.mesh_query_tokens.specs.Pieces.{digits_len, line_len, note_len, text_len, word_len};

use crate::letters::{is_digit, is_name_byte};

/// The bytes of an identifier.
pub(crate) fn word_len(bytes: &[u8]) -> usize
    ensures value { result ≡ word_len bytes.now }
    ensures within { result ≤ length bytes.now }
{
    for (i, byte) in bytes.iter().enumerate() {
        if !is_name_byte(*byte) {
            return i;
        }
    }
    bytes.len()
}

/// The bytes of a number.
pub(crate) fn digits_len(bytes: &[u8]) -> usize
    ensures value { result ≡ digits_len bytes.now }
    ensures within { result ≤ length bytes.now }
{
    for (i, byte) in bytes.iter().enumerate() {
        if !is_digit(*byte) {
            return i;
        }
    }
    bytes.len()
}

/// The bytes of a line.
pub(crate) fn line_len(bytes: &[u8]) -> usize
    ensures value { result ≡ line_len bytes.now }
    ensures within { result ≤ length bytes.now }
{
    for (i, byte) in bytes.iter().enumerate() {
        if *byte == b'\n' {
            return i;
        }
    }
    bytes.len()
}

/// The bytes in front of the quote that closes a text.
pub(crate) fn text_len(bytes: &[u8]) -> Option<usize>
    ensures value { result ≡ text_len bytes.now }
    ensures within { IfSome result (λ n. n < length bytes.now) }
{
    let mut at = 0;
    while at < bytes.len() {
        if bytes[at] != b'\'' {
            at += 1;
            continue;
        }
        if at + 1 == bytes.len() {
            return Some(at);
        }
        if bytes[at + 1] != b'\'' {
            return Some(at);
        }
        at += 2;
    }
    None
}

// A star and a slash.
fn closes_note(first: u8, second: u8) -> bool
    ensures { result ≡ ((first == 42) && (second == 47)) }
{
    first == b'*' && second == b'/'
}

/// The bytes in front of the star and the slash that close a comment.
pub(crate) fn note_len(bytes: &[u8]) -> Option<usize>
    ensures value { result ≡ note_len bytes.now }
    ensures within { IfSome result (λ n. n + 1 < length bytes.now) }
{
    let mut at = 0;
    while at < bytes.len() {
        if at + 1 == bytes.len() {
            return None;
        }
        if closes_note(bytes[at], bytes[at + 1]) {
            return Some(at);
        }
        at += 1;
    }
    None
}

/// The bytes in front of the first that can't stand in UTF-8.
pub(crate) fn valid_len(bytes: &[u8]) -> usize
    ensures value { result ≡ utf8_valid_len bytes.now }
    ensures within { result ≤ length bytes.now }
{
    match std::str::from_utf8(bytes) {
        Ok(_) => bytes.len(),
        Err(error) => error.valid_up_to(),
    }
}
