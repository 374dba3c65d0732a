// Bytes written on one line: `\n`, `\r`, `\t`, `\\` and `\xHH`, in hexadecimal digits, stand for one byte each.
use crate::trouble::Trouble;
use std::alloc::Global;

fn digit(byte: u8) -> Result<u8, Trouble> {
    match byte {
        b'0'..=b'9' => Ok(byte - b'0'),
        b'a'..=b'f' => Ok(byte - b'a' + 10),
        _ => Err(Trouble::Case),
    }
}

fn plain(byte: u8) -> Result<u8, Trouble> {
    match byte {
        b'n' => Ok(b'\n'),
        b'r' => Ok(b'\r'),
        b't' => Ok(b'\t'),
        b'\\' => Ok(b'\\'),
        _ => Err(Trouble::Case),
    }
}

/// How far an escape has been read.
#[derive(Clone, Copy, PartialEq, Eq)]
enum State {
    Plain,
    Begun,
    High,
    Low(u8),
}

/// The bytes that a text with escapes stands for.
pub fn unescaped(alloc: Global, text: &[u8]) -> Result<Vec<u8>, Trouble> {
    let mut made = Vec::new(alloc);
    let mut state = State::Plain;
    for byte in text {
        state = match (state, *byte) {
            (State::Plain, b'\\') => State::Begun,
            (State::Plain, other) => {
                made.push(other)?;
                State::Plain
            }
            (State::Begun, b'x') => State::High,
            (State::Begun, other) => {
                made.push(plain(other)?)?;
                State::Plain
            }
            (State::High, other) => State::Low(digit(other)?),
            (State::Low(high), other) => {
                made.push(high.wrapping_mul(16).wrapping_add(digit(other)?))?;
                State::Plain
            }
        };
    }
    if state == State::Plain {
        Ok(made)
    } else {
        Err(Trouble::Case)
    }
}

fn hex(nibble: u8) -> u8 {
    if nibble < 10 {
        nibble.wrapping_add(b'0')
    } else {
        nibble.wrapping_add(b'a' - 10)
    }
}

/// Adds a text as it is written on one line, with escapes for what isn't printable ASCII.
pub fn shown(report: &mut Vec<u8>, text: &[u8]) -> Result<(), Trouble> {
    for byte in text {
        match *byte {
            b'\n' => report.extend_from_slice(b"\\n")?,
            b'\r' => report.extend_from_slice(b"\\r")?,
            b'\t' => report.extend_from_slice(b"\\t")?,
            b'\\' => report.extend_from_slice(b"\\\\")?,
            b' '..=b'~' => report.push(*byte)?,
            other => report.extend_from_slice(&[b'\\', b'x', hex(other / 16), hex(other % 16)])?,
        }
    }
    Ok(())
}
