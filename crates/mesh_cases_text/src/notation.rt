// The texts of cases, as their lines write them.
use mesh_cases::{Trouble, put_count, unescaped};
use std::alloc::Global;

/// The number that a word says in decimal digits.
pub fn number_of(word: &[u8]) -> Result<u64, Trouble> {
    let Ok(word) = std::str::from_utf8(word) else {
        return Err(Trouble::Case);
    };
    word.parse::<u64>().map_err(|_| Trouble::Case)
}

/// Adds a text in which each `#` stands for a number.
fn put_numbered(
    alloc: Global,
    made: &mut Vec<u8>,
    text: &[u8],
    number: u64,
) -> Result<(), Trouble> {
    for byte in text {
        if *byte == b'#' {
            put_count(alloc, made, number)?;
        } else {
            made.push(*byte)?;
        }
    }
    Ok(())
}

/// What stands in front of the first `*` of a text, and what behind it.
fn times_and_text(repeated: &[u8]) -> Result<(&[u8], &[u8]), Trouble> {
    let times = repeated.split(|byte| *byte == b'*').next();
    let times = times.ok_or(Trouble::Case)?;
    let text = repeated.get(times.len().saturating_add(1)..);
    Ok((times, text.ok_or(Trouble::Case)?))
}

/// Adds what `N*TEXT` stands for.
fn put_repeated(alloc: Global, made: &mut Vec<u8>, repeated: &[u8]) -> Result<(), Trouble> {
    let (times, text) = times_and_text(repeated)?;
    for number in 0..number_of(times)? {
        put_numbered(alloc, made, text, number)?;
    }
    Ok(())
}

/// The text that a line writes.
pub fn text_of(alloc: Global, line: &[u8]) -> Result<Vec<u8>, Trouble> {
    let mut made = Vec::new(alloc);
    let mut is_inside = false;
    for piece in line.split(|byte| *byte == b'{' || *byte == b'}') {
        if is_inside {
            put_repeated(alloc, &mut made, piece)?;
        } else {
            made.extend_from_slice(piece)?;
        }
        is_inside = !is_inside;
    }
    unescaped(alloc, made.as_slice())
}
