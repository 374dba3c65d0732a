// The words of a line, numbers, and texts that repeat.
use crate::escapes::unescaped;
use crate::report::put_number;
use crate::trouble::Trouble;
use std::alloc::Global;

/// What stands in front of the first such byte of a line, and what behind it. Where there is none, the line and
/// nothing.
pub fn parted(line: &[u8], byte: u8) -> (&[u8], &[u8]) {
    for (at, other) in line.iter().enumerate() {
        if *other == byte {
            let front = line.get(..at).unwrap_or(line);
            return (front, line.get(at.saturating_add(1)..).unwrap_or(&[]));
        }
    }
    (line, &[])
}

/// The first word of a line, and what stands behind the blank that ends it.
pub fn front_word(line: &[u8]) -> (&[u8], &[u8]) {
    parted(line, b' ')
}

/// The number of 64 bits that decimal digits say, behind a minus sign or none.
pub fn number_of(word: &[u8]) -> Result<i64, Trouble> {
    let Ok(digits) = std::str::from_utf8(word) else {
        return Err(Trouble::Case);
    };
    match digits.parse::<i64>() {
        Ok(number) => Ok(number),
        Err(_) => Err(Trouble::Case),
    }
}

fn put_copy(alloc: Global, made: &mut Vec<u8>, text: &[u8], number: i64) -> Result<(), Trouble> {
    for byte in text {
        match *byte {
            b'#' => put_number(alloc, made, number)?,
            other => made.push(other)?,
        }
    }
    Ok(())
}

/// Adds what stands behind an opening brace: a number of copies, and what follows them.
fn put_copies(alloc: Global, made: &mut Vec<u8>, part: &[u8]) -> Result<(), Trouble> {
    let (copies, behind) = parted(part, b'}');
    let (count, text) = front_word(copies);
    for number in 0..number_of(count)? {
        put_copy(alloc, made, text, number)?;
    }
    made.extend_from_slice(behind)?;
    Ok(())
}

/// The bytes that a text with escapes and copies stands for: `{N TEXT}` is TEXT N times, where a `#` in it is the
/// number of the copy, counted from 0.
pub fn filled(alloc: Global, text: &[u8]) -> Result<Vec<u8>, Trouble> {
    let (front, behind) = parted(text, b'{');
    let mut made = Vec::from_slice(alloc, front)?;
    if front.len() < text.len() {
        for part in behind.split(|byte| *byte == b'{') {
            put_copies(alloc, &mut made, part)?;
        }
    }
    unescaped(alloc, made.as_slice())
}
