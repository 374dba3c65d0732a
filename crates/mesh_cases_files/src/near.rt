// The texts that lie near another.
use crate::canon::{Answer, own_again};
use mesh_cases::{Pen, Trouble};
use std::alloc::Global;

/// A text whose bytes from a place up to another one are replaced.
fn edited(alloc: Global, text: &[u8], at: usize, put: &[u8], behind: usize) -> Pen {
    let mut made = Pen::new(alloc);
    made.put(text.get(..at).unwrap_or(text));
    made.put(put);
    made.put(text.get(behind..).unwrap_or(&[]));
    made
}

/// Whether a text is refused, or read and written again the same.
fn is_told_apart(text: &Pen) -> Result<bool, Trouble> {
    text.done()?;
    match own_again(text.alloc(), text.text())? {
        Answer::Kept | Answer::Refused => Ok(true),
        Answer::Changed | Answer::Memory => Ok(false),
    }
}

/// The same of a text whose bytes from a place up to another one are replaced.
fn is_told_apart_so(
    alloc: Global,
    text: &[u8],
    at: usize,
    put: &[u8],
    behind: usize,
) -> Result<bool, Trouble> {
    is_told_apart(&edited(alloc, text, at, put, behind))
}

fn is_told_apart_at(alloc: Global, text: &[u8], at: usize) -> Result<bool, Trouble> {
    let next = at.saturating_add(1);
    let mut each = is_told_apart_so(alloc, text, at, b"", next)?;
    for byte in b" 0)a" {
        for behind in [next, at] {
            each = is_told_apart_so(alloc, text, at, &[*byte], behind)? && each;
        }
    }
    Ok(each)
}

/// Whether each text is told apart from the others that has one byte of this text dropped, or another byte in its place
/// or before it.
pub fn are_told_apart(alloc: Global, text: &[u8]) -> Result<bool, Trouble> {
    let mut each = true;
    for at in 0..text.len() {
        each = is_told_apart_at(alloc, text, at)? && each;
    }
    Ok(each)
}
