// What was printed, beside what was expected.
use crate::report::put_count;
use crate::trouble::Trouble;
use std::alloc::Global;

fn lines_of<'a>(alloc: Global, text: &'a [u8]) -> Result<Vec<&'a [u8]>, Trouble> {
    let mut lines = Vec::new(alloc);
    for line in text.split(|byte| *byte == b'\n') {
        lines.push(line)?;
    }
    Ok(lines)
}

/// How many lines at the beginning of two texts are the same.
fn same_at_the_front(a: &[&[u8]], b: &[&[u8]]) -> usize {
    let mut same = 0usize;
    for (x, y) in a.iter().zip(b) {
        if *x != *y {
            break;
        }
        same = same.saturating_add(1);
    }
    same
}

/// The line with so many behind it.
fn from_the_end<'a>(lines: &[&'a [u8]], back: usize) -> Option<&'a [u8]> {
    let at = lines.len().checked_sub(back)?.checked_sub(1)?;
    Some(*lines.get(at)?)
}

/// How many lines at the end of two texts are the same.
fn same_at_the_back(a: &[&[u8]], b: &[&[u8]]) -> usize {
    for back in 0..a.len() {
        let (Some(x), Some(y)) = (from_the_end(a, back), from_the_end(b, back)) else {
            return back;
        };
        if x != y {
            return back;
        }
    }
    a.len()
}

/// The lines behind the first `front` ones and before the last `back` ones.
fn middle<'a>(lines: &'a [&'a [u8]], front: usize, back: usize) -> &'a [&'a [u8]] {
    let end = lines.len().saturating_sub(back);
    lines.get(front..end).unwrap_or(&[])
}

fn put_lines(report: &mut Vec<u8>, mark: &[u8], lines: &[&[u8]]) -> Result<(), Trouble> {
    for line in lines {
        report.extend_from_slice(mark)?;
        report.extend_from_slice(line)?;
        report.push(b'\n')?;
    }
    Ok(())
}

/// Adds the lines by which a printed text isn't the expected one, or nothing if it is: a line with the name and the
/// number of the first line that differs, the expected lines behind `- `, and the printed ones behind `+ `. Lines
/// that are the same at the beginning or at the end of both aren't shown. Whether the texts are the same.
pub fn put_differences(
    alloc: Global,
    report: &mut Vec<u8>,
    name: &[u8],
    expected: &[u8],
    printed: &[u8],
) -> Result<bool, Trouble> {
    if expected == printed {
        return Ok(true);
    }
    let (old, new) = (lines_of(alloc, expected)?, lines_of(alloc, printed)?);
    let front = same_at_the_front(old.as_slice(), new.as_slice());
    let (old_rest, new_rest) = (
        middle(old.as_slice(), front, 0),
        middle(new.as_slice(), front, 0),
    );
    let back = same_at_the_back(old_rest, new_rest);
    report.extend_from_slice(name)?;
    report.extend_from_slice(b" differs from line ")?;
    put_count(alloc, report, (front as u64).saturating_add(1))?;
    report.push(b'\n')?;
    put_lines(report, b"- ", middle(old.as_slice(), front, back))?;
    put_lines(report, b"+ ", middle(new.as_slice(), front, back))?;
    Ok(false)
}
