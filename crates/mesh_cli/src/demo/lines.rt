// What a demonstration prints of each answer.
ghost use Rattle.std.specs.Prelude.{◌≡◌, ◌≤◌, ◌++◌, ℕ, List, Ok, length, IfOk, IfSome, OnOk};
ghost use Rattle.std.specs.Fmt.{signed_decimal};
ghost use Rattle.mesh_cli_print.specs.faults.Lines.{◌·◌};
ghost use Rattle.mesh_cli.specs.demo.Lines.{head_line, line_start, sum_of, total_in, totals_text, units_line};

use mesh_base_values::{Cell, Row, Str};
use mesh_cli_print::faults::{put, put_number};
use mesh_list::{Memory, Seq};
use std::alloc::Global;

/// Where the line begins that ends in front of a place.
fn line_start(text: &[u8], end: usize) -> usize
    requires { end ≤ length text.now }
    ensures is { result ≡ line_start text.now end }
    ensures within { result ≤ end }
{
    let mut at = end;
    while at > 0 {
        if text[at - 1] == b'\n' {
            return at;
        }
        at -= 1;
    }
    0
}

/// The line in front of the last, which in the text of an apply or a run tells how many units were due.
fn units_line(text: &[u8]) -> &[u8]
    ensures { result.now ≡ units_line text.now }
{
    let last = line_start(text, text.len().saturating_sub(1));
    let first = line_start(text, last.saturating_sub(1));
    &text[first..last]
}

fn units_and_rest(alloc: Global, front: &[u8], answer: &Str, rest: Str) -> Result<Str, Memory>
    ensures { IfOk result (λ text. text ≡ (front.now · units_line answer.now) ++ rest) }
{
    let mut out = Vec::from_slice(alloc, front)?;
    put(&mut out, units_line(answer.as_slice()))?;
    put(&mut out, rest.as_slice())?;
    Ok(Seq::from_vec(out))
}

/// How many units a command had, by what it answered, in front of what comes after it.
pub(crate) fn with_units(
    alloc: Global,
    front: &[u8],
    answer: &Str,
    rest: Result<Str, Memory>,
) -> Result<Str, Memory>
    ensures { IfOk result (λ text. (more : List ℕ) × (rest ≡ Ok more) × (text ≡ (front.now · units_line answer.now) ++ more)) }
{
    match rest {
        Err(wanting) => Err(wanting),
        Ok(rest) => units_and_rest(alloc, front, answer, rest),
    }
}

/// What was asked for, in front of what comes of it.
pub(crate) fn headed(alloc: Global, n: u32, rest: Str) -> Result<Str, Memory>
    ensures { IfOk result (λ text. text ≡ head_line n ++ rest) }
{
    let mut out = Vec::from_slice(alloc, b"demo ")?;
    put_number(&mut out, n as u64)?;
    put(&mut out, b"\n")?;
    put(&mut out, rest.as_slice())?;
    Ok(Seq::from_vec(out))
}

/// The total of a day: its row's second cell, where that is a number.
fn total_in(row: &Row) -> i64
    ensures { result ≡ total_in row.now }
{
    match row.as_slice() {
        [_, Cell::Int(total), ..] => *total,
        _ => 0,
    }
}

/// The sum of the totals, unless it goes past 64 bits on the way.
fn sum_of(rows: &[Row]) -> Option<i64>
    ensures { IfSome result (λ sum. sum ≡ sum_of rows.now) }
{
    let mut sum = 0i64;
    for row in rows {
        match sum.checked_add(total_in(row)) {
            Some(more) => sum = more,
            None => return None,
        }
    }
    Some(sum)
}

/// A number in decimal, behind a minus sign or none.
fn put_signed(out: &mut Vec<u8>, number: i64) -> Result<(), Memory>
    ensures { OnOk result (out.new.items ≡ out.old.items ++ signed_decimal number) }
{
    let mut buffer = itoa::Buffer::new();
    put(out, buffer.format(number).as_bytes())
}

/// How many rows the totals have, and their sum.
pub(crate) fn totals_text(alloc: Global, rows: &[Row]) -> Result<Str, Memory>
    ensures { IfOk result (λ text. text ≡ totals_text rows.now) }
{
    let Some(sum) = sum_of(rows) else {
        return Err(Memory);
    };
    let mut out = Vec::from_slice(alloc, b"totals ")?;
    put_number(&mut out, rows.len() as u64)?;
    put(&mut out, b" rows\nsum ")?;
    put_signed(&mut out, sum)?;
    put(&mut out, b"\n")?;
    Ok(Seq::from_vec(out))
}
