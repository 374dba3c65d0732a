// CAST: a cell as another type.
ghost use Rattle.std.specs.Prelude.{◌≡◌, ◌≤◌, ◌^◌, IfOk, codes, map};
ghost use Rattle.std.specs.Fmt.{signed_decimal};
ghost use Rattle.std.specs.Char.{to_ascii_lowercase};
ghost use Rattle.mesh_base_values.specs.Picked.{same_text};
ghost use Rattle.mesh_time_days.specs.casts.Dates.{day_named, day_text};
ghost use Rattle.mesh_time_days.specs.casts.Casts.{at_most, digits_after, digits_up_to, below_zero, number_named, truth_of_small, truth_named, truth_text, cast_to_int, cast_to_text, cast_to_date, cast_to_bool, cast_value};

use crate::casts::days::{day_named, day_written, is_day_number};
use mesh_base_values::{Cell, ColType, Str};
use mesh_list::{Memory, Seq};
use std::alloc::Global;

fn digits_within(text: &[u8], most: u64) -> Option<u64>
    requires { most ≤ 2 ^ 63 }
    ensures { result ≡ at_most most (digits_after 0 text.now) }
{
    let mut n: u64 = 0;
    for byte in text {
        // Further digits would make the number no less.
        if n > most / 10 {
            return None;
        }
        if !byte.is_ascii_digit() {
            return None;
        }
        n = n * 10 + u64::from(*byte - b'0');
    }
    if n <= most { Some(n) } else { None }
}

// The number that digits say, if it is no more than most.
fn digits_up_to(text: &[u8], most: u64) -> Option<u64>
    requires { most ≤ 2 ^ 63 }
    ensures { result ≡ digits_up_to most text.now }
{
    match text {
        [] => None,
        [_, ..] => digits_within(text, most),
    }
}

fn below_zero(n: u64) -> i64
    requires { n ≤ 2 ^ 63 }
    ensures { result ≡ below_zero n }
{
    if n == 0 { 0 } else { -((n - 1) as i64) - 1 }
}

/// The number of 64 bits that a text is: decimal digits, behind a minus sign or none.
pub fn number_named(text: &[u8]) -> Option<i64>
    ensures { result ≡ number_named text.now }
{
    match text {
        [] => None,
        [b'-', digits @ ..] => match digits_up_to(digits, 0x8000_0000_0000_0000) {
            Some(n) => Some(below_zero(n)),
            None => None,
        },
        [_, ..] => match digits_up_to(text, 0x7fff_ffff_ffff_ffff) {
            Some(n) => Some(n as i64),
            None => None,
        },
    }
}

fn is_true_text(text: &[u8]) -> bool
    ensures { result ≡ same_text text.now (codes "true") }
{
    text.cmp(&b"true".as_slice()).is_eq()
}

fn is_false_text(text: &[u8]) -> bool
    ensures { result ≡ same_text text.now (codes "false") }
{
    text.cmp(&b"false".as_slice()).is_eq()
}

fn truth_of_small(text: &[u8]) -> Option<bool>
    ensures { result ≡ truth_of_small text.now }
{
    if is_true_text(text) {
        Some(true)
    } else if is_false_text(text) {
        Some(false)
    } else {
        None
    }
}

/// The text with its ASCII letters in lower case.
pub fn lower_case(alloc: Global, text: &[u8]) -> Result<Str, Memory>
    ensures { IfOk result (λ made. made ≡ map to_ascii_lowercase text.now) }
{
    Ok(Seq::from_vec(text.to_ascii_lowercase(alloc)?))
}

/// The truth that a text is, `true` or `false` in ASCII letters of any case.
pub fn truth_named(alloc: Global, text: &[u8]) -> Result<Option<bool>, Memory>
    ensures { IfOk result (λ b. b ≡ truth_named text.now) }
{
    let small = lower_case(alloc, text)?;
    Ok(truth_of_small(small.as_slice()))
}

fn bytes(alloc: Global, text: &[u8]) -> Result<Str, Memory>
    ensures { IfOk result (λ made. made ≡ text.now) }
{
    Ok(Seq::from_vec(Vec::from_slice(alloc, text)?))
}

fn truth_text(alloc: Global, b: bool) -> Result<Str, Memory>
    ensures { IfOk result (λ made. made ≡ truth_text b) }
{
    if b {
        bytes(alloc, b"true")
    } else {
        bytes(alloc, b"false")
    }
}

fn number_text(alloc: Global, n: i64) -> Result<Str, Memory>
    ensures { IfOk result (λ made. made ≡ signed_decimal n) }
{
    let mut buffer = itoa::Buffer::new();
    bytes(alloc, buffer.format(n).as_bytes())
}

fn day_text(alloc: Global, day: i32) -> Result<Str, Memory>
    ensures { IfOk result (λ made. made ≡ day_text day) }
{
    if is_day_number(day as i64) {
        bytes(alloc, day_written(day).as_slice())
    } else {
        Ok(Str::new(alloc))
    }
}

fn to_int(x: Cell) -> Cell
    ensures { result ≡ cast_to_int x }
{
    match &x {
        Cell::Int(n) => Cell::Int(*n),
        Cell::Text(t) => match number_named(t.as_slice()) {
            Some(n) => Cell::Int(n),
            None => Cell::Null,
        },
        Cell::Bool(b) => Cell::Int(if *b { 1 } else { 0 }),
        _ => Cell::Null,
    }
}

fn to_text(alloc: Global, x: Cell) -> Result<Cell, Memory>
    ensures { IfOk result (λ v. v ≡ cast_to_text x) }
{
    match &x {
        Cell::Int(n) => Ok(Cell::Text(number_text(alloc, *n)?)),
        Cell::Text(_) => Ok(x),
        Cell::Date(d) => Ok(Cell::Text(day_text(alloc, *d)?)),
        Cell::Bool(b) => Ok(Cell::Text(truth_text(alloc, *b)?)),
        Cell::Null => Ok(Cell::Null),
    }
}

fn to_date(x: Cell) -> Cell
    ensures { result ≡ cast_to_date x }
{
    match &x {
        Cell::Text(t) => match day_named(t.as_slice()) {
            Some(d) => Cell::Date(d),
            None => Cell::Null,
        },
        Cell::Date(d) => Cell::Date(*d),
        _ => Cell::Null,
    }
}

fn to_bool(x: Cell) -> Result<Cell, Memory>
    ensures { IfOk result (λ v. v ≡ cast_to_bool x) }
{
    match &x {
        Cell::Int(n) => Ok(Cell::Bool(*n != 0)),
        Cell::Text(t) => match truth_named(t.alloc(), t.as_slice())? {
            Some(b) => Ok(Cell::Bool(b)),
            None => Ok(Cell::Null),
        },
        Cell::Bool(b) => Ok(Cell::Bool(*b)),
        _ => Ok(Cell::Null),
    }
}

/// A cell as another type, and NULL where it has no value there (CAST of ISO/IEC 9075).
pub fn cast(alloc: Global, to: ColType, x: Cell) -> Result<Cell, Memory>
    ensures { IfOk result (λ v. v ≡ cast_value to x) }
{
    match to {
        ColType::Int => Ok(to_int(x)),
        ColType::Text => to_text(alloc, x),
        ColType::Date => Ok(to_date(x)),
        ColType::Bool => to_bool(x),
    }
}
