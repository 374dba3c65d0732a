// Words, numbers and texts at the front of what is left to read.
ghost use Rattle.std.specs.Prelude.{◌≡◌, ◌<◌, ◌≤◌, ◌^◌, ◌+◌, ◌-◌, pos, negsuc, ◌≤ℤ◌, MatchOption, IfOk};
ghost use Rattle.mesh_canon_words.specs.Words.{Gives, after, below_at, digits_at, number_at, signed_at, text_at, then_at};

use crate::fault::CanonFault;
use mesh_base_values::Str;
use mesh_list::Seq;
use std::alloc::Global;

const MOST_DAY: u64 = 0x7fff_ffff;

/// What stands behind a word.
pub fn after<'a>(bytes: &'a [u8], word: &[u8]) -> Option<&'a [u8]>
    ensures { MatchOption result (after word.now bytes.now ≡ None) (λ rest. after word.now bytes.now ≡ Some rest.now) }
{
    bytes.strip_prefix(word)
}

/// What stands behind a word that has to come.
pub fn expect<'a>(bytes: &'a [u8], word: &[u8]) -> Result<&'a [u8], CanonFault>
    ensures { Gives (λ rest. rest.now) result (after word.now bytes.now) }
{
    match after(bytes, word) {
        Some(rest) => Ok(rest),
        None => Err(CanonFault::NotCanonical),
    }
}

/// The number of at most `most` that the digits at the front say: one digit, or more that don't begin with 0.
#[tactic(auto, unfolding(crate::specs::Words::number_at))]
pub fn number(bytes: &[u8], most: u64) -> Result<(u64, &[u8]), CanonFault>
    ensures gives { Gives (λ x. (x.0, x.1.now)) result (number_at most bytes.now) }
    ensures bound { IfOk result (λ x. x.0 ≤ most) }
{
    match bytes {
        [b'0', rest @ ..] => Ok((0, rest)),
        [b'1'..=b'9', ..] => digits(bytes, most, 0),
        _ => Err(CanonFault::NotCanonical),
    }
}

// The same, behind digits that say a number.
#[tactic(auto, unfolding(crate::specs::Words::digits_at), using(crate::proofs::Digits::digit_more, crate::proofs::Digits::digit_over, crate::proofs::Digits::digit_none))]
fn digits(bytes: &[u8], most: u64, number: u64) -> Result<(u64, &[u8]), CanonFault>
    requires { number ≤ most }
    ensures gives { Gives (λ x. (x.0, x.1.now)) result (digits_at most number bytes.now) }
    ensures bound { IfOk result (λ x. x.0 ≤ most) }
{
    match bytes {
        [] => Ok((number, bytes)),
        [byte, rest @ ..] => {
            if !byte.is_ascii_digit() {
                return Ok((number, bytes));
            }
            let digit = u64::from(*byte - b'0');
            if digit > most || number > (most - digit) / 10 {
                return Err(CanonFault::NotCanonical);
            }
            digits(rest, most, number * 10 + digit)
        }
    }
}

/// The number from `-most - 1` to `most` at the front.
#[tactic(auto, unfolding(crate::specs::Words::signed_at))]
pub fn signed(bytes: &[u8], most: u64) -> Result<(i64, &[u8]), CanonFault>
    requires { most < 2 ^ 63 }
    ensures gives { Gives (λ x. (x.0, x.1.now)) result (signed_at most bytes.now) }
    ensures low { IfOk result (λ x. negsuc most ≤ℤ x.0) }
    ensures high { IfOk result (λ x. x.0 ≤ℤ pos most) }
{
    if let Some(rest) = after(bytes, b"-") {
        return negative(rest, most);
    }
    let (number, rest) = number(bytes, most)?;
    Ok((number as i64, rest))
}

// The number below zero of these digits.
fn negative(bytes: &[u8], most: u64) -> Result<(i64, &[u8]), CanonFault>
    requires { most < 2 ^ 63 }
    ensures gives { Gives (λ x. (x.0, x.1.now)) result (below_at most bytes.now) }
    ensures low { IfOk result (λ x. negsuc most ≤ℤ x.0) }
    ensures high { IfOk result (λ x. x.0 ≤ℤ pos most) }
{
    let (number, rest) = number(bytes, most + 1)?;
    if number == 0 {
        return Err(CanonFault::NotCanonical);
    }
    Ok((opposite(number), rest))
}

// The number as far below zero.
fn opposite(number: u64) -> i64
    requires above { 0 < number }
    requires bound { number ≤ 2 ^ 63 }
    ensures { result ≡ negsuc (number - 1) }
{
    -1 - (number - 1) as i64
}

/// A day, or another number of 32 bits with a sign.
pub fn day(bytes: &[u8]) -> Result<(i32, &[u8]), CanonFault>
    ensures { Gives (λ x. (x.0, x.1.now)) result (signed_at (2 ^ 31 - 1) bytes.now) }
{
    let (number, rest) = signed(bytes, MOST_DAY)?;
    Ok((number as i32, rest))
}

// A text with its length, where it lies.
#[tactic(auto, unfolding(crate::specs::Words::text_at))]
fn text_lying(bytes: &[u8]) -> Result<(&[u8], &[u8]), CanonFault>
    ensures { Gives (λ x. (x.0.now, x.1.now)) result (text_at bytes.now) }
{
    let (length, rest) = number(bytes, bytes.len() as u64)?;
    let rest = expect(rest, b":")?;
    let length = length as usize;
    if rest.len() < length {
        return Err(CanonFault::NotCanonical);
    }
    Ok(rest.split_at(length))
}

/// A text with its length.
pub fn text(alloc: Global, bytes: &[u8]) -> Result<(Str, &[u8]), CanonFault>
    ensures { Gives (λ x. (x.0, x.1.now)) result (text_at bytes.now) }
{
    let (text, rest) = text_lying(bytes)?;
    Ok((Seq::from_vec(Vec::from_slice(alloc, text)?), rest))
}

/// A text and the sign behind it.
#[tactic(auto, unfolding(crate::specs::Words::then_at))]
pub fn text_then<'a>(
    alloc: Global,
    bytes: &'a [u8],
    sign: &[u8],
) -> Result<(Str, &'a [u8]), CanonFault>
    ensures { Gives (λ x. (x.0, x.1.now)) result (then_at sign.now text_at bytes.now) }
{
    let (text, rest) = text_lying(bytes)?;
    let rest = expect(rest, sign)?;
    Ok((Seq::from_vec(Vec::from_slice(alloc, text)?), rest))
}
