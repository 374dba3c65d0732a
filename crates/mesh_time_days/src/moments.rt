// Moments, in seconds since 1970-01-01T00:00:00, and their texts.
ghost use Rattle.std.specs.Prelude.{◌≡◌, ℕ, ℤ, ◌+◌, ◌%◌, ◌<◌, ◌≤◌, ◌↔◌, ◌++◌, ◌∷◌, [], pos, negsuc, length, IsTrue, MatchOption};
ghost use Rattle.jiff_core.specs.Calendar.{IsBetween};
ghost use Rattle.mesh_time_days.specs.Moments.{moment, minute_text, second_text, IsMoment, IsMomentText, IsSecondText, IsTimeText, IsTimeValue, IsZoned};

use crate::days::{day_of, day_text, same_bytes, two_at, two_digits};
use mesh_base_values::Cell;

/// The moment that a text writes, in seconds since 1970-01-01T00:00:00: a day `YYYY-MM-DD`, then nothing, `THH:MM` or
/// `THH:MM:SS`, and last a `Z` or none. `None` is for other texts, and for moments outside 1970-01-01T00:00:00 to
/// 9999-12-31T23:59:59.
pub fn moment_of(text: &[u8]) -> Option<i64>
    ensures { MatchOption result ((t : ℤ) → ¬ IsMomentText t text.now) (λ t. IsMomentText t text.now) }
{
    if text.len() < 10 {
        return None;
    }
    let day = match day_of(&text[..10]) {
        Some(day) => day,
        None => return None,
    };
    match second_of(&text[10..]) {
        Some(second) => {
            if day < 0 {
                None
            } else {
                Some(day as i64 * 86_400 + second as i64)
            }
        }
        None => None,
    }
}

/// A moment, in seconds since 1970-01-01T00:00:00, as `YYYY-MM-DDTHH:MM:SS`. It may lie before that, from the year 1
/// on.
pub fn moment_text(t: i64) -> [u8; 19]
    requires { IsBetween (negsuc 62_135_596_799) (pos 253_402_300_799) t }
    ensures { IsSecondText t result }
{
    let (count, second) = day_and_second(t);
    let [y0, y1, y2, y3, d0, m0, m1, d1, a0, a1] = day_text(count as i32 - 719_162);
    let [c0, h0, h1, c1, n0, n1, c2, s0, s1] = second_text(second);
    [
        y0, y1, y2, y3, d0, m0, m1, d1, a0, a1, c0, h0, h1, c1, n0, n1, c2, s0, s1,
    ]
}

/// The moment that a cell stands for, in seconds since 1970-01-01T00:00:00: a date's first second, a number itself, and
/// of a text that is a day its first second.
pub fn time_value(cell: &Cell) -> Option<i64>
    ensures { MatchOption result ((t : ℤ) → ¬ IsTimeValue cell.now t) (λ t. IsTimeValue cell.now t) }
{
    match cell {
        Cell::Null => None,
        Cell::Int(number) => Some(*number),
        Cell::Text(text) => match day_of(text.as_slice()) {
            Some(day) => Some(day as i64 * 86_400),
            None => None,
        },
        Cell::Date(day) => Some(*day as i64 * 86_400),
        Cell::Bool(_) => None,
    }
}

// The second of a day that a text spells, which stands after the day.
fn second_of(text: &[u8]) -> Option<u32>
    ensures { MatchOption result ((second : ℕ) → second < 86_400 → IsTimeText second text.now → ⊥)
        (λ second. (second < 86_400) × IsTimeText second text.now) }
{
    let second = digits_of(text);
    if second < 86_400 && is_time(second, text) {
        Some(second)
    } else {
        None
    }
}

// The second that the digits of a text mean, where it is a time of day.
fn digits_of(text: &[u8]) -> u32
    ensures value { (second : ℕ) → second < 86_400 → IsTimeText second text.now → result ≡ second }
{
    if text.len() < 6 {
        0
    } else if text.len() < 9 {
        two_at(text, 1) * 3600 + two_at(text, 4) * 60
    } else {
        two_at(text, 1) * 3600 + two_at(text, 4) * 60 + two_at(text, 7)
    }
}

// Whether a text spells this second of a day.
#[tactic(auto, unfolding(crate::specs::Moments::IsTimeText))]
fn is_time(second: u32, text: &[u8]) -> bool
    requires { second < 86_400 }
    ensures { IsTrue result ↔ IsTimeText second text.now }
{
    let bare = second == 0 && is_zoned(b"", text);
    let minute = second % 60 == 0 && is_zoned(minute_text(second).as_slice(), text);
    let whole = is_zoned(second_text(second).as_slice(), text);
    bare || minute || whole
}

// Whether a text is another one, or that with a Z.
#[tactic(auto, unfolding(crate::specs::Moments::IsZoned))]
fn is_zoned(form: &[u8], text: &[u8]) -> bool
    requires { length form.now < 1000 }
    ensures { IsTrue result ↔ IsZoned form.now text.now }
{
    same_bytes(text, form) || with_z(form, text)
}

fn with_z(form: &[u8], text: &[u8]) -> bool
    requires { length form.now < 1000 }
    ensures { IsTrue result ↔ (text.now ≡ form.now ++ (90 ∷ [])) }
{
    match text {
        [front @ .., last] => same_bytes(front, form) && *last == b'Z',
        [] => false,
    }
}

// A second of a day as THH:MM.
#[tactic(auto, unfolding(crate::specs::Moments::minute_text))]
fn minute_text(second: u32) -> [u8; 6]
    requires { second < 86_400 }
    ensures { result ≡ minute_text second }
{
    let [a, b] = two_digits(second / 3600);
    let [c, d] = two_digits(second / 60 % 60);
    [b'T', a, b, b':', c, d]
}

// A second of a day as THH:MM:SS.
#[tactic(auto, unfolding(crate::specs::Moments::second_text))]
fn second_text(second: u32) -> [u8; 9]
    requires { second < 86_400 }
    ensures { result ≡ second_text second }
{
    let [a, b, c, d, e, f] = minute_text(second);
    let [g, h] = two_digits(second % 60);
    [a, b, c, d, e, f, b':', g, h]
}

/// The day of a moment, counted from 0001-01-01, and the seconds of that day that have passed.
#[tactic(auto, unfolding(crate::specs::Moments::moment, crate::specs::Moments::day_number))]
pub fn day_and_second(t: i64) -> (u32, u32)
    requires { IsBetween (negsuc 62_135_596_799) (pos 253_402_300_799) t }
    ensures value { t ≡ moment result.0 result.1 }
    ensures second { result.1 < 86_400 }
    ensures day { result.0 ≤ 3_652_058 }
{
    let shifted = (t + 62_135_596_800) as u64;
    ((shifted / 86_400) as u32, (shifted % 86_400) as u32)
}

/// The moment at a second of a day that is counted from 0001-01-01.
#[tactic(auto, unfolding(crate::specs::Moments::moment, crate::specs::Moments::day_number))]
pub fn moment(day: u32, second: u32) -> i64
    requires day { day ≤ 3_652_058 }
    requires second { second < 86_400 }
    ensures { result ≡ moment day second }
{
    (day as i64 - 719_162) * 86_400 + second as i64
}
