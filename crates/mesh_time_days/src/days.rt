// Days and their texts, by the proleptic Gregorian calendar.
ghost use Rattle.std.specs.Prelude.{◌≡◌, ℕ, ℤ, ◌+◌, ◌-◌, ◌*◌, ◌/◌, ◌%◌, ◌<◌, ◌≤◌, ◌↔◌, pos, ◌≤ℤ◌, length, slice_index, List, [], ◌∷◌, IsTrue, MatchOption};
ghost use Rattle.jiff_core.specs.Date.{epoch_day};
ghost use Rattle.jiff_core.specs.declared.civil.date.Date.{Date};
ghost use Rattle.mesh_time_days.specs.Moments.{date_text, day_number, two_digits, IsDayNumber, IsDayText, IsTimeValue};

use jiff_core::civil::Date;
use mesh_base_values::Cell;

/// The day of a text `YYYY-MM-DD`, in days since 1970-01-01, or `None` where the text is no day of the proleptic
/// Gregorian calendar from the year 1 on.
pub fn day_of(text: &[u8]) -> Option<i32>
    ensures { MatchOption result ((day : ℤ) → ¬ IsDayText day text.now) (λ day. IsDayText day text.now) }
{
    match date_in(text) {
        Some(date) => Some(date.to_unix_epoch_day()),
        None => None,
    }
}

/// A day, in days since 1970-01-01, as `YYYY-MM-DD` of the proleptic Gregorian calendar.
pub fn day_text(day: i32) -> [u8; 10]
    requires { IsDayNumber day }
    ensures { IsDayText day result }
{
    date_text(date_of((day + 719_162) as u32))
}

// The date that a text spells.
fn date_in(text: &[u8]) -> Option<Date>
    ensures { MatchOption result ((d : Date) → pos 1 ≤ℤ d.year → text.now ≡ date_text d → ⊥)
        (λ d. (pos 1 ≤ℤ d.year) × (text.now ≡ date_text d)) }
{
    if text.len() != 10 {
        return None;
    }
    let century = two_at(text, 0);
    let year = century * 100 + two_at(text, 2);
    let month = two_at(text, 5);
    let day = two_at(text, 8);
    match date_at(year, month, day) {
        Some(date) => {
            if same_bytes(text, date_text(date).as_slice()) {
                Some(date)
            } else {
                None
            }
        }
        None => None,
    }
}

// Whether two texts are the same.
pub(crate) fn same_bytes(left: &[u8], right: &[u8]) -> bool
    ensures { IsTrue result ↔ (left.now ≡ right.now) }
{
    left == right
}

// The date with these parts, if the calendar has it and its year is from 1 to 9999.
fn date_at(year: u32, month: u32, day: u32) -> Option<Date>
    requires year { year ≤ 250_000 }
    requires month { month ≤ 250_000 }
    requires day { day ≤ 250_000 }
    ensures { MatchOption result ((d : Date) → pos 1 ≤ℤ d.year → d.year ≡ pos year → d.month ≡ month → d.day ≡ day → ⊥)
        (λ d. (pos 1 ≤ℤ d.year) × (d.year ≡ pos year) × (d.month ≡ month) × (d.day ≡ day)) }
{
    if year < 1 || year > 9999 || month > 12 || day > 31 {
        return None;
    }
    match Date::new(year as i16, month as i8, day as i8) {
        Ok(date) => Some(date),
        Err(_) => None,
    }
}

// A date as YYYY-MM-DD.
#[tactic(auto, unfolding(crate::specs::Moments::date_text))]
fn date_text(date: Date) -> [u8; 10]
    requires { pos 1 ≤ℤ date.year }
    ensures { result ≡ date_text date }
{
    let year = date.year as u32;
    let [a, b] = two_digits(year / 100);
    let [c, d] = two_digits(year % 100);
    let [e, f] = two_digits(date.month as u32);
    let [g, h] = two_digits(date.day as u32);
    [a, b, c, d, b'-', e, f, b'-', g, h]
}

// A number as two digits.
pub(crate) fn two_digits(number: u32) -> [u8; 2]
    requires { number < 100 }
    ensures { result ≡ two_digits number }
{
    [(48 + number / 10) as u8, (48 + number % 10) as u8]
}

// The number of two digits, or any number where they are none.
pub(crate) fn two_at(text: &[u8], at: usize) -> u32
    requires { at + 1 < length text.now }
    ensures value { result ≡ (slice_index text.now at - 48) * 10 + (slice_index text.now (at + 1) - 48) }
    ensures bound { result ≤ 2277 }
{
    text[at].saturating_sub(48) as u32 * 10 + text[at + 1].saturating_sub(48) as u32
}

/// The date of a day that is counted from 0001-01-01.
#[tactic(auto, using(jiff_core::proofs::SignedLemmas::signed_arith), unfolding(crate::specs::Moments::day_number))]
pub fn date_of(day: u32) -> Date
    requires { day ≤ 3_652_058 }
    ensures { epoch_day result ≡ day_number day }
{
    Date::from_days_since_min(day + 3_652_425)
}
