// Reading a cron's text.
ghost use Rattle.std.specs.Prelude.{◌≡◌, ◌&&◌, ◌+◌, nat_lt, not, ◌<◌, ◌≤◌, true, Result, Ok, Err, MatchOption};
ghost use Rattle.mesh_base_values.specs.Crons.{has_date, has_day, some_below, has, longest};
ghost use Rattle.mesh_time.specs.CronText.{checked, cron_of, cron_of_fields, cron_of_words, is_field, meant, sets_of};

use crate::fields::{days_of_week, is_field, is_star, same_text, take_word, values};
use crate::ticks::{contains, count};
use mesh_base_values::{Cron, CronFault};

/// Reads the text of a cron by POSIX crontab. It is an alias (`@hourly`, `@daily`, `@midnight`, `@weekly`,
/// `@monthly`, `@yearly` or `@annually`), or has five fields with spaces between. A field is `*`, or numbers, ranges
/// `a-b` and steps `a-b/k` and `*/k` with commas between. Refused are, in this order, a text that hasn't five fields
/// (field 0), the first field that can't be read (counted from 1), a cron that ticks in two minutes of an hour or
/// more, and one whose day never comes.
#[tactic(auto, unfolding(crate::specs::CronText::cron_of))]
pub fn read_cron(text: &[u8]) -> Result<Cron, CronFault>
    ensures { result ≡ cron_of text.now }
{
    read_words(meant(text))
}

// The five fields that an alias stands for, or the text itself.
#[tactic(auto, unfolding(crate::specs::CronText::meant))]
fn meant(text: &[u8]) -> &[u8]
    ensures { result.now ≡ meant text.now }
{
    if same_text(text, b"@hourly") {
        b"0 * * * *"
    } else if same_text(text, b"@daily") || same_text(text, b"@midnight") {
        b"0 0 * * *"
    } else if same_text(text, b"@weekly") {
        b"0 0 * * 0"
    } else if same_text(text, b"@monthly") {
        b"0 0 1 * *"
    } else if same_text(text, b"@yearly") || same_text(text, b"@annually") {
        b"0 0 1 1 *"
    } else {
        text
    }
}

#[tactic(auto, unfolding(crate::specs::CronText::cron_of_words))]
fn read_words(text: &[u8]) -> Result<Cron, CronFault>
    ensures { result ≡ cron_of_words text.now }
{
    let (minute, rest) = take_word(text);
    let (hour, rest) = take_word(rest);
    let (dom, rest) = take_word(rest);
    let (month, rest) = take_word(rest);
    let (dow, rest) = take_word(rest);
    let (more, _) = take_word(rest);
    if dow.len() > 0 && more.len() == 0 {
        read_fields(minute, hour, dom, month, dow)
    } else {
        Err(CronFault::BadField { field: 0 })
    }
}

#[tactic(auto, unfolding(crate::specs::CronText::cron_of_fields))]
fn read_fields(
    minute: &[u8],
    hour: &[u8],
    dom: &[u8],
    month: &[u8],
    dow: &[u8],
) -> Result<Cron, CronFault>
    ensures { result ≡ cron_of_fields minute.now hour.now dom.now month.now dow.now }
{
    if !is_field(0, 59, minute) {
        Err(CronFault::BadField { field: 1 })
    } else if !is_field(0, 23, hour) {
        Err(CronFault::BadField { field: 2 })
    } else if !is_field(1, 31, dom) {
        Err(CronFault::BadField { field: 3 })
    } else if !is_field(1, 12, month) {
        Err(CronFault::BadField { field: 4 })
    } else if !is_field(0, 7, dow) {
        Err(CronFault::BadField { field: 5 })
    } else {
        read_sets(minute, hour, dom, month, dow)
    }
}

fn read_sets(
    minute: &[u8],
    hour: &[u8],
    dom: &[u8],
    month: &[u8],
    dow: &[u8],
) -> Result<Cron, CronFault>
    requires minute { is_field 0 59 minute.now ≡ true }
    requires hour { is_field 0 23 hour.now ≡ true }
    requires dom { is_field 1 31 dom.now ≡ true }
    requires month { is_field 1 12 month.now ≡ true }
    requires dow { is_field 0 7 dow.now ≡ true }
    ensures { result ≡ checked (sets_of minute.now hour.now dom.now month.now dow.now) }
{
    let minutes = values(0, 59, minute);
    let hours = values(0, 23, hour) as u32;
    let days = values(1, 31, dom) as u32;
    let months = values(1, 12, month) as u16;
    let week = days_of_week(dow) as u8;
    let (dom_star, dow_star) = (is_star(dom), is_star(dow));
    let matching = count(minutes, 60);
    let never = never_comes(dow_star, months, days);
    if matching > 1 {
        return Err(CronFault::TooFine);
    }
    if never {
        return Err(CronFault::NoTick);
    }
    Ok(Cron {
        minute: minutes,
        hour: hours,
        dom: days,
        month: months,
        dow: week,
        dom_star,
        dow_star,
    })
}

// Whether any day of the week will do, and no month of the set has a day of the set.
fn never_comes(dow_star: bool, months: u16, days: u32) -> bool
    ensures { result ≡ (dow_star && not (has_date months days)) }
{
    dow_star && !has_date(months, days)
}

// Whether a month of the set has a day of the set.
#[tactic(auto, unfolding(mesh_base_values::specs::Crons::has_date))]
fn has_date(months: u16, days: u32) -> bool
    ensures { result ≡ has_date months days }
{
    for month in 0..13u32 {
        if is_date(months, days, month) {
            return true;
        }
    }
    false
}

fn is_date(months: u16, days: u32, month: u32) -> bool
    requires { month ≤ 12 }
    ensures { result ≡ (has months month && has_day days month) }
{
    contains(months as u64, month) && has_day(days, month)
}

// Whether the set has a day of a month.
#[tactic(auto, unfolding(mesh_base_values::specs::Crons::has_day))]
fn has_day(days: u32, month: u32) -> bool
    requires { month ≤ 12 }
    ensures { result ≡ has_day days month }
{
    for day in 0..32u32 {
        if is_day(days, month, day) {
            return true;
        }
    }
    false
}

fn is_day(days: u32, month: u32, day: u32) -> bool
    requires { day < 32 }
    ensures { result ≡ (has days day && nat_lt day (longest month + 1)) }
{
    contains(days as u64, day) && day < longest(month) + 1
}

// The greatest day that a month ever has.
fn longest(month: u32) -> u32
    ensures value { result ≡ longest month }
    ensures bound { result ≤ 31 }
{
    match month {
        2 => 29,
        4 | 6 | 9 | 11 => 30,
        _ => 31,
    }
}
