// The ticks of a cron: the moments that its fields match, at second 0.
ghost use Rattle.std.specs.Prelude.{◌≡◌, ◌↔◌, ◌&&◌, ◌||◌, if◌then◌else◌, ℕ, ◌+◌, ◌/◌, ◌%◌, ◌<◌, ◌≤◌, ◌*◌, ◌-◌, false, IsTrue, IfSome, MatchOption};
ghost use Rattle.std.specs.Int.{IsInRange};
ghost use Rattle.jiff_core.specs.Date.{epoch_day};
ghost use Rattle.mesh_base_values.specs.Crons.{count_below, has, is_cron};
ghost use Rattle.mesh_base_values.specs.declared.times.Unit.{Unit as UnitOfTime};
ghost use Rattle.mesh_time_days.specs.Moments.{day_number, moment, IsMoment};
ghost use Rattle.mesh_time.specs.Ticks.{date_matches, minute_matches, IsDaily, IsFloor, IsQuiet, IsTick, IsTickDay, weekday};

use jiff_core::civil::Date;
use mesh_base_values::{Cron, Unit};
use mesh_time_days::{date_of, day_and_second, moment};

/// Whether a moment, in seconds since 1970-01-01T00:00:00, is a tick of a cron by the rules of POSIX crontab.
pub fn ticks_at(c: &Cron, t: i64) -> bool
    requires { IsMoment t }
    ensures { IsTrue result ↔ IsTick c.now t }
{
    let (day, second) = day_and_second(t);
    ticks_on_at(c, day, second)
}

/// The greatest tick of a cron that is not above a moment. Both are in seconds since 1970-01-01T00:00:00, and the tick
/// may lie before that.
pub fn floor(c: &Cron, t: i64) -> i64
    requires { IsMoment t }
    ensures { IsFloor c.now t result }
{
    let (day, second) = day_and_second(t);
    let (tick_day, minute) = last_tick(c, day, second);
    moment(tick_day, minute * 60)
}

/// The unit that a cron asks for: the day where its hour field matches one value, and else the hour.
pub fn unit_of(c: &Cron) -> Unit
    ensures day { IsDaily c.now → result ≡ Unit.Day }
    ensures hour { ¬ IsDaily c.now → result ≡ Unit.Hour }
{
    if count(c.hour as u64, 24) == 1 {
        Unit::Day
    } else {
        Unit::Hour
    }
}

// The day and the minute of the last tick up to a second of a day.
fn last_tick(c: &Cron, day: u32, second: u32) -> (u32, u32)
    requires day { IsInRange 719_162 3_652_058 day }
    requires second { second < 86_400 }
    ensures floor { IsFloor c.now (moment day second) (moment result.0 (result.1 * 60)) }
    ensures bounds { (result.0 ≤ 3_652_058) × (result.1 < 1440) }
{
    match last_on(c, day, second) {
        Some(minute) => (day, minute),
        None => last_before(c, day),
    }
}

// The day and the minute of the last tick before a day.
fn last_before(c: &Cron, day: u32) -> (u32, u32)
    requires { IsInRange 719_162 3_652_058 day }
    ensures floor { IsFloor c.now (moment (day - 1) 86_399) (moment result.0 (result.1 * 60)) }
    ensures bounds { (result.0 ≤ 3_652_058) × (result.1 < 1440) }
{
    // Nine years have every date that the calendar has, 29 February too.
    for back in 0..3294u32 {
        if let Some(minute) = last_on(c, day - 1 - back, 86_399) {
            return (day - 1 - back, minute);
        }
    }
    c.rule();
    unreachable!()
}

// The minute of the last tick on a day up to one of its seconds.
fn last_on(c: &Cron, day: u32, second: u32) -> Option<u32>
    requires day { day ≤ 3_652_058 }
    requires second { second < 86_400 }
    ensures last { MatchOption result (IsQuiet c.now (moment day 0) (moment day second))
        (λ minute. IsFloor c.now (moment day second) (moment day (minute * 60))) }
    ensures bound { IfSome result (λ minute. minute < 1440) }
{
    if !ticks_on(c, day) {
        return None;
    }
    match last_minute(c, second / 60) {
        Some(minute) => Some(minute),
        None => None,
    }
}

// The last minute of a day that matches, up to `latest`.
fn last_minute(c: &Cron, latest: u32) -> Option<u32>
    requires { latest < 1440 }
    ensures quiet { MatchOption result ((n : ℕ) → n ≤ latest → minute_matches c.now n ≡ false)
        (λ m. (n : ℕ) → m < n → n ≤ latest → minute_matches c.now n ≡ false) }
    ensures found { MatchOption result ℕ (λ m. IsTrue (minute_matches c.now m) × (m ≤ latest)) }
{
    let hour = latest / 60;
    if let Some(minute) = last_in_hour(c, hour, latest % 60) {
        return Some(minute);
    }
    for back in 0..hour {
        if let Some(minute) = last_in_hour(c, hour - 1 - back, 59) {
            return Some(minute);
        }
    }
    None
}

// The last minute of the day that matches in an hour, up to a minute of that hour.
fn last_in_hour(c: &Cron, hour: u32, last: u32) -> Option<u32>
    requires hour { hour < 24 }
    requires last { last < 60 }
    ensures quiet { MatchOption result ((n : ℕ) → hour * 60 ≤ n → n ≤ hour * 60 + last → minute_matches c.now n ≡ false)
        (λ m. (n : ℕ) → m < n → n ≤ hour * 60 + last → minute_matches c.now n ≡ false) }
    ensures found { MatchOption result ℕ (λ m. IsTrue (minute_matches c.now m) × (m ≤ hour * 60 + last)) }
{
    if !contains(c.hour as u64, hour) {
        return None;
    }
    for back in 0..last + 1 {
        if ticks_in(c, hour * 60 + last - back) {
            return Some(hour * 60 + last - back);
        }
    }
    None
}

// Whether a second of a day is a tick.
fn ticks_on_at(c: &Cron, day: u32, second: u32) -> bool
    requires day { day ≤ 3_652_058 }
    requires second { second < 86_400 }
    ensures { IsTrue result
        ↔ ((second % 60 ≡ 0) × IsTrue (minute_matches c.now (second / 60)) × IsTickDay c.now (day_number day)) }
{
    second % 60 == 0 && ticks_in(c, second / 60) && ticks_on(c, day)
}

// Whether the hour and the minute match, of a minute of the day.
#[tactic(auto, unfolding(crate::specs::Ticks::minute_matches))]
fn ticks_in(c: &Cron, minute: u32) -> bool
    requires { minute < 1440 }
    ensures { result ≡ minute_matches c.now minute }
{
    contains(c.hour as u64, minute / 60) && contains(c.minute, minute % 60)
}

// Whether the month and the day match, of a day that is counted from 0001-01-01.
fn ticks_on(c: &Cron, day: u32) -> bool
    requires { day ≤ 3_652_058 }
    ensures { IsTrue result ↔ IsTickDay c.now (day_number day) }
{
    date_matches(c, date_of(day))
}

// The same of a date.
#[tactic(auto, unfolding(crate::specs::Ticks::date_matches))]
fn date_matches(c: &Cron, date: Date) -> bool
    ensures { result ≡ date_matches c.now date }
{
    let month = contains(c.month as u64, date.month as u32);
    let dom = contains(c.dom as u64, date.day as u32);
    let dow = contains(c.dow as u64, day_of_week(date));
    month && days_match(c.dom_star || c.dow_star, dom, dow)
}

// From 0 for Sunday.
fn day_of_week(date: Date) -> u32
    ensures { result ≡ weekday (epoch_day date) }
{
    date.weekday().to_sunday_zero_offset() as u32
}

// How the two day fields go together.
fn days_match(star: bool, dom: bool, dow: bool) -> bool
    ensures { result ≡ (if star then dom && dow else dom || dow) }
{
    if star { dom && dow } else { dom || dow }
}

// Whether a set has a value.
#[tactic(auto, unfolding(mesh_base_values::specs::Crons::has))]
pub(crate) fn contains(set: u64, value: u32) -> bool
    requires { value < 64 }
    ensures { result ≡ has set value }
{
    (set >> value) % 2 == 1
}

// How many values of a set lie below a bound.
#[tactic(auto, using(crate::proofs::TickLaws::count_more), unfolding(mesh_base_values::specs::Crons::count_below))]
pub(crate) fn count(set: u64, bound: u32) -> u32
    requires { bound ≤ 64 }
    ensures value { result ≡ count_below (has set) bound }
{
    let mut found = 0;
    for value in 0..bound {
        if contains(set, value) {
            found += 1;
        }
    }
    found
}
