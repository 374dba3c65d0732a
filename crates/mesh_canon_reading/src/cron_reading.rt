// Crons, read.
ghost use Rattle.std.specs.Prelude.{◌≡◌, ◌≤◌, ◌<◌, ◌+◌, ◌^◌, ◌&&◌, codes, nat_lt, IfOk};
ghost use Rattle.mesh_base_values.specs.Crons.{count_below, has, has_date, has_day, is_cron, is_set, is_single, longest, some_below};
ghost use Rattle.mesh_canon_words.specs.Words.{Gives, then_at};
ghost use Rattle.mesh_canon_reading.specs.Reading.{sets_of, checked, cron_at, field_at, fields_at, fields_in, values_at};

use mesh_base_values::Cron;
use mesh_canon_words::{CanonFault, after, expect, number, text};
use std::alloc::Global;

const EACH_MINUTE: u64 = 0xfff_ffff_ffff_ffff;

const EACH_HOUR: u64 = 0xff_ffff;

const EACH_DAY: u64 = 0xffff_fffe;

const EACH_MONTH: u64 = 0x1ffe;

const EACH_WEEKDAY: u64 = 0x7f;

/// The five fields of a cron: a set each, and which of the day fields are written `*`.
#[derive(Clone, Copy)]
pub(crate) struct Fields {
    pub minute: u64,
    pub hour: u64,
    pub dom: u64,
    pub month: u64,
    pub dow: u64,
    pub dom_star: bool,
    pub dow_star: bool,
}

/// A text of five fields.
#[tactic(auto, unfolding(crate::specs::Reading::cron_at))]
pub(crate) fn cron_fields(alloc: Global, bytes: &[u8]) -> Result<(Fields, &[u8]), CanonFault>
    ensures { Gives (λ x. (sets_of x.0, x.1.now)) result (cron_at bytes.now) }
{
    let (text, rest) = text(alloc, bytes)?;
    let fields = whole_fields(text.as_slice())?;
    Ok((fields, rest))
}

#[tactic(auto, unfolding(crate::specs::Reading::fields_in))]
fn whole_fields(bytes: &[u8]) -> Result<Fields, CanonFault>
    ensures { Gives (λ x. sets_of x) result (fields_in bytes.now) }
{
    let (fields, rest) = read_fields(bytes)?;
    match rest {
        [] => Ok(fields),
        [_, ..] => Err(CanonFault::NotCanonical),
    }
}

#[tactic(auto, unfolding(crate::specs::Reading::fields_at))]
fn read_fields(bytes: &[u8]) -> Result<(Fields, &[u8]), CanonFault>
    ensures { Gives (λ x. (sets_of x.0, x.1.now)) result (fields_at bytes.now) }
{
    let ((minute, _), rest) = field_then_space(bytes, EACH_MINUTE, 59)?;
    let ((hour, _), rest) = field_then_space(rest, EACH_HOUR, 23)?;
    let ((dom, dom_star), rest) = field_then_space(rest, EACH_DAY, 31)?;
    let ((month, _), rest) = field_then_space(rest, EACH_MONTH, 12)?;
    let ((dow, dow_star), rest) = field(rest, EACH_WEEKDAY, 6)?;
    let fields = Fields {
        minute,
        hour,
        dom,
        month,
        dow,
        dom_star,
        dow_star,
    };
    Ok((fields, rest))
}

// A field and a space.
#[tactic(auto, unfolding(mesh_canon_words::specs::Words::then_at))]
fn field_then_space(bytes: &[u8], each: u64, most: u64) -> Result<((u64, bool), &[u8]), CanonFault>
    requires { most < 60 }
    ensures { Gives (λ x. (x.0, x.1.now)) result (then_at (codes " ") (field_at each most) bytes.now) }
{
    let (found, rest) = field(bytes, each, most)?;
    let rest = expect(rest, b" ")?;
    Ok((found, rest))
}

// `*` for each value, or ascending values up to `most`: their set, and whether it was `*`.
#[tactic(auto, unfolding(crate::specs::Reading::field_at))]
fn field(bytes: &[u8], each: u64, most: u64) -> Result<((u64, bool), &[u8]), CanonFault>
    requires { most < 60 }
    ensures { Gives (λ x. (x.0, x.1.now)) result (field_at each most bytes.now) }
{
    if let Some(rest) = after(bytes, b"*") {
        return Ok(((each, true), rest));
    }
    let (set, rest) = values(bytes, 60, most, 0, 0)?;
    Ok(((set, false), rest))
}

// At most `count` ascending values from `low` to `most` with a comma between, in a set with what it has.
#[tactic(auto, unfolding(crate::specs::Reading::values_at))]
fn values(
    bytes: &[u8],
    count: u32,
    most: u64,
    low: u64,
    set: u64,
) -> Result<(u64, &[u8]), CanonFault>
    requires most { most < 60 }
    requires set { set < 2 ^ low }
    ensures { Gives (λ x. (x.0, x.1.now)) result (values_at count most low set bytes.now) }
{
    if count == 0 {
        return Err(CanonFault::NotCanonical);
    }
    let (value, rest) = number(bytes, most)?;
    if value < low {
        return Err(CanonFault::NotCanonical);
    }
    let with_value = with(set, value);
    match after(rest, b",") {
        Some(rest) => values(rest, count - 1, most, value + 1, with_value),
        None => Ok((with_value, rest)),
    }
}

// The set with a value above all of its own.
fn with(set: u64, value: u64) -> u64
    requires small { value < 60 }
    requires above { set < 2 ^ value }
    ensures value { result ≡ set + 2 ^ value }
    ensures bound { result < 2 ^ (value + 1) }
{
    set + (1 << value)
}

/// The cron of five fields, where they are one.
pub(crate) fn made(fields: &Fields) -> Result<Cron, CanonFault>
    ensures { Gives (λ x. x) result (checked (sets_of fields.now)) }
{
    if !is_cron(fields) {
        return Err(CanonFault::NotCanonical);
    }
    Ok(Cron {
        minute: fields.minute,
        hour: fields.hour as u32,
        dom: fields.dom as u32,
        month: fields.month as u16,
        dow: fields.dow as u8,
        dom_star: fields.dom_star,
        dow_star: fields.dow_star,
    })
}

#[tactic(auto, unfolding(mesh_base_values::specs::Crons::is_cron))]
fn is_cron(fields: &Fields) -> bool
    ensures { result ≡ is_cron (sets_of fields.now) }
{
    is_set(fields.minute, 0, 60)
        && is_single(fields.minute)
        && is_set(fields.hour, 0, 24)
        && is_set(fields.dom, 1, 32)
        && is_set(fields.month, 1, 13)
        && is_set(fields.dow, 0, 7)
        && (!fields.dom_star || fields.dom == EACH_DAY)
        && (!fields.dow_star || fields.dow == EACH_WEEKDAY)
        && (!fields.dow_star || has_date(fields.month, fields.dom))
}

#[tactic(auto, unfolding(mesh_base_values::specs::Crons::has))]
fn has(set: u64, value: u64) -> bool
    requires { value < 64 }
    ensures { result ≡ has set value }
{
    (set >> value) % 2 == 1
}

#[tactic(auto, unfolding(mesh_base_values::specs::Crons::is_set))]
fn is_set(set: u64, low: u64, count: u64) -> bool
    requires count { count ≤ 60 }
    requires low { low ≤ 1 }
    ensures { result ≡ is_set low count set }
{
    let bound = 1u64 << count;
    let step = 1u64 << low;
    set < bound && set % step == 0 && has_some(set, count)
}

fn has_some(set: u64, count: u64) -> bool
    requires { count ≤ 60 }
    ensures { result ≡ some_below (has set) count }
{
    for value in 0..count {
        if has(set, value) {
            return true;
        }
    }
    false
}

fn is_single(set: u64) -> bool
    ensures { result ≡ is_single set 60 }
{
    count(set) == 1
}

// How many values below 60 a set has.
#[tactic(auto, using(crate::proofs::Below::count_more), unfolding(mesh_base_values::specs::Crons::count_below))]
fn count(set: u64) -> u64
    ensures { result ≡ count_below (has set) 60 }
{
    let mut found = 0;
    for value in 0..60u64 {
        if has(set, value) {
            found += 1;
        }
    }
    found
}

#[tactic(auto, unfolding(mesh_base_values::specs::Crons::has_date))]
fn has_date(months: u64, days: u64) -> bool
    ensures { result ≡ has_date months days }
{
    for month in 0..13u64 {
        if is_date(months, days, month) {
            return true;
        }
    }
    false
}

fn is_date(months: u64, days: u64, month: u64) -> bool
    requires { month ≤ 12 }
    ensures { result ≡ (has months month && has_day days month) }
{
    has(months, month) && has_day(days, month)
}

#[tactic(auto, unfolding(mesh_base_values::specs::Crons::has_day))]
fn has_day(days: u64, month: u64) -> bool
    ensures { result ≡ has_day days month }
{
    for day in 0..32u64 {
        if is_day(days, month, day) {
            return true;
        }
    }
    false
}

fn is_day(days: u64, month: u64, day: u64) -> bool
    requires { day < 32 }
    ensures { result ≡ (has days day && nat_lt day (longest month + 1)) }
{
    has(days, day) && day < longest(month) + 1
}

fn longest(month: u64) -> u64
    ensures value { result ≡ longest month }
    ensures bound { result ≤ 31 }
{
    match month {
        2 => 29,
        4 | 6 | 9 | 11 => 30,
        _ => 31,
    }
}
