// How the units of a schedule stand in what is recorded.
ghost use Rattle.std.specs.Prelude.{◌≡◌, true, map, IfOk, length, pos, ◌+ℤ◌, ◌*ℤ◌};
ghost use Rattle.std.specs.Option.{is_some, option_copied};
ghost use Rattle.mesh_time.specs.Edits.{front_covers, open_after};
ghost use Rattle.mesh_time.specs.Ranges.{is_apart, unit_count, units};
ghost use Rattle.mesh_spec_changes.specs.due.Dues.{touches, touches_days};
ghost use Rattle.mesh_spec_changes.specs.due.Plans.{marks_of, ranges_of};
ghost use Rattle.mesh_plan_due.specs.Least.{IsHorizon};
ghost use Rattle.mesh_plan_due.specs.Long.{IsStart};
ghost use Rattle.mesh_plan_due.specs.Stands.{stand, stand_of};

use crate::schedules::{unit_at, unit_count};
use mesh_base::Restate;
use mesh_base_values::{Bounds, Schedule};
use mesh_house_book::Version;
use mesh_list::Memory;
use std::alloc::Global;

/// A unit isn't recorded, or it is and is named to be computed again, or it is and isn't.
#[derive(Clone, Copy)]
pub(crate) enum Stand {
    Lacking,
    Restated,
    Kept,
}

/// What is recorded of an object.
pub(crate) fn ranges_of<'a>(version: Option<&'a Version>) -> &'a [Bounds]
    ensures ranges { result.now ≡ ranges_of (option_copied version.entry) }
    ensures apart { is_apart result.now ≡ true }
{
    match version {
        None => &[],
        Some(v) => v.ranges.spans().as_slice(),
    }
}

/// Whether marks are recorded of an object.
pub(crate) fn has_marks(version: Option<&Version>) -> bool
    ensures { result ≡ is_some (marks_of (option_copied version.entry)) }
{
    match version {
        None => false,
        Some(v) => v.marks.is_some(),
    }
}

/// The spans from the first on that ends after a second.
pub(crate) fn open_after(spans: &[Bounds], second: i64) -> &[Bounds]
    ensures { result.now ≡ open_after second spans.now }
{
    for (i, span) in spans.iter().enumerate() {
        if second < span.end {
            return &spans[i..];
        }
    }
    &spans[spans.len()..]
}

/// Whether the first span has each second from a start to an end.
pub(crate) fn front_covers(spans: &[Bounds], start: i64, end: i64) -> bool
    ensures { result ≡ front_covers start end spans.now }
{
    match spans {
        [first, ..] => first.start <= start && end <= first.end,
        [] => false,
    }
}

fn first_second(day: i32) -> i64
    ensures { result ≡ day *ℤ pos 86_400 }
{
    day as i64 * 86_400
}

fn end_of(day: i32) -> i64
    ensures { result ≡ (day +ℤ pos 1) *ℤ pos 86_400 }
{
    (day as i64 + 1) * 86_400
}

// Whether a unit has a second in the days from the first to the last.
fn touches(first: Option<i32>, last: Option<i32>, unit: &Bounds) -> bool
    ensures { result ≡ touches first last unit.now }
{
    let Some(first) = first else {
        return true;
    };
    let Some(last) = last else {
        return true;
    };
    unit.start < end_of(last) && first_second(first) < unit.end
}

fn touches_days(restate: Option<&Restate>, unit: &Bounds) -> bool
    ensures { result ≡ touches_days (option_copied restate.entry) unit.now }
{
    match restate {
        None => false,
        Some(r) => touches(r.first, r.last, unit),
    }
}

fn stand_of(held: bool, named: bool, touched: bool) -> Stand
    ensures { result ≡ stand_of held named touched }
{
    if !held {
        return Stand::Lacking;
    }
    if named && touched {
        return Stand::Restated;
    }
    Stand::Kept
}

/// How each unit of a schedule stands, in one pass over the units with what is recorded beside them.
pub(crate) fn stands_of(
    alloc: Global,
    spans: &[Bounds],
    named: bool,
    restate: Option<&Restate>,
    schedule: &Schedule,
) -> Result<Vec<Stand>, Memory>
    requires apart { is_apart spans.now ≡ true }
    requires start { IsStart schedule.now.start }
    requires end { IsHorizon schedule.now.end }
    ensures length { IfOk result (λ made. length made.items ≡ unit_count schedule.now) }
    ensures stands { IfOk result (λ made. made.items ≡ map (stand named (option_copied restate.entry) spans.now) (units schedule.now)) }
{
    let mut made = Vec::new(alloc);
    let mut rest = spans;
    for number in 0..unit_count(schedule) {
        let unit = unit_at(schedule, number);
        rest = open_after(rest, unit.start);
        let held = front_covers(rest, unit.start, unit.end);
        made.push(stand_of(held, named, touches_days(restate, &unit)))?;
    }
    Ok(made)
}
