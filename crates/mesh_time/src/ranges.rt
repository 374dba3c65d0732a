// Ranges of seconds: spans that ascend, none empty, no two touching. A hole is what lies between two spans.
ghost use Rattle.std.specs.Prelude.{◌≡◌, true, ℕ, [], ◌++◌, ◌∷◌, ◌↔◌, ◌⊎◌, ◌<◌, IsTrue, IfOk, OnOk, OnErr, List, ℤ, ◌<ℤ◌, ◌≤ℤ◌};
ghost use Rattle.std.specs.List.{flat_map};
ghost use Rattle.mesh_base_values.specs.declared.times.Bounds.{Bounds};
ghost use Rattle.mesh_time.specs.Ranges.{IsWithin, Has, is_apart, is_held, unit_size, unit_count, unit_at, missing_units};
ghost use Rattle.mesh_time.specs.Edits.{hull, added, filled, pieces, open_after, front_covers, spans_with, spans_without, spans_without_each};

use crate::cuts::without_each;
use mesh_base_values::{Bounds, Schedule, Spans, Unit};
use mesh_list::{Duplicate, Memory, Same, Seq};
use std::alloc::Global;
use std::marker::Model;

/// The second that 0001-01-01 begins with, in seconds since 1970-01-01T00:00:00 UTC.
pub const FIRST_SECOND: i64 = -62_135_596_800;

/// The second after the last of 9999-12-31, in seconds since 1970-01-01T00:00:00 UTC.
pub const END_OF_SECONDS: i64 = 253_402_300_800;

/// The seconds that are recorded, which contracts see as the list of their spans.
#[derive(PartialEq, Eq)]
pub struct Ranges {
    spans: Spans,
}

impl Drop for Ranges {
    fn drop(self) {
        let Ranges { spans: _ } = self;
    }
}

impl Model for Ranges {
    ghost use Rattle.std.specs.Prelude.{List, true, ◌≡◌};
    ghost use Rattle.mesh_base_values.specs.declared.times.Bounds.{Bounds};
    ghost use Rattle.mesh_time.specs.Ranges.{is_apart};

    ghost Value = { List Bounds };

    ghost view = { λ r. r.spans };

    ghost invariant = { λ r. is_apart r.spans ≡ true };

    ghost inverse = { λ l. record { spans = l } };
}

impl Ranges {
    /// No second, which takes no memory.
    pub fn new(alloc: Global) -> Ranges
        ensures { result ≡ [] }
    {
        Ranges {
            spans: Seq::new(alloc),
        }
    }

    /// The spans of the recorded seconds, in order.
    pub fn spans(&self) -> &Spans
        ensures spans { result.now ≡ self.now }
        ensures rule { is_apart self.now ≡ true }
    {
        &self.spans
    }

    /// Records the seconds that are at least `start` and below `end`. At `Err` nothing has changed.
    pub fn add(&mut self, start: i64, end: i64) -> Result<(), Memory>
        requires { start <ℤ end }
        ensures seconds { OnOk result ((t : ℤ) → Has self.new t ↔ (Has self.old t ⊎ IsWithin start end t)) }
        ensures spans { OnOk result (self.new ≡ spans_with start end self.old) }
        ensures err { OnErr result (self.new ≡ self.old) }
    {
        let made = with_span(&self.spans, Bounds { start, end })?;
        self.spans = made;
        Ok(())
    }

    /// Forgets the seconds that are at least `start` and below `end`. At `Err` nothing has changed.
    pub fn forget(&mut self, start: i64, end: i64) -> Result<(), Memory>
        requires { start <ℤ end }
        ensures seconds { OnOk result ((t : ℤ) → Has self.new t ↔ (Has self.old t × ((t <ℤ start) ⊎ (end ≤ℤ t)))) }
        ensures spans { OnOk result (self.new ≡ spans_without start end self.old) }
        ensures err { OnErr result (self.new ≡ self.old) }
    {
        let made = without_span(&self.spans, &Bounds { start, end })?;
        self.spans = made;
        Ok(())
    }

    /// Forgets the seconds of all these spans, which may stand in any order, in one pass over those that are
    /// recorded. A span whose start is not below its end has none. At `Err` nothing has changed.
    pub fn forget_each(&mut self, gone: &[Bounds]) -> Result<(), Memory>
        ensures seconds { OnOk result ((t : ℤ) → Has self.new t ↔ (Has self.old t × (Has gone.now t → ⊥))) }
        ensures spans { OnOk result (self.new ≡ spans_without_each gone.now self.old) }
        ensures err { OnErr result (self.new ≡ self.old) }
    {
        let made = without_each(&self.spans, gone)?;
        self.spans = made;
        Ok(())
    }

    /// Whether each second that is at least `start` and below `end` is recorded.
    pub fn holds(&self, start: i64, end: i64) -> bool
        ensures seconds { IsTrue result ↔ ((t : ℤ) → start ≤ℤ t → t <ℤ end → Has self.now t) }
        ensures test { result ≡ is_held self.now start end }
    {
        end <= start || front_covers(open_after(self.spans.as_slice(), start), start, end)
    }

    /// The units of the schedule that `holds` denies, in order.
    pub fn missing(&self, alloc: Global, schedule: &Schedule) -> Result<Spans, Memory>
        requires first { FIRST_SECOND ≤ℤ schedule.now.start }
        requires last { schedule.now.end ≤ℤ END_OF_SECONDS }
        ensures { IfOk result (λ made. made ≡ missing_units self.now schedule.now) }
    {
        let mut made = Seq::new(alloc);
        let mut rest = self.spans.as_slice();
        for number in 0..unit_count(schedule) {
            let unit = unit_at(schedule, number);
            rest = open_after(rest, unit.start);
            if !front_covers(rest, unit.start, unit.end) {
                made.push(unit)?;
            }
        }
        Ok(made)
    }
}

impl Duplicate for Ranges {
    fn copy(&self) -> Result<Ranges, Memory> {
        Ok(Ranges {
            spans: self.spans.copy()?,
        })
    }
}

impl Same for Ranges {
    fn same(&self, other: &Ranges) -> bool {
        self.spans.same(&other.spans)
    }
}

fn hull(left: Bounds, right: Bounds) -> Bounds
    ensures { result ≡ hull left right }
{
    Bounds {
        start: left.start.min(right.start),
        end: left.end.max(right.end),
    }
}

// Goes past one span, with a new one on its way to its place or none any more.
fn pass(made: &mut Spans, new: Option<Bounds>, span: &Bounds) -> Result<Option<Bounds>, Memory>
    ensures { IfOk result (λ left. (rest : List Bounds) →
        made.new ++ added left rest ≡ made.old ++ added new (span.now ∷ rest)) }
{
    let Some(new) = new else {
        made.push(*span)?;
        return Ok(None);
    };
    if span.end < new.start {
        made.push(*span)?;
        return Ok(Some(new));
    }
    if new.end < span.start {
        made.push(new)?;
        made.push(*span)?;
        return Ok(None);
    }
    Ok(Some(hull(new, *span)))
}

fn with_span(spans: &Spans, span: Bounds) -> Result<Spans, Memory>
    ensures { IfOk result (λ made. made ≡ added (Some span) spans.now) }
{
    let mut made = Seq::new(spans.alloc());
    let mut new = Some(span);
    for next in spans.as_slice() {
        new = pass(&mut made, new, next)?;
    }
    if let Some(last) = new {
        made.push(last)?;
    }
    Ok(made)
}

pub(crate) fn push_filled(made: &mut Spans, start: i64, end: i64) -> Result<(), Memory>
    ensures { IfOk result (λ _. made.new ≡ made.old ++ filled start end) }
{
    if start < end {
        made.push(Bounds { start, end })?;
    }
    Ok(())
}

fn push_pieces(made: &mut Spans, gone: &Bounds, span: &Bounds) -> Result<(), Memory>
    ensures { IfOk result (λ _. made.new ≡ made.old ++ pieces gone.now span.now) }
{
    push_filled(made, span.start, span.end.min(gone.start))?;
    push_filled(made, span.start.max(gone.end), span.end)?;
    Ok(())
}

fn without_span(spans: &Spans, gone: &Bounds) -> Result<Spans, Memory>
    ensures { IfOk result (λ made. made ≡ flat_map (pieces gone.now) spans.now) }
{
    let mut made = Seq::new(spans.alloc());
    for span in spans.as_slice() {
        push_pieces(&mut made, gone, span)?;
    }
    Ok(made)
}

fn open_after(spans: &[Bounds], second: i64) -> &[Bounds]
    ensures { result.now ≡ open_after second spans.now }
{
    for (i, span) in spans.iter().enumerate() {
        if second < span.end {
            return &spans[i..];
        }
    }
    &spans[spans.len()..]
}

fn front_covers(spans: &[Bounds], start: i64, end: i64) -> bool
    ensures { result ≡ front_covers start end spans.now }
{
    match spans {
        [first, ..] => first.start <= start && end <= first.end,
        [] => false,
    }
}

fn unit_size(unit: Unit) -> u64
    ensures { result ≡ unit_size unit }
{
    match unit {
        Unit::Hour => 3_600,
        Unit::Day => 86_400,
    }
}

fn unit_count(schedule: &Schedule) -> u64
    requires first { FIRST_SECOND ≤ℤ schedule.now.start }
    requires last { schedule.now.end ≤ℤ END_OF_SECONDS }
    ensures { result ≡ unit_count schedule.now }
{
    if schedule.end <= schedule.start {
        return 0;
    }
    (schedule.end - schedule.start) as u64 / unit_size(schedule.unit)
}

fn unit_at(schedule: &Schedule, number: u64) -> Bounds
    requires first { FIRST_SECOND ≤ℤ schedule.now.start }
    requires last { schedule.now.end ≤ℤ END_OF_SECONDS }
    requires listed { number < unit_count schedule.now }
    ensures { result ≡ unit_at schedule.now number }
{
    let size = unit_size(schedule.unit);
    Bounds {
        start: schedule.start + (number * size) as i64,
        end: schedule.start + ((number + 1) * size) as i64,
    }
}
