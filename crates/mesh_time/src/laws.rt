// What the words of the contracts mean, said of every list of spans and every schedule.
ghost use Rattle.std.specs.Prelude.{◌≡◌, true, ℕ, ◌+◌, ◌<◌, ◌↔◌, ◌⊎◌, IsTrue, List, ℤ, ◌<ℤ◌, ◌≤ℤ◌};
ghost use Rattle.mesh_base_values.specs.declared.times.Bounds.{Bounds};
ghost use Rattle.mesh_base_values.specs.declared.times.Schedule.{Schedule};
ghost use Rattle.mesh_time.specs.Ranges.{IsWithin, Has, is_apart, is_held, unit_count, unit_at};
ghost use Rattle.mesh_time.specs.Edits.{spans_with, spans_without, spans_without_each};

/// Ranges that have the same seconds are the same.
pub fn same_seconds_same_ranges()
    ensures { (left right : List Bounds) → is_apart left ≡ true → is_apart right ≡ true →
        ((t : ℤ) → Has left t ↔ Has right t) → left ≡ right }
{}

/// Spans with more seconds stay apart, and have those and the old ones.
pub fn adding_is_exact()
    ensures apart { (spans : List Bounds) (start end : ℤ) → start <ℤ end → is_apart spans ≡ true →
        is_apart (spans_with start end spans) ≡ true }
    ensures seconds { (spans : List Bounds) (start end t : ℤ) → start <ℤ end →
        Has (spans_with start end spans) t ↔ (Has spans t ⊎ IsWithin start end t) }
{}

/// Spans without some seconds stay apart, and have the others.
pub fn forgetting_is_exact()
    ensures apart { (spans : List Bounds) (start end : ℤ) → start <ℤ end → is_apart spans ≡ true →
        is_apart (spans_without start end spans) ≡ true }
    ensures seconds { (spans : List Bounds) (start end t : ℤ) → start <ℤ end →
        Has (spans_without start end spans) t ↔ (Has spans t × ((t <ℤ start) ⊎ (end ≤ℤ t))) }
{}

/// Spans without the seconds of several others stay apart, and have those that none of the others has.
pub fn forgetting_each_is_exact()
    ensures apart { (gone spans : List Bounds) → is_apart spans ≡ true → is_apart (spans_without_each gone spans) ≡ true }
    ensures seconds { (gone spans : List Bounds) (t : ℤ) →
        Has (spans_without_each gone spans) t ↔ (Has spans t × (Has gone t → ⊥)) }
{}

/// The test by which `missing` goes says of an interval what `holds` says.
pub fn held_is_every_second()
    ensures { (spans : List Bounds) (start end : ℤ) → is_apart spans ≡ true →
        IsTrue (is_held spans start end) ↔ ((t : ℤ) → start ≤ℤ t → t <ℤ end → Has spans t) }
{}

/// A schedule has the units that end by its end, and no other.
pub fn units_end_by_the_end()
    ensures { (s : Schedule) (k : ℕ) → (k < unit_count s) ↔ ((unit_at s k).end ≤ℤ s.end) }
{}

/// Each unit of a schedule begins where the one before it ends, and the first with the schedule.
pub fn units_follow_one_another()
    ensures first { (s : Schedule) → (unit_at s 0).start ≡ s.start }
    ensures next { (s : Schedule) (k : ℕ) → (unit_at s (k + 1)).start ≡ (unit_at s k).end }
{}
