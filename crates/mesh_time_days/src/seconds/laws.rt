// What the second of a cell is.
ghost use Rattle.std.specs.Prelude.{◌≡◌, ◌↔◌, ℤ, Some};
ghost use Rattle.mesh_base_values.specs.declared.values.Cell.{Cell};
ghost use Rattle.mesh_time_days.specs.Moments.{IsTimeValue};
ghost use Rattle.mesh_time_days.specs.seconds.Times.{time_of};

/// The second that a cell stands for is its time value: a number itself, the first second of a DATE
/// or of the day that a text is, and none of any other.
pub fn seconds_are_time_values()
    ensures { (cell : Cell) (t : ℤ) → (time_of cell ≡ Some t) ↔ IsTimeValue cell t }
{}
