// The units of a model's schedule.
ghost use Rattle.std.specs.Prelude.{◌≡◌, ◌<◌, ℤ, pos, negsuc, ◌≤ℤ◌, ◌+ℤ◌, ◌*ℤ◌, true};
ghost use Rattle.mesh_time.specs.Ranges.{unit_at, unit_count, unit_size, units};
ghost use Rattle.mesh_spec_model.specs.Horizons.{units_from};
ghost use Rattle.mesh_plan_due.specs.Least.{IsHorizon};
ghost use Rattle.mesh_plan_due.specs.Long.{IsStart};

use mesh_base::Own;
use mesh_base_values::{Bounds, Schedule, Unit};

/// The schedule of a model whose rows go as far as this horizon. Without a start it has no units.
pub(crate) fn schedule_of(own: &Own, horizon: i64) -> Schedule
    requires { IsHorizon horizon }
    ensures units { units result ≡ units_from own.now.start own.now.unit horizon }
    ensures start { IsStart result.start }
    ensures end { IsHorizon result.end }
{
    match own.start {
        None => Schedule {
            start: 0,
            end: 0,
            unit: own.unit,
        },
        Some(day) => Schedule {
            start: day as i64 * 86_400,
            end: horizon,
            unit: own.unit,
        },
    }
}

fn unit_size(unit: Unit) -> u64
    ensures { result ≡ unit_size unit }
{
    match unit {
        Unit::Hour => 3_600,
        Unit::Day => 86_400,
    }
}

/// How many units a schedule has.
pub(crate) fn unit_count(schedule: &Schedule) -> u64
    requires start { IsStart schedule.now.start }
    requires end { IsHorizon schedule.now.end }
    ensures { result ≡ unit_count schedule.now }
{
    if schedule.end <= schedule.start {
        return 0;
    }
    (schedule.end - schedule.start) as u64 / unit_size(schedule.unit)
}

/// The unit that so many others stand before.
pub(crate) fn unit_at(schedule: &Schedule, number: u64) -> Bounds
    requires start { IsStart schedule.now.start }
    requires end { IsHorizon schedule.now.end }
    requires listed { number < unit_count schedule.now }
    ensures { result ≡ unit_at schedule.now number }
{
    let size = unit_size(schedule.unit);
    Bounds {
        start: schedule.start + (number * size) as i64,
        end: schedule.start + ((number + 1) * size) as i64,
    }
}
