// Schedules that have too many units.
ghost use Rattle.std.specs.Prelude.{◌≡◌, ℕ, nat_lt, length, map};
ghost use Rattle.mesh_time.specs.Ranges.{unit_count};
ghost use Rattle.mesh_spec_model.specs.Closures.{closures};
ghost use Rattle.mesh_spec_model.specs.Horizons.{Clock, horizon, units_from};
ghost use Rattle.mesh_plan_due.specs.Least.{IsHorizon};
ghost use Rattle.mesh_plan_due.specs.Long.{first_too_long};

use crate::horizons::Horizons;
use crate::schedules::{schedule_of, unit_count};
use mesh_base::{Node, Own};
use mesh_base_values::MOST_INTERVALS;

#[tactic(auto, using(crate::proofs::Units::units_counted))]
fn is_too_long(own: &Own, horizon: i64) -> bool
    requires { IsHorizon horizon }
    ensures { result ≡ nat_lt 200_000 (length (units_from own.now.start own.now.unit horizon)) }
{
    let schedule = schedule_of(own, horizon);
    unit_count(&schedule) > MOST_INTERVALS
}

/// The place of the first model whose schedule has more than `MOST_INTERVALS` units, which are counted and not listed.
pub fn first_too_long(nodes: &[Node], horizons: &Horizons) -> Option<usize>
    requires { length horizons.now ≡ length nodes.now }
    ensures { (clock : Clock) → horizons.now ≡ map (horizon clock) (closures nodes.now) → result ≡ first_too_long clock (closures nodes.now) }
{
    let seconds = horizons.as_slice();
    for (at, node) in nodes.iter().enumerate() {
        if is_too_long(&node.own, seconds[at]) {
            return Some(at);
        }
    }
    None
}
