// How far each model of a project goes at a moment.
ghost use Rattle.std.specs.Prelude.{◌≡◌, ◌∷◌, [], ℤ, pos, negsuc, ◌≤ℤ◌, length, map, IfOk, if◌then◌else◌};
ghost use Rattle.std.specs.List.{All, slice_get};
ghost use Rattle.std.specs.Option.{option_to_list};
ghost use Rattle.mesh_time_days.specs.Moments.{IsMoment};
ghost use Rattle.mesh_time.specs.Ranges.{unit_size};
ghost use Rattle.mesh_spec_model.specs.Closures.{closures};
ghost use Rattle.mesh_spec_model.specs.Horizons.{Clock, Shows, floored, horizon, last_tick};
ghost use Rattle.mesh_plan_due.specs.Least.{IsHorizon, lesser, least_over, least_at, bounded, timed_over, horizon_over};

use mesh_base::{Node, Own};
use mesh_base_values::{Unit, is_incremental};
use mesh_list::{Memory, Seq};
use mesh_time::floor;
use std::alloc::Global;
use std::marker::Model;

/// The horizon of each model of a project, in seconds since 1970-01-01T00:00:00 UTC.
pub struct Horizons {
    list: Seq<i64>,
}

impl Drop for Horizons {
    fn drop(self) {
        let Horizons { list: _ } = self;
    }
}

impl Model for Horizons {
    ghost use Rattle.std.specs.Prelude.{List, ℤ};
    ghost use Rattle.std.specs.List.{All};
    ghost use Rattle.mesh_plan_due.specs.Least.{IsHorizon};

    ghost Value = { List ℤ };

    ghost view = { λ h. h.list };

    ghost invariant = { λ h. All IsHorizon h.list };
}

impl Horizons {
    /// No horizon is above the last moment.
    pub fn as_slice(&self) -> &[i64]
        ensures list { result.now ≡ self.now }
        ensures bound { All IsHorizon self.now }
    {
        self.list.as_slice()
    }
}

fn unit_size(unit: Unit) -> i64
    ensures { result ≡ pos (unit_size unit) }
{
    match unit {
        Unit::Hour => 3_600,
        Unit::Day => 86_400,
    }
}

fn floored(unit: Unit, t: i64) -> i64
    requires low { negsuc 399_999_999 ≤ℤ t }
    requires high { t ≤ℤ pos 253_402_300_799 }
    ensures value { result ≡ floored unit t }
    ensures bound { IsHorizon result }
{
    let size = unit_size(unit);
    t.div_euclid(size) * size
}

/// The last tick of a model.
#[tactic(auto, using(crate::proofs::Ticks::not_long_before, crate::proofs::Ticks::not_after, crate::proofs::Ticks::its_last_tick))]
fn last_tick(own: &Own, t: i64) -> i64
    requires { IsMoment t }
    ensures tick { (clock : Clock) → Shows clock t → result ≡ last_tick clock own.now }
    ensures bound { IsHorizon result }
{
    own.cron.rule();
    let tick = floor(&own.cron, t);
    floored(own.unit, tick)
}

/// The lesser of two seconds, where there are both.
fn lesser(a: Option<i64>, b: Option<i64>) -> Option<i64>
    ensures { result ≡ lesser a b }
{
    match a {
        None => b,
        Some(x) => match b {
            None => Some(x),
            Some(y) => Some(x.min(y)),
        },
    }
}

fn timed_at(timed: &[Option<i64>], place: u32) -> Option<i64>
    ensures { result ≡ least_over (option_to_list (slice_get timed.now place)) }
{
    match timed.get(place as usize) {
        None => None,
        Some(second) => *second,
    }
}

#[tactic(auto, using(crate::proofs::Least::one_more_place))]
fn least_at(timed: &[Option<i64>], places: &[u32]) -> Option<i64>
    ensures { result ≡ least_at timed.now places.now }
{
    let mut least = None;
    for place in places {
        least = lesser(least, timed_at(timed, *place));
    }
    least
}

fn bounded(tick: i64, least: Option<i64>) -> i64
    requires { IsHorizon tick }
    ensures value { result ≡ bounded tick least }
    ensures bound { IsHorizon result }
{
    match least {
        None => tick,
        Some(second) => tick.min(second),
    }
}

fn horizon_over(incremental: bool, tick: i64, least: Option<i64>) -> i64
    requires { IsHorizon tick }
    ensures value { result ≡ horizon_over incremental tick least }
    ensures bound { IsHorizon result }
{
    if incremental {
        bounded(tick, least)
    } else {
        tick
    }
}

fn timed_over(incremental: bool, horizon: i64, least: Option<i64>) -> Option<i64>
    ensures { result ≡ timed_over incremental horizon least }
{
    if incremental { Some(horizon) } else { least }
}

/// The horizon of each model at a moment.
pub fn horizons_of(alloc: Global, nodes: &[Node], t: i64) -> Result<Horizons, Memory>
    requires { IsMoment t }
    ensures horizons { IfOk result (λ made. (clock : Clock) → Shows clock t → made ≡ map (horizon clock) (closures nodes.now)) }
    ensures length { IfOk result (λ made. length made ≡ length nodes.now) }
{
    let mut list = Seq::new(alloc);
    let mut timed = Vec::new(alloc);
    for node in nodes {
        let incremental = is_incremental(&node.own.kind);
        let tick = last_tick(&node.own, t);
        let least = least_at(&timed, node.parents.as_slice());
        let horizon = horizon_over(incremental, tick, least);
        list.push(horizon)?;
        timed.push(timed_over(incremental, horizon, least))?;
    }
    Ok(Horizons { list })
}
