// What of a plan is computed again although it is recorded.
ghost use Rattle.std.specs.Prelude.{◌≡◌, ◌∷◌, [], ◌++◌, ◌≤◌, ◌<◌, ℕ, map, length, reverse, true, IfOk, OnOk, nat_lt};
ghost use Rattle.std.specs.Option.{is_some, option_copied};
ghost use Rattle.mesh_time.specs.Ranges.{is_apart, unit_count, units};
ghost use Rattle.mesh_spec_model.specs.Closures.{closures};
ghost use Rattle.mesh_spec_model.specs.Horizons.{Clock, horizon};
ghost use Rattle.mesh_house.specs.World.{version_of};
ghost use Rattle.mesh_spec_changes.specs.due.Dues.{again};
ghost use Rattle.mesh_spec_changes.specs.due.Parts.{unit_of};
ghost use Rattle.mesh_spec_changes.specs.due.Plans.{planned};
ghost use Rattle.mesh_plan_due.specs.Least.{IsHorizon};
ghost use Rattle.mesh_plan_due.specs.Long.{IsStart};
ghost use Rattle.mesh_plan_due.specs.Stands.{again_in, clear_before, clear_of, is_again, parts_again, units_again};

use crate::horizons::Horizons;
use crate::named::named_of;
use crate::schedules::{schedule_of, unit_at, unit_count};
use crate::stands::{Stand, has_marks, ranges_of, stands_of};
use mesh_base::{Entry, Forget, Forgets, Node, Own, Restate};
use mesh_base_values::{Bounds, Kind, Name, Schedule};
use mesh_house_book::{Book, Version};
use mesh_list::{Duplicate, Memory, Seq};
use std::alloc::Global;

fn is_again(stand: Stand, near: bool) -> bool
    ensures { result ≡ is_again near stand }
{
    match stand {
        Stand::Lacking => false,
        Stand::Restated => true,
        Stand::Kept => near,
    }
}

/// How many units are kept before the next one that isn't, no more than `lookback`, one unit before.
fn clear_before(stand: Stand, clear: u32, lookback: u32) -> u32
    requires { clear ≤ lookback }
    ensures value { result ≡ clear_before lookback stand clear }
    ensures bound { result ≤ lookback }
{
    match stand {
        Stand::Lacking | Stand::Restated => 0,
        Stand::Kept => {
            if clear < lookback {
                clear + 1
            } else {
                lookback
            }
        }
    }
}

/// The units to be computed again, the last one first.
fn units_backwards(
    alloc: Global,
    schedule: &Schedule,
    stands: &[Stand],
    lookback: u32,
) -> Result<Vec<Bounds>, Memory>
    requires start { IsStart schedule.now.start }
    requires end { IsHorizon schedule.now.end }
    requires each { length stands.now ≡ unit_count schedule.now }
    ensures { IfOk result (λ made. reverse made.items ≡ again_in lookback (units schedule.now) stands.now) }
{
    let mut made = Vec::new(alloc);
    let mut clear = lookback;
    for back in 0..stands.len() {
        let number = stands.len() - 1 - back;
        if is_again(stands[number], clear < lookback) {
            made.push(unit_at(schedule, number as u64))?;
        }
        clear = clear_before(stands[number], clear, lookback);
    }
    Ok(made)
}

fn add_units(forgets: &mut Forgets, object: &Name, backwards: Vec<Bounds>) -> Result<(), Memory>
    ensures { OnOk result (forgets.new ≡ forgets.old ++ map (unit_of object.now) (reverse backwards.items)) }
{
    let mut rest = backwards;
    while let Some(unit) = rest.pop() {
        let object = object.copy()?;
        forgets.push(Forget::Range {
            object,
            start: unit.start,
            end: unit.end,
        })?;
    }
    Ok(())
}

/// The units of an incremental model to be computed again.
fn add_again_units(
    forgets: &mut Forgets,
    object: &Name,
    schedule: &Schedule,
    spans: &[Bounds],
    named: bool,
    restate: Option<&Restate>,
    lookback: u32,
) -> Result<(), Memory>
    requires start { IsStart schedule.now.start }
    requires end { IsHorizon schedule.now.end }
    requires apart { is_apart spans.now ≡ true }
    ensures { OnOk result (forgets.new ≡ forgets.old ++ map (unit_of object.now) (units_again lookback named (option_copied restate.entry) spans.now (units schedule.now))) }
{
    if !named && lookback == 0 {
        return Ok(());
    }
    let alloc = forgets.alloc();
    let stands = stands_of(alloc, spans, named, restate, schedule)?;
    let backwards = units_backwards(alloc, schedule, &stands, lookback)?;
    add_units(forgets, object, backwards)
}

/// The parts of a model to be computed again, by its kind.
fn add_again(
    forgets: &mut Forgets,
    own: &Own,
    object: &Name,
    horizon: i64,
    named: bool,
    restate: Option<&Restate>,
    version: Option<&Version>,
) -> Result<(), Memory>
    requires { IsHorizon horizon }
    ensures { OnOk result (forgets.new ≡ forgets.old ++ parts_again own.now object.now horizon named (option_copied restate.entry) (option_copied version.entry)) }
{
    match &own.kind {
        Kind::Incremental { lookback, .. } => {
            let schedule = schedule_of(own, horizon);
            let spans = ranges_of(version);
            add_again_units(forgets, object, &schedule, spans, named, restate, *lookback)
        }
        Kind::Full => {
            if named && has_marks(version) {
                let object = object.copy()?;
                forgets.push(Forget::Marks { object })?;
            }
            Ok(())
        }
        Kind::View | Kind::Seed => Ok(()),
    }
}

/// What of a plan's models is computed again although it is recorded: what is named to be, with all that stands on
/// it, and what incremental models look back for. The horizons are those of the moment; each model has its entry.
pub fn agains(
    alloc: Global,
    nodes: &[Node],
    horizons: &Horizons,
    entries: &[Entry],
    b: &Book,
    restate: Option<&Restate>,
) -> Result<Forgets, Memory>
    requires horizons { length horizons.now ≡ length nodes.now }
    requires entries { length entries.now ≡ length nodes.now }
    ensures { IfOk result (λ made. (clock : Clock) → horizons.now ≡ map (horizon clock) (closures nodes.now) →
        made ≡ again clock b.now (option_copied restate.entry) (planned nodes.now entries.now)) }
{
    let named = named_of(alloc, nodes, restate)?;
    let seconds = horizons.as_slice();
    let mut made = Seq::new(alloc);
    for (at, node) in nodes.iter().enumerate() {
        let object = &entries[at].object;
        let version = b.versions.find(object);
        add_again(
            &mut made,
            &node.own,
            object,
            seconds[at],
            named[at],
            restate,
            version,
        )?;
    }
    Ok(made)
}
