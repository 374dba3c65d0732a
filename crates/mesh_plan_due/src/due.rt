// What is due of a plan.
ghost use Rattle.std.specs.Prelude.{◌≡◌, ◌∷◌, [], ◌++◌, ◌<◌, ◌^◌, ℕ, map, filter, length, true, not, ◌||◌, IsTrue, IfOk, OnOk, if◌then◌else◌};
ghost use Rattle.std.specs.BTreeSet.{contains};
ghost use Rattle.std.specs.Option.{option_copied};
ghost use Rattle.mesh_base.specs.declared.plans.Due.TheVariants.{Whole};
ghost use Rattle.mesh_base.specs.rules.Proper.{is_proper};
ghost use Rattle.mesh_time.specs.Ranges.{is_apart, units};
ghost use Rattle.mesh_spec_model.specs.Closures.{closures};
ghost use Rattle.mesh_spec_model.specs.Horizons.{Clock, horizon};
ghost use Rattle.mesh_spec_changes.specs.due.Dues.{dues};
ghost use Rattle.mesh_spec_changes.specs.due.Marks.{same_marks};
ghost use Rattle.mesh_spec_changes.specs.due.Plans.{are_marks, marks_of, planned};
ghost use Rattle.mesh_plan_due.specs.Least.{IsHorizon};
ghost use Rattle.mesh_plan_due.specs.Long.{IsStart};
ghost use Rattle.mesh_plan_due.specs.Numbered.{IsNumbering};
ghost use Rattle.mesh_plan_due.specs.Sets.{part_cmp};
ghost use Rattle.mesh_plan_due.specs.Whole.{IsSight, is_due, sight_dues, sight_marks, unit_due};

use crate::gone::{tables_among, units_among};
use crate::horizons::Horizons;
use crate::lineages::lineages;
use crate::marks::{Spot, marks_at, spots_of};
use crate::numbers::numbers_of;
use crate::schedules::{schedule_of, unit_at, unit_count};
use crate::stands::{front_covers, has_marks, open_after, ranges_of};
use mesh_base::{Due, Dues, Entry, Forget, Marks, Node, Own};
use mesh_base_values::{Bounds, Kind, Name, Schedule};
use mesh_house_book::{Book, Version};
use mesh_list::{Duplicate, Memory, Seq};
use std::alloc::Global;
use std::collections::BTreeSet;

/// What the dues of each model are found in: the models by name and their numbers, which of them each stands on, and
/// what is computed again.
pub(crate) struct Sight {
    pub spots: Vec<Spot>,
    pub numbers: Vec<usize>,
    pub rows: Vec<Seq<u64>>,
    pub units: BTreeSet<(i64, i64, Name)>,
    pub tables: BTreeSet<Name>,
}

impl Drop for Sight {
    fn drop(self) {
        let Sight {
            spots: _,
            numbers: _,
            rows: _,
            units: _,
            tables: _,
        } = self;
    }
}

fn sight_of(
    alloc: Global,
    nodes: &[Node],
    seconds: &[i64],
    parts: &[Forget],
) -> Result<Sight, Memory>
    requires proper { IsTrue (is_proper nodes.now) }
    requires length { length seconds.now ≡ length nodes.now }
    ensures { IfOk result (λ sight. IsSight nodes.now seconds.now parts.now sight) }
{
    let spots = spots_of(alloc, nodes, seconds)?;
    let numbers = numbers_of(alloc, &spots, nodes.len())?;
    let rows = lineages(alloc, nodes)?;
    let units = units_among(alloc, parts)?;
    let tables = tables_among(alloc, parts)?;
    Ok(Sight {
        spots,
        numbers,
        rows,
        units,
        tables,
    })
}

#[tactic(auto, using(crate::proofs::Keys::seconds_same))]
fn same_marks(a: &[i64], b: &[i64]) -> bool
    ensures { result ≡ same_marks a.now b.now }
{
    a.cmp(&b).is_eq()
}

fn are_marks(version: Option<&Version>, marks: &Marks) -> bool
    ensures { result ≡ are_marks (marks_of (option_copied version.entry)) marks.now }
{
    match version {
        None => false,
        Some(v) => match &v.marks {
            None => false,
            Some(old) => same_marks(old.as_slice(), marks.as_slice()),
        },
    }
}

fn is_among(again: &BTreeSet<(i64, i64, Name)>, key: &(i64, i64, Name)) -> bool
    ensures { result ≡ contains part_cmp again.now key.now }
{
    again.contains(key)
}

/// Whether a unit isn't recorded, or is among these, which are asked for by a key that has the object.
fn is_due(
    held: bool,
    again: &BTreeSet<(i64, i64, Name)>,
    key: &mut (i64, i64, Name),
    unit: &Bounds,
) -> bool
    ensures due { result ≡ (not held || contains part_cmp again.now (unit.now.start, unit.now.end, key.old.2)) }
    ensures object { key.new.2 ≡ key.old.2 }
{
    key.0 = unit.start;
    key.1 = unit.end;
    !held || is_among(again, key)
}

fn push_unit(dues: &mut Dues, place: u32, unit: &Bounds, due: bool) -> Result<(), Memory>
    ensures { OnOk result (dues.new ≡ dues.old ++ map (unit_due place) (if due then unit.now ∷ [] else [])) }
{
    if due {
        dues.push(Due::Unit {
            node: place,
            start: unit.start,
            end: unit.end,
        })?;
    }
    Ok(())
}

/// The due units of an incremental model, in one pass over the units with what is recorded beside them.
fn add_unit_dues(
    dues: &mut Dues,
    place: u32,
    object: &Name,
    schedule: &Schedule,
    spans: &[Bounds],
    again: &BTreeSet<(i64, i64, Name)>,
) -> Result<(), Memory>
    requires start { IsStart schedule.now.start }
    requires end { IsHorizon schedule.now.end }
    requires apart { is_apart spans.now ≡ true }
    ensures { OnOk result (dues.new ≡ dues.old ++ map (unit_due place)
        (filter (is_due spans.now (λ u. contains part_cmp again.now (u.start, u.end, object.now))) (units schedule.now))) }
{
    let mut key = (0, 0, object.copy()?);
    let mut rest = spans;
    for number in 0..unit_count(schedule) {
        let unit = unit_at(schedule, number);
        rest = open_after(rest, unit.start);
        let held = front_covers(rest, unit.start, unit.end);
        let due = is_due(held, again, &mut key, &unit);
        push_unit(dues, place, &unit, due)?;
    }
    Ok(())
}

fn marks_of(alloc: Global, sight: &Sight, place: usize) -> Result<Marks, Memory>
    requires place { place < length sight.now.rows.items }
    requires numbers { IsNumbering sight.now.spots.items sight.now.numbers.items }
    ensures { IfOk result (λ made. made ≡ sight_marks sight.now place) }
{
    let row = sight.rows[place].as_slice();
    marks_at(alloc, &sight.spots, &sight.numbers, row, place)
}

fn push_whole(dues: &mut Dues, place: u32, marks: Marks) -> Result<(), Memory>
    ensures { OnOk result (dues.new ≡ dues.old ++ Whole place marks ∷ []) }
{
    dues.push(Due::Whole { node: place, marks })
}

/// The dues of the model at a place.
fn add_dues(
    dues: &mut Dues,
    sight: &Sight,
    place: usize,
    own: &Own,
    object: &Name,
    horizon: i64,
    version: Option<&Version>,
) -> Result<(), Memory>
    requires place { place < length sight.now.rows.items }
    requires numbers { IsNumbering sight.now.spots.items sight.now.numbers.items }
    requires few { length sight.now.rows.items < 2 ^ 32 }
    requires horizon { IsHorizon horizon }
    ensures { OnOk result (dues.new ≡ dues.old ++ sight_dues sight.now place own.now object.now horizon (option_copied version.entry)) }
{
    match &own.kind {
        Kind::Incremental { .. } => {
            let schedule = schedule_of(own, horizon);
            let spans = ranges_of(version);
            add_unit_dues(dues, place as u32, object, &schedule, spans, &sight.units)
        }
        Kind::Full => {
            let marks = marks_of(dues.alloc(), sight, place)?;
            if are_marks(version, &marks) && !sight.tables.contains(object) {
                return Ok(());
            }
            push_whole(dues, place as u32, marks)
        }
        Kind::View | Kind::Seed => {
            if has_marks(version) {
                return Ok(());
            }
            let marks = marks_of(dues.alloc(), sight, place)?;
            push_whole(dues, place as u32, marks)
        }
    }
}

/// All that is due of a plan's models, each once and in the plan's order: units that aren't recorded, tables that were
/// computed up to other marks, and what `forgets` has of both. The horizons are those of the moment; each model has its
/// entry.
#[tactic(auto, using(crate::proofs::EachDue::few))]
pub fn dues(
    alloc: Global,
    nodes: &[Node],
    horizons: &Horizons,
    entries: &[Entry],
    b: &Book,
    forgets: &[Forget],
) -> Result<Dues, Memory>
    requires proper { IsTrue (is_proper nodes.now) }
    requires horizons { length horizons.now ≡ length nodes.now }
    requires entries { length entries.now ≡ length nodes.now }
    ensures { IfOk result (λ made. (clock : Clock) → horizons.now ≡ map (horizon clock) (closures nodes.now) →
        made ≡ dues clock b.now forgets.now (planned nodes.now entries.now)) }
{
    let seconds = horizons.as_slice();
    let sight = sight_of(alloc, nodes, seconds, forgets)?;
    let mut made = Seq::new(alloc);
    for (at, node) in nodes.iter().enumerate() {
        let object = &entries[at].object;
        let version = b.versions.find(object);
        add_dues(
            &mut made,
            &sight,
            at,
            &node.own,
            object,
            seconds[at],
            version,
        )?;
    }
    Ok(made)
}
