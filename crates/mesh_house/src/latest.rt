// What is known of the table that was written last.
ghost use Rattle.std.specs.Prelude.{◌≡◌, true, IsTrue, IfSome, OnOk, OnErr};
ghost use Rattle.std.specs.Int.Signed.{le_z};
ghost use Rattle.std.specs.Option.{option_copied};
ghost use Rattle.mesh_house.specs.declared.world.World.{World};
ghost use Rattle.mesh_house.specs.World.{object_at};
ghost use Rattle.mesh_house.specs.Gone.{nothing_gone, settled};
ghost use Rattle.mesh_house.specs.Latest.{ends_body, ends_now, ends_object, ends_rows, is_known, kept_if, spares_objects};
ghost use Rattle.mesh_house.specs.Step.{step, write_range};

use crate::gone::{Gone, settle};
use crate::objects::{Body, Object};
use crate::world::{Change, World};
use mesh_base_values::{Columns, Name, Rows, Str};
use mesh_list::{Memory, Same, both};
use mesh_time_days::seconds::are_before;
use std::alloc::Global;

/// A table that has no row whose second by the column `time` is at or after `end`.
pub(crate) struct Latest {
    pub object: Name,
    pub time: Str,
    pub end: i64,
}

impl Drop for Latest {
    fn drop(self) {
        let Latest {
            object: _,
            time: _,
            end: _,
        } = self;
    }
}

// Whether a table's rows are before a second. A stored query has none.
fn ends_body(columns: &Columns, body: &Body, time: &Str, end: i64) -> bool
    ensures { result ≡ ends_body columns.now time.now end body.now }
{
    match body {
        Body::Rows(rows) => are_before(columns.as_slice(), time, end, rows.as_slice()),
        Body::Stored { .. } => true,
    }
}

// The same of an object, where there is one.
fn ends_object(object: Option<&Object>, time: &Str, end: i64) -> bool
    ensures { result ≡ ends_object (option_copied object.entry) time.now end }
{
    match object {
        None => true,
        Some(object) => ends_body(&object.columns, &object.body, time, end),
    }
}

// Whether these rows are before a second by a column of an object, where there is one.
fn ends_rows(object: Option<&Object>, time: &Str, end: i64, rows: &Rows) -> bool
    ensures { result ≡ ends_rows (option_copied object.entry) time.now end rows.now }
{
    match object {
        None => true,
        Some(object) => are_before(object.columns.as_slice(), time, end, rows.as_slice()),
    }
}

// Whether a table ends at a second now. Of one whose other rows are known to, only those that were added are looked at.
fn ends_now(object: Option<&Object>, time: &Str, end: i64, rows: &Rows, others: bool) -> bool
    ensures { result ≡ ends_now others (option_copied object.entry) time.now end rows.now }
{
    if others {
        ends_rows(object, time, end, rows)
    } else {
        ends_object(object, time, end)
    }
}

// Whether it is this table, and this column.
fn is_of(latest: &Latest, object: &Name, time: &Str) -> bool
    ensures { IsTrue result → (latest.now.object ≡ object.now) × (latest.now.time ≡ time.now) }
{
    latest.object.same(object) && latest.time.same(time)
}

// Whether a table is known to have no row at or after `start`.
fn is_behind(latest: &Option<Latest>, object: &Name, time: &Str, start: i64) -> bool
    ensures { IsTrue result → (w : World) → is_known w latest.now ≡ true → ends_object (object_at w object.now) time.now start ≡ true }
{
    match latest {
        None => false,
        Some(known) => {
            if known.end <= start {
                is_of(known, object, time)
            } else {
                false
            }
        }
    }
}

// Whether a table's other rows are known to be before `end`, as they are before `start`.
fn are_others(behind: bool, start: i64, end: i64) -> bool
    ensures { IsTrue result → (behind ≡ true) × (le_z start end ≡ true) }
{
    behind && start <= end
}

// That much is known of a table, where there is memory to keep it.
fn known(object: &Name, time: &Str, end: i64) -> Option<Latest>
    ensures { IfSome result (λ l. l ≡ record { object = object.now; time = time.now; end = end }) }
{
    match both(object, time) {
        Ok((object, time)) => Some(Latest { object, time, end }),
        Err(Memory) => None,
    }
}

/// Writes a table's rows of these seconds. Where no row that is there is at or after `start`, as is known of the table
/// that was written last, none of them is looked at. At `Err` the world hasn't changed.
pub(crate) fn write(
    world: &mut World,
    latest: &mut Option<Latest>,
    alloc: Global,
    object: &Name,
    time: &Str,
    start: i64,
    end: i64,
    rows: &Rows,
) -> Result<(), Memory>
    requires { is_known world.old latest.old ≡ true }
    ensures ok { OnOk result (world.new ≡ write_range world.old object.now time.now start end rows.now) }
    ensures err { OnErr result (world.new ≡ world.old) }
    ensures known { is_known world.new latest.new ≡ true }
{
    let behind = is_behind(latest, object, time, start);
    *latest = None;
    world.write_range(alloc, object, time, start, end, rows, behind)?;
    let others = are_others(behind, start, end);
    if ends_now(world.object_at(object), time, end, rows, others) {
        *latest = known(object, time, end);
    }
    Ok(())
}

// Whether a change leaves all objects as they are, of those that come between the writes of a table.
fn spares_objects(change: &Change) -> bool
    ensures { result ≡ spares_objects change.now }
{
    matches!(
        change,
        Change::Moment { .. } | Change::RecordRange { .. } | Change::RecordMarks { .. }
    )
}

// What is known of the table that was written last is kept, or forgotten.
fn keep(latest: &mut Option<Latest>, kept: bool)
    ensures { latest.new ≡ kept_if kept latest.old }
{
    if !kept {
        *latest = None;
    }
}

/// Takes out what is to go. Where objects go, what is known of the table that was written last is forgotten.
pub(crate) fn settle_known(world: &mut World, gone: &mut Gone, latest: &mut Option<Latest>)
    requires { is_known world.old latest.old ≡ true }
    ensures world { world.new ≡ settled world.old gone.old }
    ensures gone { gone.new ≡ nothing_gone }
    ensures known { is_known world.new latest.new ≡ true }
{
    keep(latest, gone.objects.as_slice().is_empty());
    settle(world, gone);
}

/// Makes the change. What is known of the table that was written last is kept where objects stay as they are. At `Err`
/// the world hasn't changed.
pub(crate) fn step(
    world: &mut World,
    latest: &mut Option<Latest>,
    alloc: Global,
    change: &Change,
) -> Result<(), Memory>
    requires { is_known world.old latest.old ≡ true }
    ensures ok { OnOk result (world.new ≡ step world.old change.now) }
    ensures err { OnErr result (world.new ≡ world.old) }
    ensures known { is_known world.new latest.new ≡ true }
{
    keep(latest, spares_objects(change));
    world.step(alloc, change)
}
