// What is printed of a command and of what its house shows.
use crate::trouble::Trouble;
use mesh_base_values::{Columns, Name, Rows, Str, same_text, sort_rows};
use mesh_cli_print::printed::rows_text;
use mesh_house::{MemHouse, ViewOf, Warehouse, World};
use mesh_layer::show;
use mesh_list::{Duplicate, Seq};
use std::alloc::Global;

/// A command's status, how many changes it made, and what it wrote.
#[derive(Drop, PartialEq, Eq)]
pub struct Outcome {
    pub status: u8,
    pub changes: u64,
    pub out: Str,
    pub err: Str,
}

/// Adds a text.
pub fn put(report: &mut Vec<u8>, text: &[u8]) -> Result<(), Trouble> {
    Ok(report.extend_from_slice(text)?)
}

fn put_stream(report: &mut Vec<u8>, head: &[u8], text: &Str) -> Result<(), Trouble> {
    if text.is_empty() {
        return Ok(());
    }
    put(report, head)?;
    put(report, text.as_slice())
}

/// Adds a command's status, its number of changes, and what it wrote to the two sinks.
pub fn put_outcome(alloc: Global, report: &mut Vec<u8>, outcome: &Outcome) -> Result<(), Trouble> {
    let (status, changes) = (outcome.status, outcome.changes);
    let head = format!(in alloc; "status {status}, changes {changes}\n")?;
    put(report, head.as_bytes())?;
    put_stream(report, b"out:\n", &outcome.out)?;
    put_stream(report, b"err:\n", &outcome.err)
}

/// Adds a name of two parts.
pub fn put_name(report: &mut Vec<u8>, name: &Name) -> Result<(), Trouble> {
    put(report, name.schema.as_slice())?;
    put(report, b".")?;
    put(report, name.model.as_slice())
}

fn are_same(a: &Name, b: &Name) -> bool {
    same_text(a.schema.as_slice(), b.schema.as_slice())
        && same_text(a.model.as_slice(), b.model.as_slice())
}

/// How many views in front of the first one with this target have no target of a view before them.
fn number_of(views: &[ViewOf], target: &Name) -> u64 {
    let mut number = 0u64;
    for (i, view) in views.iter().enumerate() {
        let mut before = views.iter().take(i);
        if before.any(|earlier| are_same(&earlier.target, &view.target)) {
            continue;
        }
        number = number.saturating_add(1);
        if are_same(&view.target, target) {
            return number;
        }
    }
    number
}

fn put_table(
    alloc: Global,
    report: &mut Vec<u8>,
    columns: &Columns,
    rows: Rows,
) -> Result<(), Trouble> {
    let sorted = sort_rows(rows)?;
    let text = rows_text(alloc, columns.as_slice(), sorted.as_slice())?;
    put(report, text.as_slice())
}

fn put_shown<W: Warehouse>(
    alloc: Global,
    report: &mut Vec<u8>,
    house: &mut W,
    view: &ViewOf,
    columns: &Columns,
) -> Result<(), Trouble> {
    match show(alloc, house, &view.view)? {
        Some(rows) => put_table(alloc, report, columns, rows),
        None => Err(Trouble::Dangling),
    }
}

/// Adds a view, the number of its target and its rows.
fn put_view<W: Warehouse>(
    alloc: Global,
    report: &mut Vec<u8>,
    house: &mut W,
    view: &ViewOf,
    number: u64,
) -> Result<(), Trouble> {
    put(report, b"view ")?;
    put_name(report, &view.view)?;
    let at = format!(in alloc; " at {number}\n")?;
    put(report, at.as_bytes())?;
    match house.head(alloc, &view.target)? {
        Some(columns) => put_shown(alloc, report, house, view, &columns),
        None => Err(Trouble::Dangling),
    }
}

/// Adds each of some views with its rows, as a warehouse shows them.
pub fn put_each<W: Warehouse>(
    alloc: Global,
    report: &mut Vec<u8>,
    house: &mut W,
    views: &[ViewOf],
) -> Result<(), Trouble> {
    for view in views {
        let number = number_of(views, &view.target);
        put_view(alloc, report, house, view, number)?;
    }
    Ok(())
}

/// Adds each view with its rows. Targets are numbered in the order in which the views name them.
pub fn put_views(alloc: Global, report: &mut Vec<u8>, world: &World) -> Result<(), Trouble> {
    let mut house = MemHouse::with(world.copy()?, Seq::new(alloc));
    let done = put_each(alloc, report, &mut house, world.views.as_slice());
    drop(house);
    done
}

/// Adds each view with its target's name.
pub fn put_targets(report: &mut Vec<u8>, world: &World) -> Result<(), Trouble> {
    for view in world.views.as_slice() {
        put(report, b"view ")?;
        put_name(report, &view.view)?;
        put(report, b" at ")?;
        put_name(report, &view.target)?;
        put(report, b"\n")?;
    }
    Ok(())
}

/// Adds how many things the world has.
pub fn put_counts(alloc: Global, report: &mut Vec<u8>, world: &World) -> Result<(), Trouble> {
    let objects = world.objects.as_slice().len();
    let snapshots = world.book.snapshots.as_slice().len();
    let environments = world.book.environments.as_slice().len();
    let text = format!(in alloc;
        "{objects} objects, {snapshots} snapshots, {environments} environments\n"
    )?;
    put(report, text.as_bytes())
}
