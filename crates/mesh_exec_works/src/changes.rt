// The changes that make and fill the object of a model, and those before the first model's.
ghost use Rattle.std.specs.Prelude.{◌≡◌, ◌++◌, ◌∷◌, [], Ok, IfOk, OnOk, IsTrue, map};
ghost use Rattle.std.specs.List.{slice_get};
ghost use Rattle.std.specs.Option.{option_to_list};
ghost use Rattle.mesh_base.specs.Outputs.{columns_of};
ghost use Rattle.mesh_house_book.specs.WellFormed.{is_moment};
ghost use Rattle.mesh_house.specs.declared.world.Change.{Change};
ghost use Rattle.mesh_house.specs.declared.world.Change.TheVariants.{ForgetUnits, MakeTable, MakeView, PutSnapshot, RecordMarks, RecordRange, ReplaceRows, WriteRange};
ghost use Rattle.mesh_spec_changes.specs.Changes.{forgetting, planned_ref, snapshot_of, target_of};
ghost use Rattle.mesh_spec_changes.specs.due.Versions.{node_ref};
ghost use Rattle.mesh_exec_works.specs.Written.{written};
ghost use Rattle.mesh_exec_works.specs.Plain.{making, model_of, opened, parents_at, plain_models, puts_of};
ghost use Rattle.mesh_exec_works.specs.Works.{part_of};

use crate::works::{Work, model_at};
use mesh_base::rules::Plan;
use mesh_base::{Due, Entry, Forgets, Marks, Node, Ref, Refs, Snapshot};
use mesh_base_columns::columns_of;
use mesh_base_values::{Kind, LIFETIME, Name, Pair, Pairs, Rows, Str};
use mesh_house::{Change, Changes};
use mesh_list::{Duplicate, Memory, Seq, both, push_made};
use std::alloc::Global;

fn push_target(targets: &mut Pairs, node: &Node, entry: &Entry) -> Result<(), Memory>
    ensures { OnOk result (targets.new ≡ targets.old ++ target_of (model_of node.now entry.now) ∷ []) }
{
    let (first, second) = both(&node.own.name, &entry.object)?;
    targets.push(Pair { first, second })
}

fn push_ref(refs: &mut Refs, node: &Node) -> Result<(), Memory>
    ensures { OnOk result (refs.new ≡ refs.old ++ node_ref node.now ∷ []) }
{
    let name = node.own.name.copy()?;
    refs.push(Ref {
        name,
        fingerprint: node.fingerprint,
    })
}

/// The model at a place with its object, where there is one.
fn push_target_at(
    targets: &mut Pairs,
    nodes: &[Node],
    entries: &[Entry],
    place: u32,
) -> Result<(), Memory>
    ensures { OnOk result (targets.new ≡ targets.old ++ map target_of (option_to_list (slice_get (plain_models nodes.now entries.now) place))) }
{
    match model_at(nodes, entries, place) {
        Some((node, entry)) => push_target(targets, node, entry),
        None => Ok(()),
    }
}

/// The model at a place by its fingerprint, where there is one.
fn push_ref_at(refs: &mut Refs, nodes: &[Node], entries: &[Entry], place: u32) -> Result<(), Memory>
    ensures { OnOk result (refs.new ≡ refs.old ++ map planned_ref (option_to_list (slice_get (plain_models nodes.now entries.now) place))) }
{
    match model_at(nodes, entries, place) {
        Some((node, _)) => push_ref(refs, node),
        None => Ok(()),
    }
}

/// The parents at these places with their objects.
fn targets_at(
    alloc: Global,
    nodes: &[Node],
    entries: &[Entry],
    places: &[u32],
) -> Result<Pairs, Memory>
    ensures { IfOk result (λ made. made ≡ map target_of (parents_at (plain_models nodes.now entries.now) places.now)) }
{
    let mut made = Seq::new(alloc);
    for place in places {
        push_target_at(&mut made, nodes, entries, *place)?;
    }
    Ok(made)
}

/// The parents at these places by their fingerprints.
fn refs_at(alloc: Global, nodes: &[Node], entries: &[Entry], places: &[u32]) -> Result<Refs, Memory>
    ensures { IfOk result (λ made. made ≡ map planned_ref (parents_at (plain_models nodes.now entries.now) places.now)) }
{
    let mut made = Seq::new(alloc);
    for place in places {
        push_ref_at(&mut made, nodes, entries, *place)?;
    }
    Ok(made)
}

fn table_change(node: &Node, entry: &Entry) -> Result<Change, Memory>
    ensures { IfOk result (λ change. change ≡ MakeTable entry.now.object (columns_of node.now.own)) }
{
    let columns = columns_of(&node.own)?;
    let object = entry.object.copy()?;
    Ok(Change::MakeTable { object, columns })
}

fn view_change(
    alloc: Global,
    nodes: &[Node],
    entries: &[Entry],
    node: &Node,
    entry: &Entry,
) -> Result<Change, Memory>
    ensures { IfOk result (λ change. change ≡ MakeView entry.now.object (columns_of node.now.own) node.now.own
        (map target_of (parents_at (plain_models nodes.now entries.now) node.now.parents))) }
{
    let targets = targets_at(alloc, nodes, entries, node.parents.as_slice())?;
    let columns = columns_of(&node.own)?;
    let (object, own) = both(&entry.object, &node.own)?;
    Ok(Change::MakeView {
        object,
        columns,
        own,
        targets,
    })
}

/// What makes the object of a model, where that isn't made; a view's is made again where it is due.
pub fn push_making(
    alloc: Global,
    changes: &mut Changes,
    nodes: &[Node],
    entries: &[Entry],
    work: &Work,
) -> Result<(), Memory>
    ensures { OnOk result (changes.new ≡ changes.old ++ making (plain_models nodes.now entries.now) (part_of work.now)) }
{
    match &work.node.own.kind {
        Kind::View => {
            if work.entry.made && work.dues.is_empty() {
                Ok(())
            } else {
                push_made(
                    changes,
                    view_change(alloc, nodes, entries, work.node, work.entry),
                )
            }
        }
        _ => {
            if work.entry.made {
                Ok(())
            } else {
                push_made(changes, table_change(work.node, work.entry))
            }
        }
    }
}

fn range_write(
    object: &Name,
    time: &Str,
    start: i64,
    end: i64,
    rows: Rows,
) -> Result<Change, Memory>
    ensures { IfOk result (λ change. change ≡ WriteRange object.now time.now start end rows) }
{
    let (object, time) = both(object, time)?;
    Ok(Change::WriteRange {
        object,
        time,
        start,
        end,
        rows,
    })
}

fn range_record(object: &Name, start: i64, end: i64) -> Result<Change, Memory>
    ensures { IfOk result (λ change. change ≡ RecordRange object.now start end) }
{
    let object = object.copy()?;
    Ok(Change::RecordRange { object, start, end })
}

fn replacement(object: &Name, rows: Rows) -> Result<Change, Memory>
    ensures { IfOk result (λ change. change ≡ ReplaceRows object.now rows) }
{
    let object = object.copy()?;
    Ok(Change::ReplaceRows { object, rows })
}

fn marks_record(object: &Name, marks: &Marks) -> Result<Change, Memory>
    ensures { IfOk result (λ change. change ≡ RecordMarks object.now marks.now) }
{
    let (object, marks) = both(object, marks)?;
    Ok(Change::RecordMarks { object, marks })
}

/// What fills a due part of a model with these rows: they are written before they are recorded.
pub fn push_written(
    changes: &mut Changes,
    node: &Node,
    entry: &Entry,
    due: &Due,
    rows: Rows,
) -> Result<(), Memory>
    ensures { OnOk result (changes.new ≡ changes.old ++ written (model_of node.now entry.now) node.now.own.kind due.now rows) }
{
    match due {
        Due::Unit { start, end, .. } => match &node.own.kind {
            Kind::Incremental { time, .. } => {
                push_made(
                    changes,
                    range_write(&entry.object, time, *start, *end, rows),
                )?;
                push_made(changes, range_record(&entry.object, *start, *end))
            }
            _ => Ok(()),
        },
        Due::Whole { marks, .. } => match &node.own.kind {
            Kind::Incremental { .. } => Ok(()),
            Kind::View => push_made(changes, marks_record(&entry.object, marks)),
            Kind::Full | Kind::Seed => {
                push_made(changes, replacement(&entry.object, rows))?;
                push_made(changes, marks_record(&entry.object, marks))
            }
        },
    }
}

fn snapshot_of(
    alloc: Global,
    nodes: &[Node],
    entries: &[Entry],
    node: &Node,
    entry: &Entry,
    t: i64,
) -> Result<Snapshot, Memory>
    requires { IsTrue (is_moment t) }
    ensures { IfOk result (λ made. made ≡ snapshot_of t (plain_models nodes.now entries.now) (model_of node.now entry.now)) }
{
    let parents = refs_at(alloc, nodes, entries, node.parents.as_slice())?;
    let (name, own) = both(&node.own.name, &node.own)?;
    let object = entry.object.copy()?;
    Ok(Snapshot {
        name,
        fingerprint: node.fingerprint,
        own,
        parents,
        rank: node.rank,
        object,
        expires: t + LIFETIME,
    })
}

fn put_change(
    alloc: Global,
    nodes: &[Node],
    entries: &[Entry],
    node: &Node,
    entry: &Entry,
    t: i64,
) -> Result<Change, Memory>
    requires { IsTrue (is_moment t) }
    ensures { IfOk result (λ change. change ≡ PutSnapshot (snapshot_of t (plain_models nodes.now entries.now) (model_of node.now entry.now))) }
{
    let snapshot = snapshot_of(alloc, nodes, entries, node, entry, t)?;
    Ok(Change::PutSnapshot { snapshot })
}

/// The snapshots of the models.
fn push_puts(
    alloc: Global,
    changes: &mut Changes,
    nodes: &[Node],
    entries: &[Entry],
    t: i64,
) -> Result<(), Memory>
    requires { IsTrue (is_moment t) }
    ensures { OnOk result (changes.new ≡ changes.old ++ puts_of t (plain_models nodes.now entries.now) (plain_models nodes.now entries.now)) }
{
    for (i, node) in nodes.iter().enumerate() {
        let Some(entry) = entries.get(i) else {
            return Ok(());
        };
        push_made(changes, put_change(alloc, nodes, entries, node, entry, t))?;
    }
    Ok(())
}

fn forgets_change(forgets: &Forgets) -> Result<Change, Memory>
    ensures { IfOk result (λ change. change ≡ ForgetUnits forgets.now) }
{
    Ok(Change::ForgetUnits {
        list: forgets.copy()?,
    })
}

/// What is computed again is forgotten first, by one change.
fn push_forgetting(changes: &mut Changes, forgets: &Forgets) -> Result<(), Memory>
    ensures { OnOk result (changes.new ≡ changes.old ++ forgetting forgets.now) }
{
    if forgets.is_empty() {
        Ok(())
    } else {
        push_made(changes, forgets_change(forgets))
    }
}

/// The changes before those of the models.
pub fn opening(alloc: Global, p: &Plan) -> Result<Changes, Memory>
    requires { IsTrue (is_moment p.now.moment) }
    ensures { IfOk result (λ changes. changes ≡ opened p.now) }
{
    let nodes = p.project.as_slice();
    let mut changes = Seq::new(alloc);
    changes.push(Change::Moment { t: p.moment })?;
    if !p.run {
        push_puts(alloc, &mut changes, nodes, p.entries.as_slice(), p.moment)?;
    }
    push_forgetting(&mut changes, &p.forgets)?;
    Ok(changes)
}
