// Models whose rows are computed side by side, and which are then made and filled one after another.
ghost use Rattle.std.specs.Prelude.{◌≡◌, ◌<◌, ◌≤◌, ◌++◌, List, IfOk, OnOk, length, map, true};
ghost use Rattle.mesh_list.specs.Counts.{risen};
ghost use Rattle.mesh_base.specs.declared.jobs.Input.{Input};
ghost use Rattle.mesh_house.specs.Runs.{Makes};
ghost use Rattle.mesh_exec_works.specs.Fronts.{are_there, each_pool};
ghost use Rattle.mesh_exec_works.specs.Plain.{making, model_of, plain_models};
ghost use Rattle.mesh_exec_works.specs.Works.{are_fit, is_fit, part_of};
ghost use Rattle.mesh_exec.specs.Cuts.{AreCuts, IsCut, count_runs, cut_part};
ghost use Rattle.mesh_exec.specs.Fills.{fillings};
ghost use Rattle.mesh_exec.specs.Fronts.{cut_jobs, cut_rows, front_changes, part_changes, part_rows_of};

use crate::fills::{changes_of, is_computed, push_zipped};
use crate::jobs::push_jobs;
use crate::ready::Cut;
use mesh_base::{Entry, Jobs, Node};
use mesh_base_values::{Rows, RowsList};
use mesh_exec_wave::wave::{Gate, wave};
use mesh_exec_works::{Pooled, push_making};
use mesh_house::{Changes, Warehouse, WhFail};
use mesh_janitor::making::make_counted;
use mesh_list::{Memory, Seq};
use std::alloc::Global;
use std::thread::Threads;

/// The jobs of some models, each over the pool of its number.
fn jobs_of_all(alloc: Global, cuts: &[Cut], numbers: &[u32]) -> Result<Jobs, Memory>
    ensures { IfOk result (λ jobs. jobs ≡ cut_jobs cuts.now numbers.now) }
{
    let mut jobs = Seq::new(alloc);
    for (i, cut) in cuts.iter().enumerate() {
        let Some(number) = numbers.get(i) else {
            return Ok(jobs);
        };
        push_jobs(&mut jobs, *number, cut.work.node, cut.runs.as_slice())?;
    }
    Ok(jobs)
}

/// The rows of the runs of some models, computed side by side.
fn rows_of_all<R: Threads + Sync, G: Gate>(
    rt: &R,
    alloc: Global,
    cuts: &[Cut],
    pooled: &Pooled,
    workers: u32,
    gate: &G,
) -> Result<RowsList, Memory>
    requires workers { (1 ≤ workers) × (workers ≤ 64) }
    requires few { count_runs cuts.now ≤ 256 }
    requires there { are_there pooled.now ≡ true }
    requires each { AreCuts cuts.now }
    requires fit { are_fit (map cut_part cuts.now) ≡ true }
    ensures { IfOk result (λ made. made ≡ cut_rows cuts.now (each_pool pooled.now)) }
{
    let jobs = jobs_of_all(alloc, cuts, pooled.numbers.as_slice())?;
    wave(rt, alloc, &pooled.pools, &jobs, workers, gate)
}

/// What fills a model, from the rows of its runs where they are computed.
fn push_fills(alloc: Global, changes: &mut Changes, cut: &Cut, rows: &[Rows]) -> Result<(), Memory>
    requires cut { IsCut cut.now }
    requires fit { is_fit cut.now.work.node.now cut.now.work.dues.now ≡ true }
    ensures { (tables : List Input) → rows.now ≡ part_rows_of cut.now tables → OnOk result (changes.new ≡ changes.old ++ fillings (model_of cut.now.work.node.now cut.now.work.entry.now) tables cut.now.work.dues.now) }
{
    let work = cut.work;
    if is_computed(&work.node.own.kind) {
        push_zipped(
            alloc,
            changes,
            work.node,
            work.entry,
            cut.runs.as_slice(),
            rows,
        )
    } else {
        changes.append(changes_of(alloc, work.node, work.entry, work.dues)?)
    }
}

/// What makes and fills a model.
fn push_part(
    alloc: Global,
    changes: &mut Changes,
    nodes: &[Node],
    entries: &[Entry],
    cut: &Cut,
    rows: &[Rows],
) -> Result<(), Memory>
    requires cut { IsCut cut.now }
    requires fit { is_fit cut.now.work.node.now cut.now.work.dues.now ≡ true }
    ensures { (tables : List Input) → rows.now ≡ part_rows_of cut.now tables → OnOk result (changes.new ≡ changes.old ++ part_changes (plain_models nodes.now entries.now) (cut_part cut.now) tables) }
{
    push_making(alloc, changes, nodes, entries, &cut.work)?;
    push_fills(alloc, changes, cut, rows)
}

/// What makes and fills some models, from the rows of all their runs.
fn push_parts(
    alloc: Global,
    changes: &mut Changes,
    nodes: &[Node],
    entries: &[Entry],
    cuts: &[Cut],
    rows: &[Rows],
) -> Result<(), Memory>
    requires each { AreCuts cuts.now }
    requires fit { are_fit (map cut_part cuts.now) ≡ true }
    ensures { (pools : List (List Input)) → length pools ≡ length cuts.now → rows.now ≡ cut_rows cuts.now pools → OnOk result (changes.new ≡ changes.old ++ front_changes (plain_models nodes.now entries.now) (map cut_part cuts.now) pools) }
{
    let mut rest = rows;
    for cut in cuts {
        let (own, behind) = rest.split_at(cut.runs.len().min(rest.len()));
        rest = behind;
        push_part(alloc, changes, nodes, entries, cut, own)?;
    }
    Ok(())
}

/// What makes and fills some models, each over the pool of its number.
fn changes_of_all<R: Threads + Sync, G: Gate>(
    rt: &R,
    alloc: Global,
    nodes: &[Node],
    entries: &[Entry],
    cuts: &[Cut],
    pooled: &Pooled,
    workers: u32,
    gate: &G,
) -> Result<Changes, Memory>
    requires workers { (1 ≤ workers) × (workers ≤ 64) }
    requires few { count_runs cuts.now ≤ 256 }
    requires there { are_there pooled.now ≡ true }
    requires each { AreCuts cuts.now }
    requires fit { are_fit (map cut_part cuts.now) ≡ true }
    requires pools { length pooled.now.numbers ≡ length cuts.now }
    ensures { IfOk result (λ changes. changes ≡ front_changes (plain_models nodes.now entries.now) (map cut_part cuts.now) (each_pool pooled.now)) }
{
    let rows = rows_of_all(rt, alloc, cuts, pooled, workers, gate)?;
    let mut changes = Seq::new(alloc);
    push_parts(alloc, &mut changes, nodes, entries, cuts, rows.as_slice())?;
    Ok(changes)
}

/// Computes the rows of some models side by side, and then makes and fills one model after another.
pub(crate) fn make_front<R: Threads + Sync, W: Warehouse, G: Gate>(
    rt: &R,
    alloc: Global,
    house: &mut W,
    nodes: &[Node],
    entries: &[Entry],
    cuts: &[Cut],
    pooled: &Pooled,
    workers: u32,
    gate: &G,
) -> Result<u64, WhFail>
    requires workers { (1 ≤ workers) × (workers ≤ 64) }
    requires few { count_runs cuts.now ≤ 256 }
    requires there { are_there pooled.now ≡ true }
    requires each { AreCuts cuts.now }
    requires fit { are_fit (map cut_part cuts.now) ≡ true }
    requires pools { length pooled.now.numbers ≡ length cuts.now }
    ensures makes { Makes (λ w. front_changes (plain_models nodes.now entries.now) (map cut_part cuts.now) (each_pool pooled.now)) (W.told house.old) (W.told house.new) result }
    ensures number { IfOk result (λ made. made ≡ length (front_changes (plain_models nodes.now entries.now) (map cut_part cuts.now) (each_pool pooled.now))) }
    ensures calls { IfOk result (λ made. (W.told house.new).calls ≡ risen made (W.told house.old).calls) }
{
    let changes = changes_of_all(rt, alloc, nodes, entries, cuts, pooled, workers, gate)?;
    make_counted(alloc, house, changes.as_slice())
}
