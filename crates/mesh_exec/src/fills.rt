// The due parts of a model are filled.
ghost use Rattle.std.specs.Prelude.{◌≡◌, ◌++◌, ◌+◌, ◌≤◌, [], List, OnOk, IfOk, length, true, false, map};
ghost use Rattle.mesh_list.specs.Counts.{risen};
ghost use Rattle.mesh_spec_changes.specs.Changes.{ascending};
ghost use Rattle.mesh_base.specs.declared.jobs.Input.{Input};
ghost use Rattle.mesh_base.specs.declared.plans.Entry.{Entry};
ghost use Rattle.mesh_spec_changes.specs.due.Marks.{is_computed};
ghost use Rattle.mesh_house.specs.Runs.{Makes};
ghost use Rattle.mesh_base.specs.rules.Proper.{is_body_of};
ghost use Rattle.mesh_exec_works.specs.Cuts.{cut_fills, run_fills};
ghost use Rattle.mesh_exec_works.specs.Plain.{model_of};
ghost use Rattle.mesh_exec_works.specs.Works.{is_fit, seed_rows};
ghost use Rattle.mesh_exec.specs.Fills.{each_with, fillings, first_pool, run_fillings, run_rows, zipped};
ghost use Rattle.mesh_exec.specs.Runs.{are_fit_runs};

use crate::jobs::jobs_of;
use crate::runs::{Run, runs_from, runs_of};
use mesh_base::{Defn, Due, Entry, Node, Pools};
use mesh_base_values::{Kind, Rows, RowsList, sort_rows};
use mesh_exec_wave::wave::{Gate, wave};
use mesh_exec_works::{cut_to, push_written, seconds_of};
use mesh_house::{Changes, Warehouse, WhFail};
use mesh_janitor::making::make_counted;
use mesh_list::{Duplicate, Memory, Seq};
use std::alloc::Global;
use std::thread::Threads;

/// Each due part with its own of the rows of a run.
fn push_cut(
    alloc: Global,
    changes: &mut Changes,
    node: &Node,
    entry: &Entry,
    dues: &[Due],
    rows: &Rows,
    seconds: &[Option<i64>],
) -> Result<(), Memory>
    ensures { OnOk result (changes.new ≡ changes.old ++ cut_fills (model_of node.now entry.now) dues.now rows.now seconds.now) }
{
    for due in dues {
        push_written(
            changes,
            node,
            entry,
            due,
            cut_to(alloc, due, rows, seconds)?,
        )?;
    }
    Ok(())
}

fn push_run(
    alloc: Global,
    changes: &mut Changes,
    node: &Node,
    entry: &Entry,
    run: &Run,
    rows: &Rows,
) -> Result<(), Memory>
    ensures { OnOk result (changes.new ≡ changes.old ++ run_fills (model_of node.now entry.now) run.now.dues.now rows.now) }
{
    let seconds = seconds_of(alloc, &node.own, rows.as_slice())?;
    push_cut(
        alloc,
        changes,
        node,
        entry,
        run.dues,
        rows,
        seconds.as_slice(),
    )
}

/// Each run with the rows at its place.
pub(crate) fn push_zipped(
    alloc: Global,
    changes: &mut Changes,
    node: &Node,
    entry: &Entry,
    runs: &[Run],
    made: &[Rows],
) -> Result<(), Memory>
    ensures { OnOk result (changes.new ≡ changes.old ++ zipped (model_of node.now entry.now) runs.now made.now) }
{
    for (i, run) in runs.iter().enumerate() {
        let Some(rows) = made.get(i) else {
            return Ok(());
        };
        push_run(alloc, changes, node, entry, run, rows)?;
    }
    Ok(())
}

/// Each due part with these same rows.
fn push_each(
    changes: &mut Changes,
    node: &Node,
    entry: &Entry,
    dues: &[Due],
    rows: &Rows,
) -> Result<(), Memory>
    ensures { OnOk result (changes.new ≡ changes.old ++ each_with (model_of node.now entry.now) dues.now rows.now) }
{
    for due in dues {
        push_written(changes, node, entry, due, rows.copy()?)?;
    }
    Ok(())
}

/// The rows in ascending order.
fn sorted(rows: Rows) -> Result<Rows, Memory>
    ensures { IfOk result (λ made. made ≡ ascending rows) }
{
    sort_rows(rows)
}

/// The rows of a seed, in ascending order.
fn seed_rows(alloc: Global, defn: &Defn) -> Result<Rows, Memory>
    ensures { IfOk result (λ rows. rows ≡ ascending (seed_rows defn.now)) }
{
    match defn {
        Defn::Seed { rows, .. } => sorted(rows.copy()?),
        Defn::Sql(_) => Ok(Seq::new(alloc)),
    }
}

/// The rows of each run, computed side by side.
fn computed<R: Threads + Sync, G: Gate>(
    rt: &R,
    alloc: Global,
    node: &Node,
    pools: &Pools,
    runs: &[Run],
    workers: u32,
    gate: &G,
) -> Result<RowsList, Memory>
    requires workers { (1 ≤ workers) × (workers ≤ 64) }
    requires few { length runs.now ≤ 256 }
    requires there { 1 ≤ length pools.now }
    requires fit { are_fit_runs node.now runs.now ≡ true }
    requires kind { is_computed node.now.own.kind ≡ true }
    requires body { is_body_of node.now.own.kind node.now.own.defn ≡ true }
    ensures { IfOk result (λ made. (entry : Entry) → made ≡ map (run_rows (model_of node.now entry) (first_pool pools.now)) runs.now) }
{
    let jobs = jobs_of(alloc, node, runs)?;
    wave(rt, alloc, pools, &jobs, workers, gate)
}

/// What fills the due parts of a view, which has no rows.
fn viewed(alloc: Global, node: &Node, entry: &Entry, dues: &[Due]) -> Result<Changes, Memory>
    ensures { IfOk result (λ changes. changes ≡ each_with (model_of node.now entry.now) dues.now []) }
{
    let mut changes = Seq::new(alloc);
    push_each(&mut changes, node, entry, dues, &Seq::new(alloc))?;
    Ok(changes)
}

/// What fills the due parts of a seed.
fn seeded(alloc: Global, node: &Node, entry: &Entry, dues: &[Due]) -> Result<Changes, Memory>
    ensures { IfOk result (λ changes. changes ≡ each_with (model_of node.now entry.now) dues.now (ascending (seed_rows node.now.own.defn))) }
{
    let rows = seed_rows(alloc, &node.own.defn)?;
    let mut changes = Seq::new(alloc);
    push_each(&mut changes, node, entry, dues, &rows)?;
    Ok(changes)
}

/// What fills some runs of a model whose rows are computed, over the tables of the first pool.
fn waved<R: Threads + Sync, G: Gate>(
    rt: &R,
    alloc: Global,
    node: &Node,
    entry: &Entry,
    pools: &Pools,
    runs: &[Run],
    workers: u32,
    gate: &G,
) -> Result<Changes, Memory>
    requires workers { (1 ≤ workers) × (workers ≤ 64) }
    requires few { length runs.now ≤ 256 }
    requires there { 1 ≤ length pools.now }
    requires fit { are_fit_runs node.now runs.now ≡ true }
    requires kind { is_computed node.now.own.kind ≡ true }
    requires body { is_body_of node.now.own.kind node.now.own.defn ≡ true }
    ensures { IfOk result (λ changes. changes ≡ run_fillings (model_of node.now entry.now) (first_pool pools.now) runs.now) }
{
    let made = computed(rt, alloc, node, pools, runs, workers, gate)?;
    let mut changes = Seq::new(alloc);
    push_zipped(alloc, &mut changes, node, entry, runs, made.as_slice())?;
    Ok(changes)
}

/// Fills some runs, at most as many as a wave may have.
fn fill_some<R: Threads + Sync, W: Warehouse, G: Gate>(
    rt: &R,
    alloc: Global,
    house: &mut W,
    node: &Node,
    entry: &Entry,
    pools: &Pools,
    runs: &[Run],
    workers: u32,
    gate: &G,
) -> Result<u64, WhFail>
    requires workers { (1 ≤ workers) × (workers ≤ 64) }
    requires few { length runs.now ≤ 256 }
    requires there { 1 ≤ length pools.now }
    requires fit { are_fit_runs node.now runs.now ≡ true }
    requires kind { is_computed node.now.own.kind ≡ true }
    requires body { is_body_of node.now.own.kind node.now.own.defn ≡ true }
    ensures makes { Makes (λ w. run_fillings (model_of node.now entry.now) (first_pool pools.now) runs.now) (W.told house.old) (W.told house.new) result }
    ensures number { IfOk result (λ made. made ≡ length (run_fillings (model_of node.now entry.now) (first_pool pools.now) runs.now)) }
    ensures calls { IfOk result (λ made. (W.told house.new).calls ≡ risen made (W.told house.old).calls) }
{
    let changes = waved(rt, alloc, node, entry, pools, runs, workers, gate)?;
    make_counted(alloc, house, changes.as_slice())
}

/// The sum of two numbers of changes, where it is one.
pub(crate) fn added(a: u64, b: u64) -> Result<u64, Memory>
    ensures { IfOk result (λ sum. sum ≡ a + b) }
{
    match a.checked_add(b) {
        Some(sum) => Ok(sum),
        None => Err(Memory),
    }
}

/// Fills the runs of a model over the tables of the first pool, in their order.
fn fill_runs<R: Threads + Sync, W: Warehouse, G: Gate>(
    rt: &R,
    alloc: Global,
    house: &mut W,
    node: &Node,
    entry: &Entry,
    pools: &Pools,
    runs: &[Run],
    workers: u32,
    gate: &G,
) -> Result<u64, WhFail>
    requires workers { (1 ≤ workers) × (workers ≤ 64) }
    requires there { 1 ≤ length pools.now }
    requires fit { are_fit_runs node.now runs.now ≡ true }
    requires kind { is_computed node.now.own.kind ≡ true }
    requires body { is_body_of node.now.own.kind node.now.own.defn ≡ true }
    ensures makes { Makes (λ w. run_fillings (model_of node.now entry.now) (first_pool pools.now) runs.now) (W.told house.old) (W.told house.new) result }
    ensures number { IfOk result (λ made. made ≡ length (run_fillings (model_of node.now entry.now) (first_pool pools.now) runs.now)) }
    ensures calls { IfOk result (λ made. (W.told house.new).calls ≡ risen made (W.told house.old).calls) }
{
    let mut made: u64 = 0;
    let mut at: usize = 0;
    while at < runs.len() {
        let front = runs_from(runs, at);
        let more = fill_some(rt, alloc, house, node, entry, pools, front, workers, gate)?;
        made = added(made, more)?;
        at += front.len();
    }
    Ok(made)
}

/// Fills all due parts of a model whose rows are computed.
fn fill_computed<R: Threads + Sync, W: Warehouse, G: Gate>(
    rt: &R,
    alloc: Global,
    house: &mut W,
    node: &Node,
    entry: &Entry,
    pools: &Pools,
    dues: &[Due],
    workers: u32,
    gate: &G,
) -> Result<u64, WhFail>
    requires workers { (1 ≤ workers) × (workers ≤ 64) }
    requires there { 1 ≤ length pools.now }
    requires fit { is_fit node.now dues.now ≡ true }
    requires kind { is_computed node.now.own.kind ≡ true }
    ensures makes { Makes (λ w. fillings (model_of node.now entry.now) (first_pool pools.now) dues.now) (W.told house.old) (W.told house.new) result }
    ensures number { IfOk result (λ made. made ≡ length (fillings (model_of node.now entry.now) (first_pool pools.now) dues.now)) }
    ensures calls { IfOk result (λ made. (W.told house.new).calls ≡ risen made (W.told house.old).calls) }
{
    let runs = runs_of(alloc, node, dues)?;
    fill_runs(
        rt,
        alloc,
        house,
        node,
        entry,
        pools,
        runs.as_slice(),
        workers,
        gate,
    )
}

/// What fills the due parts of a view or a seed, over whatever tables.
pub(crate) fn changes_of(
    alloc: Global,
    node: &Node,
    entry: &Entry,
    dues: &[Due],
) -> Result<Changes, Memory>
    requires fit { is_fit node.now dues.now ≡ true }
    requires kind { is_computed node.now.own.kind ≡ false }
    ensures { IfOk result (λ changes. (tables : List Input) → changes ≡ fillings (model_of node.now entry.now) tables dues.now) }
{
    match &node.own.kind {
        Kind::View => viewed(alloc, node, entry, dues),
        Kind::Seed => seeded(alloc, node, entry, dues),
        Kind::Full => Ok(Seq::new(alloc)),
        Kind::Incremental { .. } => Ok(Seq::new(alloc)),
    }
}

/// Fills all due parts of a view or a seed.
fn fill_kept<W: Warehouse>(
    alloc: Global,
    house: &mut W,
    node: &Node,
    entry: &Entry,
    dues: &[Due],
) -> Result<u64, WhFail>
    requires fit { is_fit node.now dues.now ≡ true }
    requires kind { is_computed node.now.own.kind ≡ false }
    ensures makes { (tables : List Input) → Makes (λ w. fillings (model_of node.now entry.now) tables dues.now) (W.told house.old) (W.told house.new) result }
    ensures number { IfOk result (λ made. (tables : List Input) → made ≡ length (fillings (model_of node.now entry.now) tables dues.now)) }
    ensures calls { IfOk result (λ made. (W.told house.new).calls ≡ risen made (W.told house.old).calls) }
{
    let changes = changes_of(alloc, node, entry, dues)?;
    make_counted(alloc, house, changes.as_slice())
}

pub(crate) fn is_computed(kind: &Kind) -> bool
    ensures { result ≡ is_computed kind.now }
{
    match kind {
        Kind::Full | Kind::Incremental { .. } => true,
        Kind::View | Kind::Seed => false,
    }
}

/// Fills all due parts of a model over the tables of the first pool, in their order.
pub(crate) fn fill_all<R: Threads + Sync, W: Warehouse, G: Gate>(
    rt: &R,
    alloc: Global,
    house: &mut W,
    node: &Node,
    entry: &Entry,
    pools: &Pools,
    dues: &[Due],
    workers: u32,
    gate: &G,
) -> Result<u64, WhFail>
    requires workers { (1 ≤ workers) × (workers ≤ 64) }
    requires there { 1 ≤ length pools.now }
    requires fit { is_fit node.now dues.now ≡ true }
    ensures makes { Makes (λ w. fillings (model_of node.now entry.now) (first_pool pools.now) dues.now) (W.told house.old) (W.told house.new) result }
    ensures number { IfOk result (λ made. made ≡ length (fillings (model_of node.now entry.now) (first_pool pools.now) dues.now)) }
    ensures calls { IfOk result (λ made. (W.told house.new).calls ≡ risen made (W.told house.old).calls) }
{
    if is_computed(&node.own.kind) {
        fill_computed(rt, alloc, house, node, entry, pools, dues, workers, gate)
    } else {
        fill_kept(alloc, house, node, entry, dues)
    }
}
