// The models of a plan are made and filled, one after another.
ghost use Rattle.std.specs.Prelude.{◌≡◌, ◌<◌, ◌≤◌, ◌∷◌, [], IfOk, length, map, true};
ghost use Rattle.mesh_list.specs.Counts.{risen};
ghost use Rattle.mesh_house.specs.Runs.{Makes};
ghost use Rattle.mesh_exec_works.specs.Lost.{lost_part};
ghost use Rattle.mesh_exec_works.specs.Plain.{making, plain_models};
ghost use Rattle.mesh_exec_works.specs.Works.{are_fit, is_fit, part_of};
ghost use Rattle.mesh_exec.specs.Executed.{part_fills, part_filling};
ghost use Rattle.mesh_exec.specs.Steps.{MakesNext, MakesPart, MakesParts, Tries};

use crate::faults::ExecFault;
use crate::fills::{added, fill_all};
use crate::fronts::make_front;
use crate::ready::ready_of;
use mesh_base::{Entry, Inputs, Node, Pools};
use mesh_exec_wave::wave::Gate;
use mesh_exec_works::{Work, part_tables, pools_ahead, push_making};
use mesh_house::{Warehouse, WhFail};
use mesh_janitor::making::make_counted;
use mesh_list::{Memory, Seq};
use std::alloc::Global;
use std::thread::Threads;

/// Makes the object of a model, where that has to be made.
fn make_object<W: Warehouse>(
    alloc: Global,
    house: &mut W,
    nodes: &[Node],
    entries: &[Entry],
    work: &Work,
) -> Result<u64, WhFail>
    ensures makes { Makes (λ w. making (plain_models nodes.now entries.now) (part_of work.now)) (W.told house.old) (W.told house.new) result }
    ensures number { IfOk result (λ made. made ≡ length (making (plain_models nodes.now entries.now) (part_of work.now))) }
    ensures calls { IfOk result (λ made. (W.told house.new).calls ≡ risen made (W.told house.old).calls) }
{
    let mut changes = Seq::new(alloc);
    push_making(alloc, &mut changes, nodes, entries, work)?;
    make_counted(alloc, house, changes.as_slice())
}

fn alone(alloc: Global, tables: Inputs) -> Result<Pools, Memory>
    ensures { IfOk result (λ pools. pools ≡ tables ∷ []) }
{
    let mut pools = Seq::new(alloc);
    pools.push(tables)?;
    Ok(pools)
}

/// Fills the due parts of a model over the tables that it reads, as the warehouse shows them now.
fn fill_object<R: Threads + Sync, W: Warehouse, G: Gate>(
    rt: &R,
    alloc: Global,
    house: &mut W,
    nodes: &[Node],
    entries: &[Entry],
    work: &Work,
    workers: u32,
    gate: &G,
) -> Result<u64, ExecFault>
    requires workers { (1 ≤ workers) × (workers ≤ 64) }
    requires fit { is_fit work.now.node.now work.now.dues.now ≡ true }
    ensures { Tries (λ w. part_fills w (plain_models nodes.now entries.now) (part_of work.now)) (λ w. lost_part w (plain_models nodes.now entries.now) (part_of work.now))
        (length (part_filling (part_of work.now))) (W.told house.old) (W.told house.new) result }
{
    let tables = part_tables(alloc, house, nodes, entries, work)?;
    let pools = alone(alloc, tables)?;
    let made = fill_all(
        rt, alloc, house, work.node, work.entry, &pools, work.dues, workers, gate,
    )?;
    Ok(made)
}

/// Makes the object of a model, and then fills what is due of it.
fn make_part<R: Threads + Sync, W: Warehouse, G: Gate>(
    rt: &R,
    alloc: Global,
    house: &mut W,
    nodes: &[Node],
    entries: &[Entry],
    work: &Work,
    workers: u32,
    gate: &G,
) -> Result<u64, ExecFault>
    requires workers { (1 ≤ workers) × (workers ≤ 64) }
    requires fit { is_fit work.now.node.now work.now.dues.now ≡ true }
    ensures { MakesPart (plain_models nodes.now entries.now) (part_of work.now) (W.told house.old) (W.told house.new) result }
{
    let made = make_object(alloc, house, nodes, entries, work)?;
    let filled = fill_object(rt, alloc, house, nodes, entries, work, workers, gate)?;
    let sum = added(made, filled)?;
    Ok(sum)
}

/// How many models were made and filled, and by how many changes.
#[derive(Clone, Copy)]
pub(crate) struct Next {
    pub(crate) models: usize,
    pub(crate) changes: u64,
}

/// Makes and fills the object of the first of some models.
fn make_first<R: Threads + Sync, W: Warehouse, G: Gate>(
    rt: &R,
    alloc: Global,
    house: &mut W,
    nodes: &[Node],
    entries: &[Entry],
    works: &[Work],
    workers: u32,
    gate: &G,
) -> Result<Next, ExecFault>
    requires workers { (1 ≤ workers) × (workers ≤ 64) }
    requires any { 0 < length works.now }
    requires fit { are_fit (map part_of works.now) ≡ true }
    ensures { MakesNext (plain_models nodes.now entries.now) (map part_of works.now) (W.told house.old) (W.told house.new) result }
{
    let changes = make_part(rt, alloc, house, nodes, entries, &works[0], workers, gate)?;
    Ok(Next { models: 1, changes })
}

/// How many models share a wave: four where one worker computes them one after another, whose rows lie in memory
/// until all are there; else so many for each worker that the last of a wave are a small part of it.
fn most_of(workers: u32) -> usize
    requires { workers ≤ 64 }
    ensures { result ≤ 256 }
{
    if workers == 1 {
        return 4;
    }
    let most = workers as usize * 16;
    if most < 256 { most } else { 256 }
}

/// Makes and fills the objects of the first of some models: of those whose tables are all there before, side by side.
fn make_next<R: Threads + Sync, W: Warehouse, G: Gate>(
    rt: &R,
    alloc: Global,
    house: &mut W,
    nodes: &[Node],
    entries: &[Entry],
    works: &[Work],
    workers: u32,
    gate: &G,
) -> Result<Next, ExecFault>
    requires workers { (1 ≤ workers) × (workers ≤ 64) }
    requires any { 0 < length works.now }
    requires fit { are_fit (map part_of works.now) ≡ true }
    ensures { MakesNext (plain_models nodes.now entries.now) (map part_of works.now) (W.told house.old) (W.told house.new) result }
{
    let cuts = ready_of(alloc, works, most_of(workers))?;
    let pooled = pools_ahead(alloc, house, nodes, entries, &works[..cuts.len()])?;
    let models = pooled.numbers.len();
    if models == 0 {
        return make_first(rt, alloc, house, nodes, entries, works, workers, gate);
    }
    let (front, _) = cuts.as_slice().split_at(models);
    let changes = make_front(
        rt, alloc, house, nodes, entries, front, &pooled, workers, gate,
    )?;
    Ok(Next { models, changes })
}

/// Makes and fills the objects of some models, one after another.
pub(crate) fn make_parts<R: Threads + Sync, W: Warehouse, G: Gate>(
    rt: &R,
    alloc: Global,
    house: &mut W,
    nodes: &[Node],
    entries: &[Entry],
    works: &[Work],
    workers: u32,
    gate: &G,
) -> Result<u64, ExecFault>
    requires workers { (1 ≤ workers) × (workers ≤ 64) }
    requires fit { are_fit (map part_of works.now) ≡ true }
    ensures { MakesParts (plain_models nodes.now entries.now) (map part_of works.now) (W.told house.old) (W.told house.new) result }
{
    let mut made: u64 = 0;
    let mut at: usize = 0;
    while at < works.len() {
        let (_, rest) = works.split_at(at);
        let next = make_next(rt, alloc, house, nodes, entries, rest, workers, gate)?;
        made = added(made, next.changes)?;
        at += next.models;
    }
    Ok(made)
}
