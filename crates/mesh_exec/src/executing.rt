// A plan is made.
ghost use Rattle.std.specs.Prelude.{◌≡◌, ◌≤◌, IfOk, IsTrue, length, map, true};
ghost use Rattle.mesh_list.specs.Counts.{risen};
ghost use Rattle.mesh_house_book.specs.WellFormed.{is_moment};
ghost use Rattle.mesh_house.specs.Runs.{Makes};
ghost use Rattle.mesh_exec_works.specs.Executable.{IsExecutable};
ghost use Rattle.mesh_exec_works.specs.Plain.{opened};
ghost use Rattle.mesh_exec_works.specs.Works.{are_fit, part_of, parts};
ghost use Rattle.mesh_exec.specs.Answers.{Executes};
ghost use Rattle.mesh_exec.specs.Steps.{Looks, MakesPlan};

use crate::faults::ExecFault;
use crate::fills::added;
use crate::making::make_parts;
use crate::sources::first_lack;
use mesh_base::Done;
use mesh_base::rules::Plan;
use mesh_exec_wave::wave::Gate;
use mesh_exec_works::{Work, opening, works_of};
use mesh_house::{Warehouse, WhFail};
use mesh_janitor::making::make_counted;
use std::alloc::Global;
use std::thread::Threads;

/// Looks at the sources of all due models, before anything is changed.
fn look<W: Warehouse>(alloc: Global, house: &mut W, works: &[Work]) -> Result<(), ExecFault>
    ensures { Looks (map part_of works.now) (W.told house.old) (W.told house.new) result }
{
    let found = first_lack(alloc, house, works)?;
    match found {
        None => Ok(()),
        Some(lack) => Err(ExecFault::Model {
            name: lack.model,
            kind: lack.kind,
        }),
    }
}

/// Makes the changes before those of the models.
fn open<W: Warehouse>(alloc: Global, house: &mut W, p: &Plan) -> Result<u64, WhFail>
    requires { IsTrue (is_moment p.now.moment) }
    ensures makes { Makes (λ w. opened p.now) (W.told house.old) (W.told house.new) result }
    ensures number { IfOk result (λ made. made ≡ length (opened p.now)) }
    ensures calls { IfOk result (λ made. (W.told house.new).calls ≡ risen made (W.told house.old).calls) }
{
    let changes = opening(alloc, p)?;
    make_counted(alloc, house, changes.as_slice())
}

/// Makes all changes of a plan.
fn make_plan<R: Threads + Sync, W: Warehouse, G: Gate>(
    rt: &R,
    alloc: Global,
    house: &mut W,
    p: &Plan,
    works: &[Work],
    workers: u32,
    gate: &G,
) -> Result<u64, ExecFault>
    requires workers { (1 ≤ workers) × (workers ≤ 64) }
    requires moment { IsTrue (is_moment p.now.moment) }
    requires parts { map part_of works.now ≡ parts p.now }
    requires fit { are_fit (parts p.now) ≡ true }
    ensures { MakesPlan p.now (W.told house.old) (W.told house.new) result }
{
    let opened = open(alloc, house, p)?;
    let nodes = p.project.as_slice();
    let entries = p.entries.as_slice();
    let made = make_parts(rt, alloc, house, nodes, entries, works, workers, gate)?;
    let sum = added(opened, made)?;
    Ok(sum)
}

/// Makes the changes of a plan up to those of the environment's views, all by this thread and in the plan's order:
/// the moment, the snapshots, what is forgotten, and then model by model what makes its object and what fills its due
/// parts. The rows of a model's due parts are computed by so many workers, over its sources and its parents' objects
/// as the warehouse shows them once the changes before have been made.
pub fn execute<R: Threads + Sync, W: Warehouse, G: Gate>(
    rt: &R,
    alloc: Global,
    p: &Plan,
    workers: u32,
    gate: &G,
    house: &mut W,
) -> Result<Done, ExecFault>
    requires workers { (1 ≤ workers) × (workers ≤ 64) }
    requires plan { IsExecutable p.now }
    ensures { Executes p.now (W.told house.old) (W.told house.new) result }
{
    let nodes = p.project.as_slice();
    let works = works_of(alloc, nodes, p.entries.as_slice(), p.dues.as_slice())?;
    look(alloc, house, works.as_slice())?;
    let changes = make_plan(rt, alloc, house, p, works.as_slice(), workers, gate)?;
    Ok(Done {
        units: p.dues.len() as u64,
        changes,
    })
}
