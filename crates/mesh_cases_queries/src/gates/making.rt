// The plan of a project for production is made, but for its views.
ghost use Rattle.std.specs.Prelude.{◌≡◌, ◌≤◌, true, IfOk};
ghost use Rattle.mesh_time_days.specs.Moments.{IsMoment};
ghost use Rattle.mesh_spec_changes.specs.Commands.{is_present};
ghost use Rattle.mesh_exec_works.specs.Executable.{IsExecutable};

use mesh_base::Done;
use mesh_base::rules::{Plan, Project};
use mesh_cases::Trouble;
use mesh_cli_answer::present_book;
use mesh_exec::execute;
use mesh_exec_wave::wave::Gate;
use mesh_house::Warehouse;
use mesh_house_book::Book;
use mesh_io::Folder;
use mesh_list::Duplicate;
use mesh_plan::plan;
use mesh_project::project::load;
use std::alloc::Global;
use std::thread::Threads;

/// The project in a folder, which has no fault.
fn project<F: Folder>(alloc: Global, folder: &mut F) -> Result<Project, Trouble> {
    let here = u8::copy_items(alloc, b".")?;
    match load(alloc, folder, &here) {
        Ok(project) => Ok(project),
        Err(_) => Err(Trouble::Case),
    }
}

fn book<W: Warehouse>(alloc: Global, house: &mut W) -> Result<Book, Trouble>
    ensures { IfOk result (λ b. is_present b ≡ true) }
{
    match present_book(alloc, house) {
        Ok(b) => Ok(b),
        Err(_) => Err(Trouble::Case),
    }
}

/// The plan of a project for production, which has no fault.
fn planned(alloc: Global, p: &Project, b: &Book, t: i64) -> Result<Plan, Trouble>
    requires present { is_present b.now ≡ true }
    requires moment { IsMoment t }
    ensures { IfOk result (λ made. IsExecutable made) }
{
    let env = u8::copy_items(alloc, b"prod")?;
    match plan(alloc, p, b, &env, t, None) {
        Ok(made) => {
            let _ = made.project.as_slice();
            Ok(made)
        }
        Err(_) => Err(Trouble::Case),
    }
}

/// Makes a plan, of which each unit enters a gate.
fn make<R: Threads + Sync, W: Warehouse, G: Gate>(
    rt: &R,
    alloc: Global,
    p: &Plan,
    house: &mut W,
    workers: u32,
    gate: &G,
) -> Result<Done, Trouble>
    requires plan { IsExecutable p.now }
    requires workers { (1 ≤ workers) × (workers ≤ 64) }
{
    match execute(rt, alloc, p, workers, gate, house) {
        Ok(done) => Ok(done),
        Err(_) => Err(Trouble::Case),
    }
}

/// Makes the plan of the project in a folder for production, but for its views. Each unit enters the gate.
pub fn make_behind<R: Threads + Sync, F: Folder, W: Warehouse, G: Gate>(
    rt: &R,
    alloc: Global,
    folder: &mut F,
    house: &mut W,
    t: i64,
    workers: u32,
    gate: &G,
) -> Result<Done, Trouble>
    requires moment { IsMoment t }
    requires workers { (1 ≤ workers) × (workers ≤ 64) }
{
    let project = project(alloc, folder)?;
    let b = book(alloc, house)?;
    let p = planned(alloc, &project, &b, t)?;
    make(rt, alloc, &p, house, workers, gate)
}
