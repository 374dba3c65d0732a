// Plans whose units enter a gate.
ghost use Rattle.std.specs.Prelude.{IfOk};
ghost use Rattle.mesh_time_days.specs.Moments.{IsMoment};

use crate::report::put;
use crate::stage::Stage;
use crate::trouble::Trouble;
use mesh_base::Done;
use mesh_base_values::Str;
use mesh_cases_queries::gates::{Counting, Holding, make_behind};
use mesh_exec_wave::wave::Gate;
use mesh_time_days::moment_of;
use std::alloc::Global;
use std::thread::Threads;

#[tactic(auto, unfolding(mesh_time_days::specs::Moments::IsMomentText))]
fn moment(word: &Str) -> Result<i64, Trouble>
    ensures { IfOk result (λ t. IsMoment t) }
{
    match moment_of(word.as_slice()) {
        Some(t) => Ok(t),
        None => Err(Trouble::Script),
    }
}

/// Makes the project's plan by two workers.
fn made<R: Threads + Sync, G: Gate>(
    rt: &R,
    stage: &mut Stage,
    word: &Str,
    gate: &G,
) -> Result<Done, Trouble> {
    let t = moment(word)?;
    let (folder, house) = (&mut stage.folder, &mut stage.house);
    match make_behind(rt, stage.alloc, folder, house, t, 2, gate) {
        Ok(done) => Ok(done),
        Err(_) => Err(Trouble::Script),
    }
}

fn put_done(alloc: Global, report: &mut Vec<u8>, done: Done) -> Result<(), Trouble> {
    let (units, changes) = (done.units, done.changes);
    let text = format!(in alloc; "{units} units, {changes} changes\n")?;
    put(report, text.as_bytes())
}

/// Makes the project's plan, of which the first unit of a wave is held until the second one has entered.
pub fn put_held<R: Threads + Sync>(
    rt: &R,
    stage: &mut Stage,
    word: &Str,
    report: &mut Vec<u8>,
) -> Result<(), Trouble> {
    let gate = Holding::new();
    let done = made(rt, stage, word, &gate)?;
    put_done(stage.alloc, report, done)?;
    if gate.is_late() {
        put(report, b"too late\n")?;
    }
    Ok(())
}

/// Makes the project's plan, and counts what enters the gate.
pub fn put_counted<R: Threads + Sync>(
    rt: &R,
    stage: &mut Stage,
    word: &Str,
    report: &mut Vec<u8>,
) -> Result<(), Trouble> {
    let gate = Counting::new();
    let done = made(rt, stage, word, &gate)?;
    put_done(stage.alloc, report, done)?;
    let entered = gate.entered();
    let text = format!(in stage.alloc; "entered {entered} times\n")?;
    put(report, text.as_bytes())
}
