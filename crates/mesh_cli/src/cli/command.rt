// One command, over the folder, the clock and the warehouse.
ghost use Rattle.std.specs.Prelude.{ℕ, true, false, IfSome, List};
ghost use Rattle.std.specs.Option.{option_copied};
ghost use Rattle.mesh_time_days.specs.Moments.{IsMoment};
ghost use Rattle.mesh_house.specs.House.{Told};
ghost use Rattle.mesh_io.specs.Told.{ClockTold, FolderTold};
ghost use Rattle.mesh_cli_words.specs.declared.line.Command.TheVariants as asked;
ghost use Rattle.mesh_cli.specs.cli.Ends.{Commanded};
ghost use Rattle.mesh_cli.specs.cli.Fit.{IsCrew, IsFit};
ghost use Rattle.mesh_cli.specs.cli.Scripts.{LineAnswers};
ghost use Rattle.mesh_cli.specs.cli.Sides.{Sides as Around, sides};

use crate::cli::moment::moment_of;
use crate::cli::place::place_or;
use crate::demo::{DemoFault, demo};
use mesh_base::Restate;
use mesh_base_values::{Name, Str};
use mesh_cli_apply::{apply, impact, migrate, plan, run, trace};
use mesh_cli_look::asking::{evaluate, fetchdf};
use mesh_cli_look::upkeep::{ingest, invalidate, janitor};
use mesh_cli_print::printed::Refusal;
use mesh_cli_words::{Command, Line};
use mesh_house::Warehouse;
use mesh_io::{Clock, Folder};
use mesh_list::Memory;
use std::alloc::Global;
use std::thread::Threads;

fn planned<W: Warehouse, F: Folder, C: Clock>(
    alloc: Global,
    dir: &Str,
    env: &Str,
    moment: Option<i64>,
    again: Option<&Restate>,
    folder: &mut F,
    house: &mut W,
    clock: &mut C,
) -> Result<Str, Refusal>
    requires { IfSome moment IsMoment }
    ensures { (workers : ℕ) → Commanded dir.now (asked.Plan env.now false workers moment (option_copied again.entry)) (sides (F.told folder.old) (C.told clock.old) (W.told house.old)) (sides (F.told folder.new) (C.told clock.new) (W.told house.new)) result }
{
    match moment_of(moment, clock) {
        Err(refusal) => Err(refusal),
        Ok(t) => plan(alloc, folder, house, dir, env, t, again),
    }
}

fn applied<R: Threads + Sync, W: Warehouse, F: Folder, C: Clock>(
    rt: &R,
    alloc: Global,
    dir: &Str,
    env: &Str,
    workers: u32,
    moment: Option<i64>,
    again: Option<&Restate>,
    folder: &mut F,
    house: &mut W,
    clock: &mut C,
) -> Result<Str, Refusal>
    requires crew { IsCrew workers }
    requires moment { IfSome moment IsMoment }
    ensures apply { Commanded dir.now (asked.Apply env.now workers moment (option_copied again.entry)) (sides (F.told folder.old) (C.told clock.old) (W.told house.old)) (sides (F.told folder.new) (C.told clock.new) (W.told house.new)) result }
    ensures plan { Commanded dir.now (asked.Plan env.now true workers moment (option_copied again.entry)) (sides (F.told folder.old) (C.told clock.old) (W.told house.old)) (sides (F.told folder.new) (C.told clock.new) (W.told house.new)) result }
{
    match moment_of(moment, clock) {
        Err(refusal) => Err(refusal),
        Ok(t) => apply(rt, alloc, folder, house, dir, env, t, again, workers),
    }
}

fn planned_or_applied<R: Threads + Sync, W: Warehouse, F: Folder, C: Clock>(
    rt: &R,
    alloc: Global,
    dir: &Str,
    env: &Str,
    auto_apply: bool,
    workers: u32,
    moment: Option<i64>,
    again: Option<&Restate>,
    folder: &mut F,
    house: &mut W,
    clock: &mut C,
) -> Result<Str, Refusal>
    requires crew { IsCrew workers }
    requires moment { IfSome moment IsMoment }
    ensures { Commanded dir.now (asked.Plan env.now auto_apply workers moment (option_copied again.entry)) (sides (F.told folder.old) (C.told clock.old) (W.told house.old)) (sides (F.told folder.new) (C.told clock.new) (W.told house.new)) result }
{
    if auto_apply {
        applied(
            rt, alloc, dir, env, workers, moment, again, folder, house, clock,
        )
    } else {
        planned(alloc, dir, env, moment, again, folder, house, clock)
    }
}

fn ran<R: Threads + Sync, W: Warehouse, C: Clock>(
    rt: &R,
    alloc: Global,
    env: &Str,
    workers: u32,
    moment: Option<i64>,
    house: &mut W,
    clock: &mut C,
) -> Result<Str, Refusal>
    requires crew { IsCrew workers }
    requires moment { IfSome moment IsMoment }
    ensures { (dir : List ℕ) (f : FolderTold) → Commanded dir (asked.Run env.now workers moment) (sides f (C.told clock.old) (W.told house.old)) (sides f (C.told clock.new) (W.told house.new)) result }
{
    match moment_of(moment, clock) {
        Err(refusal) => Err(refusal),
        Ok(t) => run(rt, alloc, house, env, t, workers),
    }
}

fn swept<W: Warehouse, C: Clock>(
    alloc: Global,
    moment: Option<i64>,
    house: &mut W,
    clock: &mut C,
) -> Result<Str, Refusal>
    requires { IfSome moment IsMoment }
    ensures { (dir : List ℕ) (f : FolderTold) → Commanded dir (asked.Janitor moment) (sides f (C.told clock.old) (W.told house.old)) (sides f (C.told clock.new) (W.told house.new)) result }
{
    match moment_of(moment, clock) {
        Err(refusal) => Err(refusal),
        Ok(t) => janitor(alloc, house, t),
    }
}

/// A column's trace, which hangs on the project alone.
fn traced<F: Folder>(
    alloc: Global,
    dir: &Str,
    model: &Name,
    column: &Str,
    folder: &mut F,
) -> Result<Str, Refusal>
    ensures { (k : ClockTold) (h : Told) → Commanded dir.now (asked.Trace model.now column.now) (sides (F.told folder.old) k h) (sides (F.told folder.new) k h) result }
{
    trace(alloc, folder, dir, model, column)
}

fn affected<F: Folder>(
    alloc: Global,
    dir: &Str,
    name: &Name,
    column: &Str,
    folder: &mut F,
) -> Result<Str, Refusal>
    ensures { (k : ClockTold) (h : Told) → Commanded dir.now (asked.Impact name.now column.now) (sides (F.told folder.old) k h) (sides (F.told folder.new) k h) result }
{
    impact(alloc, folder, dir, name, column)
}

/// The demonstration, which lies in memory and uses nothing of what is here.
fn demonstrated<R: Threads + Sync>(
    rt: &R,
    alloc: Global,
    n: u32,
    workers: u32,
) -> Result<Str, Refusal>
    requires { IsCrew workers }
    ensures { (dir : List ℕ) (s : Around) → Commanded dir (asked.Demo n workers) s s result }
{
    match demo(rt, alloc, n, workers) {
        Ok(text) => Ok(text),
        Err(DemoFault::Memory) => Err(Refusal::Memory),
    }
}

/// A command other than `batch`, for the project in `dir`: what it prints, or why it isn't done.
pub(crate) fn answered<R: Threads + Sync, W: Warehouse, F: Folder, C: Clock>(
    rt: &R,
    alloc: Global,
    dir: &Str,
    command: &Command,
    folder: &mut F,
    house: &mut W,
    clock: &mut C,
) -> Result<Str, Refusal>
    requires { IsFit command.now }
    ensures { Commanded dir.now command.now (sides (F.told folder.old) (C.told clock.old) (W.told house.old)) (sides (F.told folder.new) (C.told clock.new) (W.told house.new)) result }
{
    match command {
        Command::Plan {
            env,
            auto_apply,
            workers,
            moment,
            again,
        } => planned_or_applied(
            rt,
            alloc,
            dir,
            env,
            *auto_apply,
            *workers,
            *moment,
            again.as_ref(),
            folder,
            house,
            clock,
        ),
        Command::Apply {
            env,
            workers,
            moment,
            again,
        } => applied(
            rt,
            alloc,
            dir,
            env,
            *workers,
            *moment,
            again.as_ref(),
            folder,
            house,
            clock,
        ),
        Command::Run {
            env,
            workers,
            moment,
        } => ran(rt, alloc, env, *workers, *moment, house, clock),
        Command::Evaluate {
            model,
            env,
            first,
            last,
        } => evaluate(alloc, house, model, env, *first, *last),
        Command::Fetchdf { query, env } => fetchdf(alloc, house, query, env),
        Command::Ingest { name, file, append } => {
            ingest(alloc, folder, house, dir, name, file, *append)
        }
        Command::Janitor { moment } => swept(alloc, *moment, house, clock),
        Command::Invalidate { env } => invalidate(alloc, house, env),
        Command::Migrate => migrate(alloc, house),
        Command::Trace { model, column } => traced(alloc, dir, model, column, folder),
        Command::Impact { name, column } => affected(alloc, dir, name, column, folder),
        Command::Batch => Err(Refusal::Usage),
        Command::Demo { n, workers } => demonstrated(rt, alloc, *n, *workers),
    }
}

/// A command line other than that of a batch, over its own folder or else this one.
pub(crate) fn line_answer<R: Threads + Sync, W: Warehouse, F: Folder, C: Clock>(
    rt: &R,
    alloc: Global,
    dir: &Str,
    line: &Line,
    folder: &mut F,
    house: &mut W,
    clock: &mut C,
) -> Result<Str, Refusal>
    requires { IsFit line.now.command }
    ensures { LineAnswers dir.now line.now (sides (F.told folder.old) (C.told clock.old) (W.told house.old)) (sides (F.told folder.new) (C.told clock.new) (W.told house.new)) result }
{
    match place_or(&line.paths, dir) {
        Err(Memory) => Err(Refusal::Memory),
        Ok(dir) => answered(rt, alloc, &dir, &line.command, folder, house, clock),
    }
}
