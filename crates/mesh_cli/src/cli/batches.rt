// The lines of a script, one after another.
ghost use Rattle.std.specs.Prelude.{◌≡◌, ◌⊎◌, true, false, IfOk, IfErr, IsErrOf};
ghost use Rattle.mesh_cli_words.specs.declared.line.Line.{Line as Asked};
ghost use Rattle.mesh_cli_values.specs.scripts.Scripts.{lines};
ghost use Rattle.mesh_cli_print.specs.declared.printed.refusals.Refusal.TheVariants as refusal;
ghost use Rattle.mesh_cli.specs.cli.Fit.{IsFit};
ghost use Rattle.mesh_cli.specs.cli.Scripts.{AskedAnswers, IsTextLine, ScriptEnds, StepEnds, TextsEnd, is_batch, may_stand, of_usage, stands_alone};
ghost use Rattle.mesh_cli.specs.cli.Sides.{here, place_or, sides};
ghost use Rattle.mesh_cli.specs.promise.Promise.{ScriptPromise};
ghost use Rattle.mesh_cli_print.specs.printed.Printing.{sinks};

use crate::cli::command::line_answer;
use crate::cli::place::place_of;
use crate::cli::script::lines_of;
use mesh_base_values::Str;
use mesh_cli_print::printed::{Refusal, printed};
use mesh_cli_values::scripts::{is_skipped, line_words};
use mesh_cli_words::{Command, Line, UsageFault, read_words};
use mesh_house::Warehouse;
use mesh_io::{Clock, Folder, Sink};
use mesh_list::Memory;
use mesh_spec_promise::the_empty_world_is_sound;
use std::alloc::Global;
use std::thread::Threads;

/// What a command tells where its words are no command line.
pub(crate) fn of_usage(fault: UsageFault) -> Refusal
    ensures { result ≡ of_usage fault }
{
    match fault {
        UsageFault::Usage => Refusal::Usage,
        UsageFault::Memory => Refusal::Memory,
    }
}

/// Whether a line asks for a script to be run.
pub(crate) fn is_batch(command: &Command) -> bool
    ensures { result ≡ is_batch command.now }
{
    match command {
        Command::Batch => true,
        _ => false,
    }
}

/// Whether no line of a script may ask for this.
fn stands_alone(command: &Command) -> bool
    ensures { result ≡ stands_alone command.now }
{
    match command {
        Command::Batch | Command::Demo { n: _, workers: _ } => true,
        _ => false,
    }
}

/// Whether a script may have this line.
fn may_stand(line: &Line) -> bool
    ensures { result ≡ may_stand line.now }
{
    !stands_alone(&line.command) && line.warehouse.is_none()
}

fn permitted(line: Line) -> Result<Line, Refusal>
    ensures ok { IfOk result (λ it. (it ≡ line) × (may_stand line ≡ true)) }
    ensures usage { IfErr result (λ r. (r ≡ refusal.Usage) × (may_stand line ≡ false)) }
{
    if may_stand(&line) {
        Ok(line)
    } else {
        Err(Refusal::Usage)
    }
}

/// The command line of a script's line, which isn't skipped.
fn line_of(alloc: Global, text: &Str) -> Result<Line, Refusal>
    ensures ok { IfOk result (λ line. IsTextLine text.now line) }
    ensures fit { IfOk result (λ line. IsFit line.command) }
    ensures usage { IsErrOf result refusal.Usage → (line : Asked) → ¬ IsTextLine text.now line }
    ensures known { IfErr result (λ r. (r ≡ refusal.Usage) ⊎ (r ≡ refusal.Memory)) }
{
    match line_words(alloc, text.as_slice()) {
        Err(Memory) => Err(Refusal::Memory),
        Ok(None) => Err(Refusal::Usage),
        Ok(Some(words)) => match read_words(alloc, words.as_slice()) {
            Err(fault) => Err(of_usage(fault)),
            Ok(line) => permitted(line),
        },
    }
}

/// What a script's line answers, which isn't skipped.
fn text_answer<R: Threads + Sync, W: Warehouse, F: Folder, C: Clock>(
    rt: &R,
    alloc: Global,
    dir: &Str,
    text: &Str,
    folder: &mut F,
    house: &mut W,
    clock: &mut C,
) -> Result<Str, Refusal>
    ensures { AskedAnswers (IsTextLine text.now) dir.now (sides (F.told folder.old) (C.told clock.old) (W.told house.old)) (sides (F.told folder.new) (C.told clock.new) (W.told house.new)) result }
{
    match line_of(alloc, text) {
        Err(refusal) => Err(refusal),
        Ok(line) => line_answer(rt, alloc, dir, &line, folder, house, clock),
    }
}

/// One line of a script: its status.
fn step<R: Threads + Sync, W: Warehouse, F: Folder, C: Clock, O: Sink, E: Sink>(
    rt: &R,
    alloc: Global,
    dir: &Str,
    text: &Str,
    folder: &mut F,
    house: &mut W,
    clock: &mut C,
    out: &mut O,
    err: &mut E,
) -> u8
    ensures { StepEnds dir.now text.now (sides (F.told folder.old) (C.told clock.old) (W.told house.old)) (sides (F.told folder.new) (C.told clock.new) (W.told house.new))
        (sinks (O.told out.old) (E.told err.old)) (sinks (O.told out.new) (E.told err.new)) result }
{
    if is_skipped(text.as_slice()) {
        return 0;
    }
    let answer = text_answer(rt, alloc, dir, text, folder, house, clock);
    printed(alloc, answer, out, err)
}

fn steps<R: Threads + Sync, W: Warehouse, F: Folder, C: Clock, O: Sink, E: Sink>(
    rt: &R,
    alloc: Global,
    dir: &Str,
    texts: &[Str],
    folder: &mut F,
    house: &mut W,
    clock: &mut C,
    out: &mut O,
    err: &mut E,
) -> u8
    ensures { TextsEnd dir.now texts.now (sides (F.told folder.old) (C.told clock.old) (W.told house.old)) (sides (F.told folder.new) (C.told clock.new) (W.told house.new))
        (sinks (O.told out.old) (E.told err.old)) (sinks (O.told out.new) (E.told err.new)) result }
{
    for text in texts {
        let status = step(rt, alloc, dir, text, folder, house, clock, out, err);
        if status != 0 {
            return status;
        }
    }
    0
}

fn begun(alloc: Global, script: &[u8], top: &Line) -> Result<(Str, Vec<Str>), Memory>
    ensures dir { IfOk result (λ made. made.0 ≡ place_or top.now.paths here) }
    ensures texts { IfOk result (λ made. made.1.items ≡ lines script.now) }
{
    let dir = place_of(alloc, &top.paths)?;
    let texts = lines_of(alloc, script)?;
    Ok((dir, texts))
}

/// Runs the lines of a script in order, and stops at the first status that isn't 0, which it answers. A line without
/// `--paths` takes the folder of the command that runs the script.
#[tactic(auto, using(crate::proofs::promise::Promising::script_promised))]
pub fn batch<R: Threads + Sync, W: Warehouse, F: Folder, C: Clock, O: Sink, E: Sink>(
    rt: &R,
    alloc: Global,
    script: &[u8],
    top: &Line,
    folder: &mut F,
    house: &mut W,
    clock: &mut C,
    out: &mut O,
    err: &mut E,
) -> u8
    ensures ends { ScriptEnds (place_or top.now.paths here) script.now (sides (F.told folder.old) (C.told clock.old) (W.told house.old)) (sides (F.told folder.new) (C.told clock.new) (W.told house.new))
        (sinks (O.told out.old) (E.told err.old)) (sinks (O.told out.new) (E.told err.new)) result }
    ensures promise { ScriptPromise (place_or top.now.paths here) script.now (sides (F.told folder.old) (C.told clock.old) (W.told house.old)) (sides (F.told folder.new) (C.told clock.new) (W.told house.new))
        (sinks (O.told out.old) (E.told err.old)) (sinks (O.told out.new) (E.told err.new)) result }
{
    the_empty_world_is_sound();
    match begun(alloc, script, top) {
        Err(Memory) => printed(alloc, Err(Refusal::Memory), out, err),
        Ok((dir, texts)) => steps(
            rt,
            alloc,
            &dir,
            texts.as_slice(),
            folder,
            house,
            clock,
            out,
            err,
        ),
    }
}
