// The top call: one command line, from its words to its exit status.
ghost use Rattle.std.specs.Prelude.{ℕ, List};
ghost use Rattle.mesh_cli_words.specs.Lines.{IsLine};
ghost use Rattle.mesh_cli.specs.cli.Fit.{IsFit};
ghost use Rattle.mesh_cli.specs.cli.Scripts.{BatchEnds, LineAnswers, WordsEnd};
ghost use Rattle.mesh_cli.specs.cli.Sides.{here, place_or, sides};
ghost use Rattle.mesh_cli.specs.promise.Promise.{CallPromise};
ghost use Rattle.mesh_cli_print.specs.printed.Printing.{sinks};

use crate::cli::batches::{batch, is_batch, of_usage};
use crate::cli::command::line_answer;
use crate::cli::script::script_of;
use mesh_base_values::Str;
use mesh_cli_print::printed::{Refusal, printed};
use mesh_cli_words::{Line, read_words};
use mesh_house::Warehouse;
use mesh_io::{Clock, Folder, Sink, Source};
use mesh_list::{Duplicate, Memory};
use mesh_spec_promise::the_empty_world_is_sound;
use std::alloc::Global;
use std::thread::Threads;

fn asked<R: Threads + Sync, W: Warehouse, F: Folder, C: Clock>(
    rt: &R,
    alloc: Global,
    line: &Line,
    folder: &mut F,
    house: &mut W,
    clock: &mut C,
) -> Result<Str, Refusal>
    requires { IsFit line.now.command }
    ensures { LineAnswers here line.now (sides (F.told folder.old) (C.told clock.old) (W.told house.old)) (sides (F.told folder.new) (C.told clock.new) (W.told house.new)) result }
{
    match u8::copy_items(alloc, b".") {
        Err(Memory) => Err(Refusal::Memory),
        Ok(dir) => line_answer(rt, alloc, &dir, line, folder, house, clock),
    }
}

fn scripted<R: Threads + Sync, W: Warehouse, F: Folder, C: Clock, S: Source, O: Sink, E: Sink>(
    rt: &R,
    alloc: Global,
    top: &Line,
    folder: &mut F,
    house: &mut W,
    clock: &mut C,
    input: &mut S,
    out: &mut O,
    err: &mut E,
) -> u8
    ensures { BatchEnds (place_or top.now.paths here) (S.told input.old) (S.told input.new) (sides (F.told folder.old) (C.told clock.old) (W.told house.old)) (sides (F.told folder.new) (C.told clock.new) (W.told house.new))
        (sinks (O.told out.old) (E.told err.old)) (sinks (O.told out.new) (E.told err.new)) result }
{
    match script_of(alloc, input) {
        Err(refusal) => printed(alloc, Err(refusal), out, err),
        Ok(script) => batch(
            rt,
            alloc,
            script.as_slice(),
            top,
            folder,
            house,
            clock,
            out,
            err,
        ),
    }
}

fn done<R: Threads + Sync, W: Warehouse, F: Folder, C: Clock, S: Source, O: Sink, E: Sink>(
    rt: &R,
    alloc: Global,
    line: &Line,
    folder: &mut F,
    house: &mut W,
    clock: &mut C,
    input: &mut S,
    out: &mut O,
    err: &mut E,
) -> u8
    requires fit { IsFit line.now.command }
    ensures { (words : List (List ℕ)) → IsLine words line.now → WordsEnd words (S.told input.old) (S.told input.new) (sides (F.told folder.old) (C.told clock.old) (W.told house.old)) (sides (F.told folder.new) (C.told clock.new) (W.told house.new))
        (sinks (O.told out.old) (E.told err.old)) (sinks (O.told out.new) (E.told err.new)) result }
{
    if is_batch(&line.command) {
        scripted(rt, alloc, line, folder, house, clock, input, out, err)
    } else {
        let answer = asked(rt, alloc, line, folder, house, clock);
        printed(alloc, answer, out, err)
    }
}

/// Runs one command line: its words are those behind the program's own name. The answer is the exit status: 0 where
/// the command was done; 1 for a fault of the project, or of the words' own query, names and files; 2 for words that
/// are no command line; 3 where the warehouse failed, 4 for want of memory, 5 where the folder, the clock or the
/// input failed, 6 where `out` or `err` did; and 7 for what the warehouse's state doesn't allow.
pub fn mesh<R: Threads + Sync, W: Warehouse, F: Folder, C: Clock, S: Source, O: Sink, E: Sink>(
    rt: &R,
    alloc: Global,
    words: &[Str],
    folder: &mut F,
    house: &mut W,
    clock: &mut C,
    input: &mut S,
    out: &mut O,
    err: &mut E,
) -> u8
    ensures ends { WordsEnd words.now (S.told input.old) (S.told input.new) (sides (F.told folder.old) (C.told clock.old) (W.told house.old)) (sides (F.told folder.new) (C.told clock.new) (W.told house.new))
        (sinks (O.told out.old) (E.told err.old)) (sinks (O.told out.new) (E.told err.new)) result }
    ensures promise { CallPromise words.now (S.told input.old) (S.told input.new) (sides (F.told folder.old) (C.told clock.old) (W.told house.old)) (sides (F.told folder.new) (C.told clock.new) (W.told house.new))
        (sinks (O.told out.old) (E.told err.old)) (sinks (O.told out.new) (E.told err.new)) result }
{
    the_empty_world_is_sound();
    match read_words(alloc, words) {
        Err(fault) => printed(alloc, Err(of_usage(fault)), out, err),
        Ok(line) => done(rt, alloc, &line, folder, house, clock, input, out, err),
    }
}
