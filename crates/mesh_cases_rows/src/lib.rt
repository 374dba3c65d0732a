//! Worked examples as data. Each folder `rows/NAME` has a project in `project/` and a `script` of steps, which are
//! run through the top call of `mesh_cli::cli` over a folder and a warehouse in memory. What each command answers is
//! compared with the file `expected` beside the script, whose values were worked out by hand, and what differs is
//! printed.
//!
//! A script has one step a line, split as the lines of a batch are; empty lines and lines that begin with `#` are no
//! steps: - `mesh WORD..` runs a command, and prints its status, its number of changes, and what it wrote on `out`
//! and `err`; - `show` prints the views, each with the number of its target and its rows, and how many things the
//! world has; targets are numbered as the views name them; `targets` prints the views with the names of their
//! targets; - `write PATH FILE` gives the project a file with the bytes of `rows/NAME/FILE`, and `delete PATH`
//! removes one; - `cut PATH FILE N` gives it a file with the first N bytes of `rows/NAME/FILE`, and `pad PATH FILE N`
//! one with line feeds behind them, N bytes in all; - `copies N FILE` gives it the files `models/0.sql`,
//! `models/1.sql` and so on, N in all; - `clock MOMENT` sets the clock, and `empty` empties the warehouse; `input
//! FILE` is what commands read as their input, and `input FILE N` the same with line feeds behind it, N bytes in all;
//! - `book old` makes the book one of version 1 and `book present` one of version 2; `book definition` gives its
//! first snapshot another definition, the second time the former one; `book unknown`, `book parent`, `book twice` and
//! `book orphan` break it: its version, a parent of its first snapshot, its first version, which stands twice, or the
//! list of its first environment, of which one entry is left; `book over` makes its first snapshot one that has
//! expired, and `book standins TABLE..` leaves it no environment, and no snapshot but copies of the first one with
//! other fingerprints, one for each of these tables of its schema; - `lose VIEW` drops the object that a view points
//! at, and `hide VIEW` the view; - `fail CALL N` has one call of each of the next commands fail, counted from 0 in
//! each; CALL is `before` or `after` for a change that fails before or after its effect, `house` for another call of
//! the warehouse, or `folder`, `clock`, `input`, `out` or `err`; `fail` alone has none fail; - `cuts PATH WORD..`
//! runs a command with the project's file PATH whole and with each proper prefix in its place, each over the world as
//! it is; it counts the cuts, those that are refused with one line of that file and no change, and those that end as
//! with the whole file, and prints the others; - `books WORD..` runs a command over a warehouse that has just a book,
//! for each book of the steps `fault` of the suite `house`, and prints each with its title; at the end the warehouse
//! is empty; - `stops CALL WORD..` runs a command, and then again from the world before with each call of that kind
//! failing in turn, each time followed by the whole command, and prints both statuses, whether the views show the
//! same, and the second text; at the end the world is as it was; - `held MOMENT` makes the plan for production, but
//! for its views, by two workers and with a gate that holds the first unit of a wave until the second one has
//! entered, for some turns at most, and prints how many units and changes there were, and whether it was held too
//! long; `counted MOMENT` does so with a gate that counts, and prints how often it was entered.
//!
//! An example whose warehouse has no other world than its commands make, and of which no call fails, is run over two
//! further warehouses side by side, records in a map and SQLite in memory, but for one with a step `alone`: what
//! comes of a command, or is shown, over one of them and isn't the same is printed behind it. At the end it is
//! printed how many commands were run over each of the two, and how often views were shown. A step `kept N` has the
//! write N of the records in the map fail before its effect, counted from 0 over the whole example, the first of
//! which makes the book; such an example is run over the map, whatever fails besides. A step `records KIND` has the
//! records of that kind printed that the map has at the end, each its name and its body.
#![tactic(auto)]

mod arrange;
mod beside;
mod books;
mod gated;
mod report;
mod stage;
mod trouble;
mod turns;

use crate::arrange::{arrange, is};
use crate::beside::{Beside, Tally};
use crate::books::put_books;
use crate::gated::{put_counted, put_held};
use crate::report::{put, put_counts, put_outcome, put_targets, put_views};
use crate::stage::Stage;
use crate::trouble::Trouble;
use crate::turns::{cuts, stops};
use mesh_base_values::Str;
use mesh_cases::{expected_of, file_of, put_differences};
use mesh_cli_values::scripts::{is_skipped, line_words};
use mesh_io::{DirFolder, Folder};
use mesh_list::{Duplicate, Seq};
use std::alloc::Global;
use std::thread::Threads;

/// The bytes of the largest file of an example.
const MOST_BYTES: u64 = 1 << 23;

fn read(alloc: Global, data: &mut DirFolder, path: &[u8]) -> Result<Str, Trouble> {
    let mut whole = Vec::from_slice(alloc, b"rows/")?;
    whole.extend_from_slice(path)?;
    let whole = Seq::from_vec(whole);
    data.read(alloc, &whole, MOST_BYTES)?.ok_or(Trouble::Script)
}

fn command<R: Threads + Sync>(
    rt: &R,
    stage: &mut Stage,
    beside: &mut Beside,
    words: &[Str],
    report: &mut Vec<u8>,
) -> Result<(), Trouble> {
    let outcome = stage.run(rt, words)?;
    put_outcome(stage.alloc, report, &outcome)?;
    beside.command(rt, stage, words, &outcome, report)
}

fn put_world(stage: &mut Stage, beside: &mut Beside, report: &mut Vec<u8>) -> Result<(), Trouble> {
    let alloc = stage.alloc;
    let world = stage.house.world();
    let mut text = Vec::new(alloc);
    put_views(alloc, &mut text, world)?;
    put(report, text.as_slice())?;
    put_counts(alloc, report, world)?;
    beside.look(alloc, world.views.as_slice(), text.as_slice(), report)
}

/// Runs one step, and adds what is to be printed.
fn perform<R: Threads + Sync>(
    rt: &R,
    stage: &mut Stage,
    beside: &mut Beside,
    words: &[Str],
    report: &mut Vec<u8>,
) -> Result<(), Trouble> {
    let Some((first, rest)) = words.split_first() else {
        return Err(Trouble::Script);
    };
    match rest {
        _ if is(first, b"mesh") => command(rt, stage, beside, rest, report),
        [] if is(first, b"show") => put_world(stage, beside, report),
        [] if is(first, b"targets") => put_targets(report, stage.house.world()),
        [moment] if is(first, b"held") => put_held(rt, stage, moment, report),
        [moment] if is(first, b"counted") => put_counted(rt, stage, moment, report),
        [_, ..] if is(first, b"books") => put_books(rt, stage, rest, report),
        [path, command @ ..] if is(first, b"cuts") => cuts(rt, stage, path, command, report),
        [kind, command @ ..] if is(first, b"stops") => stops(rt, stage, kind, command, report),
        _ => arrange(stage, first, rest),
    }
}

/// Runs the step of a line; a step that prints has its line printed before it.
fn step<R: Threads + Sync>(
    rt: &R,
    stage: &mut Stage,
    beside: &mut Beside,
    line: &[u8],
    report: &mut Vec<u8>,
) -> Result<(), Trouble> {
    let words = line_words(stage.alloc, line)?.ok_or(Trouble::Script)?;
    let mut printed = Vec::new(stage.alloc);
    perform(rt, stage, beside, words.as_slice(), &mut printed)?;
    if printed.is_empty() {
        return Ok(());
    }
    put(report, b"> ")?;
    put(report, line)?;
    put(report, b"\n")?;
    put(report, printed.as_slice())
}

fn play<R: Threads + Sync>(
    rt: &R,
    stage: &mut Stage,
    beside: &mut Beside,
    script: &Str,
    report: &mut Vec<u8>,
) -> Result<(), Trouble> {
    for line in script.as_slice().split(|byte| *byte == b'\n') {
        if !is_skipped(line) {
            step(rt, stage, beside, line, report)?;
        }
    }
    Ok(())
}

/// Gives the stage the files of an example.
fn furnish(
    alloc: Global,
    data: &mut DirFolder,
    paths: &[Str],
    front: &[u8],
    stage: &mut Stage,
) -> Result<(), Trouble> {
    for path in paths {
        if let Some(rest) = path.as_slice().strip_prefix(front) {
            let bytes = read(alloc, data, path.as_slice())?;
            stage.add(rest, bytes)?;
        }
    }
    Ok(())
}

/// The expected text of an example, if there is one.
fn expected_text(alloc: Global, data: &mut DirFolder, name: &[u8]) -> Result<Option<Str>, Trouble> {
    let mut folder = Vec::from_slice(alloc, b"rows/")?;
    folder.extend_from_slice(name)?;
    Ok(expected_of(alloc, data, folder.as_slice())?)
}

/// Adds what differs from the expected text of an example, or all where there is none.
fn put_comparison(
    alloc: Global,
    report: &mut Vec<u8>,
    name: &[u8],
    expected: Option<&Str>,
    printed: &[u8],
) -> Result<(), Trouble> {
    match expected {
        Some(text) => {
            let _ = put_differences(alloc, report, name, text.as_slice(), printed)?;
            Ok(())
        }
        None => {
            put(report, b"== ")?;
            put(report, name)?;
            put(report, b"\n")?;
            put(report, printed)
        }
    }
}

/// The script of an example, whose files are given to the stage.
fn script_of(
    alloc: Global,
    data: &mut DirFolder,
    paths: &[Str],
    name: &[u8],
    stage: &mut Stage,
) -> Result<Str, Trouble> {
    let mut front = Vec::from_slice(alloc, name)?;
    front.push(b'/')?;
    furnish(alloc, data, paths, front.as_slice(), stage)?;
    front.extend_from_slice(b"script")?;
    read(alloc, data, front.as_slice())
}

/// Plays a script, beside two further warehouses where it may be, and counts what was run over them.
fn play_beside<R: Threads + Sync>(
    rt: &R,
    stage: &mut Stage,
    script: &Str,
    tally: &mut Tally,
    report: &mut Vec<u8>,
) -> Result<(), Trouble> {
    let mut beside = Beside::new(stage.alloc, script.as_slice())?;
    let done = play(rt, stage, &mut beside, script, report);
    let ended = beside.close(stage.alloc, report);
    done?;
    tally.add(ended?);
    Ok(())
}

/// Plays an example, and adds what differs from what is expected.
fn example<R: Threads + Sync>(
    rt: &R,
    alloc: Global,
    data: &mut DirFolder,
    paths: &[Str],
    name: &[u8],
    tally: &mut Tally,
    report: &mut Vec<u8>,
) -> Result<(), Trouble> {
    let mut stage = Stage::new(alloc);
    let script = script_of(alloc, data, paths, name, &mut stage)?;
    stage.books = file_of(alloc, data, b"house", b"books.txt")?;
    let expected = expected_text(alloc, data, name)?;
    let mut printed = Vec::new(alloc);
    let done = play_beside(rt, &mut stage, &script, tally, &mut printed);
    put_comparison(alloc, report, name, expected.as_ref(), printed.as_slice())?;
    done
}

fn put_tally(
    alloc: Global,
    report: &mut Vec<u8>,
    examples: u64,
    tally: Tally,
) -> Result<(), Trouble> {
    let (mapped, stored, looks) = (tally.mapped, tally.stored, tally.looks);
    let text = format!(in alloc;
        "rows: {examples} examples, over records in a map {mapped} commands and {looks} looks, over SQLite {stored} commands\n"
    )?;
    put(report, text.as_bytes())
}

fn examples<R: Threads + Sync>(
    rt: &R,
    alloc: Global,
    data: &mut DirFolder,
    report: &mut Vec<u8>,
) -> Result<(), Trouble> {
    let rows = u8::copy_items(alloc, b"rows")?;
    let paths = data.list(alloc, &rows)?;
    let mut tally = Tally::new();
    let mut count = 0u64;
    for path in paths.as_slice() {
        if let Some(name) = path.as_slice().strip_suffix(b"/script") {
            example(rt, alloc, data, paths.as_slice(), name, &mut tally, report)?;
            count = count.saturating_add(1);
        }
    }
    put_tally(alloc, report, count, tally)
}

/// Plays all examples, in the order of their names, and adds what differs and how many there were. Commands compute
/// by the threads of `rt`.
pub fn run<R: Threads + Sync>(
    rt: &R,
    alloc: Global,
    data: &mut DirFolder,
    report: &mut Vec<u8>,
) -> Result<(), mesh_cases::Trouble> {
    match examples(rt, alloc, data, report) {
        Ok(()) => Ok(()),
        Err(trouble) => Err(trouble.of_cases()),
    }
}
