// One command many times: with a file that is cut at each byte, and with each call failing in turn.
use crate::arrange::failing;
use crate::report::{Outcome, put, put_outcome, put_views};
use crate::stage::Stage;
use crate::trouble::Trouble;
use mesh_base_values::Str;
use mesh_house::World;
use mesh_list::{Duplicate, Seq, together};
use std::alloc::Global;
use std::thread::Threads;

/// More calls than a command of an example makes.
const MOST_CALLS: u64 = 1_000;

/// What is printed of the turns so far, in which turns that adjoin and have one text are put together.
#[derive(Drop)]
struct Turns {
    alloc: Global,
    first: u64,
    last: u64,
    text: Vec<u8>,
    report: Vec<u8>,
}

impl Turns {
    fn new(alloc: Global) -> Turns {
        Turns {
            alloc,
            first: 0,
            last: 0,
            text: Vec::new(alloc),
            report: Vec::new(alloc),
        }
    }

    /// Prints the turns that are waiting for one with another text.
    fn end(&mut self) -> Result<(), Trouble> {
        if !self.text.is_empty() {
            let (first, last) = (self.first, self.last);
            let head = format!(in self.alloc; "{first} to {last}: ")?;
            put(&mut self.report, head.as_bytes())?;
            put(&mut self.report, self.text.as_slice())?;
        }
        self.text = Vec::new(self.alloc);
        Ok(())
    }

    /// Adds a turn.
    fn add(&mut self, number: u64, text: Vec<u8>) -> Result<(), Trouble> {
        if text.as_slice().cmp(&self.text.as_slice()).is_ne() {
            self.end()?;
            self.first = number;
            self.text = text;
        }
        self.last = number;
        Ok(())
    }
}

/// Whether a text is one line that begins with a path and a colon.
fn is_line_of(text: &[u8], path: &[u8]) -> bool {
    let Some(rest) = text.strip_prefix(path) else {
        return false;
    };
    let Some(line) = rest.strip_suffix(b"\n") else {
        return false;
    };
    line.starts_with(b":") && !line.contains(&b'\n')
}

/// Whether a command was refused with a line of that file, and did nothing else.
fn is_refused(outcome: &Outcome, path: &Str) -> bool {
    outcome.status == 1
        && outcome.changes == 0
        && outcome.out.is_empty()
        && is_line_of(outcome.err.as_slice(), path.as_slice())
}

fn outcome_text(alloc: Global, outcome: &Outcome) -> Result<Vec<u8>, Trouble> {
    let mut text = Vec::new(alloc);
    put_outcome(alloc, &mut text, outcome)?;
    Ok(text)
}

/// How many cuts of a file there were, how many were refused in it, and how many have the outcome of the whole file.
#[derive(Drop)]
struct Tally {
    all: u64,
    refused: u64,
    same: u64,
}

impl Tally {
    /// Adds a cut. One of another outcome is added to the turns.
    fn add(
        &mut self,
        turns: &mut Turns,
        path: &Str,
        whole: &Outcome,
        outcome: &Outcome,
    ) -> Result<(), Trouble> {
        let number = self.all;
        self.all = number.saturating_add(1);
        if is_refused(outcome, path) {
            self.refused = self.refused.saturating_add(1);
            return turns.end();
        }
        if *outcome == *whole {
            self.same = self.same.saturating_add(1);
            return turns.end();
        }
        let text = outcome_text(turns.alloc, outcome)?;
        turns.add(number, text)
    }
}

/// A command, and the file that is cut.
#[derive(Drop)]
struct Cutting<'a> {
    path: &'a Str,
    words: &'a [Str],
    world: &'a World,
}

/// Runs the command over the same world with these bytes of the file.
fn run_cut<R: Threads + Sync>(
    rt: &R,
    stage: &mut Stage,
    cutting: &Cutting,
    cut: &[u8],
) -> Result<Outcome, Trouble> {
    let (path, bytes) = together(cutting.path.copy(), u8::copy_items(stage.alloc, cut))?;
    stage.restore_copy(cutting.world)?;
    stage.write(path, bytes)?;
    stage.run(rt, cutting.words)
}

/// Runs the command with the file cut at each byte.
fn run_each<R: Threads + Sync>(
    rt: &R,
    stage: &mut Stage,
    cutting: &Cutting,
    bytes: &[u8],
    whole: &Outcome,
    turns: &mut Turns,
    tally: &mut Tally,
) -> Result<(), Trouble> {
    for at in 0..bytes.len() {
        match run_cut(rt, stage, cutting, &bytes[..at]) {
            Ok(outcome) => tally.add(turns, cutting.path, whole, &outcome)?,
            Err(trouble) => return Err(trouble),
        }
    }
    turns.end()
}

/// Runs a command over the same world with a file whole and cut at each byte.
fn run_cuts<R: Threads + Sync>(
    rt: &R,
    stage: &mut Stage,
    cutting: &Cutting,
    bytes: &Str,
    turns: &mut Turns,
    tally: &mut Tally,
) -> Result<(), Trouble> {
    match stage.run(rt, cutting.words) {
        Ok(whole) => run_each(rt, stage, cutting, bytes.as_slice(), &whole, turns, tally),
        Err(trouble) => Err(trouble),
    }
}

/// The same, from the world as it is, which stays.
fn cut_over<R: Threads + Sync>(
    rt: &R,
    stage: &mut Stage,
    path: &Str,
    bytes: &Str,
    words: &[Str],
    turns: &mut Turns,
    tally: &mut Tally,
) -> Result<(), Trouble> {
    let world = stage.house.world().copy()?;
    let cutting = Cutting {
        path,
        words,
        world: &world,
    };
    let done = run_cuts(rt, stage, &cutting, bytes, turns, tally);
    stage.restore(world);
    done
}

fn put_tally(
    alloc: Global,
    report: &mut Vec<u8>,
    turns: &Turns,
    tally: &Tally,
) -> Result<(), Trouble> {
    let (all, refused, same) = (tally.all, tally.refused, tally.same);
    let head = format!(in alloc;
        "{all} cuts, {refused} refused in this file, {same} as the whole file\n"
    )?;
    put(report, head.as_bytes())?;
    put(report, turns.report.as_slice())
}

/// The bytes of a project's file, as the example has it.
fn project_file(stage: &mut Stage, path: &Str) -> Result<Str, Trouble> {
    let mut place = Vec::from_slice(stage.alloc, b"project/")?;
    place.extend_from_slice(path.as_slice())?;
    stage.file(&Seq::from_vec(place))
}

/// Runs a command with each proper prefix of a file in its place, and gives the project the whole file back.
pub fn cuts<R: Threads + Sync>(
    rt: &R,
    stage: &mut Stage,
    path: &Str,
    words: &[Str],
    report: &mut Vec<u8>,
) -> Result<(), Trouble> {
    let bytes = project_file(stage, path)?;
    let mut turns = Turns::new(stage.alloc);
    let mut tally = Tally {
        all: 0,
        refused: 0,
        same: 0,
    };
    cut_over(rt, stage, path, &bytes, words, &mut turns, &mut tally)?;
    stage.write(path.copy()?, bytes)?;
    put_tally(stage.alloc, report, &turns, &tally)
}

fn views_text(stage: &mut Stage) -> Result<Vec<u8>, Trouble> {
    let alloc = stage.alloc;
    let mut text = Vec::new(alloc);
    put_views(alloc, &mut text, stage.house.world())?;
    Ok(text)
}

/// What a command does whose calls all succeed, and what is shown then.
#[derive(Drop)]
struct Whole {
    outcome: Outcome,
    shown: Vec<u8>,
}

fn run_whole<R: Threads + Sync>(
    rt: &R,
    stage: &mut Stage,
    words: &[Str],
) -> Result<Whole, Trouble> {
    let outcome = stage.run(rt, words)?;
    let shown = views_text(stage)?;
    Ok(Whole { outcome, shown })
}

/// What is printed of a command that was stopped with a status, and of the same command again.
fn stop_text(
    stage: &mut Stage,
    status: u8,
    whole: &Whole,
    second: &Outcome,
) -> Result<Vec<u8>, Trouble> {
    let same = views_text(stage)?
        .as_slice()
        .cmp(&whole.shown.as_slice())
        .is_eq();
    let after = if same {
        "the same shown after"
    } else {
        "something else shown after"
    };
    let head = format!(in stage.alloc; "status {status}, {after} ")?;
    let mut text = Vec::from_slice(stage.alloc, head.as_bytes())?;
    put_outcome(stage.alloc, &mut text, second)?;
    Ok(text)
}

fn again<R: Threads + Sync>(
    rt: &R,
    stage: &mut Stage,
    status: u8,
    whole: &Whole,
    words: &[Str],
) -> Result<Vec<u8>, Trouble> {
    let second = stage.run(rt, words)?;
    stop_text(stage, status, whole, &second)
}

/// Runs a command of which one call fails, and answers its status where that isn't as it would be.
fn stopped<R: Threads + Sync>(
    rt: &R,
    stage: &mut Stage,
    whole: &Whole,
    words: &[Str],
) -> Result<Option<u8>, Trouble> {
    let first = stage.run(rt, words)?;
    stage.failing = None;
    if first == whole.outcome {
        return Ok(None);
    }
    Ok(Some(first.status))
}

/// Runs a command of which one call fails, and then the same again, and adds what is printed of both. Whether a call
/// failed.
fn stop<R: Threads + Sync>(
    rt: &R,
    stage: &mut Stage,
    whole: &Whole,
    words: &[Str],
    number: u64,
    turns: &mut Turns,
) -> Result<bool, Trouble> {
    match stopped(rt, stage, whole, words)? {
        None => Ok(false),
        Some(status) => {
            let text = again(rt, stage, status, whole, words)?;
            turns.add(number, text)?;
            Ok(true)
        }
    }
}

/// A command whose calls of a kind fail in turn, from a world.
#[derive(Drop)]
struct Stopping<'a> {
    kind: &'a Str,
    words: &'a [Str],
    world: &'a World,
}

fn run_stops<R: Threads + Sync>(
    rt: &R,
    stage: &mut Stage,
    stopping: &Stopping,
    whole: &Whole,
    turns: &mut Turns,
) -> Result<u64, Trouble> {
    for number in 0..MOST_CALLS {
        stage.restore_copy(stopping.world)?;
        stage.failing = failing(stopping.kind, number)?;
        if !stop(rt, stage, whole, stopping.words, number, turns)? {
            turns.end()?;
            return Ok(number);
        }
    }
    Err(Trouble::Script)
}

fn stop_each<R: Threads + Sync>(
    rt: &R,
    stage: &mut Stage,
    stopping: &Stopping,
    turns: &mut Turns,
) -> Result<u64, Trouble> {
    match run_whole(rt, stage, stopping.words) {
        Ok(whole) => run_stops(rt, stage, stopping, &whole, turns),
        Err(trouble) => Err(trouble),
    }
}

/// The same, from the world as it is, which stays.
fn stop_over<R: Threads + Sync>(
    rt: &R,
    stage: &mut Stage,
    kind: &Str,
    words: &[Str],
    turns: &mut Turns,
) -> Result<u64, Trouble> {
    let world = stage.house.world().copy()?;
    let stopping = Stopping {
        kind,
        words,
        world: &world,
    };
    let done = stop_each(rt, stage, &stopping, turns);
    stage.restore(world);
    done
}

/// Runs a command over the same world with each call of a kind failing in turn, and each time the same command again.
/// At the end the world is as it was.
pub fn stops<R: Threads + Sync>(
    rt: &R,
    stage: &mut Stage,
    kind: &Str,
    words: &[Str],
    report: &mut Vec<u8>,
) -> Result<(), Trouble> {
    let mut turns = Turns::new(stage.alloc);
    let number = stop_over(rt, stage, kind, words, &mut turns)?;
    let head = format!(in stage.alloc; "{number} stops\n")?;
    put(report, head.as_bytes())?;
    put(report, turns.report.as_slice())
}
