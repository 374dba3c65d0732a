//! The cases of the libraries, as data: the suites of the crates `mesh_cases_text`, `mesh_cases_files`,
//! `mesh_cases_house`, `mesh_cases_plans`, `mesh_cases_queries` and `mesh_cases_rows`, one after another. A suite's
//! files lie in the folder of its name in `data/`, and its crate's head says what their lines are. The file
//! `expected` beside them has what comes of them, each worked example of `rows` has its own; its values were worked
//! out by hand. Printed is a line a suite, and what differs from an expected text. Where there is no such file, all
//! that comes of the cases is printed.
//!
//! The words of the command line name the suites that are run, in their order: `text`, `files`, `house`, `plans`,
//! `queries` and `rows`; with no word all of them are, in this order. A word that names none ends with status 2. A
//! suite that can't be run to its end is the last one, and the status is 1.
#![tactic(auto)]

use mesh_cases::{Trouble, expected_of, is_printed, put_differences};
use mesh_io::DirFolder;
use std::alloc::Global;
use std::env::{Env, FillError};
use std::process::ExitCode;
use std::thread::Threads;

/// The cases of one crate.
#[derive(Clone, Copy)]
enum Suite {
    Text,
    Files,
    House,
    Plans,
    Queries,
    Rows,
}

const ALL: [Suite; 6] = [
    Suite::Text,
    Suite::Files,
    Suite::House,
    Suite::Plans,
    Suite::Queries,
    Suite::Rows,
];

/// The most words that are read.
const MOST_WORDS: usize = 1 << 10;

/// What stands at a place of the command line.
#[derive(Clone, Copy)]
enum Word {
    Known(Suite),
    Unknown,
    Nothing,
}

fn name_of(suite: Suite) -> &'static [u8] {
    match suite {
        Suite::Text => b"text",
        Suite::Files => b"files",
        Suite::House => b"house",
        Suite::Plans => b"plans",
        Suite::Queries => b"queries",
        Suite::Rows => b"rows",
    }
}

fn named(word: &[u8]) -> Word {
    for suite in ALL {
        if word == name_of(suite) {
            return Word::Known(suite);
        }
    }
    Word::Unknown
}

fn word_at(rt: &HostRuntime, at: usize) -> Word {
    let mut buffer = [0u8; 16];
    match rt.arg(at, &mut buffer) {
        Ok(length) => named(buffer.get(..length).unwrap_or(&[])),
        Err(FillError::NotPresent) => Word::Nothing,
        Err(FillError::TooLong) => Word::Unknown,
    }
}

/// The suites that the words name, or none where one of the words names no suite.
fn asked(rt: &HostRuntime) -> Result<Option<Vec<Suite>>, Trouble> {
    let mut suites = Vec::new(rt.alloc());
    for at in 1..MOST_WORDS {
        match word_at(rt, at) {
            Word::Known(suite) => suites.push(suite)?,
            Word::Unknown => return Ok(None),
            Word::Nothing => break,
        }
    }
    Ok(Some(suites))
}

/// Adds what comes of the cases of a suite, some of which are computed by several workers; of `rows` what differs.
fn run<R: Threads + Sync>(
    rt: &HostRuntime,
    workers: &R,
    suite: Suite,
    report: &mut Vec<u8>,
) -> Result<(), Trouble> {
    let alloc = rt.alloc();
    let mut data = DirFolder::new(rt);
    match suite {
        Suite::Text => mesh_cases_text::run(alloc, &mut data, report),
        Suite::Files => mesh_cases_files::run(rt, &mut data, report),
        Suite::House => mesh_cases_house::run(alloc, &mut data, report),
        Suite::Plans => mesh_cases_plans::run(alloc, &mut data, report),
        Suite::Queries => mesh_cases_queries::run(workers, alloc, &mut data, report),
        Suite::Rows => mesh_cases_rows::run(workers, alloc, &mut data, report),
    }
}

/// Adds that what came of a suite is as expected, or what differs, or all where nothing is expected.
fn put_comparison(
    alloc: Global,
    data: &mut DirFolder,
    suite: Suite,
    came: &[u8],
    report: &mut Vec<u8>,
) -> Result<(), Trouble> {
    let name = name_of(suite);
    let Some(expected) = expected_of(alloc, data, name)? else {
        report.extend_from_slice(came)?;
        return Ok(());
    };
    if put_differences(alloc, report, name, expected.as_slice(), came)? {
        report.extend_from_slice(name)?;
        report.extend_from_slice(b": as expected\n")?;
    }
    Ok(())
}

/// Runs a suite, and adds whether what comes of it is as expected, or what differs.
fn compare<R: Threads + Sync>(
    rt: &HostRuntime,
    workers: &R,
    suite: Suite,
    report: &mut Vec<u8>,
) -> Result<(), Trouble> {
    if let Suite::Rows = suite {
        return run(rt, workers, suite, report);
    }
    let mut came = Vec::new(rt.alloc());
    let done = run(rt, workers, suite, &mut came);
    let mut data = DirFolder::new(rt);
    put_comparison(rt.alloc(), &mut data, suite, came.as_slice(), report)?;
    done
}

/// Runs suites and prints what comes of each, up to the first that can't be run to its end. Whether there is none.
fn are_run<R: Threads + Sync>(rt: &HostRuntime, workers: &R, suites: &[Suite]) -> bool {
    for suite in suites {
        let mut report = Vec::new(rt.alloc());
        let done = compare(rt, workers, *suite, &mut report);
        if !is_printed(rt, report.as_slice(), done) {
            return false;
        }
    }
    true
}

fn status_of<R: Threads + Sync>(rt: &HostRuntime, workers: &R, suites: &[Suite]) -> u8 {
    let are_run = if suites.is_empty() {
        are_run(rt, workers, &ALL)
    } else {
        are_run(rt, workers, suites)
    };
    if are_run { 0 } else { 1 }
}

fn main(rt: HostRuntime) -> ExitCode {
    match asked(&rt) {
        Ok(Some(suites)) => ExitCode::from(status_of(&rt, &rt, suites.as_slice())),
        Ok(None) => {
            let _ = eprintln!(rt; "a word names no suite");
            ExitCode::from(2)
        }
        Err(trouble) => {
            let _ = eprintln!(rt; "{trouble:?}");
            ExitCode::from(1)
        }
    }
}
