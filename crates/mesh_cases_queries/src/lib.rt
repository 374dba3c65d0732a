//! Queries as data: what they mean, and their rows. Each line of a file of `data/queries` of `mesh_answers` is a
//! case, but for empty lines and those that begin with `#`; what must be printed stands in the file `expected`, and
//! was worked out by hand.
//!
//! In `resolved.txt` a case is the text of a query, and what it means is printed below it, as the canonical text of
//! its CTEs and SELECTs (`mesh_canon_text/specs/Text.antt`), or the line of its first fault. `{N TEXT}` stands for a
//! text N times, in which `#` is the number of the copy. A line may have a head: - `model | FILE` makes a model known
//! by the text of its file, with the columns that this names; - `sources | FILE` makes the sources known that a file
//! declares; - `expr | E` shows the type and the expression of `SELECT E AS x FROM a.t`; - `macros | QUERY` is a
//! query of an incremental model; - `read | QUERY` shows alone whether a query means something, or memory ran out; -
//! `own | FILE`, and `timed | FILE` for an incremental model, show the definition that a model's file means; a seed
//! has no rows.
//!
//! In `cases.txt` a case is a query, a seed or an expression, of which the rows are shown on one line, over the
//! tables of the lines before, in the second day of 1970. A query is written as text, all else in canonical text; in
//! it `$` and two letters stand for the text of a word: - `$NN | TEXT` makes the word NN of two letters; - `table
//! NAME | TEXT` makes the table `a.NAME` of a seed's rows, or of a query's; the name is written as in canonical text;
//! - `(..` is an expression, which is evaluated without a row; - `sum .. | TEXT` shows how many rows a query has, and
//! the sum of their numbers; - `distinct .. | TEXT` shows one of each of a seed's rows, as `distinct_rows` of
//! `mesh_eval_rows::joins::index` keeps them; - `places .. | TEXT` shows, for each of a seed's rows, its places among
//! the rows of the last table, and the first of them, as an `Index` of `mesh_eval_rows::joins::index` finds them; -
//! `.. | TEXT` shows the rows of a query; - `waves` computes jobs by several workers (`mesh_exec_wave::wave`): none,
//! two of which one waits for the other at a gate, and 256, and shows how many lists of rows there are, and whether
//! each stands at the place of its job.
//!
//! `gates` has gates for cases, and a plan that is made with one.
//!
//! `bench/eval.py` and `bench/text.py` have the program run cases of their own.
#![tactic(auto)]

mod asked;
mod cut;
pub mod gates;
mod jobs;
mod shown;
mod stage;
mod waves;
mod words;

use crate::asked::Asked;
use crate::stage::Stage;
use crate::waves::put_waves;
use mesh_base::Inputs;
use mesh_cases::{Pen, Trouble, cases_of, file_of, filled, halves};
use mesh_io::DirFolder;
use std::alloc::Global;
use std::thread::Threads;

/// Runs a line of the file of queries that are resolved.
fn ask(alloc: Global, asked: &mut Asked, pen: &mut Pen, line: &[u8]) -> Result<(), Trouble> {
    let (head, text) = halves(line).unwrap_or((b"".as_slice(), line));
    let text = filled(alloc, text)?;
    if asked.takes(alloc, head, text.as_slice())? {
        return Ok(());
    }
    pen.put(line);
    pen.put(b"\n    ");
    asked.put(pen, head, text.as_slice())?;
    pen.put(b"\n");
    Ok(())
}

fn ask_all(alloc: Global, asked: &mut Asked, pen: &mut Pen, file: &[u8]) -> Result<(), Trouble> {
    for line in &cases_of(alloc, file)? {
        ask(alloc, asked, pen, line)?;
    }
    pen.done()
}

/// Runs the queries that are resolved.
fn resolved(alloc: Global, data: &mut DirFolder, pen: &mut Pen) -> Result<(), Trouble> {
    let file = file_of(alloc, data, b"queries", b"resolved.txt")?;
    let mut asked = Asked::new(alloc);
    ask_all(alloc, &mut asked, pen, file.as_slice())
}

/// Runs a line of the file of cases that have rows.
fn case<R: Threads + Sync>(
    rt: &R,
    alloc: Global,
    stage: &mut Stage,
    line: &[u8],
) -> Result<(), Trouble> {
    if line == b"waves".as_slice() {
        stage.pen.put(b"waves\n");
        return put_waves(rt, alloc, &mut stage.pen);
    }
    stage.run(alloc, line)
}

/// Runs the cases that have rows, and then the others.
fn cases<R: Threads + Sync>(
    rt: &R,
    alloc: Global,
    data: &mut DirFolder,
    stage: &mut Stage,
) -> Result<(), Trouble> {
    let file = file_of(alloc, data, b"queries", b"cases.txt")?;
    for line in &cases_of(alloc, file.as_slice())? {
        case(rt, alloc, stage, line)?;
    }
    resolved(alloc, data, &mut stage.pen)
}

/// Adds what each query of the folder `queries` means, or its rows.
pub fn run<R: Threads + Sync>(
    rt: &R,
    alloc: Global,
    data: &mut DirFolder,
    report: &mut Vec<u8>,
) -> Result<(), Trouble> {
    let mut stage = Stage {
        words: Vec::new(alloc),
        tables: Inputs::new(alloc),
        pen: Pen::new(alloc),
    };
    let done = cases(rt, alloc, data, &mut stage);
    report.extend_from_slice(stage.pen.text())?;
    done
}
