//! The cases of what is read from texts: of `mesh_query_tokens`, `mesh_query`, `mesh_model_statement`, `mesh_model`
//! and `mesh_cli_print::faults`. Each line of a file of `data/text` of `mesh_answers` is a case, but for empty lines
//! and those that begin with `#`. It is reported as it stands, and below it what the libraries answer, in the
//! notation of that file. The file `expected` has what must be printed; its values were worked out by hand.
//!
//! A line writes a text: `\n`, `\r`, `\t`, `\\` and `\xHH` stand for one byte each, and `{N*TEXT}` for a text N
//! times, in which `#` is how often it stood before. Where a text has a fault, the fault's line is printed, with `-`
//! for the file. - `tokens.txt`: the tokens of a text, after a copy of them, each as `[START-END KIND WHAT]`, where
//! the kind is `i` for an identifier, `n` a number, `t` a text, `m` a macro and `s` a sign; - `queries.txt`: the tree
//! of a query, each list of parts in parentheses with its operator first; - `behind.txt`: `N | TEXT`, the tree of the
//! query that begins at token N, counted from 0; - `limits.txt`: `read` for a query that is read; - `statements.txt`:
//! the properties of the MODEL statement in the file `models/m/a.sql`, with the byte at which a path stands behind
//! `at`, behind `by` the time column and behind `back` the lookback, the hours of a cron as a number with a bit for
//! each, a start as a day counted from 1970-01-01, a letter for each column's type, the tokens of `audits`, behind
//! `to` the end of the statement and behind `left` how many tokens it leaves; - `models.txt`: the same of a copy of
//! the model in the file `models/a.sql`, and behind `query` the query's place and tree; - `cuts.txt`: a model file
//! that is cut behind 0 bytes, behind 1 and so on until it is whole: each length from which on something else is
//! answered than before, and that; - `faults.txt`: `N | WHAT`, the line of the fault MN that names WHAT, at byte 10
//! of `models/m.sql`: a text, a name of two parts (5, 17, and 21 for the other fault M17), names with blanks between
//! them (12) or two numbers with ` | ` between them (16, 19: of two fingerprints each byte).
//!
//! `bench/text.py` has the program run cases of its own.
#![tactic(auto)]

mod answers;
mod faults;
mod notation;
mod parts;
mod query;
mod refusals;
mod tokens;
mod tree;

use crate::answers::{
    put_cuts, put_fault_line, put_limit, put_model_file, put_statement, put_tokens, put_tree,
    put_tree_behind,
};
use crate::notation::text_of;
use mesh_cases::{Pen, Trouble, cases_of, file_of};
use mesh_io::DirFolder;
use std::alloc::Global;

/// What is asked of the texts of a file.
#[derive(Clone, Copy)]
enum Asked {
    Tokens,
    Tree,
    TreeBehind,
    Limit,
    Statement,
    Model,
    Cuts,
    Fault,
}

const FILES: [(&[u8], Asked); 8] = [
    (b"tokens.txt", Asked::Tokens),
    (b"queries.txt", Asked::Tree),
    (b"behind.txt", Asked::TreeBehind),
    (b"limits.txt", Asked::Limit),
    (b"statements.txt", Asked::Statement),
    (b"models.txt", Asked::Model),
    (b"cuts.txt", Asked::Cuts),
    (b"faults.txt", Asked::Fault),
];

fn answer(alloc: Global, pen: &mut Pen, asked: Asked, text: &[u8]) -> Result<(), Trouble> {
    match asked {
        Asked::Tokens => put_tokens(alloc, pen, text),
        Asked::Tree => put_tree(alloc, pen, text),
        Asked::TreeBehind => put_tree_behind(alloc, pen, text),
        Asked::Limit => put_limit(alloc, pen, text),
        Asked::Statement => put_statement(alloc, pen, text),
        Asked::Model => put_model_file(alloc, pen, text),
        Asked::Cuts => put_cuts(alloc, pen, text),
        Asked::Fault => put_fault_line(alloc, pen, text),
    }
}

fn cases(alloc: Global, pen: &mut Pen, asked: Asked, file: &[u8]) -> Result<(), Trouble> {
    for line in &cases_of(alloc, file)? {
        pen.put(line);
        pen.put(b"\n   ");
        answer(alloc, pen, asked, text_of(alloc, line)?.as_slice())?;
    }
    pen.done()
}

fn files(alloc: Global, data: &mut DirFolder, pen: &mut Pen) -> Result<(), Trouble> {
    for (name, asked) in FILES {
        pen.put(b"== ");
        pen.put(name);
        pen.put(b"\n");
        let file = file_of(alloc, data, b"text", name)?;
        cases(alloc, pen, asked, file.as_slice())?;
    }
    Ok(())
}

/// Adds what the libraries answer to each case of the folder `text`.
pub fn run(alloc: Global, data: &mut DirFolder, report: &mut Vec<u8>) -> Result<(), Trouble> {
    let mut pen = Pen::new(alloc);
    let done = files(alloc, data, &mut pen);
    report.extend_from_slice(pen.text())?;
    done
}
