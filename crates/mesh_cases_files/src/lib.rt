//! Values and files, and what lies outside, as data. Each line of a file of `data/files` of `mesh_answers` is one
//! call, and is reported with what the call answered; the file `expected` has the answers, which were worked out by
//! hand. A line is a word and what the word takes, where `\n`, `\r`, `\t`, `\\` and `\xHH` are escapes, and `{N
//! TEXT}` is TEXT N times, a `#` in it the number of the copy.
//!
//! Days, moments, crons, ranges of seconds, casts, canonical texts and fingerprints (`values.rt`): - `day TEXT` and
//! `moment TEXT` read a day or a moment, and `day-text N` and `moment-text N` write one; - `value CELL` is the moment
//! of a cell, which is `NULL`, a number, a text in single quotes, `day N`, `true` or `false`; - `cron TEXT` reads a
//! cron, and answers its sets as numbers of bits, a star behind that of a field `*`, and its unit; - `floor CRON | N`
//! is the last tick of a cron up to a moment, and `tick` follows where the moment is one; `floors CRON | STEP COUNT`
//! is the sum of the last ticks up to that many moments, the first of them 0 and each STEP behind the last; - `number
//! TEXT`, `truth TEXT` and `lower TEXT` read a number or a truth, and write a text in lower case; - `cast TYPE CELL`
//! is the cell as another type: `int`, `text`, `date` or `bool`; - `ranges` begins with no second; `add A B` and
//! `forget A B` change the ranges, and answer their spans; `holds A B` and `missing A B UNIT` ask them; `copy`
//! answers the spans of a copy, and whether it is the same as the ranges; `spread A LENGTH STEP COUNT` adds that many
//! ranges from A on, and like `missing-size A B UNIT` answers how many spans there are; - `around FRONT | BACK` has
//! texts stand between the two from then on; `own TEXT` reads a definition and writes it again; `near TEXT` does so
//! too, and then reads each text that has one byte dropped, changed or added; `copied TEXT` writes a copy of it, and
//! `read-own TEXT` nothing; `former TEXT` reads and writes the former text of a definition, and `renewed TEXT` is the
//! text that it has now; `list TEXT`, `cell TEXT` and `type TEXT` read and write a list, a cell and the type of a
//! column; - `orphan` begins with no parents, `parent SCHEMA MODEL BYTES` adds one with a fingerprint, and `node
//! TEXT` is the text of a definition with its parents; - `digest TEXT` is the fingerprint of a text in hexadecimal
//! digits.
//!
//! Seeds, declarations of sources, and what lies outside: - `columns NAME TYPE ..` declares the columns of the seeds
//! from then on, and `front TEXT` stands in front of each file; - `seed TEXT` and `sources TEXT` read a file: a seed
//! is its columns and its rows, sources are their columns, `(time)` behind a time column. `seed-size TEXT` and
//! `sources-size TEXT` count them. A fault is its record and its field, or what is too large; - `fails N ..` are the
//! calls, counted from 0, that are to fail of the object that is made next; - `file PATH BYTES` is a file of the
//! folder that is made next, and `folder`, `clock MOMENT`, `source BYTES` and `sink` make an object in memory. `write
//! PATH BYTES`, `delete PATH` and `refail` change the folder: its bytes, and the calls that are to fail from then on;
//! - `list DIR`, `read MOST PATH`, `now`, `take MOST`, `put BYTES` and `written` ask the objects in memory. The
//! answer has how many faults the object has counted; - `host-list DIR`, `host-read MOST PATH`, `host-take MOST` and
//! `host-put BYTES` ask the folder of the host that the program runs in, its input and its output; `host-now` is
//! whether its clock is within the years that a moment has.
//!
//! `bench/time.py`, `bench/canon.py` and `bench/text.py` have the program run cases of their own.
#![tactic(auto)]

mod answers;
mod calls;
mod canon;
mod casts;
mod crons;
mod digests;
mod host;
mod memory;
mod near;
mod parts;
mod ranges;
mod seeds;
mod sources;
mod times;
mod values;

use crate::host::Host;
use crate::memory::Inside;
use crate::seeds::Files;
use crate::values::Values;
use mesh_cases::{Pen, Trouble, cases_of, file_of, filled, front_word};
use mesh_io::DirFolder;
use std::alloc::Global;

/// The files of cases of values.
const VALUES: [&[u8]; 5] = [b"times", b"casts", b"ranges", b"canon", b"digests"];

/// The files of the other cases.
const FILES: [&[u8]; 3] = [b"seeds", b"sources", b"outside"];

/// What the lines act on.
#[derive(Drop)]
struct Stage<'a> {
    alloc: Global,
    files: Files,
    inside: Inside,
    host: Host<'a>,
}

impl Stage<'_> {
    /// Makes the call of a word.
    fn call(&mut self, word: &[u8], text: &[u8], pen: &mut Pen) -> Result<(), Trouble> {
        if self.files.call(word, text, pen)? || self.inside.call(word, text, pen)? {
            return Ok(());
        }
        if self.host.call(word, text, pen)? {
            return Ok(());
        }
        Err(Trouble::Case)
    }

    /// Makes the call of a line, and adds the line and the answer.
    fn line(&mut self, line: &[u8], pen: &mut Pen) -> Result<(), Trouble> {
        pen.put(line);
        pen.put(b" => ");
        let (word, rest) = front_word(line);
        let text = filled(self.alloc, rest)?;
        self.call(word, text.as_slice(), pen)?;
        pen.put(b"\n");
        Ok(())
    }
}

fn value_lines(
    alloc: Global,
    values: &mut Values,
    file: &[u8],
    pen: &mut Pen,
) -> Result<(), Trouble> {
    for line in &cases_of(alloc, file)? {
        values.line(line, pen)?;
    }
    pen.done()
}

/// Runs the cases of one file of values, and adds what is to be printed.
fn run_values(alloc: Global, file: &[u8], pen: &mut Pen) -> Result<(), Trouble> {
    let mut values = Values::new(alloc);
    value_lines(alloc, &mut values, file, pen)
}

fn other_lines(stage: &mut Stage, file: &[u8], pen: &mut Pen) -> Result<(), Trouble> {
    for line in &cases_of(stage.alloc, file)? {
        stage.line(line, pen)?;
    }
    pen.done()
}

/// Runs the cases of one other file, and adds what is to be printed.
fn run_others(rt: &HostRuntime, file: &[u8], pen: &mut Pen) -> Result<(), Trouble> {
    let alloc = rt.alloc();
    let mut stage = Stage {
        alloc,
        files: Files::new(alloc),
        inside: Inside::new(alloc),
        host: Host::new(rt),
    };
    other_lines(&mut stage, file, pen)
}

fn run_all(rt: &HostRuntime, data: &mut DirFolder, pen: &mut Pen) -> Result<(), Trouble> {
    for name in VALUES {
        let file = file_of(rt.alloc(), data, b"files", name)?;
        run_values(rt.alloc(), file.as_slice(), pen)?;
    }
    for name in FILES {
        let file = file_of(rt.alloc(), data, b"files", name)?;
        run_others(rt, file.as_slice(), pen)?;
    }
    Ok(())
}

/// Adds what each call of the folder `files` answers. What the host's output is given is printed at once.
pub fn run(rt: &HostRuntime, data: &mut DirFolder, report: &mut Vec<u8>) -> Result<(), Trouble> {
    let mut pen = Pen::new(rt.alloc());
    let done = run_all(rt, data, &mut pen);
    report.extend_from_slice(pen.text())?;
    done
}
