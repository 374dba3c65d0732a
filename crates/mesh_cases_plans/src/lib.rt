//! Projects as data: whether they load, what their models read, which aren't steady, which may be evaluated for
//! several units at once, and how they stand to the models of another project. Each line of `data/plans/cases.txt` of
//! `mesh_answers` is a call, but for empty lines and those that begin with `#`; what must be printed stands in the
//! file `expected`, and was worked out by hand. In a line `\n` is a line feed and `{N TEXT}` a text N times, in which
//! `#` is the number of the copy. - `file PATH | TEXT` puts a file into the folder, and `gone PATH` takes one out;
//! `empty` begins with no file; - `sources | FILE` puts the file there that declares the sources; - `model | FILE`
//! puts a further model there, by the text of its file; - `project` begins a project that is compared with the one
//! before it; files that `file` put there stay; - `load DIR` loads the project in a folder, `.` where there is no
//! DIR, and shows how many models it has, or its first fault; - `changed` shows the models that the project before
//! doesn't have with the same fingerprint; - `lattice W H` adds W times H incremental models in H ranks, each over
//! all of the rank below it, which are joined and bound to the unit, and `wider W H` the same with a column more in
//! each; - `reads NAME` shows the columns that a model reads, `joinable NAME` whether several of its units are
//! evaluated at once; - `unsteady` shows the models that aren't steady, each with the least name for which it isn't;
//! - `categories` shows the category of each model, and the models that are gone; - `count` shows how many models of
//! each category there are, and `readings` how many columns all models read.
//!
//! A number behind one of the last four makes it be asked so often, of one project. `read DIR` is `load DIR` of a
//! folder that lies where the program runs.
//!
//! `bench/plan.py` and `bench/project.py` have the program run cases of their own.
#![tactic(auto)]

mod lattice;
mod loads;
mod shown;
mod stage;

use crate::stage::Stage;
use mesh_cases::{Pen, Trouble, cases_of, file_of};
use mesh_io::DirFolder;
use std::alloc::Global;

fn cases(
    alloc: Global,
    data: &mut DirFolder,
    stage: &mut Stage,
    pen: &mut Pen,
) -> Result<(), Trouble> {
    let file = file_of(alloc, data, b"plans", b"cases.txt")?;
    for line in &cases_of(alloc, file.as_slice())? {
        stage.line(alloc, data, line, pen)?;
    }
    pen.done()
}

/// Adds what each call of the folder `plans` answers.
pub fn run(alloc: Global, data: &mut DirFolder, report: &mut Vec<u8>) -> Result<(), Trouble> {
    let mut stage = Stage::new(alloc);
    let mut pen = Pen::new(alloc);
    let done = cases(alloc, data, &mut stage, &mut pen);
    report.extend_from_slice(pen.text())?;
    done
}
