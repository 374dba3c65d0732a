//! Each kind of change in a house in memory, what that house answers, what stored queries over stored queries show,
//! and each breach of a well-formed book. What comes of each step is reported, and is compared with the file
//! `expected` beside the cases, whose values were worked out by hand. The files lie in the folder `data/house` of
//! `mesh_answers`.
//!
//! A step is a line, and a line that has nothing or begins with `#` is none. In both files `own WORD TEXT` has WORD
//! call the definition with this canonical text. A reference `S.M/N` has the fingerprint of 32 bytes N, and one
//! `S.M/N.N..` that of these bytes, the last of them in all places behind. All tables have the two columns `day` and
//! `n`, a row is given by the number that it has in both, and is printed by it.
//!
//! The steps of `changes.txt`: - `== TITLE` begins anew with an empty house; - a change is made, by its kind: `moment
//! T`, `load NAME keep|new ROW..`, `put_snapshot REF OWN RANK OBJECT EXPIRES parents REF..`, `make_table OBJECT`,
//! `make_view OBJECT OWN MODEL=OBJECT..`, `replace_rows OBJECT ROW..`, `write_range OBJECT COLUMN START END ROW..`,
//! `record_range OBJECT START END`, `record_marks OBJECT MARK..`, `set_pending ENV EXPIRES|none list REF..`,
//! `point_view VIEW OBJECT`, `forget_units` with items that are an OBJECT, for its marks, or `OBJECT:START:END`,
//! `migrate REF=N..`, where the fingerprint gets the bytes N, or `N.N..` as in a reference, and `drop_view`,
//! `finalize`, `expire`, `forget_version`, `drop_object`, `delete_snapshot` and `delete_env` with what they are of.
//! The world is printed as the house has it after the change. Where the world's own step makes another one of it, a
//! complaint follows; - `also CHANGE` keeps a change for `make_all`, which makes a copy of those kept, one after
//! another, and prints the world; `count_all` makes those kept themselves, and prints how many snapshots the book has
//! and how many spans; - `alike` prints whether the changes kept all forget the same or all go by the same map, and
//! makes none of them; - `version N` has the book go on with that version, and `fingerprints` prints its version, and
//! the fingerprints of its snapshots, of their parents and in the lists of its environments; - `fail change N
//! before`, `fail change N after` and `fail read N` have one call of the next ones fail, counted from 0; - `head
//! NAME`, `body NAME`, `view NAME` and `book` print what the house answers, and `counts` how many changes it was
//! given and how many calls failed; - `chain N OWN MODEL OBJECT` makes N stored queries of one definition, `q0000`,
//! `q0001` and so on in the object's schema, and prints nothing: the first has the object as that model's, and each
//! other one the query before it; - `rows OBJECT`, `show VIEW` and `ask ENV OWN`, with a definition whose query it
//! is, print what is shown there: the numbers of the rows, what dangles, or that a read failed.
//!
//! The steps of `books.txt`: - `line LINE` adds a line to the good book: `moment T VERSION`, where the new version
//! may be left out, `snapshot ..` with the words of `put_snapshot`, `version OBJECT`, or `environment ENV list REF..
//! previous REF..`; - `with N LINE` has a line, counted from 1, stand in place of the good book's; - `fault TITLE`
//! prints the first breach of the book with these lines, by its part and place, and goes back to the good one. Where
//! a copy of the book isn't equal to it, a complaint follows; - `columns_of OWN` prints a definition with its columns
//! in place of its query, and `sort_rows OWN` a seed with its rows sorted.
//!
//! `bench/house.py` has the program run cases of its own.
#![tactic(auto)]

mod books;
mod changes;
mod house;
mod line;
mod owns;
mod shown;
mod written;

pub use books::{Titled, books_of};
use mesh_cases::{Pen, Trouble, file_of};
use mesh_io::DirFolder;
use std::alloc::Global;

fn files(alloc: Global, data: &mut DirFolder, pen: &mut Pen) -> Result<(), Trouble> {
    let changes = file_of(alloc, data, b"house", b"changes.txt")?;
    house::run(alloc, changes.as_slice(), pen)?;
    let books = file_of(alloc, data, b"house", b"books.txt")?;
    books::run(alloc, books.as_slice(), pen)
}

/// Adds what comes of each step of the folder `house`.
pub fn run(alloc: Global, data: &mut DirFolder, report: &mut Vec<u8>) -> Result<(), Trouble> {
    let mut pen = Pen::new(alloc);
    let done = files(alloc, data, &mut pen);
    report.extend_from_slice(pen.text())?;
    done
}
