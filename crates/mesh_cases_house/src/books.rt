// Books by their lines, and the breaches of a well-formed one.
use crate::changes::snapshot;
use crate::line::{Line, Named, Owns, pair, pushed};
use crate::owns::{add_own, put_columns_of, put_sorted};
use mesh_base::{Env, Snapshot};
use mesh_base_values::Str;
use mesh_cases::{Pen, Trouble, cases_of, front_word};
use mesh_house_book::{BOOK_VERSION, Book, Version, book_fault};
use mesh_list::{Duplicate, Memory, Register, Same, Seq};
use mesh_time::Ranges;
use std::alloc::Global;

/// The parts of a book.
#[derive(Drop)]
struct Parts {
    version: u32,
    moment: i64,
    snapshots: Seq<Snapshot>,
    versions: Seq<Version>,
    environments: Seq<Env>,
}

fn version(line: &Line) -> Result<Version, Trouble> {
    Ok(Version {
        object: line.name(1)?,
        made: false,
        ranges: Ranges::new(line.alloc()),
        marks: None,
    })
}

fn environment(line: &Line) -> Result<Env, Trouble> {
    let (name, (list, previous)) = pair(
        line.text(1),
        pair(line.refs(b"list"), line.refs(b"previous")),
    )?;
    Ok(Env {
        name,
        pending: false,
        list,
        previous,
        expires: None,
    })
}

impl Parts {
    fn new(alloc: Global) -> Parts {
        Parts {
            version: BOOK_VERSION,
            moment: 0,
            snapshots: Seq::new(alloc),
            versions: Seq::new(alloc),
            environments: Seq::new(alloc),
        }
    }

    fn set_moment(&mut self, line: &Line) -> Result<(), Trouble> {
        self.moment = line.number(1)?;
        if !line.word(2).is_empty() {
            self.version = line.rank(2)?;
        }
        Ok(())
    }

    fn add(&mut self, line: &Line, owns: &[Named]) -> Result<(), Trouble> {
        if line.is(0, b"moment") {
            self.set_moment(line)
        } else if line.is(0, b"snapshot") {
            pushed(&mut self.snapshots, snapshot(line, owns))
        } else if line.is(0, b"version") {
            pushed(&mut self.versions, version(line))
        } else if line.is(0, b"environment") {
            pushed(&mut self.environments, environment(line))
        } else {
            Err(Trouble::Case)
        }
    }

    fn add_all(&mut self, alloc: Global, lines: &[&[u8]], owns: &[Named]) -> Result<(), Trouble> {
        for text in lines {
            self.add(&Line::of(alloc, text), owns)?;
        }
        Ok(())
    }
}

fn book_of(parts: Parts) -> Book {
    let Parts {
        version,
        moment,
        snapshots,
        versions,
        environments,
    } = parts;
    Book {
        version,
        moment,
        snapshots: Register::from_vec(snapshots.into_vec()),
        versions: Register::from_vec(versions.into_vec()),
        environments: Register::from_vec(environments.into_vec()),
    }
}

fn book(alloc: Global, lines: &[&[u8]], owns: &[Named]) -> Result<Book, Trouble> {
    let mut parts = Parts::new(alloc);
    match parts.add_all(alloc, lines, owns) {
        Ok(()) => Ok(book_of(parts)),
        Err(trouble) => {
            drop(parts);
            Err(trouble)
        }
    }
}

fn is_copied(book: &Book) -> Result<bool, Memory> {
    match book.copy() {
        Ok(copied) => Ok(copied.same(book)),
        Err(memory) => Err(memory),
    }
}

fn put_copied(pen: &mut Pen, book: &Book) {
    match is_copied(book) {
        Ok(copied) => pen.put_if(!copied, b", unlike its copy"),
        Err(Memory) => pen.lose(),
    }
}

fn put_fault(pen: &mut Pen, book: &Book) {
    match book_fault(book) {
        Some(fault) => {
            pen.put(b"part ");
            pen.count(u64::from(fault.part));
            pen.put(b" place ");
            pen.count(fault.place);
        }
        None => pen.put(b"well formed"),
    }
}

/// The book of a step `fault`, and the step's title.
#[derive(Drop)]
pub struct Titled {
    pub title: Str,
    pub book: Book,
}

/// The lines of a good book, the same with those that are changed, and the books of the steps `fault` so far.
#[derive(Drop)]
struct Stage<'a> {
    good: Vec<&'a [u8]>,
    now: Vec<&'a [u8]>,
    books: Vec<Titled>,
}

impl<'a> Stage<'a> {
    fn with(&mut self, alloc: Global, rest: &'a [u8]) -> Result<(), Trouble> {
        let (place, text) = front_word(rest);
        let at = Line::of(alloc, place).rank(0)?;
        match self.now.get_mut((at as usize).wrapping_sub(1)) {
            Some(line) => {
                *line = text;
                Ok(())
            }
            None => Err(Trouble::Case),
        }
    }

    /// Adds the first breach of the book that the lines are of, and keeps the book.
    fn fault(&mut self, pen: &mut Pen, owns: &[Named], title: &[u8]) -> Result<(), Trouble> {
        let alloc = pen.alloc();
        let title = u8::copy_items(alloc, title)?;
        match book(alloc, self.now.as_slice(), owns) {
            Ok(book) => {
                put_fault(pen, &book);
                put_copied(pen, &book);
                self.books.push(Titled { title, book })?;
            }
            Err(trouble) => {
                drop(title);
                return Err(trouble);
            }
        }
        self.now = Vec::from_slice(alloc, self.good.as_slice())?;
        Ok(())
    }

    /// A step that prints a line.
    fn shown(
        &mut self,
        pen: &mut Pen,
        line: &Line,
        owns: &[Named],
        text: &[u8],
    ) -> Result<(), Trouble> {
        if line.is(0, b"fault") {
            let (_, title) = front_word(text);
            self.fault(pen, owns, title)
        } else if line.is(0, b"columns_of") {
            put_columns_of(pen, line.own(owns, 1)?);
            Ok(())
        } else if line.is(0, b"sort_rows") {
            put_sorted(pen, line.own(owns, 1)?)
        } else {
            Err(Trouble::Case)
        }
    }

    fn told(
        &mut self,
        alloc: Global,
        pen: &mut Pen,
        owns: &[Named],
        text: &[u8],
    ) -> Result<(), Trouble> {
        pen.put(text);
        pen.put(b": ");
        self.shown(pen, &Line::of(alloc, text), owns, text)?;
        pen.put(b"\n");
        Ok(())
    }

    fn line(&mut self, text: &'a [u8]) -> Result<(), Trouble> {
        self.good.push(text)?;
        Ok(self.now.push(text)?)
    }

    fn step(
        &mut self,
        alloc: Global,
        owns: &mut Owns,
        pen: &mut Pen,
        text: &'a [u8],
    ) -> Result<(), Trouble> {
        let (word, rest) = front_word(text);
        if word == b"own".as_slice() {
            add_own(alloc, owns, rest)
        } else if word == b"line".as_slice() {
            self.line(rest)
        } else if word == b"with".as_slice() {
            self.with(alloc, rest)
        } else {
            self.told(alloc, pen, owns, text)
        }
    }
}

fn steps<'a>(
    alloc: Global,
    stage: &mut Stage<'a>,
    owns: &mut Owns,
    pen: &mut Pen,
    file: &'a [u8],
) -> Result<(), Trouble> {
    for text in &cases_of(alloc, file)? {
        stage.step(alloc, owns, pen, text)?;
    }
    pen.done()
}

fn make_stage<'a>(alloc: Global) -> Stage<'a> {
    Stage {
        good: Vec::new(alloc),
        now: Vec::new(alloc),
        books: Vec::new(alloc),
    }
}

/// Adds what comes of each step of a file.
pub fn run(alloc: Global, file: &[u8], pen: &mut Pen) -> Result<(), Trouble> {
    pen.put(b"== well-formed books, and the rules that they stand on\n");
    let mut owns = Vec::new(alloc);
    let mut stage = make_stage(alloc);
    steps(alloc, &mut stage, &mut owns, pen, file)
}

/// The books of the steps `fault` of a file.
pub fn books_of(alloc: Global, file: &[u8]) -> Result<Vec<Titled>, Trouble> {
    let mut pen = Pen::new(alloc);
    let mut owns = Vec::new(alloc);
    let mut stage = make_stage(alloc);
    match steps(alloc, &mut stage, &mut owns, &mut pen, file) {
        Ok(()) => {
            let Stage {
                good: _,
                now: _,
                books,
            } = stage;
            Ok(books)
        }
        Err(trouble) => {
            drop(stage);
            Err(trouble)
        }
    }
}
