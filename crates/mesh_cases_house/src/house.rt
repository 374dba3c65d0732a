// Changes that are made in a house in memory, and what it answers.
use crate::changes::change;
use crate::line::{Line, Named, Owns};
use crate::owns::add_own;
use crate::shown::{make_chain, put_question};
use crate::written::{
    put_body, put_book, put_columns, put_counts, put_fingerprints, put_name, put_world,
};
use mesh_cases::{Pen, Trouble, cases_of, front_word};
use mesh_house::{Change, Changes, Fail, MemHouse, Warehouse, WhFail, World, make, make_all};
use mesh_house_book::Book;
use mesh_list::{Duplicate, Memory, Same, Seq};
use std::alloc::Global;
use std::mem::replace;

/// A house, and the changes that are to be made together.
#[derive(Drop)]
struct Stage {
    house: MemHouse,
    list: Changes,
}

/// A copy of the world, after a change.
fn stepped(alloc: Global, world: &World, change: &Change) -> Result<World, Memory> {
    let mut twin = world.copy()?;
    match twin.step(alloc, change) {
        Ok(()) => Ok(twin),
        Err(memory) => {
            drop(twin);
            Err(memory)
        }
    }
}

/// Whether both forget the same, or go by the same map.
fn is_alike(first: &Change, other: &Change) -> bool {
    match first {
        Change::ForgetUnits { list } => match other {
            Change::ForgetUnits { list: others } => list.same(others),
            _ => false,
        },
        Change::Migrate { map } => match other {
            Change::Migrate { map: others } => map.same(others),
            _ => false,
        },
        _ => false,
    }
}

fn are_alike(list: &[Change]) -> bool {
    match list {
        [] => true,
        [first, rest @ ..] => {
            for other in rest {
                if !is_alike(first, other) {
                    return false;
                }
            }
            true
        }
    }
}

fn put_fail(pen: &mut Pen, fail: WhFail) {
    match fail {
        WhFail::Failed => pen.word(b"failed"),
        WhFail::Memory => pen.lose(),
    }
}

/// Adds the world behind what a change was answered.
fn put_after(pen: &mut Pen, answer: Result<(), WhFail>, world: &World) {
    match answer {
        Ok(()) => {}
        Err(WhFail::Failed) => pen.put(b"failed: "),
        Err(WhFail::Memory) => pen.lose(),
    }
    put_world(pen, world);
}

/// Adds what is wrong, where something is.
fn put_unless(pen: &mut Pen, right: bool, wrong: &[u8]) {
    if !right {
        pen.word(wrong);
    }
}

/// Makes a change in the house, whose world is then to be this one.
fn make_beside(alloc: Global, house: &mut MemHouse, pen: &mut Pen, change: &Change, twin: &World) {
    let answer = make(house, alloc, change);
    let same = answer.is_err() || twin.same(house.world());
    put_after(pen, answer, house.world());
    put_unless(pen, same, b"unlike its step");
}

/// Makes a change in the house, and by its step in a copy of the world that it keeps.
fn make_change(alloc: Global, house: &mut MemHouse, pen: &mut Pen, change: &Change) {
    let stepped = stepped(alloc, house.world(), change);
    match stepped {
        Ok(twin) => make_beside(alloc, house, pen, change, &twin),
        Err(Memory) => pen.lose(),
    }
}

fn make_line(
    house: &mut MemHouse,
    pen: &mut Pen,
    line: &Line,
    owns: &[Named],
) -> Result<(), Trouble> {
    match change(line, owns) {
        Ok(change) => {
            make_change(line.alloc(), house, pen, &change);
            Ok(())
        }
        Err(trouble) => Err(trouble),
    }
}

/// Makes changes by one call, and tells what there is then.
fn make_listed(alloc: Global, house: &mut MemHouse, pen: &mut Pen, list: &[Change]) {
    let answer = make_all(house, alloc, list);
    put_after(pen, answer, house.world());
}

/// Makes changes themselves, and tells only what the book has then.
fn make_counted(
    alloc: Global,
    house: &mut MemHouse,
    pen: &mut Pen,
    list: &[Change],
) -> Result<(), Trouble> {
    match make_all(house, alloc, list) {
        Ok(()) => {
            put_counts(pen, &house.world().book);
            Ok(())
        }
        Err(_) => Err(Trouble::Case),
    }
}

fn put_head(house: &mut MemHouse, pen: &mut Pen, line: &Line) -> Result<(), Trouble> {
    let name = line.name(1)?;
    match house.head(line.alloc(), &name) {
        Ok(Some(columns)) => put_columns(pen, &columns),
        Ok(None) => pen.word(b"none"),
        Err(fail) => put_fail(pen, fail),
    }
    Ok(())
}

fn put_body_of(house: &mut MemHouse, pen: &mut Pen, line: &Line) -> Result<(), Trouble> {
    let name = line.name(1)?;
    match house.body(line.alloc(), &name) {
        Ok(Some(body)) => put_body(pen, &body),
        Ok(None) => pen.word(b"none"),
        Err(fail) => put_fail(pen, fail),
    }
    Ok(())
}

fn put_view(house: &mut MemHouse, pen: &mut Pen, line: &Line) -> Result<(), Trouble> {
    let name = line.name(1)?;
    match house.view(line.alloc(), &name) {
        Ok(Some(target)) => put_name(pen, &target),
        Ok(None) => pen.word(b"none"),
        Err(fail) => put_fail(pen, fail),
    }
    Ok(())
}

/// Adds a book that was read beside the world's.
fn put_found(pen: &mut Pen, found: &Book, kept: &Book) {
    pen.put(b" ");
    pen.number(found.moment);
    put_book(pen, found);
    put_unless(pen, found.same(kept), b"unlike the world's");
}

fn put_book_of(alloc: Global, house: &mut MemHouse, pen: &mut Pen) {
    match house.book(alloc) {
        Ok(book) => put_found(pen, &book, &house.world().book),
        Err(fail) => put_fail(pen, fail),
    }
}

fn put_calls(house: &MemHouse, pen: &mut Pen) {
    pen.put(b" ");
    pen.count(house.calls());
    pen.put(b" ");
    pen.count(house.faults());
}

/// Adds what the house answers to a line that asks it. Whether it is such a line.
fn asks(house: &mut MemHouse, pen: &mut Pen, line: &Line) -> Result<bool, Trouble> {
    let word = line.word(0);
    if word == b"head".as_slice() {
        pen.put(word);
        put_head(house, pen, line)?;
    } else if word == b"body".as_slice() {
        pen.put(word);
        put_body_of(house, pen, line)?;
    } else if word == b"view".as_slice() {
        pen.put(word);
        put_view(house, pen, line)?;
    } else {
        return Ok(counts(house, pen, line));
    }
    Ok(true)
}

/// The same for a line that asks for the book or for counts.
fn counts(house: &mut MemHouse, pen: &mut Pen, line: &Line) -> bool {
    let word = line.word(0);
    if word == b"book".as_slice() {
        pen.put(word);
        put_book_of(line.alloc(), house, pen);
    } else if word == b"counts".as_slice() {
        pen.put(word);
        put_calls(house, pen);
    } else if word == b"fingerprints".as_slice() {
        pen.put(b"version");
        put_fingerprints(pen, &house.world().book);
    } else {
        return false;
    }
    true
}

impl Stage {
    /// The changes that are kept, of which none is kept any more.
    fn taken(&mut self, alloc: Global) -> Changes {
        replace(&mut self.list, Seq::new(alloc))
    }

    /// Makes the changes that are kept, or tells of them, where a line says so. Whether it does.
    fn together(&mut self, pen: &mut Pen, line: &Line) -> Result<bool, Trouble> {
        if line.is(0, b"make_all") {
            let list = self.taken(line.alloc());
            make_listed(line.alloc(), &mut self.house, pen, list.as_slice());
        } else if line.is(0, b"count_all") {
            let list = self.taken(line.alloc());
            make_counted(line.alloc(), &mut self.house, pen, list.as_slice())?;
        } else if line.is(0, b"alike") {
            let list = self.taken(line.alloc());
            pen.put(if are_alike(list.as_slice()) {
                b"alike"
            } else {
                b"other"
            });
        } else {
            return Ok(false);
        }
        Ok(true)
    }

    /// A step that prints a line.
    fn shown(&mut self, pen: &mut Pen, line: &Line, owns: &[Named]) -> Result<(), Trouble> {
        if !self.together(pen, line)?
            && !put_question(&mut self.house, pen, line, owns)?
            && !asks(&mut self.house, pen, line)?
        {
            make_line(&mut self.house, pen, line, owns)?;
        }
        pen.put(b"\n");
        Ok(())
    }

    /// Goes on with an empty house.
    fn begin(&mut self, alloc: Global, pen: &mut Pen, title: &[u8]) {
        drop(replace(&mut self.house, MemHouse::new(alloc)));
        pen.put(title);
        pen.put(b"\n");
    }

    /// Goes on with a book of this version.
    fn set_version(&mut self, alloc: Global, version: u32) -> Result<(), Memory> {
        let mut world = self.house.world().copy()?;
        world.book.version = version;
        let house = MemHouse::with(world, Seq::new(alloc));
        drop(replace(&mut self.house, house));
        Ok(())
    }

    fn fail(&mut self, line: &Line) -> Result<(), Trouble> {
        let call = u64::from(line.rank(2)?);
        let mut fails = Seq::new(line.alloc());
        fails.push(Fail {
            change: line.is(1, b"change"),
            call,
            after: line.is(3, b"after"),
        })?;
        self.house.set_fails(fails.copy()?);
        Ok(())
    }

    /// Keeps a change.
    fn keep(&mut self, line: &Line, owns: &[Named]) -> Result<(), Trouble> {
        match change(line, owns) {
            Ok(change) => Ok(self.list.push(change)?),
            Err(trouble) => Err(trouble),
        }
    }

    /// A step that no definition is added by.
    fn told(&mut self, pen: &mut Pen, line: &Line, owns: &[Named]) -> Result<(), Trouble> {
        if line.is(0, b"fail") {
            self.fail(line)
        } else if line.is(0, b"chain") {
            make_chain(&mut self.house, line, owns)
        } else if line.is(0, b"version") {
            Ok(self.set_version(line.alloc(), line.rank(1)?)?)
        } else {
            self.shown(pen, line, owns)
        }
    }

    fn step(
        &mut self,
        alloc: Global,
        owns: &mut Owns,
        pen: &mut Pen,
        text: &[u8],
    ) -> Result<(), Trouble> {
        let (word, rest) = front_word(text);
        if word == b"==".as_slice() {
            self.begin(alloc, pen, text);
            Ok(())
        } else if word == b"own".as_slice() {
            add_own(alloc, owns, rest)
        } else if word == b"also".as_slice() {
            self.keep(&Line::of(alloc, rest), owns)
        } else {
            self.told(pen, &Line::of(alloc, text), owns)
        }
    }
}

fn steps(
    alloc: Global,
    stage: &mut Stage,
    owns: &mut Owns,
    pen: &mut Pen,
    file: &[u8],
) -> Result<(), Trouble> {
    for text in &cases_of(alloc, file)? {
        stage.step(alloc, owns, pen, text)?;
    }
    pen.done()
}

/// Adds what comes of each step of a file.
pub fn run(alloc: Global, file: &[u8], pen: &mut Pen) -> Result<(), Trouble> {
    let mut owns = Vec::new(alloc);
    let mut stage = Stage {
        house: MemHouse::new(alloc),
        list: Seq::new(alloc),
    };
    steps(alloc, &mut stage, &mut owns, pen, file)
}
