// A command over a warehouse that has one book after another.
use crate::report::{put, put_outcome};
use crate::stage::Stage;
use crate::trouble::Trouble;
use mesh_base_values::Str;
use mesh_cases_house::{Titled, books_of};
use mesh_house::World;
use mesh_house_book::Book;
use mesh_list::{Duplicate, Memory};
use std::alloc::Global;
use std::mem::replace;
use std::thread::Threads;

/// A world that has this book and nothing else.
fn world_with(alloc: Global, book: &Book) -> Result<World, Memory> {
    let book = book.copy()?;
    let mut world = World::new(alloc);
    drop(replace(&mut world.book, book));
    Ok(world)
}

fn put_over<R: Threads + Sync>(
    rt: &R,
    stage: &mut Stage,
    titled: &Titled,
    words: &[Str],
    report: &mut Vec<u8>,
) -> Result<(), Trouble> {
    let world = world_with(stage.alloc, &titled.book)?;
    stage.restore(world);
    let outcome = stage.run(rt, words)?;
    put(report, titled.title.as_slice())?;
    put(report, b": ")?;
    put_outcome(stage.alloc, report, &outcome)
}

/// Runs a command over each book, and adds the book's title and what came of the command.
pub fn put_books<R: Threads + Sync>(
    rt: &R,
    stage: &mut Stage,
    words: &[Str],
    report: &mut Vec<u8>,
) -> Result<(), Trouble> {
    let books = books_of(stage.alloc, stage.books.as_slice())?;
    for titled in &books {
        put_over(rt, stage, titled, words, report)?;
    }
    stage.empty();
    Ok(())
}
