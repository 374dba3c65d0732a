// Stored queries over one another, and what a house shows.
use crate::line::{Line, Named, columns, pair};
use crate::written::{put_name, put_rows};
use mesh_base::{Defn, Own, Query};
use mesh_base_values::{Name, Pair, Pairs, Rows};
use mesh_cases::{Pen, Trouble};
use mesh_house::{Change, MemHouse, make};
use mesh_layer::{ShowFault, ask, object_rows, show};
use mesh_list::{Duplicate, Seq, together};
use std::alloc::Global;

fn target(alloc: Global, first: Name, second: Name) -> Result<Pairs, Trouble> {
    let mut targets = Seq::new(alloc);
    targets.push(Pair { first, second })?;
    Ok(targets)
}

/// The stored query of that name of a chain, over what is below it.
fn linked(line: &Line, owns: &[Named], object: Name, below: Name) -> Result<Change, Trouble> {
    let alloc = line.alloc();
    let (columns, own) = pair(columns(alloc), line.own(owns, 2))?;
    let own = own.copy()?;
    let model = line.name(3)?;
    let targets = target(alloc, model, below)?;
    Ok(Change::MakeView {
        object,
        columns,
        own,
        targets,
    })
}

/// The name of the stored query of that number of a chain, in the schema of what is below it.
fn numbered(alloc: Global, below: &Name, number: u32) -> Result<Name, Trouble> {
    let model = format!(in alloc; "q{number:04}")?;
    let (schema, model) = together(below.schema.copy(), u8::copy_items(alloc, model.as_bytes()))?;
    Ok(Name { schema, model })
}

/// Makes the stored query of that number of a chain, and answers its name.
fn link(
    house: &mut MemHouse,
    line: &Line,
    owns: &[Named],
    number: u32,
    below: Name,
) -> Result<Name, Trouble> {
    let alloc = line.alloc();
    let object = numbered(alloc, &below, number)?;
    let change = linked(line, owns, object.copy()?, below)?;
    match make(house, alloc, &change) {
        Ok(()) => Ok(object),
        Err(_) => Err(Trouble::Case),
    }
}

/// Makes so many stored queries of one definition, the first over an object and each other one over the one before it.
pub fn make_chain(house: &mut MemHouse, line: &Line, owns: &[Named]) -> Result<(), Trouble> {
    let count = line.rank(1)?;
    let mut below = line.name(4)?;
    for number in 0..count {
        below = link(house, line, owns, number, below)?;
    }
    Ok(())
}

/// Adds the rows that are shown, what dangles, or that a read failed.
fn put_shown(pen: &mut Pen, answer: Result<Option<Rows>, ShowFault>) {
    match answer {
        Ok(Some(rows)) => put_rows(pen, &rows),
        Ok(None) => pen.word(b"none"),
        Err(ShowFault::Dangling { object }) => {
            pen.word(b"dangling");
            put_name(pen, &object);
        }
        Err(ShowFault::Warehouse) => pen.word(b"failed"),
        Err(ShowFault::Memory) => pen.lose(),
    }
}

/// The query of a definition that has one.
fn query(own: &Own) -> Result<&Query, Trouble> {
    match &own.defn {
        Defn::Sql(query) => Ok(query),
        Defn::Seed { .. } => Err(Trouble::Case),
    }
}

/// Adds the rows of a definition's query over the views of an environment.
fn put_asked(
    house: &mut MemHouse,
    pen: &mut Pen,
    line: &Line,
    owns: &[Named],
) -> Result<(), Trouble> {
    let query = query(line.own(owns, 2)?)?;
    let env = line.text(1)?;
    let book = house.world().book.copy()?;
    let rows = ask(line.alloc(), house, &book, &env, query);
    put_shown(pen, rows.map(|rows| Some(rows)));
    Ok(())
}

fn put_object(house: &mut MemHouse, pen: &mut Pen, line: &Line) -> Result<(), Trouble> {
    let name = line.name(1)?;
    let rows = object_rows(line.alloc(), house, &name);
    put_shown(pen, rows.map(|rows| Some(rows)));
    Ok(())
}

fn put_behind(house: &mut MemHouse, pen: &mut Pen, line: &Line) -> Result<(), Trouble> {
    let name = line.name(1)?;
    let rows = show(line.alloc(), house, &name);
    put_shown(pen, rows);
    Ok(())
}

/// Adds what a house shows to a line that asks for it. Whether it is such a line.
pub fn put_question(
    house: &mut MemHouse,
    pen: &mut Pen,
    line: &Line,
    owns: &[Named],
) -> Result<bool, Trouble> {
    let word = line.word(0);
    if word == b"rows".as_slice() {
        pen.put(word);
        put_object(house, pen, line)?;
    } else if word == b"show".as_slice() {
        pen.put(word);
        put_behind(house, pen, line)?;
    } else if word == b"ask".as_slice() {
        pen.put(word);
        put_asked(house, pen, line, owns)?;
    } else {
        return Ok(false);
    }
    Ok(true)
}
