// The steps that change what the next commands run on.
use crate::report::put_name;
use crate::stage::{Call, Stage};
use crate::trouble::Trouble;
use mesh_base::{Ref, Refs, Snapshot, Snapshots};
use mesh_base_values::{Name, Str, Unit, same_text};
use mesh_house::{Change, Warehouse, World};
use mesh_list::{Duplicate, Memory, Register, Seq, both, push_made};
use mesh_time_days::moment_of;
use std::alloc::Global;
use std::mem::replace;

/// The number that a word is.
pub fn number_of(word: &[u8]) -> Result<u64, Trouble> {
    let Ok(text) = std::str::from_utf8(word) else {
        return Err(Trouble::Script);
    };
    text.parse::<u64>().map_err(|_| Trouble::Script)
}

/// The first bytes of a text.
fn front(alloc: Global, bytes: &Str, length: u64) -> Result<Str, Trouble> {
    let mut made = Vec::new(alloc);
    for (byte, _) in bytes.as_slice().iter().zip(0..length) {
        made.push(*byte)?;
    }
    Ok(Seq::from_vec(made))
}

/// A text and line feeds behind it, so many bytes in all.
fn padded(alloc: Global, bytes: &Str, length: u64) -> Result<Str, Trouble> {
    let mut made = Vec::from_slice(alloc, bytes.as_slice())?;
    for _ in bytes.len() as u64..length {
        made.push(b'\n')?;
    }
    Ok(Seq::from_vec(made))
}

/// Gives so many model files the same bytes.
fn copies(stage: &mut Stage, number: u64, bytes: &Str) -> Result<(), Trouble> {
    for i in 0..number {
        let path = format!(in stage.alloc; "models/{i}.sql")?;
        let path = u8::copy_items(stage.alloc, path.as_bytes())?;
        stage.write(path, bytes.copy()?)?;
    }
    Ok(())
}

/// Whether a word is this one.
pub fn is(word: &Str, text: &[u8]) -> bool {
    same_text(word.as_slice(), text)
}

/// A call of the warehouse.
fn house_call(word: &Str) -> Option<Call> {
    if is(word, b"before") {
        Some(Call::Before)
    } else if is(word, b"after") {
        Some(Call::After)
    } else if is(word, b"house") {
        Some(Call::House)
    } else {
        None
    }
}

/// A call of something else that lies outside.
fn other_call(word: &Str) -> Option<Call> {
    if is(word, b"folder") {
        Some(Call::Folder)
    } else if is(word, b"clock") {
        Some(Call::Clock)
    } else if is(word, b"input") {
        Some(Call::Input)
    } else if is(word, b"out") {
        Some(Call::Out)
    } else if is(word, b"err") {
        Some(Call::Err)
    } else {
        None
    }
}

fn call_of(word: &Str) -> Result<Call, Trouble> {
    house_call(word).or(other_call(word)).ok_or(Trouble::Script)
}

/// The call that a word names.
pub fn failing(kind: &Str, number: u64) -> Result<Option<(Call, u64)>, Trouble> {
    Ok(Some((call_of(kind)?, number)))
}

fn other_unit(unit: Unit) -> Unit {
    match unit {
        Unit::Hour => Unit::Day,
        Unit::Day => Unit::Hour,
    }
}

/// A reference to the same model, with a fingerprint that no snapshot has.
fn stray(parent: &Ref) -> Result<Ref, Memory> {
    let name = parent.name.copy()?;
    Ok(Ref {
        name,
        fingerprint: [0; 32],
    })
}

fn strays(alloc: Global, parents: &[Ref]) -> Result<Refs, Memory> {
    let mut refs = Seq::new(alloc);
    for parent in parents {
        push_made(&mut refs, stray(parent))?;
    }
    Ok(refs)
}

/// How the first snapshot becomes another one.
#[derive(Drop)]
enum Turn {
    Definition,
    Parents(Refs),
    Over,
}

fn turned(snapshot: &mut Snapshot, how: Turn) {
    match how {
        Turn::Definition => snapshot.own.unit = other_unit(snapshot.own.unit),
        Turn::Parents(refs) => drop(replace(&mut snapshot.parents, refs)),
        Turn::Over => snapshot.expires = 0,
    }
}

/// The first snapshot becomes another one, where there is one.
fn turn_first(alloc: Global, world: &mut World, how: Turn) {
    let none = Register::from_vec(Vec::new(alloc));
    let mut all = replace(&mut world.book.snapshots, none).into_vec();
    match all.first_mut() {
        Some(first) => turned(first, how),
        None => drop(how),
    }
    drop(replace(&mut world.book.snapshots, Register::from_vec(all)));
}

/// The first snapshot has parents that aren't there.
fn lose_parents(alloc: Global, world: &mut World) -> Result<(), Memory> {
    let refs = match world.book.snapshots.as_slice().first() {
        Some(first) => strays(alloc, first.parents.as_slice())?,
        None => Seq::new(alloc),
    };
    turn_first(alloc, world, Turn::Parents(refs));
    Ok(())
}

/// A copy of a snapshot with another table and the fingerprint of a number.
fn standin(snapshot: &Snapshot, table: &Str, number: u8) -> Result<Snapshot, Memory> {
    let table = table.copy()?;
    let mut copy = snapshot.copy()?;
    copy.fingerprint = [number; 32];
    drop(replace(&mut copy.object.model, table));
    Ok(copy)
}

fn standins(alloc: Global, snapshot: &Snapshot, tables: &[Str]) -> Result<Snapshots, Memory> {
    let mut made = Seq::new(alloc);
    for (table, number) in tables.iter().zip(1..255u8) {
        push_made(&mut made, standin(snapshot, table, number))?;
    }
    Ok(Register::from_vec(made.into_vec()))
}

/// The snapshots are copies of the first one alone, each with one of these tables and a fingerprint whose bytes are
/// all its number, from 1 on; and there is no environment.
fn stand_in(alloc: Global, world: &mut World, tables: &[Str]) -> Result<(), Trouble> {
    let Some(first) = world.book.snapshots.as_slice().first() else {
        return Err(Trouble::Script);
    };
    let made = standins(alloc, first, tables)?;
    drop(replace(&mut world.book.snapshots, made));
    let none = Register::from_vec(Vec::new(alloc));
    drop(replace(&mut world.book.environments, none));
    Ok(())
}

/// The first version stands twice.
fn repeat_version(alloc: Global, world: &mut World) -> Result<(), Trouble> {
    let again = match world.book.versions.as_slice().first() {
        Some(first) => first.copy()?,
        None => return Err(Trouble::Script),
    };
    let none = Register::from_vec(Vec::new(alloc));
    let mut all = replace(&mut world.book.versions, none).into_vec();
    let done = all.insert(0, again);
    drop(replace(&mut world.book.versions, Register::from_vec(all)));
    Ok(done?)
}

/// The front of a list, so many entries.
fn front_of(list: &Refs, length: usize) -> Result<Refs, Memory> {
    let mut front = Seq::new(list.alloc());
    for entry in list.as_slice().iter().take(length) {
        push_made(&mut front, entry.copy())?;
    }
    Ok(front)
}

/// The first environment has the first entry of its list alone, and not its parents.
fn orphan(alloc: Global, world: &mut World) -> Result<(), Trouble> {
    let list = match world.book.environments.as_slice().first() {
        Some(first) => front_of(&first.list, 1)?,
        None => return Err(Trouble::Script),
    };
    let none = Register::from_vec(Vec::new(alloc));
    let mut all = replace(&mut world.book.environments, none).into_vec();
    match all.first_mut() {
        Some(first) => drop(replace(&mut first.list, list)),
        None => drop(list),
    }
    drop(replace(&mut world.book.environments, Register::from_vec(all)));
    Ok(())
}

fn version_named(what: &Str) -> Option<u32> {
    if is(what, b"old") {
        Some(1)
    } else if is(what, b"present") {
        Some(2)
    } else if is(what, b"unknown") {
        Some(3)
    } else {
        None
    }
}

/// The book breaks a rule.
fn break_book(alloc: Global, world: &mut World, what: &Str) -> Result<(), Trouble> {
    if is(what, b"parent") {
        Ok(lose_parents(alloc, world)?)
    } else if is(what, b"twice") {
        repeat_version(alloc, world)
    } else if is(what, b"orphan") {
        orphan(alloc, world)
    } else {
        Err(Trouble::Script)
    }
}

/// Another book than commands would have made.
fn rewrite(alloc: Global, world: &mut World, what: &Str, tables: &[Str]) -> Result<(), Trouble> {
    if let Some(version) = version_named(what) {
        world.book.version = version;
    } else if is(what, b"definition") {
        turn_first(alloc, world, Turn::Definition);
    } else if is(what, b"over") {
        turn_first(alloc, world, Turn::Over);
    } else if is(what, b"standins") {
        return stand_in(alloc, world, tables);
    } else {
        return break_book(alloc, world, what);
    }
    Ok(())
}

/// The warehouse has a world whose book is rewritten.
fn change_book(stage: &mut Stage, what: &Str, tables: &[Str]) -> Result<(), Trouble> {
    let mut world = stage.house.world().copy()?;
    let done = rewrite(stage.alloc, &mut world, what, tables);
    stage.restore(world);
    done
}

/// The view that a word names, and what it points at.
fn view_of(stage: &mut Stage, word: &Str) -> Result<(Name, Name), Trouble> {
    let alloc = stage.alloc;
    for view in stage.house.world().views.as_slice() {
        let mut text = Vec::new(alloc);
        put_name(&mut text, &view.view)?;
        if same_text(text.as_slice(), word.as_slice()) {
            return Ok(both(&view.view, &view.target)?);
        }
    }
    Err(Trouble::Script)
}

/// A view goes, or the object that it points at.
fn take_out(stage: &mut Stage, word: &Str, object: bool) -> Result<(), Trouble> {
    let (view, target) = view_of(stage, word)?;
    let change = if object {
        Change::DropObject { object: target }
    } else {
        Change::DropView { view }
    };
    let done = stage.house.change(stage.alloc, &change);
    drop(change);
    match done {
        Ok(()) => Ok(()),
        Err(_) => Err(Trouble::Outside),
    }
}

/// Gives the project a file with some bytes of a file of the example.
fn write(stage: &mut Stage, path: &Str, bytes: Result<Str, Trouble>) -> Result<(), Trouble> {
    let (bytes, path) = (bytes?, path.copy()?);
    stage.write(path, bytes)
}

/// A step over a file of the example, with its words: the path of the project's file, that of the example's, and
/// perhaps a number.
fn arrange_over(stage: &mut Stage, kind: &Str, words: &[Str], bytes: &Str) -> Result<(), Trouble> {
    match words {
        [path, _] if is(kind, b"write") => write(stage, path, Ok(bytes.copy()?)),
        [number, _] if is(kind, b"copies") => copies(stage, number_of(number.as_slice())?, bytes),
        [path, _, length] if is(kind, b"cut") => {
            let cut = front(stage.alloc, bytes, number_of(length.as_slice())?);
            write(stage, path, cut)
        }
        [path, _, length] if is(kind, b"pad") => {
            let longer = padded(stage.alloc, bytes, number_of(length.as_slice())?);
            write(stage, path, longer)
        }
        _ => Err(Trouble::Script),
    }
}

fn set_clock(stage: &mut Stage, moment: &Str) -> Result<(), Trouble> {
    stage.moment = moment_of(moment.as_slice()).ok_or(Trouble::Script)?;
    Ok(())
}

/// What commands read: a file, or one that is so much longer.
fn set_input(stage: &mut Stage, path: &Str, length: Option<&Str>) -> Result<(), Trouble> {
    let bytes = stage.file(path)?;
    let input = match length {
        Some(length) => padded(stage.alloc, &bytes, number_of(length.as_slice())?)?,
        None => bytes,
    };
    drop(replace(&mut stage.input, input));
    Ok(())
}

fn set_failing(stage: &mut Stage, call: &Str, number: &Str) -> Result<(), Trouble> {
    stage.failing = failing(call, number_of(number.as_slice())?)?;
    Ok(())
}

/// A step that needs no word.
fn arrange_alone(stage: &mut Stage, kind: &Str) -> Result<(), Trouble> {
    if is(kind, b"empty") {
        stage.empty();
    } else if is(kind, b"fail") {
        stage.failing = None;
    } else if is(kind, b"alone") {
        return Ok(());
    } else {
        return Err(Trouble::Script);
    }
    Ok(())
}

/// A step about one thing.
fn arrange_one(stage: &mut Stage, kind: &Str, word: &Str) -> Result<(), Trouble> {
    if is(kind, b"delete") {
        stage.folder.delete(word);
        Ok(())
    } else if is(kind, b"kept") || is(kind, b"records") {
        Ok(())
    } else if is(kind, b"clock") {
        set_clock(stage, word)
    } else if is(kind, b"input") {
        set_input(stage, word, None)
    } else if is(kind, b"lose") {
        take_out(stage, word, true)
    } else if is(kind, b"hide") {
        take_out(stage, word, false)
    } else {
        Err(Trouble::Script)
    }
}

/// A step about two things, or more.
fn arrange_more(stage: &mut Stage, kind: &Str, words: &[Str]) -> Result<(), Trouble> {
    match words {
        [call, number] if is(kind, b"fail") => set_failing(stage, call, number),
        [path, length] if is(kind, b"input") => set_input(stage, path, Some(length)),
        [_, path, ..] => {
            let bytes = stage.file(path)?;
            arrange_over(stage, kind, words, &bytes)
        }
        _ => Err(Trouble::Script),
    }
}

/// A step that changes what the next commands run on.
pub fn arrange(stage: &mut Stage, kind: &Str, words: &[Str]) -> Result<(), Trouble> {
    match words {
        [what, tables @ ..] if is(kind, b"book") => change_book(stage, what, tables),
        [] => arrange_alone(stage, kind),
        [word] => arrange_one(stage, kind, word),
        _ => arrange_more(stage, kind, words),
    }
}
