// One call of an object at the outside, and what it answered.
use crate::answers::put_count;
use mesh_base_values::Str;
use mesh_cases::{Pen, Trouble, front_word, number_of};
use mesh_io::{Clock, Folder, IoFail, Sink, Source, take_all};
use mesh_list::Duplicate;

fn put_bytes(pen: &mut Pen, bytes: &[u8]) {
    pen.put(b"'");
    pen.shown(bytes);
    pen.put(b"'");
}

fn put_fail(pen: &mut Pen, fail: IoFail) {
    match fail {
        IoFail::Failed => pen.put(b"failed"),
        IoFail::Memory => pen.lose(),
    }
}

fn put_faults(pen: &mut Pen, faults: u64) {
    put_count(pen, b", faults", faults);
}

/// The number that a word says, where it has no sign.
pub fn count_of(word: &[u8]) -> Result<u64, Trouble> {
    let number = number_of(word)?;
    if number < 0 {
        return Err(Trouble::Case);
    }
    Ok(number as u64)
}

fn put_paths(pen: &mut Pen, paths: &[Str]) {
    pen.put(b"[");
    for (at, path) in paths.iter().enumerate() {
        pen.put_if(at > 0, b" ");
        put_bytes(pen, path.as_slice());
    }
    pen.put(b"]");
}

/// Adds the paths below a folder.
pub fn list<F: Folder>(folder: &mut F, dir: &[u8], pen: &mut Pen) -> Result<(), Trouble> {
    let dir = u8::copy_items(pen.alloc(), dir)?;
    match folder.list(pen.alloc(), &dir) {
        Ok(paths) => put_paths(pen, paths.as_slice()),
        Err(fail) => put_fail(pen, fail),
    }
    put_faults(pen, folder.faults());
    Ok(())
}

fn put_found(pen: &mut Pen, found: &Option<Str>) {
    match found {
        Some(bytes) => put_bytes(pen, bytes.as_slice()),
        None => pen.put(b"none"),
    }
}

/// Adds the first bytes of a file. The text says how many, and the path.
pub fn read<F: Folder>(folder: &mut F, text: &[u8], pen: &mut Pen) -> Result<(), Trouble> {
    let (most, path) = front_word(text);
    let most = count_of(most)?;
    let path = u8::copy_items(pen.alloc(), path)?;
    match folder.read(pen.alloc(), &path, most) {
        Ok(found) => put_found(pen, &found),
        Err(fail) => put_fail(pen, fail),
    }
    put_faults(pen, folder.faults());
    Ok(())
}

/// The moment of a clock, or that it failed.
pub fn now<C: Clock>(clock: &mut C, pen: &mut Pen) -> Option<i64> {
    let answer = clock.now();
    if let Err(fail) = answer {
        put_fail(pen, fail);
    }
    put_faults(pen, clock.faults());
    answer.ok()
}

/// Adds the next bytes of a source.
pub fn take<S: Source>(source: &mut S, most: &[u8], pen: &mut Pen) -> Result<(), Trouble> {
    let most = count_of(most)?;
    if most == 0 {
        return Err(Trouble::Case);
    }
    match source.take(pen.alloc(), most) {
        Ok(piece) => put_bytes(pen, piece.as_slice()),
        Err(fail) => put_fail(pen, fail),
    }
    put_faults(pen, source.faults());
    Ok(())
}

/// Adds the first bytes that a source has left.
pub fn take_first<S: Source>(source: &mut S, most: &[u8], pen: &mut Pen) -> Result<(), Trouble> {
    let most = count_of(most)?;
    match take_all(source, pen.alloc(), most) {
        Ok(bytes) => put_bytes(pen, bytes.as_slice()),
        Err(fail) => put_fail(pen, fail),
    }
    put_faults(pen, source.faults());
    Ok(())
}

/// Puts bytes into a sink, and adds whether it took them.
pub fn put<S: Sink>(sink: &mut S, piece: &[u8], pen: &mut Pen) {
    match sink.put(piece) {
        Ok(()) => pen.put(b"put"),
        Err(fail) => put_fail(pen, fail),
    }
    put_faults(pen, sink.faults());
}

/// Adds what a sink in memory has.
pub fn put_written(pen: &mut Pen, bytes: &Str) {
    put_bytes(pen, bytes.as_slice());
}
