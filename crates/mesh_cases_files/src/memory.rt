// The folder, the clock and the streams in memory.
use crate::calls::{count_of, list, now, put, put_written, read, take, take_first};
use mesh_base_values::Str;
use mesh_cases::{Pen, Trouble, front_word, number_of};
use mesh_io::{File, Files, MemClock, MemFolder, MemSink, MemSource, Numbers, are_distinct};
use mesh_list::{Duplicate, Memory, Same, Seq, together};
use std::alloc::Global;
use std::mem;

/// The last second of 9999-12-31.
const LAST: i64 = 253_402_300_799;

/// The objects, and what the next one is made of.
#[derive(Drop)]
pub struct Inside {
    alloc: Global,
    files: Files,
    fails: Numbers,
    folder: MemFolder,
    clock: MemClock,
    source: MemSource,
    sink: MemSink,
}

fn numbers_of(alloc: Global, text: &[u8]) -> Result<Numbers, Trouble> {
    let mut numbers: Numbers = Seq::new(alloc);
    for word in text.split(|byte| *byte == b' ') {
        numbers.push(count_of(word)?)?;
    }
    Ok(numbers)
}

fn file_in(alloc: Global, text: &[u8]) -> Result<File, Memory> {
    let (path, bytes) = front_word(text);
    let (path, bytes) = together(u8::copy_items(alloc, path), u8::copy_items(alloc, bytes))?;
    Ok(File { path, bytes })
}

/// Adds a copy of the file, and answers whether it is the same.
fn put_copy(files: &mut Files, file: &File) -> Result<bool, Memory> {
    let copy = file.copy()?;
    let same = copy.same(file);
    files.push(copy)?;
    Ok(same)
}

/// Puts a file that was made into a folder.
fn written(folder: &mut MemFolder, file: Result<File, Memory>) -> Result<(), Trouble> {
    match file {
        Ok(file) => Ok(folder.write(file)?),
        Err(Memory) => Err(Trouble::Memory),
    }
}

fn deleted(folder: &mut MemFolder, path: Result<Str, Memory>) -> Result<(), Trouble> {
    let path = path?;
    folder.delete(&path);
    Ok(())
}

fn empty_folder(alloc: Global) -> MemFolder {
    MemFolder::new(Seq::new(alloc), Seq::new(alloc))
}

impl Inside {
    /// An empty folder, a clock at 1970, an empty source and an empty sink, none of which is to fail.
    pub fn new(alloc: Global) -> Inside {
        Inside {
            alloc,
            files: Seq::new(alloc),
            fails: Seq::new(alloc),
            folder: empty_folder(alloc),
            clock: MemClock::new(0, Seq::new(alloc)),
            source: MemSource::new(Seq::new(alloc), Seq::new(alloc)),
            sink: MemSink::new(alloc, Seq::new(alloc)),
        }
    }

    /// The calls that the next object is to fail at.
    fn next_fails(&mut self) -> Numbers {
        mem::replace(&mut self.fails, Seq::new(self.alloc))
    }

    /// A copy of the file belongs to the next folder.
    fn file(&mut self, text: &[u8], pen: &mut Pen) -> Result<(), Trouble> {
        let file = file_in(self.alloc, text)?;
        let same = put_copy(&mut self.files, &file)?;
        pen.put(if same { b"copied" } else { b"changed" });
        Ok(())
    }

    fn folder(&mut self, pen: &mut Pen) {
        let files = mem::replace(&mut self.files, Seq::new(self.alloc));
        if are_distinct(files.as_slice()) {
            self.folder = MemFolder::new(files, self.next_fails());
            pen.put(b"made");
        } else {
            drop(files);
            pen.put(b"two files of one path");
        }
    }

    fn clock(&mut self, moment: &[u8]) -> Result<(), Trouble> {
        let moment = number_of(moment)?;
        if moment < 0 || moment > LAST {
            return Err(Trouble::Case);
        }
        self.clock = MemClock::new(moment, self.next_fails());
        Ok(())
    }

    fn source(&mut self, bytes: &[u8]) -> Result<(), Trouble> {
        let bytes = u8::copy_items(self.alloc, bytes)?;
        self.source = MemSource::new(bytes, self.next_fails());
        Ok(())
    }

    fn now(&mut self, pen: &mut Pen) {
        if let Some(moment) = now(&mut self.clock, pen) {
            pen.put(b", ");
            pen.number(moment);
        }
    }

    /// Makes the object of a word, if it is one of these, and answers whether it is.
    fn make(&mut self, word: &[u8], text: &[u8]) -> Result<bool, Trouble> {
        if word == b"fails".as_slice() {
            self.fails = numbers_of(self.alloc, text)?;
        } else if word == b"clock".as_slice() {
            self.clock(text)?;
        } else if word == b"source".as_slice() {
            self.source(text)?;
        } else if word == b"sink".as_slice() {
            self.sink = MemSink::new(self.alloc, self.next_fails());
        } else {
            return Ok(false);
        }
        Ok(true)
    }

    /// Makes the change of the folder of a word, if it is one of these, and answers whether it is.
    fn change(&mut self, word: &[u8], text: &[u8]) -> Result<bool, Trouble> {
        if word == b"write".as_slice() {
            written(&mut self.folder, file_in(self.alloc, text))?;
        } else if word == b"delete".as_slice() {
            deleted(&mut self.folder, u8::copy_items(self.alloc, text))?;
        } else if word == b"refail".as_slice() {
            let fails = self.next_fails();
            self.folder.set_fails(fails);
        } else {
            return Ok(false);
        }
        Ok(true)
    }

    /// Asks the folder, if the word does, and answers whether it does.
    fn ask_folder(&mut self, word: &[u8], text: &[u8], pen: &mut Pen) -> Result<bool, Trouble> {
        if word == b"file".as_slice() {
            self.file(text, pen)?;
        } else if word == b"folder".as_slice() {
            self.folder(pen);
        } else if word == b"list".as_slice() {
            list(&mut self.folder, text, pen)?;
        } else if word == b"read".as_slice() {
            read(&mut self.folder, text, pen)?;
        } else {
            return Ok(false);
        }
        Ok(true)
    }

    /// Asks the clock or a stream, if the word does, and answers whether it does.
    fn ask(&mut self, word: &[u8], text: &[u8], pen: &mut Pen) -> Result<bool, Trouble> {
        if word == b"now".as_slice() {
            self.now(pen);
        } else if word == b"take".as_slice() {
            take(&mut self.source, text, pen)?;
        } else if word == b"take-all".as_slice() {
            take_first(&mut self.source, text, pen)?;
        } else if word == b"put".as_slice() {
            put(&mut self.sink, text, pen);
        } else if word == b"written".as_slice() {
            put_written(pen, self.sink.bytes());
        } else {
            return Ok(false);
        }
        Ok(true)
    }

    /// Makes the call of a word, if it is one of these.
    pub fn call(&mut self, word: &[u8], text: &[u8], pen: &mut Pen) -> Result<bool, Trouble> {
        if self.make(word, text)? || self.change(word, text)? {
            pen.put(b"done");
            return Ok(true);
        }
        Ok(self.ask_folder(word, text, pen)? || self.ask(word, text, pen)?)
    }
}
