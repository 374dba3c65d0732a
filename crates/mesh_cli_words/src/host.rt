// The words that the host gives, and the file that they name.
use crate::line::{Command, Line, UsageFault};
use crate::read::read_words;
use mesh_base_values::{Str, same_text};
use mesh_list::{Duplicate, Memory, Seq};
use std::alloc::Global;
use std::env::{Env, FillError};

/// The file of the warehouse where the words name none.
const WAREHOUSE: &str = "warehouse.db";

/// The bytes of the longest word that is read.
const LONGEST_WORD: usize = 1 << 26;

/// The most words that are read: a command has far fewer.
const MOST_WORDS: usize = 1 << 20;

/// The word at a place, as its bytes, and none behind the last. A buffer that is too short is made longer.
fn word_at<R: Env + AllocGlobal>(rt: &R, at: usize) -> Result<Option<Str>, Memory> {
    let mut size = 256usize;
    for _ in 0..20u32 {
        let mut buffer = vec![in rt.alloc(); 0u8; size]?;
        match rt.arg(at, buffer.as_mut_slice()) {
            Ok(length) => {
                buffer.truncate(length);
                return Ok(Some(Seq::from_vec(buffer)));
            }
            Err(FillError::NotPresent) => return Ok(None),
            Err(FillError::TooLong) => {
                if size > LONGEST_WORD {
                    return Err(Memory);
                }
                size *= 2;
            }
        }
    }
    Err(Memory)
}

/// The words behind the program's own name.
pub fn host_words<R: Env + AllocGlobal>(rt: &R) -> Result<Vec<Str>, Memory> {
    let mut words = Vec::new(rt.alloc());
    for at in 1..MOST_WORDS {
        match word_at(rt, at)? {
            Some(word) => words.push(word)?,
            None => break,
        }
    }
    Ok(words)
}

/// The file of that name, or of none; none where it is in memory.
fn file_of(alloc: Global, name: Option<&Str>) -> Result<Option<Str>, Memory> {
    let Some(name) = name else {
        return Ok(Some(u8::copy_items(alloc, WAREHOUSE.as_bytes())?));
    };
    if same_text(name.as_slice(), b":memory:") {
        return Ok(None);
    }
    Ok(Some(name.copy()?))
}

/// Whether a command stands on the project alone: a file isn't opened for it.
fn stands_on_project(command: &Command) -> bool {
    match command {
        Command::Trace { .. } | Command::Impact { .. } => true,
        _ => false,
    }
}

fn line_file(alloc: Global, line: &Line) -> Result<Option<Str>, Memory> {
    if stands_on_project(&line.command) {
        return Ok(None);
    }
    file_of(alloc, line.warehouse.as_ref())
}

/// The file of the warehouse, or none where it is in memory, where the command stands on the project alone, and where
/// the words are no command line.
pub fn warehouse_file(alloc: Global, words: &[Str]) -> Result<Option<Str>, Memory> {
    match read_words(alloc, words) {
        // A warehouse in memory in the place of the file would keep nothing.
        Err(UsageFault::Memory) => Err(Memory),
        Err(UsageFault::Usage) => Ok(None),
        Ok(line) => line_file(alloc, &line),
    }
}
