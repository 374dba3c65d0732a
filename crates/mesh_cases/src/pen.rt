// What is written. Whoever writes needn't ask each time whether memory was there: it is told at the end.
use crate::escapes::shown;
use crate::report::{put_count, put_number};
use crate::trouble::Trouble;
use std::alloc::Global;

/// What was written so far, and whether some of it is lost because memory was out.
#[derive(Drop)]
pub struct Pen {
    alloc: Global,
    text: Vec<u8>,
    lost: bool,
}

impl Pen {
    /// Nothing is written.
    pub fn new(alloc: Global) -> Pen {
        Pen {
            alloc,
            text: Vec::new(alloc),
            lost: false,
        }
    }

    /// The allocator of what is written.
    pub fn alloc(&self) -> Global {
        self.alloc
    }

    /// What was written.
    pub fn text(&self) -> &[u8] {
        self.text.as_slice()
    }

    /// Whether nothing is lost.
    pub fn done(&self) -> Result<(), Trouble> {
        if self.lost {
            Err(Trouble::Memory)
        } else {
            Ok(())
        }
    }

    /// Something that was to be written is lost.
    pub fn lose(&mut self) {
        self.lost = true;
    }

    /// Adds bytes.
    pub fn put(&mut self, bytes: &[u8]) {
        if self.text.extend_from_slice(bytes).is_err() {
            self.lost = true;
        }
    }

    /// Adds these bytes where that holds.
    pub fn put_if(&mut self, holds: bool, bytes: &[u8]) {
        if holds {
            self.put(bytes);
        }
    }

    /// Adds a word behind a blank.
    pub fn word(&mut self, word: &[u8]) {
        self.put(b" ");
        self.put(word);
    }

    /// Adds a text with escapes for what isn't printable.
    pub fn shown(&mut self, text: &[u8]) {
        if shown(&mut self.text, text).is_err() {
            self.lost = true;
        }
    }

    /// Adds a number in decimal digits.
    pub fn number(&mut self, number: i64) {
        if put_number(self.alloc, &mut self.text, number).is_err() {
            self.lost = true;
        }
    }

    /// Adds a place or a count.
    pub fn count(&mut self, count: u64) {
        if put_count(self.alloc, &mut self.text, count).is_err() {
            self.lost = true;
        }
    }
}
