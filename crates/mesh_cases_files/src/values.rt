// What the lines of a file act on, one after another.
use crate::canon::Frame;
use crate::ranges::Held;
use crate::{casts, crons, digests, parts, times};
use mesh_cases::{Pen, Trouble, filled, front_word};
use std::alloc::Global;

/// The ranges, and what stands around canonical texts.
#[derive(Drop)]
pub struct Values {
    alloc: Global,
    held: Held,
    frame: Frame,
}

impl Values {
    /// No second is recorded, nothing stands around a text, and there are no parents.
    pub fn new(alloc: Global) -> Values {
        Values {
            alloc,
            held: Held::new(alloc),
            frame: Frame::new(alloc),
        }
    }

    /// Makes the call of a line, and adds the line and the answer.
    pub fn line(&mut self, line: &[u8], pen: &mut Pen) -> Result<(), Trouble> {
        pen.put(line);
        pen.put(b" => ");
        let (word, rest) = front_word(line);
        let text = filled(self.alloc, rest)?;
        if !self.call(word, text.as_slice(), pen)? {
            return Err(Trouble::Case);
        }
        pen.put(b"\n");
        Ok(())
    }

    /// Makes the call of a word, and answers whether there is one.
    fn call(&mut self, word: &[u8], text: &[u8], pen: &mut Pen) -> Result<bool, Trouble> {
        if times::call(word, text, pen)? || crons::call(word, text, pen)? {
            return Ok(true);
        }
        if casts::call(word, text, pen)? || parts::call(word, text, pen)? {
            return Ok(true);
        }
        if digests::call(word, text, pen)? || self.held.call(word, text, pen)? {
            return Ok(true);
        }
        self.frame.call(word, text, pen)
    }
}
