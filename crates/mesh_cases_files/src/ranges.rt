// Ranges of seconds.
use crate::answers::put_count;
use mesh_base_values::{Schedule, Spans, Unit};
use mesh_cases::{Pen, Trouble, front_word, number_of};
use mesh_list::{Duplicate, Same};
use mesh_time::{END_OF_SECONDS, FIRST_SECOND, Ranges};
use std::alloc::Global;

/// The ranges that the lines of a file change.
#[derive(Drop)]
pub struct Held {
    alloc: Global,
    ranges: Ranges,
}

/// The two numbers that a text begins with, and what stands behind them.
fn two_numbers(text: &[u8]) -> Result<(i64, i64, &[u8]), Trouble> {
    let (first, rest) = front_word(text);
    let (second, rest) = front_word(rest);
    Ok((number_of(first)?, number_of(second)?, rest))
}

fn unit_named(word: &[u8]) -> Result<Unit, Trouble> {
    if word == b"hour".as_slice() {
        Ok(Unit::Hour)
    } else if word == b"day".as_slice() {
        Ok(Unit::Day)
    } else {
        Err(Trouble::Case)
    }
}

/// Adds spans: for each its first second, two points and the second that it ends before.
fn put_spans(pen: &mut Pen, spans: &Spans) {
    pen.put(b"[");
    for (at, span) in spans.as_slice().iter().enumerate() {
        pen.put_if(at > 0, b" ");
        pen.number(span.start);
        pen.put(b"..");
        pen.number(span.end);
    }
    pen.put(b"]");
}

/// Adds how many spans there are.
fn put_size(pen: &mut Pen, spans: &Spans) {
    put_count(pen, b"spans", spans.len() as u64);
}

fn answer(truth: bool) -> &'static [u8] {
    if truth { b"yes" } else { b"no" }
}

impl Held {
    /// No second is recorded.
    pub fn new(alloc: Global) -> Held {
        Held {
            alloc,
            ranges: Ranges::new(alloc),
        }
    }

    fn add_range(&mut self, start: i64, end: i64) -> Result<(), Trouble> {
        if start >= end {
            return Err(Trouble::Case);
        }
        self.ranges.add(start, end)?;
        Ok(())
    }

    fn add(&mut self, text: &[u8]) -> Result<(), Trouble> {
        let (start, end, _) = two_numbers(text)?;
        self.add_range(start, end)
    }

    /// Adds ranges of one length, so many, each of which starts a step behind the one before it.
    fn spread(&mut self, text: &[u8]) -> Result<(), Trouble> {
        let (first, length, rest) = two_numbers(text)?;
        let (step, count, _) = two_numbers(rest)?;
        for number in 0..count {
            let start = first.saturating_add(number.saturating_mul(step));
            self.add_range(start, start.saturating_add(length))?;
        }
        Ok(())
    }

    fn forget(&mut self, text: &[u8]) -> Result<(), Trouble> {
        let (start, end, _) = two_numbers(text)?;
        if start >= end {
            return Err(Trouble::Case);
        }
        self.ranges.forget(start, end)?;
        Ok(())
    }

    fn missing(&self, text: &[u8]) -> Result<Spans, Trouble> {
        let (start, end, unit) = two_numbers(text)?;
        let unit = unit_named(unit)?;
        if start < FIRST_SECOND || end > END_OF_SECONDS {
            return Err(Trouble::Case);
        }
        let schedule = Schedule { start, end, unit };
        Ok(self.ranges.missing(self.alloc, &schedule)?)
    }

    fn put_missing(&self, text: &[u8], pen: &mut Pen) -> Result<(), Trouble> {
        let missing = self.missing(text)?;
        put_spans(pen, &missing);
        Ok(())
    }

    fn put_missing_size(&self, text: &[u8], pen: &mut Pen) -> Result<(), Trouble> {
        let missing = self.missing(text)?;
        put_size(pen, &missing);
        Ok(())
    }

    fn holds(&self, text: &[u8], pen: &mut Pen) -> Result<(), Trouble> {
        let (start, end, _) = two_numbers(text)?;
        pen.put(answer(self.ranges.holds(start, end)));
        Ok(())
    }

    fn copied(&self, pen: &mut Pen) -> Result<(), Trouble> {
        let copy = self.ranges.copy()?;
        put_spans(pen, copy.spans());
        pen.put(b", the same: ");
        pen.put(answer(copy.same(&self.ranges)));
        Ok(())
    }

    /// Makes the change of a word, if it is one of these, and answers whether it is.
    fn change(&mut self, word: &[u8], text: &[u8]) -> Result<bool, Trouble> {
        if word == b"ranges".as_slice() {
            self.ranges = Ranges::new(self.alloc);
        } else if word == b"add".as_slice() {
            self.add(text)?;
        } else if word == b"forget".as_slice() {
            self.forget(text)?;
        } else {
            return Ok(false);
        }
        Ok(true)
    }

    /// Makes the call of a word, if it is one of these.
    pub fn call(&mut self, word: &[u8], text: &[u8], pen: &mut Pen) -> Result<bool, Trouble> {
        if self.change(word, text)? {
            put_spans(pen, self.ranges.spans());
        } else if word == b"spread".as_slice() {
            self.spread(text)?;
            put_size(pen, self.ranges.spans());
        } else if word == b"holds".as_slice() {
            self.holds(text, pen)?;
        } else if word == b"missing".as_slice() {
            self.put_missing(text, pen)?;
        } else if word == b"missing-size".as_slice() {
            self.put_missing_size(text, pen)?;
        } else if word == b"copy".as_slice() {
            self.copied(pen)?;
        } else {
            return Ok(false);
        }
        Ok(true)
    }
}
