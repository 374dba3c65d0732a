// Canonical texts: definitions, lists and nodes.
use crate::near::are_told_apart;
use mesh_base::{Own, Ref, Refs};
use mesh_base_values::{Name, Str};
use mesh_canon::canon::{
    CanonFault, list_text, node_text, own_text, own_text_old, read_list, read_own, read_own_old,
};
use mesh_cases::{Pen, Trouble, front_word, halves};
use mesh_list::{Duplicate, Memory, Seq, together};
use std::alloc::Global;

/// What came of reading a text, and of writing again what was read.
#[derive(Clone, Copy)]
pub enum Answer {
    Kept,
    Changed,
    Refused,
    Memory,
}

fn word_of(answer: Answer) -> &'static [u8] {
    match answer {
        Answer::Kept => b"kept",
        Answer::Changed => b"changed",
        Answer::Refused => b"refused",
        Answer::Memory => b"too deep",
    }
}

/// What a refusal says.
pub fn refusal(fault: CanonFault) -> Answer {
    match fault {
        CanonFault::NotCanonical => Answer::Refused,
        CanonFault::Memory => Answer::Memory,
    }
}

/// Whether what was written again is the text.
fn compared(text: &[u8], again: &[u8]) -> Answer {
    if text == again {
        Answer::Kept
    } else {
        Answer::Changed
    }
}

/// Whether the text that was written again is the first.
pub fn told(text: &[u8], again: Result<Str, Memory>) -> Result<Answer, Trouble> {
    match again {
        Ok(again) => Ok(compared(text, again.as_slice())),
        Err(Memory) => Err(Trouble::Memory),
    }
}

/// Reads a definition and writes it again.
pub fn own_again(alloc: Global, text: &[u8]) -> Result<Answer, Trouble> {
    match read_own(alloc, text) {
        Ok(own) => told(text, own_text(alloc, &own)),
        Err(fault) => Ok(refusal(fault)),
    }
}

/// The text of a copy.
fn copied_text(alloc: Global, own: &Own) -> Result<Str, Memory> {
    match own.copy() {
        Ok(copied) => own_text(alloc, &copied),
        Err(memory) => Err(memory),
    }
}

/// Reads a definition and writes a copy of it.
fn copy_again(alloc: Global, text: &[u8]) -> Result<Answer, Trouble> {
    match read_own(alloc, text) {
        Ok(own) => told(text, copied_text(alloc, &own)),
        Err(fault) => Ok(refusal(fault)),
    }
}

/// Reads a definition by its former text and writes it so again.
fn former_again(alloc: Global, text: &[u8]) -> Result<Answer, Trouble> {
    match read_own_old(alloc, text) {
        Ok(own) => told(text, own_text_old(alloc, &own)),
        Err(fault) => Ok(refusal(fault)),
    }
}

/// Reads a list and writes it again.
fn list_again(alloc: Global, text: &[u8]) -> Result<Answer, Trouble> {
    match read_list(alloc, text) {
        Ok(parts) => told(text, list_text(alloc, &parts)),
        Err(fault) => Ok(refusal(fault)),
    }
}

fn made(text: Result<Str, Memory>) -> Result<Str, Trouble> {
    Ok(text?)
}

/// The text that a definition has now, by its former one.
fn renewed_text(alloc: Global, text: &[u8]) -> Result<Str, Trouble> {
    match read_own_old(alloc, text) {
        Ok(own) => made(own_text(alloc, &own)),
        Err(_) => Err(Trouble::Case),
    }
}

/// The text of a definition with its parents.
fn whole_node(alloc: Global, text: &[u8], parents: &Refs) -> Result<Str, Trouble> {
    match read_own(alloc, text) {
        Ok(own) => made(node_text(alloc, &own, parents)),
        Err(_) => Err(Trouble::Case),
    }
}

/// What comes of reading a definition.
fn reading_word(alloc: Global, text: &[u8]) -> &'static [u8] {
    match read_own(alloc, text) {
        Ok(_own) => b"read",
        Err(fault) => word_of(refusal(fault)),
    }
}

/// What stands around the texts of the lines, and the parents of a node.
#[derive(Drop)]
pub struct Frame {
    alloc: Global,
    front: Vec<u8>,
    back: Vec<u8>,
    parents: Refs,
}

/// Adds what came of a text.
pub fn put_answer(pen: &mut Pen, text: &[u8], answer: Answer) {
    pen.put(word_of(answer));
    if let Answer::Kept = answer {
        pen.put(b", bytes ");
        pen.count(text.len() as u64);
    }
}

fn put_near(pen: &mut Pen, text: &[u8]) -> Result<(), Trouble> {
    if are_told_apart(pen.alloc(), text)? {
        pen.put(b", near texts told apart");
    } else {
        pen.put(b", near texts confused");
    }
    Ok(())
}

/// Reads a definition and writes it again.
fn put_own(pen: &mut Pen, text: &[u8]) -> Result<(), Trouble> {
    put_answer(pen, text, own_again(pen.alloc(), text)?);
    Ok(())
}

/// Does so too, and then reads the texts near it.
fn put_own_near(pen: &mut Pen, text: &[u8]) -> Result<(), Trouble> {
    put_own(pen, text)?;
    put_near(pen, text)
}

fn put_copied(pen: &mut Pen, text: &[u8]) -> Result<(), Trouble> {
    put_answer(pen, text, copy_again(pen.alloc(), text)?);
    Ok(())
}

fn put_former(pen: &mut Pen, text: &[u8]) -> Result<(), Trouble> {
    put_answer(pen, text, former_again(pen.alloc(), text)?);
    Ok(())
}

fn put_list(pen: &mut Pen, text: &[u8]) -> Result<(), Trouble> {
    put_answer(pen, text, list_again(pen.alloc(), text)?);
    Ok(())
}

/// Adds the text that a definition has now, by its former one.
fn put_renewed(pen: &mut Pen, text: &[u8]) -> Result<(), Trouble> {
    let renewed = renewed_text(pen.alloc(), text)?;
    pen.shown(renewed.as_slice());
    Ok(())
}

fn put_node(pen: &mut Pen, text: &[u8], parents: &Refs) -> Result<(), Trouble> {
    let node = whole_node(pen.alloc(), text, parents)?;
    pen.shown(node.as_slice());
    Ok(())
}

fn fingerprint_of(bytes: &[u8]) -> Result<[u8; 32], Trouble> {
    match <[u8; 32]>::try_from(bytes) {
        Ok(fingerprint) => Ok(fingerprint),
        Err(_) => Err(Trouble::Case),
    }
}

fn parent_of(alloc: Global, text: &[u8]) -> Result<Ref, Trouble> {
    let (schema, rest) = front_word(text);
    let (model, fingerprint) = front_word(rest);
    let fingerprint = fingerprint_of(fingerprint)?;
    let (schema, model) = together(u8::copy_items(alloc, schema), u8::copy_items(alloc, model))?;
    let name = Name { schema, model };
    Ok(Ref { name, fingerprint })
}

impl Frame {
    /// Nothing stands around a text, and there are no parents.
    pub fn new(alloc: Global) -> Frame {
        Frame {
            alloc,
            front: Vec::new(alloc),
            back: Vec::new(alloc),
            parents: Seq::new(alloc),
        }
    }

    fn set(&mut self, text: &[u8]) -> Result<(), Trouble> {
        let (front, back) = halves(text)?;
        self.front = Vec::from_slice(self.alloc, front)?;
        self.back = Vec::from_slice(self.alloc, back)?;
        Ok(())
    }

    /// A text and what stands around it.
    fn whole(&self, text: &[u8]) -> Result<Vec<u8>, Trouble> {
        let mut whole = Vec::from_slice(self.alloc, self.front.as_slice())?;
        whole.extend_from_slice(text)?;
        whole.extend_from_slice(self.back.as_slice())?;
        Ok(whole)
    }

    /// Makes the change of a word, if it is one of these, and answers whether it is.
    fn change(&mut self, word: &[u8], text: &[u8]) -> Result<bool, Trouble> {
        if word == b"around".as_slice() {
            self.set(text)?;
        } else if word == b"orphan".as_slice() {
            self.parents = Seq::new(self.alloc);
        } else if word == b"parent".as_slice() {
            self.parents.push(parent_of(self.alloc, text)?)?;
        } else {
            return Ok(false);
        }
        Ok(true)
    }

    /// Makes the call of a word over a whole text, if it is one of these.
    fn ask(&self, word: &[u8], whole: &[u8], pen: &mut Pen) -> Result<bool, Trouble> {
        if word == b"own".as_slice() {
            put_own(pen, whole)?;
        } else if word == b"near".as_slice() {
            put_own_near(pen, whole)?;
        } else if word == b"copied".as_slice() {
            put_copied(pen, whole)?;
        } else if word == b"read-own".as_slice() {
            pen.put(reading_word(self.alloc, whole));
        } else if word == b"former".as_slice() {
            put_former(pen, whole)?;
        } else if word == b"renewed".as_slice() {
            put_renewed(pen, whole)?;
        } else if word == b"node".as_slice() {
            put_node(pen, whole, &self.parents)?;
        } else {
            return Ok(false);
        }
        Ok(true)
    }

    /// Makes the call of a word, if it is one of these.
    pub fn call(&mut self, word: &[u8], text: &[u8], pen: &mut Pen) -> Result<bool, Trouble> {
        if self.change(word, text)? {
            pen.put(b"done");
            return Ok(true);
        }
        if word == b"list".as_slice() {
            put_list(pen, text)?;
            return Ok(true);
        }
        let whole = self.whole(text)?;
        self.ask(word, whole.as_slice(), pen)
    }
}
