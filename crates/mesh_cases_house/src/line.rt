// A line of a case, in words, and what its words say.
use mesh_base::{Forget, Own, Ref, Refs, Rename};
use mesh_base_values::{Cell, ColType, Column, Columns, Name, Pair, Row, Str};
use mesh_cases::{Trouble, front_word, number_of, parted};
use mesh_list::{Duplicate, Memory, Seq, push_made, together};
use std::alloc::Global;

/// Two answers as one.
pub fn pair<A: Drop, B: Drop>(
    a: Result<A, Trouble>,
    b: Result<B, Trouble>,
) -> Result<(A, B), Trouble> {
    match (a, b) {
        (Ok(first), Ok(second)) => Ok((first, second)),
        (Err(trouble), _) => Err(trouble),
        (_, Err(trouble)) => Err(trouble),
    }
}

/// Puts the value of an answer at the end of a list, where it has one.
pub fn pushed<T: Drop>(list: &mut Seq<T>, made: Result<T, Trouble>) -> Result<(), Trouble> {
    match made {
        Ok(item) => Ok(list.push(item)?),
        Err(trouble) => Err(trouble),
    }
}

fn name_of(alloc: Global, word: &[u8]) -> Result<Name, Trouble> {
    let (schema, model) = parted(word, b'.');
    let (schema, model) = together(u8::copy_items(alloc, schema), u8::copy_items(alloc, model))?;
    Ok(Name { schema, model })
}

/// The fingerprint that begins with these numbers, of which the last stands in each place that is left.
fn fingerprint_of(mark: &[u8]) -> Result<[u8; 32], Trouble> {
    let mut fingerprint = [0u8; 32];
    for (at, number) in mark.split(|byte| *byte == b'.').enumerate() {
        let byte = u8::try_from(number_of(number)?).map_err(|_| Trouble::Case)?;
        fingerprint.get_mut(at..).ok_or(Trouble::Case)?.fill(byte);
    }
    Ok(fingerprint)
}

fn reference_of(alloc: Global, name: &[u8], mark: &[u8]) -> Result<Ref, Trouble> {
    let fingerprint = fingerprint_of(mark)?;
    let name = name_of(alloc, name)?;
    Ok(Ref { name, fingerprint })
}

fn reference(alloc: Global, word: &[u8]) -> Result<Ref, Trouble> {
    let (name, mark) = parted(word, b'/');
    reference_of(alloc, name, mark)
}

fn forget_of(alloc: Global, word: &[u8]) -> Result<Forget, Trouble> {
    let (name, range) = parted(word, b':');
    if range.is_empty() {
        let object = name_of(alloc, name)?;
        return Ok(Forget::Marks { object });
    }
    let (start, end) = parted(range, b':');
    let (start, end) = pair(number_of(start), number_of(end))?;
    let object = name_of(alloc, name)?;
    Ok(Forget::Range { object, start, end })
}

fn rename_of(alloc: Global, word: &[u8]) -> Result<Rename, Trouble> {
    let (old, new) = parted(word, b'=');
    let new = fingerprint_of(new)?;
    let old = reference(alloc, old)?;
    Ok(Rename { old, new })
}

fn column(alloc: Global, name: &[u8], kind: ColType) -> Result<Column, Memory> {
    let name = u8::copy_items(alloc, name)?;
    Ok(Column { name, kind })
}

/// One column of days and one of numbers, which all tables have.
pub fn columns(alloc: Global) -> Result<Columns, Trouble> {
    let mut columns = Seq::new(alloc);
    push_made(&mut columns, column(alloc, b"day", ColType::Date))?;
    push_made(&mut columns, column(alloc, b"n", ColType::Int))?;
    Ok(columns)
}

fn row(alloc: Global, word: &[u8]) -> Result<Row, Trouble> {
    let number = number_of(word)?;
    let day = i32::try_from(number).map_err(|_| Trouble::Case)?;
    let mut row = Seq::new(alloc);
    row.push(Cell::Date(day))?;
    row.push(Cell::Int(number))?;
    Ok(row)
}

/// A definition, and the word that cases call it by.
#[derive(Drop)]
pub struct Named {
    pub word: Str,
    pub own: Own,
}

pub type Owns = Vec<Named>;

/// What a word says.
pub trait Said: Drop + Sized {
    fn of_word(alloc: Global, word: &[u8]) -> Result<Self, Trouble>;
}

impl Said for i64 {
    fn of_word(_alloc: Global, word: &[u8]) -> Result<i64, Trouble> {
        number_of(word)
    }
}

/// A row of the number in both columns.
impl Said for Row {
    fn of_word(alloc: Global, word: &[u8]) -> Result<Row, Trouble> {
        row(alloc, word)
    }
}

/// A pair `MODEL=OBJECT`.
impl Said for Pair {
    fn of_word(alloc: Global, word: &[u8]) -> Result<Pair, Trouble> {
        let (model, object) = parted(word, b'=');
        let (first, second) = pair(name_of(alloc, model), name_of(alloc, object))?;
        Ok(Pair { first, second })
    }
}

/// The marks of an object, or a range of it behind a colon, whose end stands behind another one.
impl Said for Forget {
    fn of_word(alloc: Global, word: &[u8]) -> Result<Forget, Trouble> {
        forget_of(alloc, word)
    }
}

/// A reference, and behind an equals sign the numbers that its fingerprint gets.
impl Said for Rename {
    fn of_word(alloc: Global, word: &[u8]) -> Result<Rename, Trouble> {
        rename_of(alloc, word)
    }
}

/// The words of a line.
#[derive(Clone, Copy)]
pub struct Line<'a> {
    alloc: Global,
    text: &'a [u8],
}

impl<'a> Line<'a> {
    pub fn of(alloc: Global, text: &'a [u8]) -> Line<'a> {
        Line { alloc, text }
    }

    /// What stands behind so many words.
    fn behind(&self, count: usize) -> &'a [u8] {
        let mut rest = self.text;
        for _ in 0..count {
            let (_, behind) = front_word(rest);
            rest = behind;
        }
        rest
    }

    pub fn alloc(&self) -> Global {
        self.alloc
    }

    /// The word at a place, and nothing behind the last one.
    pub fn word(&self, at: usize) -> &'a [u8] {
        let (word, _) = front_word(self.behind(at));
        word
    }

    pub fn is(&self, at: usize, word: &[u8]) -> bool {
        self.word(at) == word
    }

    pub fn number(&self, at: usize) -> Result<i64, Trouble> {
        number_of(self.word(at))
    }

    pub fn rank(&self, at: usize) -> Result<u32, Trouble> {
        u32::try_from(self.number(at)?).map_err(|_| Trouble::Case)
    }

    /// A number, or none where the word is `none`.
    pub fn expiry(&self, at: usize) -> Result<Option<i64>, Trouble> {
        if self.is(at, b"none") {
            return Ok(None);
        }
        Ok(Some(self.number(at)?))
    }

    pub fn text(&self, at: usize) -> Result<Str, Trouble> {
        Ok(u8::copy_items(self.alloc, self.word(at))?)
    }

    pub fn name(&self, at: usize) -> Result<Name, Trouble> {
        name_of(self.alloc, self.word(at))
    }

    pub fn reference(&self, at: usize) -> Result<Ref, Trouble> {
        reference(self.alloc, self.word(at))
    }

    /// The references behind a word, up to the next word that is none.
    pub fn refs(&self, word: &[u8]) -> Result<Refs, Trouble> {
        let mut refs = Seq::new(self.alloc);
        let mut behind = false;
        for other in self.text.split(|byte| *byte == b' ') {
            behind = other == word || (behind && other.contains(&b'/'));
            if behind && other != word {
                pushed(&mut refs, reference(self.alloc, other))?;
            }
        }
        Ok(refs)
    }

    /// What each word from a place on says.
    pub fn all<T: Said>(&self, from: usize) -> Result<Seq<T>, Trouble> {
        let mut all = Seq::new(self.alloc);
        let rest = self.behind(from);
        if !rest.is_empty() {
            for word in rest.split(|byte| *byte == b' ') {
                pushed(&mut all, T::of_word(self.alloc, word))?;
            }
        }
        Ok(all)
    }

    /// The definition that a word calls.
    pub fn own<'b>(&self, owns: &'b [Named], at: usize) -> Result<&'b Own, Trouble> {
        for named in owns {
            if self.is(at, named.word.as_slice()) {
                return Ok(&named.own);
            }
        }
        Err(Trouble::Case)
    }
}
