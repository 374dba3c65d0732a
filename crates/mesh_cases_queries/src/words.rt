// Words that stand for texts: in a text, `$` and a word's name of two letters stand for the word's text.
use mesh_cases::Trouble;
use std::alloc::Global;

#[derive(Drop)]
pub struct Word {
    pub name: Vec<u8>,
    pub text: Vec<u8>,
}

/// Adds the text of a word. No name stands for nothing.
fn put_word(words: &[Word], name: &[u8], made: &mut Vec<u8>) -> Result<(), Trouble> {
    if name.is_empty() {
        return Ok(());
    }
    for word in words {
        if word.name.as_slice() == name {
            made.extend_from_slice(word.text.as_slice())?;
            return Ok(());
        }
    }
    Err(Trouble::Case)
}

/// Adds what stands between two signs: the text of a word whose name has that length, and the rest as it is.
fn put_part(words: &[Word], part: &[u8], length: usize, made: &mut Vec<u8>) -> Result<(), Trouble> {
    let name = part.get(..length).ok_or(Trouble::Case)?;
    put_word(words, name, made)?;
    let rest = part.get(length..).ok_or(Trouble::Case)?;
    made.extend_from_slice(rest)?;
    Ok(())
}

/// A text with the texts of its words in their places.
pub fn expanded(alloc: Global, words: &[Word], text: &[u8]) -> Result<Vec<u8>, Trouble> {
    let mut made = Vec::new(alloc);
    let mut length = 0;
    for part in text.split(|byte| *byte == b'$') {
        put_part(words, part, length, &mut made)?;
        length = 2;
    }
    Ok(made)
}
