// Fingerprints of texts.
use mesh_canon::fingerprint::fingerprint;
use mesh_cases::{Pen, Trouble};

/// Makes the call of a word, and answers whether there is one.
pub fn call(word: &[u8], text: &[u8], pen: &mut Pen) -> Result<bool, Trouble> {
    if word != b"digest".as_slice() {
        return Ok(false);
    }
    let mut digits = [0u8; 64];
    if hex::encode_to_slice(fingerprint(text)?, &mut digits).is_err() {
        return Err(Trouble::Case);
    }
    pen.put(&digits);
    Ok(true)
}
