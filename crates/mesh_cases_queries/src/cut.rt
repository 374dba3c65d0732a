// Texts that are cut where a mark stands.
use mesh_cases::Trouble;

/// What stands in front of the first such mark in a text, and what behind it.
pub fn cut_at<'a>(text: &'a [u8], mark: &[u8]) -> Result<(&'a [u8], &'a [u8]), Trouble> {
    for at in 0..text.len() {
        let (front, behind) = text.split_at(at);
        if let Some(rest) = behind.strip_prefix(mark) {
            return Ok((front, rest));
        }
    }
    Err(Trouble::Case)
}
