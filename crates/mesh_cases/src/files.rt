// The files of a suite, which lie in a folder of its own where the program runs.
use crate::trouble::Trouble;
use mesh_base_values::Str;
use mesh_io::{DirFolder, Folder};
use mesh_list::Seq;
use std::alloc::Global;

/// The bytes of the largest file of cases.
const MOST_BYTES: u64 = 1 << 23;

/// The path of a file in a folder.
fn path_of(alloc: Global, folder: &[u8], name: &[u8]) -> Result<Str, Trouble> {
    let mut path = Vec::from_slice(alloc, folder)?;
    path.push(b'/')?;
    path.extend_from_slice(name)?;
    Ok(Seq::from_vec(path))
}

/// The bytes of a file of a suite, by the suite's folder and the file's name.
pub fn file_of(
    alloc: Global,
    data: &mut DirFolder,
    folder: &[u8],
    name: &[u8],
) -> Result<Str, Trouble> {
    let path = path_of(alloc, folder, name)?;
    data.read(alloc, &path, MOST_BYTES)?.ok_or(Trouble::Case)
}

/// The expected text of a folder of cases, if there is one.
pub fn expected_of(
    alloc: Global,
    data: &mut DirFolder,
    folder: &[u8],
) -> Result<Option<Str>, Trouble> {
    let path = path_of(alloc, folder, b"expected")?;
    Ok(data.read(alloc, &path, MOST_BYTES)?)
}

/// The lines of a file that hold something and don't begin with `#`, without their line feeds.
pub fn cases_of<'a>(alloc: Global, file: &'a [u8]) -> Result<Vec<&'a [u8]>, Trouble> {
    let mut cases = Vec::new(alloc);
    for line in file.split(|byte| *byte == b'\n') {
        if !line.is_empty() && !line.starts_with(b"#") {
            cases.push(line)?;
        }
    }
    Ok(cases)
}

/// What stands in front of the first ` | ` of a line, and what behind it.
pub fn halves(line: &[u8]) -> Result<(&[u8], &[u8]), Trouble> {
    for at in 0..line.len() {
        let (front, rest) = line.split_at(at);
        if let Some(behind) = rest.strip_prefix(b" | ") {
            return Ok((front, behind));
        }
    }
    Err(Trouble::Case)
}
