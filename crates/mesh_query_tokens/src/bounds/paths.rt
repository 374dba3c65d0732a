// Where the file lies that a path in a model's file names.
ghost use Rattle.std.specs.Prelude.{◌≡◌, [], IfOk};
ghost use Rattle.mesh_query_tokens.specs.bounds.Paths.{folder_of, within, is_here, is_up, above, next_folder, file_in, behind_byte, file_from, file_at};

use crate::bounds::signs::is_same;
use mesh_base_values::Str;
use mesh_list::{Duplicate, Memory, Seq};
use std::alloc::Global;

// What stands before the last slash, or nothing where there is none. What stands behind is taken off from the end.
fn folder_of(path: Str) -> Str
    ensures { result ≡ folder_of path }
{
    let mut folder = path;
    while let Some(byte) = folder.pop() {
        if byte == b'/' {
            return folder;
        }
    }
    folder
}

// The folder grows by the part.
fn within(folder: Str, part: &[u8]) -> Result<Str, Memory>
    ensures { IfOk result (λ made. made ≡ within folder part.now) }
{
    let mut made = folder.into_vec();
    if !made.is_empty() {
        made.push(b'/')?;
    }
    made.extend_from_slice(part)?;
    Ok(Seq::from_vec(made))
}

fn is_here(part: &[u8]) -> bool
    ensures { result ≡ is_here part.now }
{
    match part {
        [] => true,
        [_, ..] => is_same(part, b"."),
    }
}

fn is_up(part: &[u8]) -> bool
    ensures { result ≡ is_up part.now }
{
    is_same(part, b"..")
}

fn above(folder: Str) -> Option<Str>
    ensures { result ≡ above folder }
{
    match folder.as_slice() {
        [] => None,
        [_, ..] => Some(folder_of(folder)),
    }
}

// The folder that a part of a path leads to.
fn next_folder(folder: Str, part: &[u8]) -> Result<Option<Str>, Memory>
    ensures { IfOk result (λ found. found ≡ next_folder folder part.now) }
{
    if is_here(part) {
        return Ok(Some(folder));
    }
    if is_up(part) {
        return Ok(above(folder));
    }
    Ok(Some(within(folder, part)?))
}

fn file_in(folder: Str, part: &[u8]) -> Result<Option<Str>, Memory>
    ensures { IfOk result (λ found. found ≡ file_in folder part.now) }
{
    if is_here(part) || is_up(part) {
        Ok(None)
    } else {
        Ok(Some(within(folder, part)?))
    }
}

// A folder and the bytes since the last slash, behind one byte more.
fn behind_byte(
    alloc: Global,
    folder: Str,
    part: Str,
    byte: u8,
) -> Result<Option<(Str, Str)>, Memory>
    ensures { IfOk result (λ found. found ≡ behind_byte folder part byte) }
{
    if byte == b'/' {
        return match next_folder(folder, part.as_slice())? {
            Some(next) => Ok(Some((next, Seq::new(alloc)))),
            None => Ok(None),
        };
    }
    let mut part = part;
    part.push(byte)?;
    Ok(Some((folder, part)))
}

fn file_from(alloc: Global, folder: Str, path: &[u8]) -> Result<Option<Str>, Memory>
    ensures { IfOk result (λ found. found ≡ file_from folder [] path.now) }
{
    let mut folder = folder;
    let mut part: Str = Seq::new(alloc);
    for i in 0..path.len() {
        let Some((next, more)) = behind_byte(alloc, folder, part, path[i])? else {
            return Ok(None);
        };
        folder = next;
        part = more;
    }
    file_in(folder, part.as_slice())
}

/// The path in the project of the file that `path`, which stands in the model's file `file`, leads to. There is none
/// where it begins with a slash, leaves the project on its way, or doesn't end in a name.
pub fn file_at(alloc: Global, file: &[u8], path: &[u8]) -> Result<Option<Str>, Memory>
    ensures { IfOk result (λ found. found ≡ file_at file.now path.now) }
{
    if path.starts_with(b"/") {
        return Ok(None);
    }
    let folder = folder_of(u8::copy_items(alloc, file)?);
    file_from(alloc, folder, path)
}
