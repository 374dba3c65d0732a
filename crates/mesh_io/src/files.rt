// Files, and what is asked of several.
ghost use Rattle.std.specs.Prelude.{◌≡◌, ◌++◌, ◌≤◌, IsTrue, length, take, OnOk, OnErr, IfOk};
ghost use Rattle.std.specs.Option.{option_copied};
ghost use Rattle.mesh_list.specs.Keyed.{found, placed};
ghost use Rattle.mesh_base_values.specs.Names.{text_cmp};
ghost use Rattle.mesh_io.specs.Files.{path_of, after_slash, below, same_path, listing, are_ascending, ListsExactly, are_distinct};

use mesh_base_values::{Str, Strs};
use mesh_list::{Duplicate, Memory, Same, Seq, both};
use std::alloc::Global;
use std::cmp::Ordering;
use std::mem;

/// A file: its path, which is the names of its folders and its own, joined by `/`, and what it holds.
#[derive(PartialEq, Eq)]
pub struct File {
    pub path: Str,
    pub bytes: Str,
}

impl Drop for File {
    fn drop(self) {
        let File { path: _, bytes: _ } = self;
    }
}

/// The files of a folder.
pub type Files = Seq<File>;

impl Duplicate for File {
    fn copy(&self) -> Result<File, Memory> {
        let (path, bytes) = both(&self.path, &self.bytes)?;
        Ok(File { path, bytes })
    }
}

impl Same for File {
    fn same(&self, other: &File) -> bool {
        self == other
    }
}

/// The order of two paths, by their bytes.
pub fn compare(left: &Str, right: &Str) -> Ordering
    ensures { result ≡ text_cmp left.now right.now }
{
    left.as_slice().cmp(&right.as_slice())
}

/// The file of that path.
pub fn find_file<'a>(files: &'a [File], path: &Str) -> Option<&'a File>
    ensures { option_copied result ≡ found text_cmp path_of path.now files.now }
{
    for file in files {
        if compare(&file.path, path).is_eq() {
            return Some(file);
        }
    }
    None
}

/// Whether no two files have one path.
pub fn are_distinct(files: &[File]) -> bool
    ensures { result ≡ are_distinct files.now }
{
    let mut distinct = true;
    let mut at = files.len();
    while at > 0 {
        at -= 1;
        distinct = find_file(&files[at + 1..], &files[at].path).is_none() && distinct;
    }
    distinct
}

fn after_slash(text: &[u8]) -> Option<&[u8]>
    ensures { option_copied result ≡ after_slash text.now }
{
    match text {
        [b'/', rest @ ..] => Some(rest),
        _ => None,
    }
}

/// What the path has after the folder and a slash, where it begins with them.
pub fn below<'a>(dir: &[u8], path: &'a [u8]) -> Option<&'a [u8]>
    ensures { option_copied result ≡ below dir.now path.now }
{
    if path.starts_with(dir) {
        after_slash(&path[dir.len()..])
    } else {
        None
    }
}

/// The paths below the folder, relative to it, in ascending order of their bytes.
#[tactic(auto, using(crate::proofs::Listed::listed_laws))]
pub fn list_below(alloc: Global, dir: &[u8], files: &[File]) -> Result<Strs, Memory>
    ensures paths { IfOk result (λ paths. paths ≡ listing dir.now files.now) }
    ensures exact { IfOk result (ListsExactly dir.now files.now) }
    ensures ascending { IfOk result (λ paths. IsTrue (are_ascending paths)) }
{
    let mut paths = Vec::new(alloc);
    let mut at = files.len();
    while at > 0 {
        at -= 1;
        if let Some(path) = below(dir, files[at].path.as_slice()) {
            place_path(&mut paths, copy_bytes(alloc, path)?)?;
        }
    }
    Ok(Seq::from_vec(paths))
}

/// A copy of the bytes.
pub fn copy_bytes(alloc: Global, bytes: &[u8]) -> Result<Str, Memory>
    ensures { IfOk result (λ made. made ≡ bytes.now) }
{
    match Vec::from_slice(alloc, bytes) {
        Ok(made) => Ok(Seq::from_vec(made)),
        Err(_) => Err(Memory),
    }
}

/// Puts the path at its place among others, once.
fn place_path(paths: &mut Vec<Str>, path: Str) -> Result<(), Memory>
    ensures ok { OnOk result (paths.new.items ≡ placed text_cmp same_path path paths.old.items) }
    ensures err { OnErr result (paths.new.items ≡ paths.old.items) }
{
    for i in 0..paths.len() {
        match compare(&paths[i], &path) {
            Ordering::Equal => {
                paths[i] = path;
                return Ok(());
            }
            Ordering::Greater => {
                return match paths.insert(i, path) {
                    Ok(()) => Ok(()),
                    Err(_) => Err(Memory),
                };
            }
            Ordering::Less => {}
        }
    }
    match paths.push(path) {
        Ok(()) => Ok(()),
        Err(_) => Err(Memory),
    }
}

/// The first `most` bytes.
pub fn first_bytes(alloc: Global, bytes: &[u8], most: u64) -> Result<Str, Memory>
    ensures made { IfOk result (λ made. made ≡ take most bytes.now) }
    ensures within { IfOk result (λ made. length made ≤ length bytes.now) }
{
    let most = most as usize;
    if most < bytes.len() {
        copy_bytes(alloc, &bytes[..most])
    } else {
        copy_bytes(alloc, bytes)
    }
}

/// Puts the piece at the end. At `Err` nothing has changed.
pub fn append(bytes: &mut Str, piece: &[u8]) -> Result<(), Memory>
    ensures ok { OnOk result (bytes.new ≡ bytes.old ++ piece.now) }
    ensures err { OnErr result (bytes.new ≡ bytes.old) }
{
    let empty = Seq::new(bytes.alloc());
    let mut all = mem::replace(bytes, empty).into_vec();
    let appended = all.extend_from_slice(piece).is_ok();
    *bytes = Seq::from_vec(all);
    if appended { Ok(()) } else { Err(Memory) }
}
