// A folder of the host. Its paths are relative to the folder that the program was started in.
ghost use Rattle.std.specs.Prelude.{◌≡◌, None};
ghost use Rattle.mesh_io.specs.Told.{FolderTold};

use crate::fails::IoFail;
use crate::outside::Folder;
use crate::refused::{is_absent, refused};
use mesh_base_values::{Str, Strs};
use mesh_list::Seq;
use std::alloc::Global;
use std::fs::{DirEntry, File, Metadata};
use std::io::{ErrorKind, Read};
use std::marker::Model;
use std::{fs, io};

/// How deep below the listed folder another may lie.
const MOST_DEEP: u32 = 64;

/// The bytes of the longest name that a folder of the host has.
const LONGEST_NAME: u32 = 255;

/// The bytes of the longest path that the host takes.
const LONGEST_PATH: usize = 4_095;

/// The host's files. It tells nothing of them. Contracts see it as the count of its faults.
pub struct DirFolder<'a> {
    rt: &'a HostRuntime,
    faults: u64,
}

impl Drop for DirFolder<'_> {
    fn drop(self) {
        let DirFolder { rt: _, faults: _ } = self;
    }
}

impl<'a> Model for DirFolder<'a> {
    ghost use Rattle.std.specs.Prelude.{ℕ};

    ghost Value = { ℕ };

    ghost view = { λ a. a.faults };
}

impl<'a> DirFolder<'a> {
    /// The files of the folder that the program was started in.
    pub fn new(rt: &'a HostRuntime) -> DirFolder<'a>
        ensures { result ≡ 0 }
    {
        DirFolder { rt, faults: 0 }
    }
}

/// What there is at a path, behind links, or nothing.
fn at(rt: &HostRuntime, path: &str) -> io::Result<Option<Metadata>> {
    match fs::metadata(rt, path) {
        Ok(found) => Ok(Some(found)),
        Err(error) if is_absent(error.kind()) => Ok(None),
        Err(error) => Err(error),
    }
}

/// Whether there is a link at the path.
fn is_link(rt: &HostRuntime, path: &str) -> io::Result<bool> {
    match fs::symlink_metadata(rt, path) {
        Ok(found) => Ok(found.is_symlink()),
        Err(error) if is_absent(error.kind()) => Ok(false),
        Err(error) => Err(error),
    }
}

/// Whether there is a folder at the path.
fn is_folder(rt: &HostRuntime, path: &str) -> io::Result<bool> {
    match at(rt, path)? {
        Some(found) => Ok(found.is_dir()),
        None => Ok(false),
    }
}

/// Whether there is a regular file at the path. What is another one, a pipe say, may never end, or never open.
fn is_regular(rt: &HostRuntime, path: &str) -> io::Result<bool> {
    match at(rt, path)? {
        Some(found) => Ok(found.is_file()),
        None => Ok(false),
    }
}

/// Goes through a folder and those below it.
#[derive(Drop)]
struct Walk {
    alloc: Global,
    /// How much of a path is the folder's own, with the slash.
    skip: usize,
    open: Vec<Open>,
    found: Vec<Str>,
}

/// A folder that is still to be looked into, and how deep it lies.
struct Open {
    path: String,
    depth: u32,
}

impl Drop for Open {
    fn drop(self) {
        let Open { path: _, depth: _ } = self;
    }
}

impl Walk {
    fn new(alloc: Global, dir: &str) -> io::Result<Walk> {
        let mut open = Vec::new(alloc);
        let path = String::from_str(alloc, dir)?;
        open.push(Open { path, depth: 0 })?;
        Ok(Walk {
            alloc,
            skip: if dir.ends_with('/') {
                dir.len()
            } else {
                dir.len().saturating_add(1)
            },
            open,
            found: Vec::new(alloc),
        })
    }

    /// Notes a path of the host: a folder is to be looked into, and a file is found. What is neither is passed over,
    /// and a link to a folder, so that each folder is looked into once.
    fn note(&mut self, rt: &HostRuntime, path: &str, depth: u32) -> io::Result<()> {
        match at(rt, path)? {
            Some(found) if found.is_file() => self.find(path),
            Some(found) if found.is_dir() => self.enter(rt, path, depth),
            _ => Ok(()),
        }
    }

    /// Notes a folder that is to be looked into, unless the path is a link to it.
    fn enter(&mut self, rt: &HostRuntime, path: &str, depth: u32) -> io::Result<()> {
        if !is_link(rt, path)? {
            let path = String::from_str(self.alloc, path)?;
            self.open.push(Open { path, depth })?;
        }
        Ok(())
    }

    fn find(&mut self, path: &str) -> io::Result<()> {
        match path.as_bytes().get(self.skip..) {
            Some(below) => {
                let below = Vec::from_slice(self.alloc, below)?;
                self.found.push(Seq::from_vec(below))?;
                Ok(())
            }
            None => Err(io::Error::from(ErrorKind::InvalidData)),
        }
    }

    /// Notes what an entry of a folder leads to.
    fn meet(
        &mut self,
        rt: &HostRuntime,
        entry: io::Result<DirEntry>,
        depth: u32,
    ) -> io::Result<()> {
        match entry {
            Ok(entry) => self.note(rt, entry.path().as_str(), depth),
            Err(error) => Err(error),
        }
    }

    /// Notes what a folder holds, whose paths have to be UTF-8.
    fn look(&mut self, rt: &HostRuntime, folder: &Open) -> io::Result<()> {
        if folder.depth > MOST_DEEP {
            return Err(io::Error::from(ErrorKind::InvalidData));
        }
        let deeper = folder.depth.saturating_add(1);
        let entries = match fs::read_dir(rt, folder.path.as_str()) {
            Ok(entries) => entries,
            Err(error) => return Err(error),
        };
        for entry in entries {
            if let Err(error) = self.meet(rt, entry, deeper) {
                return Err(error);
            }
        }
        Ok(())
    }

    /// Looks into one folder after another, until none is left.
    fn go(&mut self, rt: &HostRuntime) -> io::Result<()> {
        for _ in 0..u64::MAX {
            let Some(folder) = self.open.pop() else {
                break;
            };
            self.look(rt, &folder)?;
        }
        Ok(())
    }
}

fn text_of(bytes: &[u8]) -> io::Result<&str> {
    match std::str::from_utf8(bytes) {
        Ok(text) => Ok(text),
        Err(_) => Err(io::Error::from(ErrorKind::InvalidData)),
    }
}

fn list_files(rt: &HostRuntime, alloc: Global, dir: &[u8]) -> io::Result<Strs> {
    let dir = text_of(dir)?;
    if !is_folder(rt, dir)? {
        return Ok(Seq::new(alloc));
    }
    let mut walk = Walk::new(alloc, dir)?;
    walk.go(rt)?;
    let Walk {
        alloc: _,
        skip: _,
        open: _,
        mut found,
    } = walk;
    found.sort()?;
    Ok(Seq::from_vec(found))
}

/// Whether a file of the host can have the path: none has more than 4,095 bytes, a NUL byte in it, or a part of more
/// than 255 bytes.
fn names_a_file(path: &[u8]) -> bool {
    if path.len() > LONGEST_PATH {
        return false;
    }
    let mut part = 0_u32;
    for byte in path {
        part = if *byte == b'/' {
            0
        } else {
            part.saturating_add(1)
        };
        if *byte == 0 || part > LONGEST_NAME {
            return false;
        }
    }
    true
}

fn read_file(rt: &HostRuntime, alloc: Global, path: &[u8], most: u64) -> io::Result<Option<Str>> {
    let path = text_of(path)?;
    if !is_regular(rt, path)? {
        return Ok(None);
    }
    let mut bytes = Vec::new(alloc);
    File::open(rt, path)?.take(most).read_to_end(&mut bytes)?;
    Ok(Some(Seq::from_vec(bytes)))
}

impl Folder for DirFolder<'_> {
    ghost told = { λ faults. record { files = None; faults = faults } };

    fn faults(&self) -> u64 {
        self.faults
    }

    fn list(&mut self, alloc: Global, dir: &Str) -> Result<Strs, IoFail> {
        if !names_a_file(dir.as_slice()) {
            return Ok(Seq::new(alloc));
        }
        match list_files(self.rt, alloc, dir.as_slice()) {
            Ok(paths) => Ok(paths),
            Err(error) => Err(refused(&mut self.faults, error.kind())),
        }
    }

    fn read(&mut self, alloc: Global, path: &Str, most: u64) -> Result<Option<Str>, IoFail> {
        if !names_a_file(path.as_slice()) {
            return Ok(None);
        }
        match read_file(self.rt, alloc, path.as_slice(), most) {
            Ok(found) => Ok(found),
            Err(error) => {
                if is_absent(error.kind()) {
                    return Ok(None);
                }
                Err(refused(&mut self.faults, error.kind()))
            }
        }
    }
}
