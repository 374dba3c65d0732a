// A folder in memory, whose calls fail by a list.
ghost use Rattle.std.specs.Prelude.{◌≡◌, true, take, Err, IsTrue, IfOk, OnOk, OnErr};
ghost use Rattle.std.specs.Option.{option_map};
ghost use Rattle.mesh_io.specs.Files.{bytes_at, listing, are_ascending, ListsExactly, are_distinct, rewritten, deleted, ChangesBytes, LosesBytes};
ghost use Rattle.mesh_io.specs.Told.{FolderTold, FolderAnswers};
ghost use Rattle.mesh_io.specs.Calls.{fails_next, after_call, no_calls, renumbered};
ghost use Rattle.mesh_io.specs.Held.{folder_told};

use crate::calls::{Calls, Numbers};
use crate::fails::IoFail;
use crate::files::{File, Files, compare, find_file, first_bytes, list_below};
use crate::outside::Folder;
use mesh_base_values::{Str, Strs};
use mesh_list::{Memory, Seq};
use std::alloc::Global;
use std::marker::Model;

/// Files in memory, no two of one path. It tells them, and the calls with listed numbers fail, and no others.
pub struct MemFolder {
    files: Vec<File>,
    calls: Calls,
}

impl Drop for MemFolder {
    fn drop(self) {
        let MemFolder { files: _, calls: _ } = self;
    }
}

impl Model for MemFolder {
    ghost use Rattle.std.specs.Prelude.{true, ◌≡◌};
    ghost use Rattle.mesh_io.specs.Held.{FolderHeld};
    ghost use Rattle.mesh_io.specs.Files.{are_distinct};

    ghost Value = { FolderHeld };

    ghost view = { λ f. record { files = f.files.items; calls = f.calls } };

    ghost invariant = { λ f. are_distinct f.files.items ≡ true };
}

impl MemFolder {
    /// A folder of these files, whose calls of these numbers, counted from 0, are to fail.
    pub fn new(files: Files, fails: Numbers) -> MemFolder
        requires { IsTrue (are_distinct files) }
        ensures { result ≡ record { files = files; calls = no_calls fails } }
    {
        MemFolder {
            files: files.into_vec(),
            calls: Calls::new(fails),
        }
    }

    /// Counts the calls from 0 anew, of which these are to fail. The count of faults stays.
    pub fn set_fails(&mut self, fails: Numbers)
        ensures { self.new ≡ record self.old { calls = renumbered fails self.old.calls } }
    {
        self.calls.renumber(fails);
    }

    /// Replaces the file of that path, or adds it. This is no call.
    #[tactic(auto, using(crate::proofs::Edited::edited_laws))]
    pub fn write(&mut self, file: File) -> Result<(), Memory>
        ensures ok { OnOk result (self.new ≡ record self.old { files = rewritten file self.old.files }) }
        ensures reads { OnOk result (ChangesBytes file self.old.files self.new.files) }
        ensures err { OnErr result (self.new ≡ self.old) }
    {
        write_in(&mut self.files, file)?;
        Ok(())
    }

    /// Removes the file of that path, if there is one. This is no call.
    #[tactic(auto, using(crate::proofs::Edited::edited_laws))]
    pub fn delete(&mut self, path: &Str)
        ensures files { self.new ≡ record self.old { files = deleted path.now self.old.files } }
        ensures reads { LosesBytes path.now self.old.files self.new.files }
    {
        delete_in(&mut self.files, path)
    }
}

fn write_in(files: &mut Vec<File>, file: File) -> Result<(), Memory>
    ensures ok { OnOk result (files.new.items ≡ rewritten file files.old.items) }
    ensures err { OnErr result (files.new.items ≡ files.old.items) }
{
    for i in 0..files.len() {
        if compare(&files[i].path, &file.path).is_eq() {
            files[i] = file;
            return Ok(());
        }
    }
    match files.push(file) {
        Ok(()) => Ok(()),
        Err(_) => Err(Memory),
    }
}

fn delete_in(files: &mut Vec<File>, path: &Str)
    ensures { files.new.items ≡ deleted path.now files.old.items }
{
    for i in 0..files.len() {
        if compare(&files[i].path, path).is_eq() {
            let _file = files.remove(i);
            return;
        }
    }
}

impl Folder for MemFolder {
    ghost told = { folder_told };

    fn faults(&self) -> u64 {
        self.calls.faults
    }

    fn list(&mut self, alloc: Global, dir: &Str) -> Result<Strs, IoFail>
        ensures told { FolderAnswers (λ files. listing dir.now files)
            (folder_told self.old) (folder_told self.new) result }
        ensures listed { result ≡ Err IoFail.Failed → IsTrue (fails_next self.old.calls) }
        ensures only { IsTrue (fails_next self.old.calls) → result ≡ Err IoFail.Failed }
        ensures held { self.new ≡ record self.old { calls = after_call self.old.calls } }

        ensures exact { IfOk result (ListsExactly dir.now self.old.files) }
        ensures ascending { IfOk result (λ paths. IsTrue (are_ascending paths)) }
    {
        if self.calls.come() {
            return Err(IoFail::Failed);
        }
        Ok(list_below(alloc, dir.as_slice(), self.files.as_slice())?)
    }

    fn read(&mut self, alloc: Global, path: &Str, most: u64) -> Result<Option<Str>, IoFail>
        ensures told { FolderAnswers (λ files. option_map (take most) (bytes_at path.now files))
            (folder_told self.old) (folder_told self.new) result }
        ensures listed { result ≡ Err IoFail.Failed → IsTrue (fails_next self.old.calls) }
        ensures only { IsTrue (fails_next self.old.calls) → result ≡ Err IoFail.Failed }
        ensures held { self.new ≡ record self.old { calls = after_call self.old.calls } }
    {
        if self.calls.come() {
            return Err(IoFail::Failed);
        }
        match find_file(self.files.as_slice(), path) {
            Some(file) => Ok(Some(first_bytes(alloc, file.bytes.as_slice(), most)?)),
            None => Ok(None),
        }
    }
}
