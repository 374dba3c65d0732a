// The files of audits, one after the other.
ghost use Rattle.std.specs.Prelude.{◌≡◌, ◌++◌, ◌∷◌, [], IfOk, IsErrOf, Ok, filter, map};
ghost use Rattle.mesh_project_files.specs.Loading.{Asks, AsksAs};
ghost use Rattle.mesh_project_files.specs.Places.{is_sql};
ghost use Rattle.mesh_project_files.specs.declared.faults.LoadFault.TheVariants as fault;
ghost use Rattle.mesh_audit_files.specs.Files.{AreAuditFiles, IsAdded, IsContentAdded, IsFileAdded, IsRight, IsRightFor, IsTextAdded, audit_name, audit_paths};
ghost use Rattle.mesh_audit_files.specs.Listing.{plain};
ghost use Rattle.mesh_audit_files.specs.Walks.{Along};

use crate::files::{AuditFile, AuditFiles};
use crate::listings::{Listing, goes_by};
use crate::queries::query_for;
use crate::text::read_audit;
use mesh_base_values::{LARGEST_FILE, Str, Strs};
use mesh_io::Folder;
use mesh_list::{Duplicate, Memory, Seq, push_made};
use mesh_project_files::{LoadFault, in_dir, in_file, is_sql, read_within, under};
use mesh_resolve::Known;
use std::alloc::Global;

// A file's query is right for a model that lists it.
fn right_for(alloc: Global, known: &Known, f: &AuditFile, l: &Listing) -> Result<(), LoadFault>
    ensures says { IsRightFor known.now f.now tt (plain l.now) result }
    ensures alone { IsErrOf result fault.Folder → ⊥ }
{
    match query_for(alloc, known, f, &l.model.own.name) {
        Ok(query) => {
            drop(query);
            Ok(())
        }
        Err(fault) => Err(fault),
    }
}

// A file's query is right for each of the models that list it.
fn right(alloc: Global, known: &Known, all: &[Listing], f: &AuditFile) -> Result<(), LoadFault>
    ensures says { IsRight known.now (map plain all.now) f.now result }
    ensures alone { IsErrOf result fault.Folder → ⊥ }
{
    for l in all {
        if goes_by(f.text.name.as_slice(), l) {
            if let Err(fault) = right_for(alloc, known, f, l) {
                return Err(fault);
            }
        }
    }
    Ok(())
}

fn pushed(done: AuditFiles, f: AuditFile) -> Result<AuditFiles, Memory>
    ensures { IfOk result (λ more. more ≡ done ++ f ∷ []) }
{
    let mut more = done;
    more.push(f)?;
    Ok(more)
}

// An audit's file, behind those so far.
fn added(
    alloc: Global,
    known: &Known,
    all: &[Listing],
    done: AuditFiles,
    f: AuditFile,
) -> Result<AuditFiles, LoadFault>
    ensures says { IsAdded known.now (map plain all.now) done f result }
    ensures alone { IsErrOf result fault.Folder → ⊥ }
{
    match right(alloc, known, all, &f) {
        Ok(()) => Ok(pushed(done, f)?),
        Err(fault) => Err(fault),
    }
}

fn names_of(alloc: Global, files: &[AuditFile]) -> Result<Strs, Memory>
    ensures { IfOk result (λ names. names ≡ map audit_name files.now) }
{
    let mut names = Seq::new(alloc);
    for f in files {
        push_made(&mut names, f.text.name.copy())?;
    }
    Ok(names)
}

fn text_added(
    alloc: Global,
    known: &Known,
    all: &[Listing],
    done: AuditFiles,
    file: Str,
    bytes: &Str,
) -> Result<AuditFiles, LoadFault>
    ensures says { IsTextAdded known.now (map plain all.now) done file bytes.now result }
    ensures alone { IsErrOf result fault.Folder → ⊥ }
{
    let taken = names_of(alloc, done.as_slice())?;
    match in_file(&file, read_audit(alloc, taken.as_slice(), bytes.as_slice())) {
        Ok(text) => added(alloc, known, all, done, AuditFile { file, text }),
        Err(fault) => Err(fault),
    }
}

fn content_added(
    alloc: Global,
    known: &Known,
    all: &[Listing],
    done: AuditFiles,
    file: Str,
    content: Option<Str>,
) -> Result<AuditFiles, LoadFault>
    ensures says { IsContentAdded known.now (map plain all.now) done file content result }
    ensures alone { IsErrOf result fault.Folder → ⊥ }
{
    match content {
        None => Ok(done),
        Some(bytes) => text_added(alloc, known, all, done, file, &bytes),
    }
}

// The file of a path below `audits`, behind those so far.
fn file_added<F: Folder>(
    alloc: Global,
    folder: &mut F,
    dir: &Str,
    known: &Known,
    all: &[Listing],
    done: AuditFiles,
    path: &Str,
) -> Result<AuditFiles, LoadFault>
    ensures { AsksAs (λ fs. IsFileAdded fs dir.now known.now (map plain all.now) done path.now) (F.told folder.old) (F.told folder.new) result }
{
    let file = under(alloc, b"audits", path.as_slice())?;
    let content = read_within(alloc, folder, dir, &file, b"file", LARGEST_FILE)?;
    content_added(alloc, known, all, done, file, content)
}

// The files of these paths below `audits`.
fn files_at<F: Folder>(
    alloc: Global,
    folder: &mut F,
    dir: &Str,
    known: &Known,
    all: &[Listing],
    paths: &[Str],
) -> Result<AuditFiles, LoadFault>
    ensures { AsksAs (λ fs. Along (IsFileAdded fs dir.now known.now (map plain all.now)) [] paths.now) (F.told folder.old) (F.told folder.new) result }
{
    let mut done: AuditFiles = Seq::new(alloc);
    for path in paths {
        match file_added(alloc, folder, dir, known, all, done, path) {
            Ok(more) => done = more,
            Err(fault) => return Err(fault),
        }
    }
    Ok(done)
}

fn only_sql(alloc: Global, paths: &[Str]) -> Result<Strs, Memory>
    ensures { IfOk result (λ kept. kept ≡ filter is_sql paths.now) }
{
    let mut kept = Seq::new(alloc);
    for path in paths {
        if is_sql(path) {
            push_made(&mut kept, path.copy())?;
        }
    }
    Ok(kept)
}

fn paths_below<F: Folder>(alloc: Global, folder: &mut F, dir: &Str) -> Result<Strs, LoadFault>
    ensures { Asks (λ fs. Ok (audit_paths fs dir.now)) (F.told folder.old) (F.told folder.new) result }
{
    let audits = in_dir(alloc, dir.as_slice(), b"audits")?;
    let paths = folder.list(alloc, &audits)?;
    let kept = only_sql(alloc, paths.as_slice())?;
    Ok(kept)
}

/// The files of audits below `audits` that end in `.sql`.
pub(crate) fn audit_files<F: Folder>(
    alloc: Global,
    folder: &mut F,
    dir: &Str,
    known: &Known,
    all: &[Listing],
) -> Result<AuditFiles, LoadFault>
    ensures { AsksAs (λ fs. AreAuditFiles fs dir.now known.now (map plain all.now)) (F.told folder.old) (F.told folder.new) result }
{
    let paths = paths_below(alloc, folder, dir)?;
    files_at(alloc, folder, dir, known, all, paths.as_slice())
}
