// The map of a book.
ghost use Rattle.std.specs.Prelude.{◌≡◌, ◌++◌, ◌∷◌, [], true, None, IfOk, IfErr, OnOk, map};
ghost use Rattle.mesh_house_book.specs.WellFormed.{is_well_formed_book};
ghost use Rattle.mesh_janitor.specs.migrate.Migration.{IsMap, IsRefused, first_twins};
ghost use Rattle.mesh_janitor.specs.migrate.Walk.{layers, limit_from, rename_at, renames_of};

use crate::migrate::entries::{Entries, new_fingerprint, own_entries};
use crate::migrate::fault::MigrationFault;
use crate::migrate::twins::without_twins;
use crate::migrate::walk::put_all;
use crate::snapshots::reference;
use mesh_base::{Rename, Renames, Snapshot};
use mesh_house_book::Book;
use mesh_list::{Memory, Seq};
use std::alloc::Global;

fn push_rename(entries: &Entries, s: &Snapshot, made: &mut Renames) -> Result<(), Memory>
    ensures { OnOk result (made.new ≡ made.old ++ rename_at (renames_of entries.now) s.now ∷ []) }
{
    let old = reference(s)?;
    let new = new_fingerprint(entries, &old);
    made.push(Rename { old, new })
}

// Each snapshot with the fingerprint that the entries have.
fn listed(alloc: Global, entries: &Entries, all: &[Snapshot]) -> Result<Renames, Memory>
    ensures { IfOk result (λ made. made ≡ map (rename_at (renames_of entries.now)) all.now) }
{
    let mut made = Seq::new(alloc);
    for s in all {
        push_rename(entries, s, &mut made)?;
    }
    Ok(made)
}

// The map, with or without twins.
fn map_of(alloc: Global, b: &Book) -> Result<Renames, Memory>
    requires { is_well_formed_book b.now ≡ true }
    ensures { IfOk result (λ renames. IsMap b.now renames) }
{
    let all = b.snapshots.as_slice();
    let mut entries = own_entries(alloc, all)?;
    put_all(&mut entries, all)?;
    let renames = listed(alloc, &entries, all)?;
    Ok(renames)
}

/// The map of a book: each snapshot's new fingerprint. `Twins` tells the first snapshot in the book's order that
/// would get the name and fingerprint of a later one, with the first such later one.
pub fn book_renames(alloc: Global, b: &Book) -> Result<Renames, MigrationFault>
    requires { is_well_formed_book b.now ≡ true }
    ensures map { IfOk result (λ renames. IsMap b.now renames) }
    ensures apart { IfOk result (λ renames. first_twins renames ≡ None) }
    ensures refused { IfErr result (λ fault. IsRefused b.now fault) }
{
    match map_of(alloc, b) {
        Err(_) => Err(MigrationFault::Memory),
        Ok(renames) => match without_twins(renames.as_slice()) {
            Ok(()) => Ok(renames),
            Err(fault) => Err(fault),
        },
    }
}
