// Renames that are found by the references that they name, and what they make of references.
ghost use Rattle.std.specs.Prelude.{◌≡◌, ◌++◌, ◌∷◌, [], IfOk, OnOk, map};
ghost use Rattle.mesh_base.specs.Keys.{ref_cmp, refs_exact, refs_total};
ghost use Rattle.mesh_house_book.specs.moves.Renames.{renamed};
ghost use Rattle.mesh_janitor.specs.migrate.Walk.{entry_old, renames_of};

use crate::snapshots::reference;
use mesh_base::{Ref, Refs, Rename, Snapshot};
use mesh_list::{Duplicate, Keyed, Memory, Register, Seq, push_made};
use std::alloc::Global;
use std::cmp::Ordering;

/// Found by the reference that it names.
pub(crate) type Entries = Register<Entry>;

/// A rename of a map.
pub(crate) struct Entry {
    pub(crate) rename: Rename,
}

impl Drop for Entry {
    fn drop(self) {
        let Entry { rename: _ } = self;
    }
}

impl Keyed for Entry {
    type Key = Ref;

    ghost key = { entry_old };

    ghost order = { ref_cmp };

    fn compare(&self, other: &Ref) -> Ordering {
        self.rename.old.compare(other)
    }

    fn against(&self, other: &Entry) -> Ordering {
        self.rename.old.compare(&other.rename.old)
    }

    ghost total = { refs_total };

    ghost exact = { refs_exact };
}

/// The fingerprint that the map gives a reference.
pub(crate) fn new_fingerprint(entries: &Entries, r: &Ref) -> [u8; 32]
    ensures { result ≡ (renamed (renames_of entries.now) r.now).fingerprint }
{
    match entries.find(r) {
        None => r.fingerprint,
        Some(found) => found.rename.new,
    }
}

fn renamed(entries: &Entries, r: &Ref) -> Result<Ref, Memory>
    ensures { IfOk result (λ made. made ≡ renamed (renames_of entries.now) r.now) }
{
    Ok(Ref {
        name: r.name.copy()?,
        fingerprint: new_fingerprint(entries, r),
    })
}

/// The references with the fingerprints that the map gives them.
pub(crate) fn renamed_refs(entries: &Entries, refs: &Refs) -> Result<Refs, Memory>
    ensures { IfOk result (λ made. made ≡ map (renamed (renames_of entries.now)) refs.now) }
{
    let mut made = Seq::new(refs.alloc());
    for r in refs.as_slice() {
        push_made(&mut made, renamed(entries, r))?;
    }
    Ok(made)
}

fn push_own(entries: &mut Vec<Entry>, s: &Snapshot) -> Result<(), Memory> {
    let old = reference(s)?;
    entries.push(Entry {
        rename: Rename {
            old,
            new: s.fingerprint,
        },
    })?;
    Ok(())
}

/// Each snapshot with the fingerprint that it has. They are written over, so that nothing moves.
pub(crate) fn own_entries(alloc: Global, all: &[Snapshot]) -> Result<Entries, Memory> {
    let mut entries = Vec::new(alloc);
    for s in all {
        push_own(&mut entries, s)?;
    }
    Ok(Register::from_vec(entries))
}
