// The new fingerprints, one rank after another: what a snapshot stands on has a lower rank.
ghost use Rattle.std.specs.Prelude.{◌≡◌, IfOk, OnOk};
ghost use Rattle.mesh_janitor.specs.migrate.Migration.{fingerprint_by, rename_by};
ghost use Rattle.mesh_janitor.specs.migrate.Walk.{layer, layers, limit_from, put, renames_of};

use crate::migrate::entries::{Entries, Entry, renamed_refs};
use crate::snapshots::{rank_limit, reference};
use mesh_base::{Rename, Snapshot};
use mesh_canon::fingerprint::fingerprint;
use mesh_canon_text::node_text;
use mesh_list::Memory;

fn fingerprint_by(entries: &Entries, s: &Snapshot) -> Result<[u8; 32], Memory>
    ensures { IfOk result (λ made. made ≡ fingerprint_by (renames_of entries.now) s.now) }
{
    let parents = renamed_refs(entries, &s.parents)?;
    let text = node_text(parents.alloc(), &s.own, &parents)?;
    fingerprint(text.as_slice())
}

fn rename_by(entries: &Entries, s: &Snapshot) -> Result<Rename, Memory>
    ensures { IfOk result (λ made. made ≡ rename_by (renames_of entries.now) s.now) }
{
    let new = fingerprint_by(entries, s)?;
    let old = reference(s)?;
    Ok(Rename { old, new })
}

fn put(entries: &mut Entries, s: &Snapshot) -> Result<(), Memory>
    ensures { OnOk result (renames_of entries.new ≡ put (renames_of entries.old) s.now) }
{
    let rename = rename_by(entries, s)?;
    entries.place(Entry { rename })?;
    Ok(())
}

// The snapshots of one rank.
fn put_layer(entries: &mut Entries, rank: u64, all: &[Snapshot]) -> Result<(), Memory>
    ensures { OnOk result (renames_of entries.new ≡ layer rank all.now (renames_of entries.old)) }
{
    for s in all {
        if s.rank as u64 == rank {
            put(entries, s)?;
        }
    }
    Ok(())
}

/// Puts the new fingerprint of each snapshot in place, from the lowest rank up.
pub(crate) fn put_all(entries: &mut Entries, all: &[Snapshot]) -> Result<(), Memory>
    ensures { OnOk result (renames_of entries.new ≡ layers (limit_from 0 all.now) all.now (renames_of entries.old)) }
{
    let limit = rank_limit(all);
    for rank in 0..limit {
        put_layer(entries, rank, all)?;
    }
    Ok(())
}
