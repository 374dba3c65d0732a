// References to snapshots, and their ranks.
ghost use Rattle.std.specs.Prelude.{◌≡◌, IfOk, OnOk};
ghost use Rattle.mesh_list.specs.Keyed.{placed};
ghost use Rattle.mesh_base.specs.Keys.{ref_cmp, ref_itself, snapshot_ref};
ghost use Rattle.mesh_house_book.specs.Changes.{with_refs};
ghost use Rattle.mesh_janitor.specs.migrate.Walk.{limit_above, limit_from};

use mesh_base::{Ref, Snapshot};
use mesh_list::{Duplicate, Memory, Register};

/// The reference of a snapshot.
pub(crate) fn reference(s: &Snapshot) -> Result<Ref, Memory>
    ensures { IfOk result (λ r. r ≡ snapshot_ref s.now) }
{
    Ok(Ref {
        name: s.name.copy()?,
        fingerprint: s.fingerprint,
    })
}

fn add_ref(r: &Ref, all: &mut Register<Ref>) -> Result<(), Memory>
    ensures { OnOk result (all.new ≡ placed ref_cmp ref_itself r.now all.old) }
{
    all.place(r.copy()?)
}

/// Some references come to others.
pub(crate) fn add_refs(refs: &[Ref], all: &mut Register<Ref>) -> Result<(), Memory>
    ensures { OnOk result (all.new ≡ with_refs all.old refs.now) }
{
    for r in refs {
        add_ref(r, all)?;
    }
    Ok(())
}

fn higher(limit: u64, rank: u32) -> u64
    ensures { result ≡ limit_above limit rank }
{
    if limit <= rank as u64 {
        rank as u64 + 1
    } else {
        limit
    }
}

/// A number that is above each rank.
pub(crate) fn rank_limit(all: &[Snapshot]) -> u64
    ensures { result ≡ limit_from 0 all.now }
{
    let mut limit = 0;
    for s in all {
        limit = higher(limit, s.rank);
    }
    limit
}
