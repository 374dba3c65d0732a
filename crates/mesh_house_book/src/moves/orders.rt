// Snapshots in order of their names and fingerprints.
ghost use Rattle.std.specs.Prelude.{◌≡◌, true, false, IfOk};
ghost use Rattle.std.specs.List.Sorted.{IsPermutation, IsSortedBy};
ghost use Rattle.std.specs.Ordering.{is_lt};
ghost use Rattle.mesh_list.specs.Keyed.{ascends};
ghost use Rattle.mesh_base.specs.Keys.{ref_cmp, snapshot_ref};

use mesh_base::Snapshot;
use mesh_list::{Keyed, Memory};

/// The snapshots by their names and fingerprints.
pub(crate) fn sorted(snapshots: Vec<Snapshot>) -> Result<Vec<Snapshot>, Memory>
    ensures moved { IfOk result (λ all. IsPermutation snapshots.items all.items) }
    ensures order { IfOk result (λ all. IsSortedBy (λ x y. is_lt (ref_cmp (snapshot_ref x) (snapshot_ref y))) all.items) }
{
    let mut all = snapshots;
    all.sort_by(|a, b| a.against(b))?;
    Ok(all)
}

/// Whether each name and fingerprint is below the next.
pub(crate) fn ascend(snapshots: &[Snapshot]) -> bool
    ensures { result ≡ ascends ref_cmp snapshot_ref snapshots.now }
{
    for (i, s) in snapshots.iter().enumerate() {
        if i > 0 && !snapshots[i - 1].against(s).is_lt() {
            return false;
        }
    }
    true
}
