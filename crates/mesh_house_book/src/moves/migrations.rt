// Snapshots that get other fingerprints, and the book that names them.
ghost use Rattle.std.specs.Prelude.{◌≡◌, IfOk, OnOk, OnErr};
ghost use Rattle.std.specs.List.Sorted.{IsPermutation, IsSortedBy};
ghost use Rattle.std.specs.Ordering.{is_lt};
ghost use Rattle.mesh_base.specs.Keys.{ref_cmp, snapshot_ref};
ghost use Rattle.mesh_house_book.specs.moves.Moves.{renames_of};
ghost use Rattle.mesh_house_book.specs.moves.Renames.{migrate, renamed_all};

use crate::moves::moves::{Moves, moves_of};
use crate::moves::orders::{ascend, sorted};
use crate::moves::renames::{renamed_envs, renamed_snapshots};
use crate::{BOOK_VERSION, Book};
use mesh_base::{Rename, Snapshot};
use mesh_list::{Memory, Register, together};

/// Each snapshot that the map names by its name and fingerprint gets its new fingerprint, also in parents and in the
/// lists of environments, and the book's version is 2 then. A map that would give two snapshots of one name one
/// fingerprint changes nothing. Of two renames of one reference the first counts.
pub fn migrate(book: &mut Book, renames: &[Rename]) -> Result<(), Memory>
    ensures ok { OnOk result (book.new ≡ migrate book.old renames.now) }
    ensures err { OnErr result (book.new ≡ book.old) }
{
    let moves = moves_of(book.snapshots.alloc(), renames)?;
    let (snapshots, environments) = together(
        moved(&moves, book),
        renamed_envs(
            book.environments.alloc(),
            &moves,
            book.environments.as_slice(),
        ),
    )?;
    if !ascend(snapshots.as_slice()) {
        return Ok(());
    }
    book.version = BOOK_VERSION;
    book.snapshots = Register::from_vec(snapshots);
    book.environments = Register::from_vec(environments);
    Ok(())
}

// The snapshots with their new fingerprints, by these.
fn moved(moves: &Moves, book: &Book) -> Result<Vec<Snapshot>, Memory>
    ensures moved { IfOk result (λ all. IsPermutation (renamed_all (renames_of moves.now) book.now.snapshots) all.items) }
    ensures order { IfOk result (λ all. IsSortedBy (λ x y. is_lt (ref_cmp (snapshot_ref x) (snapshot_ref y))) all.items) }
{
    let made = renamed_snapshots(book.snapshots.alloc(), moves, book.snapshots.as_slice())?;
    sorted(made)
}
