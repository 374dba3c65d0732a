// Renames that are looked up by the references that they name.
ghost use Rattle.std.specs.Prelude.{◌≡◌, ◌++◌, ◌∷◌, [], IfOk};
ghost use Rattle.mesh_base.specs.Keys.{ref_cmp, refs_exact, refs_total};
ghost use Rattle.mesh_house_book.specs.moves.Moves.{move_old, renames_of};

use mesh_base::{Ref, Rename};
use mesh_list::{Duplicate, Keyed, Memory, Register};
use std::alloc::Global;
use std::cmp::Ordering;

/// Found by the reference that it names.
pub(crate) type Moves = Register<Move>;

/// A rename of a map.
pub(crate) struct Move {
    pub(crate) rename: Rename,
}

impl Drop for Move {
    fn drop(self) {
        let Move { rename: _ } = self;
    }
}

impl Keyed for Move {
    type Key = Ref;

    ghost key = { move_old };

    ghost order = { ref_cmp };

    fn compare(&self, other: &Ref) -> Ordering {
        self.rename.old.compare(other)
    }

    fn against(&self, other: &Move) -> Ordering {
        self.rename.old.compare(&other.rename.old)
    }

    ghost total = { refs_total };

    ghost exact = { refs_exact };
}

/// The renames of a map.
pub(crate) fn moves_of(alloc: Global, renames: &[Rename]) -> Result<Moves, Memory>
    ensures { IfOk result (λ moves. renames_of moves ≡ renames.now) }
{
    let mut moves = Vec::new(alloc);
    for rename in renames {
        push_move(&mut moves, rename)?;
    }
    Ok(Register::from_vec(moves))
}

fn push_move(moves: &mut Vec<Move>, rename: &Rename) -> Result<(), Memory>
    ensures { IfOk result (λ _. moves.new.items ≡ moves.old.items ++ record { rename = rename.now } ∷ []) }
{
    moves.push(Move {
        rename: rename.copy()?,
    })?;
    Ok(())
}
