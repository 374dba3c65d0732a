// Values at the end of a list.
ghost use Rattle.std.specs.Prelude.{◌≡◌, [], ◌∷◌, ◌++◌, Ok, OnOk};

use crate::memory::Memory;
use crate::seqs::Seq;

/// Puts the value of an answer at the end, where it has one.
pub fn push_made<T: Drop>(list: &mut Seq<T>, item: Result<T, Memory>) -> Result<(), Memory>
    ensures { OnOk result ((x : T) × (item ≡ Ok x) × (list.new ≡ list.old ++ x ∷ [])) }
{
    let x = item?;
    list.push(x)
}
