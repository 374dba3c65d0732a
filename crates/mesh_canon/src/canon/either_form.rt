// Definitions, in their canonical text or in their former one.
ghost use Rattle.std.specs.Prelude.{◌≡◌, ◌⊎◌, true, IfOk, Ok, Some};
ghost use Rattle.mesh_base.specs.declared.definitions.Own.{Own};
ghost use Rattle.mesh_canon_words.specs.Words.{Gives};
ghost use Rattle.mesh_canon_reading.specs.Fits.{is_own};
ghost use Rattle.mesh_canon.specs.canon.Forms.{IsOwnText};

use crate::canon::definition_reading::{read_own, read_own_old};
use mesh_base::Own;
use mesh_canon_words::CanonFault;
use mesh_list::Same;
use std::alloc::Global;

// The definition that a text says, as it is read both ways. What either way says of it holds; a text that is read both
// ways says one definition, so that two are never met.
fn chosen(now: Result<Own, CanonFault>, former: Result<Own, CanonFault>) -> Result<Own, CanonFault>
    ensures from { IfOk result (λ m. (now ≡ Ok m) ⊎ (former ≡ Ok m)) }
    ensures now { (m : Own) → Gives (λ x. x) now (Some m) → Gives (λ x. x) result (Some m) }
    ensures former { (m : Own) → Gives (λ x. x) former (Some m) → Gives (λ x. x) result (Some m) }
{
    match now {
        Ok(first) => agreed(first, former),
        Err(CanonFault::NotCanonical) => former,
        Err(CanonFault::Memory) => {
            drop(former);
            Err(CanonFault::Memory)
        }
    }
}

// The same where the canonical text is of a definition.
fn agreed(first: Own, former: Result<Own, CanonFault>) -> Result<Own, CanonFault>
    ensures from { IfOk result (λ m. m ≡ first) }
    ensures now { Gives (λ x. x) result (Some first) }
    ensures former { (m : Own) → Gives (λ x. x) former (Some m) → Gives (λ x. x) result (Some m) }
{
    match former {
        Ok(second) => {
            let is_one = first.same(&second);
            drop(second);
            if is_one {
                Ok(first)
            } else {
                drop(first);
                Err(CanonFault::Memory)
            }
        }
        Err(CanonFault::NotCanonical) => Ok(first),
        Err(CanonFault::Memory) => {
            drop(first);
            Err(CanonFault::Memory)
        }
    }
}

/// The definition that has this text, as its canonical one or, where it has no lookback, as its former one.
pub fn read_definition(alloc: Global, text: &[u8]) -> Result<Own, CanonFault>
    ensures found { IfOk result (λ m. IsOwnText text.now m) }
    ensures only { (m : Own) → is_own m ≡ true → IsOwnText text.now m → Gives (λ x. x) result (Some m) }
{
    let now = read_own(alloc, text);
    let former = read_own_old(alloc, text);
    chosen(now, former)
}
