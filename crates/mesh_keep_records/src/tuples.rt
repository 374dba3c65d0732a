// Values one after another, each with a part.
ghost use Rattle.std.specs.Prelude.{true, ◌&&◌, [], ◌∷◌};

use crate::part::{Listed, Part, add};
use mesh_base_values::{Str, Strs};
use mesh_canon_words::CanonFault;
use mesh_list::Memory;
use std::alloc::Global;

impl Listed for () {
    ghost parts = { λ _. [] };

    ghost fit = { λ _. true };

    fn put(&self, _out: &mut Strs) -> Result<(), Memory> {
        Ok(())
    }

    fn take(_alloc: Global, texts: &[Str]) -> Result<(), CanonFault> {
        match texts {
            [] => Ok(()),
            [_, ..] => Err(CanonFault::NotCanonical),
        }
    }
}

impl<A: Part, R: Listed> Listed for (A, R) {
    ghost parts = { λ x. A.text x.0 ∷ R.parts x.1 };

    ghost fit = { λ x. A.fits x.0 && R.fit x.1 };

    fn put(&self, out: &mut Strs) -> Result<(), Memory> {
        add(out, &self.0)?;
        self.1.put(out)
    }

    fn take(alloc: Global, texts: &[Str]) -> Result<(A, R), CanonFault> {
        match texts {
            [] => Err(CanonFault::NotCanonical),
            [first, rest @ ..] => {
                let value = A::read(alloc, first.as_slice())?;
                let values = R::take(alloc, rest)?;
                Ok((value, values))
            }
        }
    }
}
