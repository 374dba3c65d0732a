// Options and lists, which have a part for each value.
ghost use Rattle.std.specs.Prelude.{map};
ghost use Rattle.std.specs.List.{list_all};
ghost use Rattle.mesh_canon_text.specs.Text.{list_text};
ghost use Rattle.mesh_keep_records.specs.Parts.{option_fits, option_parts};

use crate::part::{Listed, Part, add, read_as_list, write_as_list};
use mesh_base_values::{Str, Strs};
use mesh_canon_words::CanonFault;
use mesh_list::{Memory, Seq};
use std::alloc::Global;

impl<T: Part> Listed for Option<T> {
    ghost parts = { option_parts T.text };

    ghost fit = { option_fits T.fits };

    fn put(&self, out: &mut Strs) -> Result<(), Memory> {
        match self {
            None => Ok(()),
            Some(value) => add(out, value),
        }
    }

    fn take(alloc: Global, texts: &[Str]) -> Result<Option<T>, CanonFault> {
        match texts {
            [] => Ok(None),
            [text] => {
                let value = T::read(alloc, text.as_slice())?;
                Ok(Some(value))
            }
            [_, _, ..] => Err(CanonFault::NotCanonical),
        }
    }
}

impl<T: Part> Listed for Seq<T> {
    ghost parts = { map T.text };

    ghost fit = { list_all T.fits };

    fn put(&self, out: &mut Strs) -> Result<(), Memory> {
        for value in self.as_slice() {
            add(out, value)?;
        }
        Ok(())
    }

    fn take(alloc: Global, texts: &[Str]) -> Result<Seq<T>, CanonFault> {
        let mut made = Seq::new(alloc);
        for text in texts {
            let value = T::read(alloc, text.as_slice())?;
            made.push(value)?;
        }
        Ok(made)
    }
}

impl<T: Part> Part for Option<T> {
    ghost text = { λ x. list_text (option_parts T.text x) };

    ghost fits = { option_fits T.fits };

    fn rule(&self) {
        match self {
            None => {}
            Some(value) => value.rule(),
        }
    }

    fn write(&self, alloc: Global) -> Result<Str, Memory> {
        write_as_list(alloc, self)
    }

    fn read(alloc: Global, bytes: &[u8]) -> Result<Option<T>, CanonFault> {
        read_as_list(alloc, bytes)
    }
}

impl<T: Part> Part for Seq<T> {
    ghost text = { λ xs. list_text (map T.text xs) };

    ghost fits = { list_all T.fits };

    fn rule(&self) {
        for value in self.as_slice() {
            value.rule();
        }
    }

    fn write(&self, alloc: Global) -> Result<Str, Memory> {
        write_as_list(alloc, self)
    }

    fn read(alloc: Global, bytes: &[u8]) -> Result<Seq<T>, CanonFault> {
        read_as_list(alloc, bytes)
    }
}
