// Records, where they are kept, and what is written of them.
ghost use Rattle.std.specs.Prelude.{◌≡◌, IfOk};
ghost use Rattle.mesh_keep.specs.Places.{as_record, kept_place, place_cmp, places_exact, places_total};

use mesh_base_values::Str;
use mesh_list::{Duplicate, Keyed, Memory, Seq, both};
use std::cmp::Ordering;

/// Where a record is kept.
pub struct Place {
    pub kind: u32,
    pub name: Str,
}

impl Drop for Place {
    fn drop(self) {
        let Place { kind: _, name: _ } = self;
    }
}

/// A record where it is kept.
pub struct Kept {
    pub kind: u32,
    pub name: Str,
    pub body: Str,
}

impl Drop for Kept {
    fn drop(self) {
        let Kept {
            kind: _,
            name: _,
            body: _,
        } = self;
    }
}

/// A record among those of its kind.
pub struct Record {
    pub name: Str,
    pub body: Str,
}

impl Drop for Record {
    fn drop(self) {
        let Record { name: _, body: _ } = self;
    }
}

pub type Records = Seq<Record>;

/// A record that is put in place of the one of its kind and name, or, without a body, one that goes.
pub struct Write {
    pub kind: u32,
    pub name: Str,
    pub body: Option<Str>,
}

impl Drop for Write {
    fn drop(self) {
        let Write {
            kind: _,
            name: _,
            body: _,
        } = self;
    }
}

/// Writes in the order in which they are made.
pub type Writes = Seq<Write>;

impl Keyed for Kept {
    type Key = Place;

    ghost key = { kept_place };

    ghost order = { place_cmp };

    fn compare(&self, other: &Place) -> Ordering {
        self.kind
            .cmp(&other.kind)
            .then(self.name.as_slice().cmp(&other.name.as_slice()))
    }

    fn against(&self, other: &Kept) -> Ordering {
        self.kind
            .cmp(&other.kind)
            .then(self.name.as_slice().cmp(&other.name.as_slice()))
    }

    ghost total = { places_total };

    ghost exact = { places_exact };
}

impl Duplicate for Kept {
    fn copy(&self) -> Result<Kept, Memory> {
        let (name, body) = both(&self.name, &self.body)?;
        Ok(Kept {
            kind: self.kind,
            name,
            body,
        })
    }
}

impl Kept {
    /// The record without its kind.
    pub(crate) fn record(&self) -> Result<Record, Memory>
        ensures { IfOk result (λ made. made ≡ as_record self.now) }
    {
        let (name, body) = both(&self.name, &self.body)?;
        Ok(Record { name, body })
    }
}
