// What is forgotten so that it is computed again, and snapshots that get another fingerprint.
use crate::snapshots::Ref;
use mesh_base_values::Name;
use mesh_list::{Duplicate, Memory, Same, Seq};

pub type Forgets = Seq<Forget>;

pub type Renames = Seq<Rename>;

/// What is no longer recorded of a table: the seconds from `start` on that are below `end`, or its marks.
pub enum Forget {
    Range { object: Name, start: i64, end: i64 },
    Marks { object: Name },
}

impl Drop for Forget {
    fn drop(self) {
        match self {
            Forget::Range {
                object: _,
                start: _,
                end: _,
            }
            | Forget::Marks { object: _ } => {}
        }
    }
}

/// A model that is to be computed again with its descendants: the units that have a second in the days from `first` to
/// `last`, counted from 1970-01-01, or all of them where no days are given.
pub struct Restate {
    pub name: Name,
    pub first: Option<i32>,
    pub last: Option<i32>,
}

impl Drop for Restate {
    fn drop(self) {
        let Restate {
            name: _,
            first: _,
            last: _,
        } = self;
    }
}

/// A snapshot, and the fingerprint that it gets.
pub struct Rename {
    pub old: Ref,
    pub new: [u8; 32],
}

impl Drop for Rename {
    fn drop(self) {
        let Rename { old: _, new: _ } = self;
    }
}

impl Duplicate for Forget {
    fn copy(&self) -> Result<Forget, Memory> {
        match self {
            Forget::Range { object, start, end } => Ok(Forget::Range {
                object: object.copy()?,
                start: *start,
                end: *end,
            }),
            Forget::Marks { object } => Ok(Forget::Marks {
                object: object.copy()?,
            }),
        }
    }
}

impl Duplicate for Rename {
    fn copy(&self) -> Result<Rename, Memory> {
        Ok(Rename {
            old: self.old.copy()?,
            new: self.new,
        })
    }
}

impl Same for Forget {
    fn same(&self, other: &Forget) -> bool {
        match self {
            Forget::Range { object, start, end } => match other {
                Forget::Range {
                    object: o,
                    start: s,
                    end: e,
                } => object.same(o) && *start == *s && *end == *e,
                Forget::Marks { .. } => false,
            },
            Forget::Marks { object } => match other {
                Forget::Range { .. } => false,
                Forget::Marks { object: o } => object.same(o),
            },
        }
    }
}

impl Same for Rename {
    fn same(&self, other: &Rename) -> bool {
        self.old.same(&other.old) && self.new == other.new
    }
}
