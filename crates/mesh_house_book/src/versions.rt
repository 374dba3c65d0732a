// What is recorded of a table or a view: whether it is made, and what was computed for it.
ghost use Rattle.mesh_base_values.specs.Names.{name_cmp};
ghost use Rattle.mesh_base_values.specs.NameOrder.{names_exact, names_total};

use mesh_base::Marks;
use mesh_base_values::Name;
use mesh_list::{Duplicate, Keyed, Memory, Register, Same, both};
use mesh_time::Ranges;
use std::cmp::Ordering;

pub type Versions = Register<Version>;

/// The record of a physical table or view, by its name. `ranges` are the seconds of the schedule whose rows were
/// written. `marks` are the last ticks that the rows of a whole table were computed for, and are absent until they
/// were.
pub struct Version {
    pub object: Name,
    pub made: bool,
    pub ranges: Ranges,
    pub marks: Option<Marks>,
}

impl Drop for Version {
    fn drop(self) {
        let Version {
            object: _,
            made: _,
            ranges: _,
            marks: _,
        } = self;
    }
}

impl Keyed for Version {
    type Key = Name;

    ghost key = { λ v. v.object };

    ghost order = { name_cmp };

    fn compare(&self, other: &Name) -> Ordering {
        self.object.compare(other)
    }

    fn against(&self, other: &Version) -> Ordering {
        self.object.compare(&other.object)
    }

    ghost total = { names_total };

    ghost exact = { names_exact };
}

impl Duplicate for Version {
    fn copy(&self) -> Result<Version, Memory> {
        let object = self.object.copy()?;
        let (ranges, marks) = both(&self.ranges, &self.marks)?;
        Ok(Version {
            object,
            made: self.made,
            ranges,
            marks,
        })
    }
}

impl Same for Version {
    fn same(&self, other: &Version) -> bool {
        self.object.same(&other.object)
            && self.made == other.made
            && self.ranges.same(&other.ranges)
            && self.marks.same(&other.marks)
    }
}
