// Units, intervals and schedules, in whole seconds since 1970-01-01T00:00:00 UTC.
use mesh_list::{Duplicate, Memory, Same, Seq};

/// How long one unit of a schedule is.
#[derive(Clone, Copy, PartialEq, Eq)]
pub enum Unit {
    Hour,
    Day,
}

/// The seconds that are at least `start` and below `end`.
#[derive(Clone, Copy, PartialEq, Eq)]
pub struct Bounds {
    pub start: i64,
    pub end: i64,
}

/// The units that follow one another from the second `start`, as long as they end by the second `end`.
#[derive(Clone, Copy, PartialEq, Eq)]
pub struct Schedule {
    pub start: i64,
    pub end: i64,
    pub unit: Unit,
}

pub type Spans = Seq<Bounds>;

impl Duplicate for Unit {
    fn copy(&self) -> Result<Unit, Memory> {
        Ok(*self)
    }
}

impl Duplicate for Bounds {
    fn copy(&self) -> Result<Bounds, Memory> {
        Ok(*self)
    }
}

impl Duplicate for Schedule {
    fn copy(&self) -> Result<Schedule, Memory> {
        Ok(*self)
    }
}

impl Same for Unit {
    fn same(&self, other: &Unit) -> bool {
        self == other
    }
}

impl Same for Bounds {
    fn same(&self, other: &Bounds) -> bool {
        self == other
    }
}

impl Same for Schedule {
    fn same(&self, other: &Schedule) -> bool {
        self == other
    }
}
