// How the rows of a model are kept.
ghost use Rattle.std.specs.Prelude.{◌≡◌};
ghost use Rattle.mesh_base_values.specs.Kinds.{is_incremental};

use crate::values::Str;
use mesh_list::{Duplicate, Memory, Same};

/// How a model's rows are kept.
#[derive(PartialEq, Eq)]
pub enum Kind {
    /// The rows of the whole query.
    Full,
    /// The query itself.
    View,
    /// The rows of a file.
    Seed,
    /// For each unit of the schedule, the query's rows whose time column lies in it. A unit is computed again with
    /// each of the next `lookback` units of the schedule.
    Incremental { time: Str, lookback: u32 },
}

impl Drop for Kind {
    fn drop(self) {
        match self {
            Kind::Full
            | Kind::View
            | Kind::Seed
            | Kind::Incremental {
                time: _,
                lookback: _,
            } => {}
        }
    }
}

/// Whether a model is computed unit by unit.
pub fn is_incremental(kind: &Kind) -> bool
    ensures { result ≡ is_incremental kind.now }
{
    match kind {
        Kind::Incremental { .. } => true,
        Kind::Full | Kind::View | Kind::Seed => false,
    }
}

impl Duplicate for Kind {
    fn copy(&self) -> Result<Kind, Memory> {
        match self {
            Kind::Full => Ok(Kind::Full),
            Kind::View => Ok(Kind::View),
            Kind::Seed => Ok(Kind::Seed),
            Kind::Incremental { time, lookback } => Ok(Kind::Incremental {
                time: time.copy()?,
                lookback: *lookback,
            }),
        }
    }
}

impl Same for Kind {
    fn same(&self, other: &Kind) -> bool {
        self == other
    }
}
