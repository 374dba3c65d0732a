// Why a text is refused, and where.
ghost use Rattle.std.specs.Prelude.{◌≡◌};
ghost use Rattle.mesh_query_tokens.specs.declared.faults.ReadFault.TheVariants.{Memory as OutOfMemory};

use mesh_base_values::{CronFault, Name, Names, Str};
use mesh_list::Memory;

/// What is wrong, in the order of the printed faults M1 to M20, of which M17 has two.
pub enum FaultKind {
    Syntax,
    TooLarge { what: Str, limit: u64 },
    UnknownProperty { name: Str },
    BadProperty { name: Str },
    DuplicateModel { name: Name },
    UnknownRelation { name: Str },
    UnknownColumn { name: Str },
    Ambiguous { name: Str },
    TypeMismatch,
    Duplicate { name: Str },
    NotGrouped,
    Cycle { names: Names },
    BadCron { fault: CronFault },
    NoStart,
    TimeColumn { name: Str },
    BadRow { row: u64, field: u64 },
    SourceMissing { name: Name },
    SourceShape { name: Name },
    BadMacro { name: Str },
    FingerprintClash { stored: [u8; 32], given: [u8; 32] },
    Outside { name: Str },
}

impl Drop for FaultKind {
    fn drop(self) {
        match self {
            FaultKind::Syntax
            | FaultKind::TooLarge { what: _, limit: _ }
            | FaultKind::UnknownProperty { name: _ }
            | FaultKind::BadProperty { name: _ }
            | FaultKind::DuplicateModel { name: _ }
            | FaultKind::UnknownRelation { name: _ }
            | FaultKind::UnknownColumn { name: _ }
            | FaultKind::Ambiguous { name: _ }
            | FaultKind::TypeMismatch
            | FaultKind::Duplicate { name: _ }
            | FaultKind::NotGrouped
            | FaultKind::Cycle { names: _ }
            | FaultKind::BadCron { fault: _ }
            | FaultKind::NoStart
            | FaultKind::TimeColumn { name: _ }
            | FaultKind::BadRow { row: _, field: _ }
            | FaultKind::SourceMissing { name: _ }
            | FaultKind::SourceShape { name: _ }
            | FaultKind::BadMacro { name: _ }
            | FaultKind::FingerprintClash {
                stored: _,
                given: _,
            }
            | FaultKind::Outside { name: _ } => {}
        }
    }
}

/// `at` is a place in the text's bytes.
#[derive(Drop)]
pub enum ReadFault {
    Fault { at: u64, kind: FaultKind },
    Memory,
}

impl From<Memory> for ReadFault {
    ghost from_gives = { λ _ e. e ≡ OutOfMemory };

    fn from(_refused: Memory) -> ReadFault {
        ReadFault::Memory
    }
}
