// Why a text was not read.
ghost use Rattle.std.specs.Prelude.{◌≡◌};
ghost use Rattle.mesh_canon_words.specs.declared.fault.CanonFault.TheVariants.{Memory as OutOfMemory};

use mesh_list::Memory;
use std::alloc::{AllocError, AllocFailed};
use thiserror::Error;

/// Why a text was not read: nothing has that text, or there was not enough memory.
#[derive(Debug, Clone, Copy, PartialEq, Eq, Error)]
pub enum CanonFault {
    /// The bytes are the text of nothing.
    #[error("not a canonical text")]
    NotCanonical,
    /// There was not enough memory.
    #[error("want of memory")]
    Memory,
}

impl From<Memory> for CanonFault {
    ghost from_gives = { λ _ e. e ≡ OutOfMemory };

    fn from(_error: Memory) -> CanonFault {
        CanonFault::Memory
    }
}

impl From<AllocError> for CanonFault {
    ghost from_gives = { λ _ e. e ≡ OutOfMemory };

    fn from(_error: AllocError) -> CanonFault {
        CanonFault::Memory
    }
}

impl<T: Drop> From<AllocFailed<T>> for CanonFault {
    ghost from_gives = { λ _ e. e ≡ OutOfMemory };

    fn from(_refused: AllocFailed<T>) -> CanonFault {
        CanonFault::Memory
    }
}
