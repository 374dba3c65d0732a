// The refusals of what lies outside.
ghost use Rattle.std.specs.Prelude.{◌≡◌};
ghost use Rattle.mesh_io.specs.declared.fails.IoFail.TheVariants.{Memory};

use mesh_list::Memory;
use thiserror::Error;

/// Why an object at the outside gave no answer.
#[derive(Debug, Clone, Copy, PartialEq, Eq, Error)]
pub enum IoFail {
    /// There was a fault, which the object has counted.
    #[error("fault of the outside")]
    Failed,
    /// There was not enough memory.
    #[error("want of memory")]
    Memory,
}

impl From<Memory> for IoFail {
    ghost from_gives = { λ _ e. e ≡ Memory };

    fn from(_memory: Memory) -> IoFail {
        IoFail::Memory
    }
}
