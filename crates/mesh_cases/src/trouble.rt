// Why the cases could not be run to their end.
use mesh_io::IoFail;
use mesh_list::Memory;
use std::alloc::{AllocError, AllocFailed};

/// Memory ran out, the cases' own files couldn't be read, or a line of theirs is no case.
#[derive(Clone, Copy, Debug, PartialEq, Eq)]
pub enum Trouble {
    Memory,
    Outside,
    Case,
}

impl From<Memory> for Trouble {
    fn from(_memory: Memory) -> Trouble {
        Trouble::Memory
    }
}

impl From<AllocError> for Trouble {
    fn from(_error: AllocError) -> Trouble {
        Trouble::Memory
    }
}

impl<T: Drop> From<AllocFailed<T>> for Trouble {
    fn from(_refused: AllocFailed<T>) -> Trouble {
        Trouble::Memory
    }
}

impl From<IoFail> for Trouble {
    fn from(fail: IoFail) -> Trouble {
        match fail {
            IoFail::Failed => Trouble::Outside,
            IoFail::Memory => Trouble::Memory,
        }
    }
}
