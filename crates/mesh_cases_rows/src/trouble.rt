// Why the examples could not be run to their end.
use mesh_house::WhFail;
use mesh_io::IoFail;
use mesh_layer::ShowFault;
use mesh_list::Memory;
use std::alloc::{AllocError, AllocFailed};

/// Memory ran out, the examples' own files couldn't be read, a script has a step that isn't one, or a view dangles.
#[derive(Clone, Copy)]
pub enum Trouble {
    Memory,
    Outside,
    Script,
    Dangling,
}

impl From<Memory> for Trouble {
    fn from(_memory: Memory) -> Trouble {
        Trouble::Memory
    }
}

impl From<AllocError> for Trouble {
    fn from(_error: AllocError) -> Trouble {
        Trouble::Memory
    }
}

impl<T: Drop> From<AllocFailed<T>> for Trouble {
    fn from(_refused: AllocFailed<T>) -> Trouble {
        Trouble::Memory
    }
}

impl From<IoFail> for Trouble {
    fn from(fail: IoFail) -> Trouble {
        match fail {
            IoFail::Failed => Trouble::Outside,
            IoFail::Memory => Trouble::Memory,
        }
    }
}

impl From<WhFail> for Trouble {
    fn from(fail: WhFail) -> Trouble {
        match fail {
            WhFail::Failed => Trouble::Outside,
            WhFail::Memory => Trouble::Memory,
        }
    }
}

impl From<ShowFault> for Trouble {
    fn from(fault: ShowFault) -> Trouble {
        match fault {
            ShowFault::Dangling { .. } => Trouble::Dangling,
            ShowFault::Warehouse => Trouble::Outside,
            ShowFault::Memory => Trouble::Memory,
        }
    }
}

impl From<mesh_cases::Trouble> for Trouble {
    fn from(trouble: mesh_cases::Trouble) -> Trouble {
        match trouble {
            mesh_cases::Trouble::Memory => Trouble::Memory,
            mesh_cases::Trouble::Outside => Trouble::Outside,
            mesh_cases::Trouble::Case => Trouble::Script,
        }
    }
}

impl Trouble {
    /// The same for any suite: a script or a view that isn't as it has to be is no case.
    pub fn of_cases(self) -> mesh_cases::Trouble {
        match self {
            Trouble::Memory => mesh_cases::Trouble::Memory,
            Trouble::Outside => mesh_cases::Trouble::Outside,
            Trouble::Script => mesh_cases::Trouble::Case,
            Trouble::Dangling => mesh_cases::Trouble::Case,
        }
    }
}
