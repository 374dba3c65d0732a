// Why a plan wasn't made.
ghost use Rattle.std.specs.Prelude.{◌≡◌};
ghost use Rattle.mesh_exec.specs.declared.faults.ExecFault.TheVariants as fault;
ghost use Rattle.mesh_exec.specs.Answers.{of_house, of_show};

use mesh_base_values::Name;
use mesh_house::WhFail;
use mesh_layer::ShowFault;
use mesh_list::Memory;
use mesh_query_tokens::FaultKind;

/// A parent's object shows no rows, a source isn't as a due model declares it, the warehouse failed, or memory ran out.
#[derive(Drop)]
pub enum ExecFault {
    /// What is named isn't there, stores no query whose names are there, or stands behind too many stored queries.
    Dangling { object: Name },
    /// The fault is one of this model.
    Model { name: Name, kind: FaultKind },
    Warehouse,
    Memory,
}

impl From<Memory> for ExecFault {
    ghost from_gives = { λ _ e. e ≡ fault.Memory };

    fn from(_: Memory) -> Self {
        ExecFault::Memory
    }
}

impl From<WhFail> for ExecFault {
    ghost from_gives = { λ f e. e ≡ of_house f };

    fn from(fail: WhFail) -> Self {
        match fail {
            WhFail::Failed => ExecFault::Warehouse,
            WhFail::Memory => ExecFault::Memory,
        }
    }
}

impl From<ShowFault> for ExecFault {
    ghost from_gives = { λ f e. e ≡ of_show f };

    fn from(fail: ShowFault) -> Self {
        match fail {
            ShowFault::Dangling { object } => ExecFault::Dangling { object },
            ShowFault::Warehouse => ExecFault::Warehouse,
            ShowFault::Memory => ExecFault::Memory,
        }
    }
}
