// Why there is no plan.
ghost use Rattle.std.specs.Prelude.{◌≡◌};
ghost use Rattle.mesh_category.specs.declared.versions.faults.PlanFault.TheVariants.{Memory as OutOfMemory};

use mesh_base_values::Name;
use mesh_list::Memory;
use mesh_query_tokens::FaultKind;

/// Why there is no plan.
#[derive(Drop)]
pub enum PlanFault {
    /// What is wrong with a model.
    Model { name: Name, kind: FaultKind },
    /// The moment is before the book's.
    Moment { given: i64, kept: i64 },
    EnvUnknown,
    EnvPending,
    /// There was not enough memory.
    Memory,
}

impl From<Memory> for PlanFault {
    ghost from_gives = { λ _ e. e ≡ OutOfMemory };

    fn from(_refused: Memory) -> PlanFault {
        PlanFault::Memory
    }
}
