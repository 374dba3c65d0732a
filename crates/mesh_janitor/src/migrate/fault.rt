// Why a book isn't moved.
ghost use Rattle.std.specs.Prelude.{◌≡◌};
ghost use Rattle.mesh_janitor.specs.declared.migrate.fault.MigrationFault.TheVariants as faults;

use mesh_base_values::Name;
use mesh_list::Memory;

/// Two snapshots of one name would get one fingerprint. `stored` is the fingerprint of the first of them, and `given`
/// that of the second.
#[derive(Drop)]
pub enum MigrationFault {
    Twins {
        name: Name,
        stored: [u8; 32],
        given: [u8; 32],
    },
    Memory,
}

impl From<Memory> for MigrationFault {
    ghost from_gives = { λ _ e. e ≡ faults.Memory };

    fn from(_: Memory) -> Self {
        MigrationFault::Memory
    }
}
