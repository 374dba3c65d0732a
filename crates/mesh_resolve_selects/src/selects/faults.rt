// The fault of a name that stands twice.
ghost use Rattle.std.specs.Prelude.{◌≡◌};
ghost use Rattle.mesh_resolve_types.specs.Faults.{duplicate};

use mesh_base_values::Str;
use mesh_query_tokens::{FaultKind, ReadFault};

/// A name stands twice, the second time here.
pub fn duplicate(at: u64, name: Str) -> ReadFault
    ensures { result ≡ duplicate at name }
{
    ReadFault::Fault {
        at,
        kind: FaultKind::Duplicate { name },
    }
}
