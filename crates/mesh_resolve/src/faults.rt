// The fault of a time column.
ghost use Rattle.std.specs.Prelude.{◌≡◌};
ghost use Rattle.mesh_resolve_types.specs.Faults.{no_time_column};

use mesh_base_values::Str;
use mesh_query_tokens::{FaultKind, ReadFault};

pub(crate) fn no_time_column(name: Str) -> ReadFault
    ensures { result ≡ no_time_column name }
{
    ReadFault::Fault {
        at: 0,
        kind: FaultKind::TimeColumn { name },
    }
}
