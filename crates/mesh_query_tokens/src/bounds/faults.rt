// The faults of a statement that goes on as none does, and of one that nests too deep.
ghost use Rattle.std.specs.Prelude.{◌≡◌};
ghost use Rattle.mesh_query_tokens.specs.Walk.{Refused};
ghost use Rattle.mesh_query_tokens.specs.bounds.Faults.{broken, too_deep};

use crate::{FaultKind, ReadFault};
use mesh_base_values::DEEPEST_NESTING;
use mesh_list::Duplicate;
use std::alloc::Global;

/// A fault of syntax behind the token that ends here.
pub fn broken(before: u64) -> ReadFault
    ensures { result ≡ broken before }
{
    ReadFault::Fault {
        at: before,
        kind: FaultKind::Syntax,
    }
}

pub(crate) fn too_deep(alloc: Global) -> ReadFault
    ensures { Refused result too_deep }
{
    match u8::copy_items(alloc, b"nesting") {
        Ok(what) => ReadFault::Fault {
            at: 0,
            kind: FaultKind::TooLarge {
                what,
                limit: DEEPEST_NESTING,
            },
        },
        Err(_) => ReadFault::Memory,
    }
}
