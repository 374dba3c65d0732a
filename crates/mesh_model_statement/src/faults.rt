// The faults of a statement.
ghost use Rattle.mesh_model_statement.specs.Faults.{bad, unknown, outside};
ghost use Rattle.mesh_model_statement.specs.Answers.{Refused};

use mesh_list::Duplicate;
use mesh_query_tokens::{FaultKind, ReadFault};
use std::alloc::Global;

/// A property that is bad, or want of memory to name it.
pub fn bad(alloc: Global, at: u64, name: &[u8]) -> ReadFault
    ensures { Refused result (bad at name.now) }
{
    match u8::copy_items(alloc, name) {
        Ok(name) => ReadFault::Fault {
            at,
            kind: FaultKind::BadProperty { name },
        },
        Err(_) => ReadFault::Memory,
    }
}

/// A property that no statement has.
pub fn unknown(alloc: Global, at: u64, name: &[u8]) -> ReadFault
    ensures { Refused result (unknown at name.now) }
{
    match u8::copy_items(alloc, name) {
        Ok(name) => ReadFault::Fault {
            at,
            kind: FaultKind::UnknownProperty { name },
        },
        Err(_) => ReadFault::Memory,
    }
}

/// What is outside of what is built.
pub fn outside(alloc: Global, at: u64, name: &[u8]) -> ReadFault
    ensures { Refused result (outside at name.now) }
{
    match u8::copy_items(alloc, name) {
        Ok(name) => ReadFault::Fault {
            at,
            kind: FaultKind::Outside { name },
        },
        Err(_) => ReadFault::Memory,
    }
}
