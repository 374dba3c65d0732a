// What may be wrong with a query, and where.
ghost use Rattle.std.specs.Prelude.{◌≡◌};
ghost use Rattle.mesh_query_tokens.specs.Walk.{Refused};
ghost use Rattle.mesh_resolve_types.specs.Faults.{mismatch, unknown_relation, unknown_column, ambiguous, duplicate, no_time_column, not_grouped, bad_macro, too_many_columns, too_large_number, unwritten};

use mesh_base_values::{LARGEST_NUMBER, MOST_COLUMNS, Str};
use mesh_list::Duplicate;
use mesh_query_tokens::{FaultKind, ReadFault};
use std::alloc::Global;

/// The types at that place don't fit.
pub fn mismatch(at: u64) -> ReadFault
    ensures { result ≡ mismatch at }
{
    ReadFault::Fault {
        at,
        kind: FaultKind::TypeMismatch,
    }
}

/// A fault of syntax, for what no reader gives and so no query has.
pub fn unwritten(at: u64) -> ReadFault
    ensures { result ≡ unwritten at }
{
    ReadFault::Fault {
        at,
        kind: FaultKind::Syntax,
    }
}

/// A column or an aggregate that stands neither in a key nor in an aggregate, where that is asked for.
pub fn not_grouped(at: u64) -> ReadFault
    ensures { result ≡ not_grouped at }
{
    ReadFault::Fault {
        at,
        kind: FaultKind::NotGrouped,
    }
}

/// No relation that is in sight has that name.
pub fn unknown_relation(at: u64, name: Str) -> ReadFault
    ensures { result ≡ unknown_relation at name }
{
    ReadFault::Fault {
        at,
        kind: FaultKind::UnknownRelation { name },
    }
}

/// No column that is in sight has that name.
pub fn unknown_column(alloc: Global, at: u64, name: &[u8]) -> ReadFault
    ensures { Refused result (unknown_column at name.now) }
{
    match u8::copy_items(alloc, name) {
        Ok(name) => ReadFault::Fault {
            at,
            kind: FaultKind::UnknownColumn { name },
        },
        Err(_) => ReadFault::Memory,
    }
}

/// Several columns have that name.
pub fn ambiguous(alloc: Global, at: u64, name: &[u8]) -> ReadFault
    ensures { Refused result (ambiguous at name.now) }
{
    match u8::copy_items(alloc, name) {
        Ok(name) => ReadFault::Fault {
            at,
            kind: FaultKind::Ambiguous { name },
        },
        Err(_) => ReadFault::Memory,
    }
}

/// Two output columns, FROM items or own definitions have that name.
pub fn duplicate(alloc: Global, at: u64, name: &[u8]) -> ReadFault
    ensures { Refused result (duplicate at name.now) }
{
    match u8::copy_items(alloc, name) {
        Ok(name) => ReadFault::Fault {
            at,
            kind: FaultKind::Duplicate { name },
        },
        Err(_) => ReadFault::Memory,
    }
}

/// The column that is to keep time isn't there, or keeps none. It has no place.
pub fn no_time_column(alloc: Global, name: &[u8]) -> ReadFault
    ensures { Refused result (no_time_column name.now) }
{
    match u8::copy_items(alloc, name) {
        Ok(name) => ReadFault::Fault {
            at: 0,
            kind: FaultKind::TimeColumn { name },
        },
        Err(_) => ReadFault::Memory,
    }
}

/// No macro has that name, or none may stand there.
pub fn bad_macro(alloc: Global, at: u64, name: &[u8]) -> ReadFault
    ensures { Refused result (bad_macro at name.now) }
{
    match u8::copy_items(alloc, name) {
        Ok(name) => ReadFault::Fault {
            at,
            kind: FaultKind::BadMacro { name },
        },
        Err(_) => ReadFault::Memory,
    }
}

/// A number above `LARGEST_NUMBER`.
pub fn too_large_number(alloc: Global, at: u64) -> ReadFault
    ensures { Refused result (too_large_number at) }
{
    match u8::copy_items(alloc, b"number") {
        Ok(what) => ReadFault::Fault {
            at,
            kind: FaultKind::TooLarge {
                what,
                limit: LARGEST_NUMBER,
            },
        },
        Err(_) => ReadFault::Memory,
    }
}

/// More than `MOST_COLUMNS` columns in one SELECT.
pub fn too_many_columns(alloc: Global) -> ReadFault
    ensures { Refused result too_many_columns }
{
    match u8::copy_items(alloc, b"columns") {
        Ok(what) => ReadFault::Fault {
            at: 0,
            kind: FaultKind::TooLarge {
                what,
                limit: MOST_COLUMNS,
            },
        },
        Err(_) => ReadFault::Memory,
    }
}
