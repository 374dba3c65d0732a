//! The values of operators, functions and macros, where the operands are cells. Its contract: each call is its
//! definition in `mesh_spec_query`, a `Held` is its cell, whether that lies elsewhere or was made, and a `Plain` is
//! one that owns no memory.
//! The module `joins` has the rows of a FROM side by side, and rows found by their cells.
#![tactic(auto)]

mod casting;
mod cells;
mod held;
pub mod joins;
mod macros;
mod plain;
mod texts;

pub use casting::cast_plain;
pub use cells::{equal, has_null, is_null, lies_between, negate, not, operate, operate_cells, or};
pub use held::{Held, Helds, kept, made_of};
pub use macros::bound;
pub use plain::Plain;
pub use texts::{call, call_one, call_plain};
