//! The value of a bound expression at a row or over a group. Its contract: `value_of` gives exactly the value that
//! `mesh_eval_expressions::bound` defines for it (`bound_value`) of what a `Frame` gives, so that of the expression
//! which was bound, and `holds` tells whether that value is true.
//! The module `bound` has expressions whose names are looked up once, before any row.
#![tactic(auto)]

mod aggregates;
pub mod bound;
mod conditions;
mod frames;
mod plain;
mod values;

pub use conditions::holds;
pub use frames::{Frame, Members, lent_at};
pub use values::{value_alone, value_of, values_of};
