//! The types of expressions, and the faults of queries. Its contract: each form of an expression over finished
//! operands gives the resolved expression with its type, or the fault of types, as the definitions in
//! `specs/Forms.antt` say.
//! The module `rules` says which types go together.
#![tactic(auto)]

mod calls;
mod cases;
mod dates;
mod faults;
mod forms;
mod lists;
mod ranges;
pub mod rules;
mod sizes;
mod typed;

pub use calls::{called, distinct, starred};
pub use cases::cased;
pub use faults::{
    ambiguous, bad_macro, duplicate, mismatch, no_time_column, not_grouped, too_large_number,
    too_many_columns, unknown_column, unknown_relation, unwritten,
};
pub use forms::{
    added, cast, compare_op, compared, denied, multiplied, negated, null_test, turned, uniform,
};
pub use ranges::{between, one_of};
pub use sizes::LARGEST_CASE;
pub use typed::{Arms, Typed, Typeds, leaf};
