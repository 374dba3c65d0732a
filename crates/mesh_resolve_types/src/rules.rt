//! The types of columns beside one another: which a place takes, which go together, which casts there are, and what a
//! sum is. Its contract: each test and each answer is its definition in `specs/Kinds.antt`.

mod casts;
mod kinds;
mod sums;

pub use casts::may_cast;
pub use kinds::{are_alike, are_one_kind, first_kind, may_be};
pub use sums::sum_kind;
