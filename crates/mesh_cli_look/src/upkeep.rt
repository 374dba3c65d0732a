//! The commands that keep a warehouse in order. Its contract: `janitor`, `invalidate` and `ingest` make exactly the
//! changes of their command in the world that the warehouse tells, and answer the line that is printed, or a refusal
//! whose cause stands there or in the files of the project.

mod ingesting;
mod sourced;
mod upkeep;

pub use ingesting::ingest;
pub use upkeep::{invalidate, janitor};
