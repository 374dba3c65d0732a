//! The commands that plan: `plan` prints what an apply would do, `apply` and `run` do it, and `migrate` moves a book
//! of the former version. Its contract: each makes exactly the changes that the promise has for the command
//! (`mesh_spec_changes`) in the world that the house tells, and answers the text that is printed, or a refusal whose
//! cause stands there. `trace` and `impact` read the project alone, and answer the lines of `mesh_trace`.
#![tactic(auto)]

mod applying;
mod columns;
mod faults;
mod listing;
mod migrating;
mod planned;
mod running;
mod steps;
mod tracing;

pub use applying::apply;
pub use migrating::migrate;
pub use planned::plan;
pub use running::run;
pub use tracing::{impact, trace};
