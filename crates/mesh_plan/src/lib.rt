//! Plans. Its contract: `plan` says what is planned of a project for an environment at a moment, or the first fault:
//! each model's category and object, what is computed again and what is due, as they are defined, and that this is a
//! plan as the promise asks for one; `plan_run` says the same of the models that an environment lists, which it
//! leaves as they are.
#![tactic(auto)]

mod compared;
mod computed;
mod entries;
mod gone;
mod planning;
mod running;

pub use mesh_category::versions::{PlanFault, project_of, versions};
pub use mesh_cli_print::plans::plan_text;
pub use planning::plan;
pub use running::plan_run;
