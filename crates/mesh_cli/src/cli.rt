//! The top call of `mesh`: it reads the words, runs the command over the project's folder and the warehouse, prints,
//! and answers a status. Its contract is that of `mesh`, and of `batch` for the lines of a script: what each status
//! means of the warehouse, of what was printed, and of the outside.

mod batches;
mod command;
mod laws;
mod mapped;
mod moment;
mod place;
mod script;
mod top;

pub use batches::batch;
pub use laws::{
    commands_that_are_done_made_their_changes, commands_that_are_refused_change_nothing,
    commands_without_a_refusal_are_done, plans_applied_at_once_are_applies, workers_change_nothing,
};
pub use mapped::mesh_over_a_map;
pub use top::mesh;
