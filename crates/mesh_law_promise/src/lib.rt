//! The promise of `mesh_spec_promise`, proved: a world stays well kept at each exit of a command that settles, and an
//! apply or a run that is made whole leaves its environment final; so after any history from the empty world. Each
//! law is the contract of a function with an empty body.
//! The module `formed` has what is kept when a command doesn't settle, `shown` that there are rows behind every view,
//! and `isolation` what a command leaves of other environments.
#![tactic(auto)]

pub mod formed;
pub mod isolation;
mod laws;
pub mod shown;

pub use laws::{
    applies_leave_their_environment_final, commands_keep_worlds_sound,
    histories_show_rows_from_scratch, runs_leave_their_environment_final,
    worlds_of_histories_are_sound,
};
