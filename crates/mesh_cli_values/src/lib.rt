//! Words: `scripts` takes the lines of a script apart, and `options` says what the values of options and places stand
//! for. Each module says its contract; they stand on `mesh_time_days` and `mesh_time_days::casts` for moments, days
//! and numbers.
#![tactic(auto)]

pub mod options;
pub mod scripts;
