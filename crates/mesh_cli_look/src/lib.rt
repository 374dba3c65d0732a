//! The commands beside `plan`, `apply` and `run`: `asking` has those that only look, and `upkeep` those that keep a
//! warehouse in order. Each module says its contract; they stand on `mesh_layer` for what views show, on `mesh_exec`
//! for the look at sources, on `mesh_janitor` for the janitor, and on `mesh_cli_answer` and `mesh_cli_print`.
#![tactic(auto)]

pub mod asking;
pub mod upkeep;
