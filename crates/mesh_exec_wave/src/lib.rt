//! The work of one rank, side by side: `claims` gives out the numbers of units, each once, and `wave` the rows of
//! each job. Each module says its contract; they stand on `mesh_eval` and on the ported crate `atomic_table`.
#![tactic(auto)]

pub mod claims;
pub mod wave;
