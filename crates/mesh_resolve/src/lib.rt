//! Queries whose names, columns and types are found, and the own definitions of models over them. Its contract:
//! `resolve` gives exactly the query that the definitions give, or the first fault of their walk, and `own_of` the
//! definition that a model's file, its seed and that query make, unless memory runs out.
#![tactic(auto)]

mod catalog;
mod drawn;
mod faults;
mod known;
mod owns;
mod queries;
mod relations;
mod selects;
mod sources;

pub use known::Known;
pub use owns::own_of;
pub use queries::resolve;
