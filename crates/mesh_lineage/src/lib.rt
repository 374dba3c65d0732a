//! What a model reads, and what follows from it: the columns of models and sources that it names, whether it stays as
//! it is computed while time goes on, and whether its adjoining units can be computed as one. Its contract: `reads`,
//! `unsteady` and `joinable` give exactly what their definitions say.
#![tactic(auto)]

mod bounds;
mod breakers;
mod columns;
mod ends;
mod joins;
mod laws;
mod macros;
mod named;
mod once;
mod projects;
mod reaches;
mod readings;

pub use joins::joinable;
pub use laws::steady_models_have_no_breakers;
pub use projects::unsteady;
pub use readings::reads;
