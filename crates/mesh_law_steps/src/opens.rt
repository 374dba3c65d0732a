//! Laws of plans that are opened, each the contract of a function with an empty body: once what is computed again is
//! forgotten, a plan is ready to be made and filled; the models of a plan, of a project or of a run, have objects of
//! their own and stand behind their parents; and those of a run stand in the book.

mod laws;

pub use laws::{models_of_a_plan_are_apart, opened_plans_are_ready, runs_are_placed};
