//! Laws of what a query and a model mean, each the contract of a function with an empty body: what rows hang on, and
//! what not; what a definition reads, and that it finds it. Its definitions are read in this order: `Alike`, `Reads`,
//! `Cuts`, `Loads` and `Found`.
#![tactic(auto)]

mod laws;

pub use laws::{
    definitions_read_what_they_name, models_respect_bags, parents_stand_before_their_models,
    proper_projects_find_all, rows_hang_on_read_columns, rows_respect_bags,
    rows_respect_bags_of_read_columns, well_formed_definitions_find_all,
};
