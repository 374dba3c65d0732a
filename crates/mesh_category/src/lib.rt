//! How the models of a project stand to those before, and which objects they have: `category` gives each model its
//! category, and `versions` its table or stored query. Each module says its contract; they stand on
//! `mesh_spec_changes::reuse` for what a category is, on `mesh_spec_changes::listed` and on `mesh_spec_changes::due`
//! for names.
#![tactic(auto)]

pub mod category;
pub mod versions;
