//! Projects out of their files: `order` puts models by rank and name, `nodes` gives each its definition, its parents'
//! places and its fingerprint, and `project` is the whole, as `load` reads it from a folder. Each module says its
//! contract; they stand on `mesh_project_files` for the files, on `mesh_resolve` with `mesh_law_reading` for
//! definitions, and on `mesh_canon::fingerprint`.
#![tactic(auto)]

pub mod nodes;
pub mod order;
pub mod project;
