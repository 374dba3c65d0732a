//! The objects of a project's models. Its contract: `project_of` gives the project of a list of snapshots, as an
//! environment has one; `versions` gives the name of the table or the stored query of each model of a project, or the
//! first model whose fingerprint clashes, with both fingerprints, and looks each of them up once.

mod clashes;
mod faults;
mod index;
mod laws;
mod names;
mod naming;
mod objects;
mod projects;
mod standing;

pub use faults::PlanFault;
pub use laws::what_is_alone_has_no_clash;
pub use naming::versions;
pub use projects::project_of;
