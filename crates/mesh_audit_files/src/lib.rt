//! The audits of a project. Its contract: `read_audits` gives what the relation `AuditsOf` says of a folder's files
//! and the project that they are: the audits that its models list and that are run, the names that they list and that
//! aren't, both by rank and name of the model and then in written order; or the first fault, of the audits' files
//! first and then of what models list. `audits_in` does the same where the models' files have been read. `text` reads
//! one file of an audit, and the value of one model's `audits`.
#![tactic(auto)]

mod files;
mod listings;
mod queries;
mod reading;
mod sets;
mod taking;
pub mod text;

pub use reading::{audits_in, read_audits};
