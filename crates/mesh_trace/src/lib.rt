//! What a column's values hang on, and what hangs on it. Its contract: `trace` lists exactly the columns and
//! relations that feed a column of a model, `impact` exactly the columns of models that a column feeds, each once and
//! in ascending order. What feeds a column is said in `specs/Feeds.antt`; that nothing else counts is a law of
//! `mesh_law_trace`.
#![tactic(auto)]

mod answer;
mod asks;
mod found;
mod hits;
mod impacts;
mod listed;
mod narrowed;
mod traces;
mod walk;

pub use answer::trace;
pub use impacts::impact;
pub use traces::{Trace, Traces};
