//! What makes a definition well formed and a project proper, as definitions, and the two types that keep to it: a
//! `Project` is proper, and a `Plan` is over a project. Its contract: every `Project` is proper; `is_named`,
//! `is_declared` and `has_column` test what their definitions say.

mod columns;
mod names;
mod plans;
mod projects;
mod relations;

pub use columns::has_column;
pub use names::{is_declared, is_named};
pub use plans::Plan;
pub use projects::Project;
pub use relations::{Parent, Relation};
