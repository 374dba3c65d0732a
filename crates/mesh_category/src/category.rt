//! How the models of a project stand to those that it is compared with. Its contract: `categorize` gives each model
//! the one category that it has beside the model of its name, with all that both stand on, and the names of the
//! models that are gone; `categories_beside` gives the categories alone; `is_additive` tells exactly whether a
//! definition adds columns to another.

mod additive;
mod categories;
mod named;
mod parents;

pub use additive::is_additive;
pub use categories::{categories_beside, categorize};
pub(crate) use parents::node_at;
