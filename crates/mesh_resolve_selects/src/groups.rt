//! The rule on groups, over resolved expressions: in a grouped SELECT a column stands inside an aggregate or in a
//! part that equals a key, and aggregates stand in items and HAVING alone and not in one another. Its contract: each
//! call tells exactly what its definition says, and of several places the one that stands first in the text.

mod barred;
mod groups;
mod keys;
mod places;
mod rules;

pub use groups::has_aggregate;
pub use rules::{misplaced, ungrouped};
