//! The parts of a SELECT, and what keeps its rules. Its contract: `stands` tells exactly what its definition says,
//! the rule on groups first, part by part in the order of the walk, and then the first name that stands twice among
//! the output columns and among the FROM items, unless memory runs out.

mod apart;
mod faults;
mod grouping;
mod parts;
mod standing;

pub use faults::duplicate;
pub use grouping::is_grouped;
pub use parts::{Drawn, Walked};
pub use standing::stands;
