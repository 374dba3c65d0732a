//! The rows of a query. Its contract: `eval` gives, as a bag, exactly the rows that the definition of the query has
//! over its inputs and its bounds, for every query.
#![tactic(auto)]

mod groups;
mod joins;
mod placing;
mod queries;
mod tables;
mod ties;

pub use queries::{eval, exact_rows};
