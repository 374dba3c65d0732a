//! Rows found by what they are. Its contract: an `Index` over rows tells the places of those that are equal to a row,
//! in ascending order, and `distinct_rows` keeps one of each. Time is in proportion to the rows where their hashes
//! spread. The rows are `Listed`: each in a list of its own, or all in the one list of `FlatRows`, where a row takes
//! no memory of its own and is read at once.

mod chains;
mod distinct;
mod flat;
mod hashes;
mod index;
mod listed;
mod walks;

pub use distinct::distinct_rows;
pub use flat::FlatRows;
pub use index::Index;
pub use listed::Listed;
