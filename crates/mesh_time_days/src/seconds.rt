//! The second that a cell stands for, and which rows lie in a range of seconds by their time column. Its contract is
//! its definitions, in `Times` and `Rows`, with the law that the second of a cell is its time value: `second_in`,
//! `is_within` and `lies_in` answer just what these say, and `rewrite` leaves just those rows. So does `add`, without
//! a look at the rows that are there, where all of them are before the range, as `are_before` tells.

mod laws;
mod rows;

pub use laws::seconds_are_time_values;
pub use rows::{add, are_before, is_within, lies_in, rewrite, second_in};
