//! Cells as another type, and the numbers, truths and days that texts are. Its contract: each call is its definition,
//! in `Dates` and `Casts`.

mod casts;
mod days;

pub use casts::{cast, lower_case, number_named, truth_named};
pub use days::{day_named, is_day_number};
