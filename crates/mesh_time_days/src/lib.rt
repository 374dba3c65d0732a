//! Days and moments, in the proleptic Gregorian calendar and in seconds since 1970-01-01T00:00:00 UTC, and their
//! texts. Its contract: a text is read exactly where it stands for a day or a moment, and is written back so.
//! The module `casts` has cells as another type, and `seconds` the second that a cell stands for.
#![tactic(auto)]

pub mod casts;
mod days;
mod moments;
pub mod seconds;

pub use days::{date_of, day_of, day_text};
pub use moments::{day_and_second, moment, moment_of, moment_text, time_value};
