//! What stands at the front of the bytes of a canonical text, read: cells, rows, columns, names, crons, expressions,
//! queries, definitions and lists. Its contract: each function gives what `specs/Reading.antt` says, and what is left
//! behind it; and its lemmas say that this undoes writing, for values that a program can hold (`specs/Fits.antt`).
#![tactic(auto)]

mod cron_reading;
mod definition_reading;
mod expression_reading;
mod query_reading;
mod read;
mod value_reading;

pub use definition_reading::own;
pub use read::{Readable, list};
