//! What an expression may name: the columns of the FROM items of a SELECT, by their names alone or behind the name of
//! an item, and macros. Its contract: a column means the only one that answers to its name, or is the fault that the
//! definition tells where it is none or several, and so is a macro (`specs/Sight.antt`).

mod index;
mod names;
mod sight;

pub use names::{answers_to, column, column_typed, macro_typed, qualified};
pub use sight::{Meant, Seen, Sight};
