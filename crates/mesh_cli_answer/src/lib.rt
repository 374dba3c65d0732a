//! What the commands have in common: the book as they need it, and the relation that each of them answers. Its
//! contract: `present_book` reads the book of a warehouse, which breaks no rule and is of the present version, or
//! tells why it isn't so; `of_load` tells a fault of loading.
#![tactic(auto)]

mod books;
mod loads;

pub use books::{as_refusal, present, present_book};
pub use loads::of_load;
