//! A word from which many workers draw the numbers of their units. Its contract: each step keeps the rule `Claims`,
//! so that no number is drawn twice, and a seat that has all parts of the word knows that none was left out.

mod claimed;
mod laws;
mod seats;

pub use claimed::Claimed;
pub use laws::numbers_are_drawn_once;
pub use seats::{ClaimSeat, ClaimTable, absorb, another, draw, drawn_so_far, table};
