//! The containers that every crate of `mesh` keeps its values in, and the laws of lists that they rest on. It knows
//! no word of SQL. A `Seq` is a list, a `Boxed` is the value in it, a `Sorted` is a list in strictly ascending order
//! of its keys, a `Register` a list in any order that is looked up by a key; `Duplicate` copies to an equal value and
//! `Same` tells exactly whether two values are equal.
#![tactic(auto)]

mod boxes;
mod compared;
mod copies;
mod keyed;
mod made;
mod memory;
mod places;
mod registers;
mod same;
mod seqs;

pub use boxes::Boxed;
pub use copies::{Duplicate, both, together};
pub use keyed::{Keyed, Sorted};
pub use made::push_made;
pub use memory::Memory;
pub use registers::Register;
pub use same::{Same, are_same};
pub use seqs::Seq;
