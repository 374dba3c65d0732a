//! What the parts of a canonical text begin with: words, heads of nodes, numbers and texts, read at the front of some
//! bytes. Its contract: each function gives what `specs/Words.antt` says, and what is left behind it.
#![tactic(auto)]

mod fault;
mod heads;
mod words;

pub use fault::CanonFault;
pub use heads::{
    CellHead, Head, aggregate, any_head, cell_head, column_type, distinct, func, grouped, join,
    macro_var, type_then, unit,
};
pub use words::{after, day, expect, number, signed, text, text_then};
