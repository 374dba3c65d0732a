//! The line that is printed for a fault: `FILE:AT: TEXT` and a line feed. Its contract: `fault_line` gives exactly
//! the line that the definition has.

mod kinds;
mod line;
mod pieces;

pub use line::fault_line;
pub use pieces::{name_text, put, put_name, put_number};
