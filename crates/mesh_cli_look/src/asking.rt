//! The commands that only look: `fetchdf` prints the rows of a query over an environment's models, and `evaluate`
//! those of one model for some days. Its contract: each command answers exactly the text that its definition has for
//! the world that the house tells, or the first refusal of it, and changes nothing.

mod books;
mod evaluated;
mod fetched;
mod printed;
mod words;

pub use evaluated::evaluate;
pub use fetched::fetchdf;
