//! MODEL statements. Its contract: `read_statement` gives exactly what the definition `statement` says of the tokens
//! of a model's file: the properties up to the semicolon, or the first fault among them. A seed's path is one of the
//! project.
//! The module `model` has what a model's file says, as a type.
#![tactic(auto)]

mod faults;
mod forms;
mod kinds;
mod laws;
mod look;
pub mod model;
mod parts;
mod properties;
mod values;
mod words;

pub use faults::{bad, outside, unknown};
pub use kinds::{KindText, first_at};
pub use laws::{lookbacks_are_short, names_have_schemas, the_rest_stands_behind};
pub use look::{is_word, word};
pub use parts::Parts;
pub use properties::{begins, end_of, expect, read_statement, value_size};
pub use words::is_one_of;
