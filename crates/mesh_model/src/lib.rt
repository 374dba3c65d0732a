//! The files of models. Its contract: `read_model` gives what the definition `model_of` says of a file's tokens: the
//! MODEL statement, the query behind it and what follows from absent properties, or the first fault of the text. The
//! query is read as `mesh_query` promises.
#![tactic(auto)]

mod behind;
mod finished;
mod laws;
mod lexed;
mod model;
mod read;

pub use laws::models_are_complete;
pub use lexed::{Lexed, read_tokens};
pub use read::read_model;
