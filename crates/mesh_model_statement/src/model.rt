//! What a model's file says: the type alone, so that names and types can be resolved without the readers of text.

mod model;

pub use model::ModelText;
