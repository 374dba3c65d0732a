// A model's file, read but for what follows from absent properties.
use mesh_model_statement::Parts;
use mesh_query_grammar::surface::Surface;

/// The properties of a statement, and the query behind it.
#[derive(Drop)]
pub struct Whole {
    pub parts: Parts,
    pub query: Option<Surface>,
}
