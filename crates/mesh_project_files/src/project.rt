// What the files of a project say.
use mesh_base::Externals;
use mesh_base_values::Seed;
use mesh_list::Seq;
use mesh_model_statement::model::ModelText;

/// A model's file, and the seed that a SEED names.
pub struct ModelFile {
    pub text: ModelText,
    pub seed: Option<Seed>,
}

impl Drop for ModelFile {
    fn drop(self) {
        let ModelFile { text: _, seed: _ } = self;
    }
}

/// The declared sources, and the models in the order of their paths' bytes.
pub struct ProjectFiles {
    pub sources: Externals,
    pub models: Seq<ModelFile>,
}

impl Drop for ProjectFiles {
    fn drop(self) {
        let ProjectFiles {
            sources: _,
            models: _,
        } = self;
    }
}
