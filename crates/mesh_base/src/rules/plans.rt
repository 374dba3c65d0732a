// What a command will do to an environment.
use crate::rules::projects::Project;
use crate::{Dues, Entries, Forgets};
use mesh_base_values::{Pairs, Str};

/// What a command will do to an environment at a moment. `run` computes what the environment lists, and plans no
/// change of it. `entries` has one entry for each node of the project. A pair of `removed` is a model that goes and a
/// name that has the word of its kind as its model part; one of `unsteady` is a model and one that it reads. What
/// `forgets` has is forgotten before anything is computed.
pub struct Plan {
    pub env: Str,
    pub moment: i64,
    pub run: bool,
    pub project: Project,
    pub entries: Entries,
    pub removed: Pairs,
    pub unsteady: Pairs,
    pub dues: Dues,
    pub forgets: Forgets,
}

impl Drop for Plan {
    fn drop(self) {
        let Plan {
            env: _,
            moment: _,
            run: _,
            project: _,
            entries: _,
            removed: _,
            unsteady: _,
            dues: _,
            forgets: _,
        } = self;
    }
}
