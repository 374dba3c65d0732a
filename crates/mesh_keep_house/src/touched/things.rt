// The things of a world that have records.
use mesh_base::Ref;
use mesh_base_values::{Name, Str};
use mesh_list::Seq;

/// A thing of a world, by its key.
pub enum Thing {
    /// What a book has besides its lists.
    Head,
    Snapshot(Ref),
    Version(Name),
    Env(Str),
    View(Name),
    Object(Name),
    Source(Name),
}

impl Drop for Thing {
    fn drop(self) {
        match self {
            Thing::Head
            | Thing::Snapshot(_)
            | Thing::Version(_)
            | Thing::Env(_)
            | Thing::View(_)
            | Thing::Object(_)
            | Thing::Source(_) => {}
        }
    }
}

pub type Things = Seq<Thing>;
