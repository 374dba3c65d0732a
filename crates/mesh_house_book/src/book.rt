// The book of a warehouse: the moment, the snapshots, the versions and the environments.
use crate::versions::Versions;
use mesh_base::{Envs, Snapshots};
use mesh_list::{Duplicate, Memory, Same, both};

/// The version of a new book.
pub const BOOK_VERSION: u32 = 2;

/// The version before it.
pub const OLD_VERSION: u32 = 1;

/// What a warehouse records beside its tables and views. `version` is that of the fingerprints: they are those of the
/// canonical text that names an incremental model's lookback from 2 on, and before it of a text without one. `moment`
/// is in seconds since 1970-01-01T00:00:00 UTC. Any lists make a book; `book_fault` tells whether it is a well-formed
/// one.
pub struct Book {
    pub version: u32,
    pub moment: i64,
    pub snapshots: Snapshots,
    pub versions: Versions,
    pub environments: Envs,
}

impl Drop for Book {
    fn drop(self) {
        let Book {
            version: _,
            moment: _,
            snapshots: _,
            versions: _,
            environments: _,
        } = self;
    }
}

impl Duplicate for Book {
    fn copy(&self) -> Result<Book, Memory> {
        let snapshots = self.snapshots.copy()?;
        let (versions, environments) = both(&self.versions, &self.environments)?;
        Ok(Book {
            version: self.version,
            moment: self.moment,
            snapshots,
            versions,
            environments,
        })
    }
}

impl Same for Book {
    fn same(&self, other: &Book) -> bool {
        self.version == other.version
            && self.moment == other.moment
            && self.snapshots.same(&other.snapshots)
            && self.versions.same(&other.versions)
            && self.environments.same(&other.environments)
    }
}
